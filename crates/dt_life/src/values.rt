//! The values that a clause gives to aggregations: keys and numbers, one after another.
ghost use Rattle.std.specs.Prelude.{◌≡◌, ◌≤◌, drop, length, take};
ghost use Rattle.dt_aggstore.specs.declared.limits.TheConstants.{KEYS_MAX};
ghost use Rattle.dt_life.specs.Aggregations as spec;
ghost use Rattle.dt_life.specs.Aggregations.{key_at, number_at};

use arrayvec::ArrayVec;
use dt_aggstore::{KEYS_MAX, KeyPart};
use dt_expr::Value;

/// So many parts of a key, from a place on among some values.
pub fn parts_at(values: &[Value], place: usize, count: usize) -> ArrayVec<KeyPart, KEYS_MAX>
    requires { count ≤ KEYS_MAX }
    ensures { result.items ≡ key_at count (drop place values.now) }
{
    let mut parts = ArrayVec::new();
    put_parts(&mut parts, values, place, count);
    parts
}

/// The same, in place of what these parts were.
pub fn put_parts(
    parts: &mut ArrayVec<KeyPart, KEYS_MAX>,
    values: &[Value],
    place: usize,
    count: usize,
)
    requires { count ≤ KEYS_MAX }
    ensures { parts.new.items ≡ key_at count (drop place values.now) }
{
    parts.clear();
    for value in cut(values, place, count) {
        parts.push(part_of(*value));
    }
}

/// So many values from a place on, or as many as there are.
fn cut(values: &[Value], place: usize, count: usize) -> &[Value]
    ensures value { result.now ≡ take count (drop place values.now) }
    ensures few { length result.now ≤ count }
{
    let later = &values[place.min(values.len())..];
    &later[..count.min(later.len())]
}

/// The number at a place among some values.
pub fn number_in(values: &[Value], place: usize) -> i64
    ensures { result ≡ number_at values.now place }
{
    match values.get(place) {
        Some(Value::Number(number)) => *number,
        _ => 0,
    }
}

/// A value as a part of a key.
fn part_of(value: Value) -> KeyPart
    ensures { result ≡ spec.part_of value }
{
    match value {
        Value::Number(number) => KeyPart::Number(number),
        Value::Text(text) => KeyPart::Text(text),
    }
}
