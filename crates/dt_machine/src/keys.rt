//! What a value of the file gives under its keys, as one of another kind gives nothing.
ghost use Rattle.std.specs.Prelude.{◌≡◌, ◌^◌, Some, map, option_map, MatchOption};
ghost use Rattle.serde_json.specs.View.{view};
ghost use Rattle.dt_machine.specs.Given.{items, unsigned_at, text_of, text_at, items_of, items_at, list_at};
ghost use Rattle.dt_machine.specs.Rows.{IsGivenBelow, number_in};

use serde_json::Value;

/// The items, where a value is a list.
pub(crate) fn items(value: &Value) -> Option<&[Value]>
    ensures { option_map (λ list. map view list.now) result ≡ items (view value.now) }
{
    match value.as_array() {
        Some(list) => Some(list.as_slice()),
        None => None,
    }
}

/// The items of a list, and none of any other value.
pub(crate) fn items_of(value: &Value) -> &[Value]
    ensures { map view result.now ≡ items_of (view value.now) }
{
    match items(value) {
        Some(list) => list,
        None => &[],
    }
}

/// The items of the list under a key, where there is such a list.
pub(crate) fn items_at<'v>(value: &'v Value, key: &str) -> Option<&'v [Value]>
    ensures { option_map (λ list. map view list.now) result ≡ items_at key.now (view value.now) }
{
    match value.get(key) {
        Some(found) => items(found),
        None => None,
    }
}

/// The items of the list under a key, and none where there is no such list.
pub(crate) fn list_at<'v>(value: &'v Value, key: &str) -> &'v [Value]
    ensures { map view result.now ≡ list_at key.now (view value.now) }
{
    match value.get(key) {
        Some(found) => items_of(found),
        None => &[],
    }
}

/// The text, and the empty one of any other value.
pub(crate) fn text_of(value: &Value) -> &str
    ensures { result.now ≡ text_of (view value.now) }
{
    match value.as_str() {
        Some(text) => text,
        None => "",
    }
}

/// The text under a key, or `other` where the key is not there.
pub(crate) fn text_at<'v>(value: &'v Value, key: &str, other: &'static str) -> &'v str
    ensures { result.now ≡ text_at key.now other.now (view value.now) }
{
    match value.get(key) {
        Some(found) => text_of(found),
        None => other,
    }
}

/// The number under a key, or `other` where the key is not there. A negative number is `None`.
pub(crate) fn unsigned_at(value: &Value, key: &str, other: Option<u64>) -> Option<u64>
    ensures { result ≡ unsigned_at key.now other (view value.now) }
{
    match value.get(key) {
        Some(found) => found.as_u64(),
        None => other,
    }
}

/// A number of 32 bits.
pub(crate) fn u32_of(number: Option<u64>) -> Option<u32>
    ensures { MatchOption result (IsGivenBelow (2 ^ 32) number → ⊥)
        (λ found. IsGivenBelow (2 ^ 32) number × (found ≡ number_in number)) }
{
    match number {
        Some(number) if number <= 0xffff_ffff => Some(number as u32),
        _ => None,
    }
}
