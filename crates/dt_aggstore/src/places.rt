//! Places for the parts of a key, side by side.
ghost use Rattle.std.specs.Prelude.{◌≡◌, ◌≤◌, length, map, IfOk, IfSome};
ghost use Rattle.dt_aggstore.specs.EntryNames.{key_of_row};
ghost use Rattle.dt_aggstore.specs.Keys.{key_cmp, same_key};
ghost use Rattle.dt_aggstore.specs.Shares.{parts_told};
ghost use Rattle.dt_aggstore.specs.declared.key.KeyPart.TheVariants.{Number};
ghost use Rattle.dt_aggstore.specs.declared.limits.TheConstants.{KEYS_MAX};

use crate::key::{Key, KeyPart};
use crate::limits::KEYS_MAX;
use crate::part_share::PartShare;
use crate::recent_texts::RecentTexts;
use crate::row::RowKey;
use arrayvec::ArrayVec;
use std::alloc::{AllocError, Global};
use std::cmp::Ordering;

/// Puts the parts of a key into their places, and nothing into the later ones.
#[inline(always)]
pub(crate) fn put_parts<'a>(places: &mut [PartShare<'a>], key: &'a Key, texts: &mut RecentTexts<'a>)
    requires { length key.now.parts.items ≤ length places.old }
    ensures key { parts_told places.new ≡ key.now.parts.items }
    ensures long { length places.new ≡ length places.old }
{
    for place in 0..places.len() {
        places[place] = match key.parts.as_slice().get(place) {
            Some(part) => PartShare::of(part, texts),
            None => PartShare::Nothing,
        };
    }
}

/// How keys are ordered, each with as many places.
#[inline(always)]
pub(crate) fn order(one: &[PartShare<'_>], other: &[PartShare<'_>]) -> Ordering
    requires { length one.now ≡ length other.now }
    ensures { result ≡ key_cmp (parts_told one.now) (parts_told other.now) }
{
    for place in 0..one.len() {
        let order = one[place].order(&other[place]);
        if order.is_ne() || one[place].is_nothing() {
            return order;
        }
    }
    Ordering::Equal
}

/// Whether two keys are the same, each with as many places.
#[inline(always)]
pub(crate) fn are_same(one: &[PartShare<'_>], other: &[PartShare<'_>]) -> bool
    requires { length one.now ≡ length other.now }
    ensures { result ≡ same_key (parts_told one.now) (parts_told other.now) }
{
    order(one, other).is_eq()
}

/// A key for a row of its own. `Err`: there was no memory for it.
#[inline(always)]
pub(crate) fn row_key(alloc: Global, parts: &[PartShare<'_>]) -> Result<RowKey, AllocError>
    requires { length parts.now ≤ KEYS_MAX }
    ensures { IfOk result (λ key. key_of_row key ≡ parts_told parts.now) }
{
    match numbers(parts) {
        Some(numbers) => Ok(RowKey::Numbers(numbers)),
        None => Ok(RowKey::Parts(all_parts(alloc, parts)?)),
    }
}

/// The parts of a key, if they are all numbers.
#[inline(always)]
fn numbers(parts: &[PartShare<'_>]) -> Option<ArrayVec<i64, KEYS_MAX>>
    requires { length parts.now ≤ KEYS_MAX }
    ensures { IfSome result (λ numbers. map Number numbers.items ≡ parts_told parts.now) }
{
    let mut numbers = ArrayVec::new();
    for place in 0..parts.len() {
        match parts[place] {
            PartShare::Number(number) => numbers.push(number),
            PartShare::Nothing => return Some(numbers),
            PartShare::Text(_) => return None,
        }
    }
    Some(numbers)
}

/// The parts of a key. `Err`: there was no memory for them.
#[inline(never)]
fn all_parts(alloc: Global, places: &[PartShare<'_>]) -> Result<Vec<KeyPart>, AllocError>
    ensures { IfOk result (λ parts. parts.items ≡ parts_told places.now) }
{
    let room = places.iter().filter(|part| !part.is_nothing()).count();
    let mut parts = Vec::with_capacity(alloc, room)?;
    for place in 0..places.len() {
        match places[place] {
            PartShare::Number(number) => parts.push(KeyPart::Number(number))?,
            PartShare::Text(text) => parts.push(KeyPart::Text(*text))?,
            PartShare::Nothing => return Ok(parts),
        }
    }
    Ok(parts)
}
