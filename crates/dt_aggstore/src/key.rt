//! Aggregations and their keys.
ghost use Rattle.std.specs.Prelude.{◌≡◌, ◌≤◌, ◌*◌};

use crate::limits::KEYS_MAX;
use arrayvec::ArrayVec;
use dt_aggfn::AggFn;
use std::hash::{Hash, Hasher};

/// An aggregation: its number in the consumer and its function. Two that differ in either are two.
#[derive(Clone, Copy, Debug, PartialEq, Eq)]
pub struct Aggregation {
    pub number: usize,
    pub function: AggFn,
}

/// A part of a key. Numbers come before texts, numbers by size and texts by their bytes.
#[derive(Clone, Copy, Debug, PartialEq, Eq, PartialOrd, Ord)]
pub enum KeyPart {
    Number(i64),
    /// A text has 32 bytes, filled with zeros.
    Text([u8; 32]),
}

/// What an entry of an aggregation is found by: at most [`KEYS_MAX`] parts, or none.
#[derive(PartialEq, Eq, Hash, Drop)]
pub struct Key {
    pub parts: ArrayVec<KeyPart, KEYS_MAX>,
}

impl Default for KeyPart {
    ghost use Rattle.std.specs.Prelude.{pos};
    ghost use Rattle.dt_aggstore.specs.declared.key.KeyPart.TheVariants.{Number};

    ghost is_default = { λ part. part ≡ Number (pos 0) };

    /// The number 0.
    fn default() -> Self {
        KeyPart::Number(0)
    }
}

impl Hash for KeyPart {
    ghost use Rattle.std.proofs.Common.{rules};
    ghost use Rattle.std.specs.Cmp.Rules.{hashing};
    ghost use Rattle.dt_aggstore.specs.Fed.{part_fed};

    ghost hash_input = { part_fed };

    ghost respects_eq = { Prim.search (hashing, rules) };

    /// A text at once, and not byte by byte.
    fn hash<H: Hasher>(&self, state: &mut H) {
        match self {
            KeyPart::Number(number) => number.hash(state),
            KeyPart::Text(bytes) => state.write(bytes),
        }
    }
}

impl Hash for Aggregation {
    ghost use Rattle.std.proofs.Common.{rules};
    ghost use Rattle.std.specs.Hash as fed;
    ghost use Rattle.std.specs.Cmp.Rules.{hashing};

    ghost hash_input = { λ a. fed.usize a.number };

    ghost respects_eq = { Prim.search (hashing, rules) };

    /// By its number alone: in a consumer a number has one function.
    fn hash<H: Hasher>(&self, state: &mut H) {
        self.number.hash(state);
    }
}

impl Aggregation {
    ghost use Rattle.dt_aggstore.specs.Keys.{same_aggregation};

    /// Whether both are one aggregation.
    pub(crate) fn is(self, other: Aggregation) -> bool
        ensures { result ≡ same_aggregation self other }
    {
        self == other
    }
}

impl Key {
    ghost use Rattle.dt_aggstore.specs.Keys.{same_key, key_words};

    /// Whether both have the same parts.
    pub(crate) fn is(&self, other: &Key) -> bool
        ensures { result ≡ same_key self.now.parts.items other.now.parts.items }
    {
        self.parts.as_slice() == other.parts.as_slice()
    }

    /// How many words its parts take: a number one, a text four.
    pub(crate) fn words(&self) -> usize
        ensures words { result ≡ key_words self.now.parts.items }
        ensures few { result ≤ 4 * KEYS_MAX }
    {
        let mut words = 0;
        for part in self.parts.as_slice() {
            words += match part {
                KeyPart::Number(_) => 1,
                KeyPart::Text(_) => 4,
            };
        }
        words
    }
}
