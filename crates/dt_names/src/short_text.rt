//! Short texts, which lie in the value itself as a record shows them.
ghost use Rattle.std.specs.Prelude.{◌≡◌, ◌-◌, ◌≤◌, ◌↔◌, ◌++◌, IsSome, IfSome, length, replicate};

use std::marker::Model;

/// The most bytes that a [`ShortText`] holds.
pub const SHORT_TEXT_MAX: usize = 31;

/// The bytes that a [`ShortText`] takes in a record: its own, and at least one zero after them.
pub const PADDED_SIZE: usize = SHORT_TEXT_MAX + 1;

/// A text of at most 31 bytes, which lie in the value itself.
///
/// It is kept as a record shows it: 32 bytes, of which those after the text are zero. So a copy takes no memory,
/// and neither does [`padded`](ShortText::padded). Contracts see a `ShortText` as the list of its bytes.
#[derive(Clone, Copy, PartialEq, Eq)]
pub struct ShortText {
    padded: [u8; PADDED_SIZE],
    len: usize,
}

impl Model for ShortText {
    ghost use Rattle.std.specs.Prelude.{ℕ, ◌-◌, ◌++◌, List, length, take, replicate};
    ghost use Rattle.dt_names.specs.ShortText.{IsPadded, cells-from_shown, length-shown};
    ghost use Rattle.dt_names.specs.declared.short_text.TheConstants.{PADDED_SIZE};

    ghost Value = { List ℕ };

    ghost view = { λ t. take t.len t.padded };

    ghost invariant = { λ t. IsPadded t.padded t.len };

    ghost inverse = { λ xs. record { padded = xs ++ replicate (PADDED_SIZE - length xs) 0; len = length xs } };

    ghost inverse_ok = { λ t h i. record {
      padded = cells-from_shown t.padded t.len h i;
      len = length-shown t.padded t.len h i;
    } };
}

impl ShortText {
    /// The text of these bytes, or `None` where there are more than 31.
    pub fn new(bytes: &[u8]) -> Option<Self>
        ensures fits { IsSome result ↔ (length bytes.now ≤ SHORT_TEXT_MAX) }
        ensures value { IfSome result (λ text. text ≡ bytes.now) }
    {
        // a record shows a text in 32 bytes with a zero after it at least, so a longer one has no room
        if bytes.len() > SHORT_TEXT_MAX {
            return None;
        }
        let mut padded = [0; PADDED_SIZE];
        padded[..bytes.len()].copy_from_slice(bytes);
        Some(ShortText {
            padded,
            len: bytes.len(),
        })
    }

    /// The bytes of the text.
    pub fn as_bytes(&self) -> &[u8]
        ensures value { result.now ≡ self.now }
        ensures fits { length result.now ≤ SHORT_TEXT_MAX }
    {
        &self.padded[..self.len]
    }

    /// The text as a record shows it: its bytes, and zeros up to 32 bytes in all.
    pub fn padded(&self) -> &[u8; PADDED_SIZE]
        ensures { result.now ≡ self.now ++ replicate (PADDED_SIZE - length self.now) 0 }
    {
        &self.padded
    }
}
