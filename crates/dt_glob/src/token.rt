//! The items of a pattern, as they are read off its text.

ghost use Rattle.std.specs.Prelude.{◌≡◌, ℕ, ◌<◌, ◌↔◌, Bool, List, [], length, IsTrue, IfSome, IfNone};
ghost use Rattle.dt_glob.specs.declared.element.Element.{Element};
ghost use Rattle.dt_glob.specs.PatternItem.{PatternItem, OneOf, Takes};
ghost use Rattle.dt_glob.specs.Spells.{Spells};
ghost use Rattle.dt_glob.specs.Token.{IsToken, ReadsToken, BeginsSet, ClosesAt};

use crate::element::some_element_holds;
use crate::sign::{PatternSign, strip_byte};

/// An item of a pattern, with the elements of a set left in the text.
#[derive(Clone, Copy)]
pub(crate) enum PatternToken<'a> {
    /// `*`: any text.
    Star,
    /// `?`: any one byte.
    AnyByte,
    /// This byte.
    Literal(u8),
    /// One byte that some element holds, or where negated one that none holds.
    OneOf { negated: bool, elements: &'a [u8] },
}

impl<'a> PatternToken<'a> {
    /// The item at the front of a pattern's text, and what stands after it.
    pub(crate) fn split_first(text: &'a [u8]) -> Option<(PatternToken<'a>, &'a [u8])>
        requires { (items : List PatternItem) × Spells text.now items }
        ensures some { IfSome result (λ found. (items : List PatternItem) → Spells text.now items →
            ReadsToken found.0 items found.1.now) }
        ensures shorter { IfSome result (λ found. length found.1.now < length text.now) }
        ensures none { IfNone result (text.now ≡ []) }
    {
        let (sign, rest) = PatternSign::split_first(text)?;
        match sign {
            PatternSign::Plain(b'*') => Some((PatternToken::Star, rest)),
            PatternSign::Plain(b'?') => Some((PatternToken::AnyByte, rest)),
            PatternSign::Plain(b'[') => Some(PatternToken::split_set(rest)),
            _ => Some((PatternToken::Literal(sign.byte()), rest)),
        }
    }

    /// Whether the item takes this one byte. A star takes none by itself.
    pub(crate) fn takes(&self, byte: u8) -> bool
        requires { (item : PatternItem) × IsToken self.now item }
        ensures { (item : PatternItem) → IsToken self.now item → (IsTrue result ↔ Takes item byte) }
    {
        match *self {
            PatternToken::Star => false,
            PatternToken::AnyByte => true,
            PatternToken::Literal(own) => byte == own,
            PatternToken::OneOf { negated, elements } => some_element_holds(elements, byte)
                != negated,
        }
    }

    /// The set whose `[` stands in front of a text, and what stands after its `]`.
    fn split_set(text: &'a [u8]) -> (PatternToken<'a>, &'a [u8])
        requires { (negated : Bool) × (elements : List Element) × (behind : List ℕ) ×
            BeginsSet text.now negated elements behind }
        ensures set { (negated : Bool) (elements : List Element) (behind : List ℕ) →
            BeginsSet text.now negated elements behind →
            IsToken result.0 (OneOf negated elements) × (result.1.now ≡ behind) }
        ensures shorter { length result.1.now < length text.now }
    {
        let (inside, rest) = split_at_closing(text);
        match strip_byte(inside, b'!') {
            Some(elements) => (
                PatternToken::OneOf {
                    negated: true,
                    elements,
                },
                rest,
            ),
            None => (
                PatternToken::OneOf {
                    negated: false,
                    elements: inside,
                },
                rest,
            ),
        }
    }
}

/// What stands before the first plain `]` of a text, and what stands after it.
fn split_at_closing(text: &[u8]) -> (&[u8], &[u8])
    requires { (inside : List ℕ) × (behind : List ℕ) × ClosesAt text.now inside behind }
    ensures split { ClosesAt text.now result.0.now result.1.now }
    ensures shorter { length result.1.now < length text.now }
{
    let mut inside = 0;
    let mut rest = text;
    while let Some((sign, behind)) = PatternSign::split_first(rest) {
        // the first plain `]` ends the set: an escaped one is a byte of it
        if sign.is_plain(b']') {
            return (&text[..inside], behind);
        }
        inside = text.len() - behind.len();
        rest = behind;
    }
    unreachable!()
}
