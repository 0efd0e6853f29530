//! The elements of a set.

ghost use Rattle.std.specs.Prelude.{◌≡◌, ◌<◌, ◌↔◌, List, [], length, IsTrue, IfSome, IfNone};
ghost use Rattle.dt_glob.specs.declared.element.Element.{Element};
ghost use Rattle.dt_glob.specs.PatternItem.{Holds, HoldsAny};
ghost use Rattle.dt_glob.specs.Token.{ShowsElements, ReadsElement};

use crate::sign::{PatternSign, strip_byte};

/// An element of a set.
#[derive(Clone, Copy)]
pub(crate) enum Element {
    /// One byte.
    Single(u8),
    /// All bytes from the first to the last, both included.
    Range { first: u8, last: u8 },
}

impl Element {
    /// The element at the front of a set's inside, and what stands after it.
    pub(crate) fn split_first(text: &[u8]) -> Option<(Element, &[u8])>
        requires { (elements : List Element) × ShowsElements text.now elements }
        ensures some { IfSome result (λ found. (elements : List Element) → ShowsElements text.now elements →
            ReadsElement found.0 elements found.1.now) }
        ensures shorter { IfSome result (λ found. length found.1.now < length text.now) }
        ensures none { IfNone result (text.now ≡ []) }
    {
        let (first, rest) = PatternSign::split_first(text)?;
        let single = Element::Single(first.byte());
        // where an element begins, a plain `-` is the byte itself and begins no range
        if first.is_plain(b'-') {
            return Some((single, rest));
        }
        // only a `-` after the byte makes a range of it
        let Some(behind) = strip_byte(rest, b'-') else {
            return Some((single, rest));
        };
        match PatternSign::split_first(behind) {
            Some((last, rest)) => {
                let range = Element::Range {
                    first: first.byte(),
                    last: last.byte(),
                };
                Some((range, rest))
            }
            None => Some((single, rest)),
        }
    }

    /// Whether the element holds the byte.
    pub(crate) fn holds(self, byte: u8) -> bool
        ensures { IsTrue result ↔ Holds self byte }
    {
        match self {
            Element::Single(own) => byte == own,
            Element::Range { first, last } => first <= byte && byte <= last,
        }
    }
}

/// Whether some element of a set's inside holds the byte.
pub(crate) fn some_element_holds(inside: &[u8], byte: u8) -> bool
    requires { (elements : List Element) × ShowsElements inside.now elements }
    ensures { (elements : List Element) → ShowsElements inside.now elements →
        (IsTrue result ↔ HoldsAny elements byte) }
{
    let mut rest = inside;
    while let Some((element, behind)) = Element::split_first(rest) {
        // one element that holds the byte puts it into the set, whatever the others hold
        if element.holds(byte) {
            return true;
        }
        rest = behind;
    }
    false
}
