//! The words of a step line: numbers, and what stands behind a blank.
ghost use Rattle.std.specs.Prelude.{◌≡◌, ◌≢◌, ℕ, ◌^◌, ◌<◌, ◌++◌, List, codes, IfSome, IfNone, decimal};
ghost use Rattle.dt_chain.specs.declared.seat.TheConstants.{SEATS};
ghost use Rattle.dt_world.specs.Words.{IsCutAtBlank, HasNoBlank};

use dt_chain::Seat;
use dt_proto::number_of;

/// What stands behind a word, where the text begins with it.
pub(crate) fn after_word<'a>(text: &'a [u8], word: &[u8]) -> Option<&'a [u8]>
    ensures found { IfSome result (λ rest. text.now ≡ word.now ++ rest.now) }
    ensures none { IfNone result ((rest : List ℕ) → text.now ≢ word.now ++ rest) }
{
    text.strip_prefix(word)
}

/// The number in front of the first blank, and what stands behind that blank.
pub(crate) fn number_and_rest(text: &[u8]) -> Option<(u32, &[u8])>
    ensures found { IfSome result (λ read. (read.0 < 2 ^ 32)
        × (text.now ≡ decimal read.0 ++ (codes " " ++ read.1.now))) }
    ensures none { IfNone result ((number : ℕ) (rest : List ℕ) → number < 2 ^ 32
        → text.now ≢ decimal number ++ (codes " " ++ rest)) }
{
    let (digits, rest) = cut_at_blank(text)?;
    let number = number_of(digits)?;
    Some((number, rest))
}

/// The seat in front of the first blank, and what stands behind that blank.
pub(crate) fn seat_and_rest(text: &[u8]) -> Option<(Seat, &[u8])>
    ensures found { IfSome result (λ read. (read.0 < SEATS)
        × (text.now ≡ decimal read.0 ++ (codes " " ++ read.1.now))) }
    ensures none { IfNone result ((seat : ℕ) (rest : List ℕ) → seat < SEATS
        → text.now ≢ decimal seat ++ (codes " " ++ rest)) }
{
    let (digits, rest) = cut_at_blank(text)?;
    let seat = seat_of(digits)?;
    Some((seat, rest))
}

/// The seat whose number decimal digits write, without a leading zero.
pub(crate) fn seat_of(digits: &[u8]) -> Option<Seat>
    ensures found { IfSome result (λ seat. (seat < SEATS) × (digits.now ≡ decimal seat)) }
    ensures none { IfNone result ((seat : ℕ) → seat < SEATS → digits.now ≢ decimal seat) }
{
    Seat::new(number_of(digits)?)
}

/// The two numbers after a word, one blank apart, where nothing else stands: decimal, without a sign or a leading zero, and below 2^32. Any other text
/// gives `None`. It takes no memory.
pub fn two_numbers(text: &[u8], word: &[u8]) -> Option<(u32, u32)>
    ensures found { IfSome result (λ read. (read.0 < 2 ^ 32) × (read.1 < 2 ^ 32)
        × (text.now ≡ word.now ++ (decimal read.0 ++ (codes " " ++ decimal read.1)))) }
    ensures none { IfNone result ((first second : ℕ) → first < 2 ^ 32 → second < 2 ^ 32
        → text.now ≢ word.now ++ (decimal first ++ (codes " " ++ decimal second))) }
{
    let (first, rest) = number_and_rest(after_word(text, word)?)?;
    let second = number_of(rest)?;
    Some((first, second))
}

/// What stands in front of the first blank, and what stands behind it.
fn cut_at_blank(text: &[u8]) -> Option<(&[u8], &[u8])>
    ensures found { IfSome result (λ parts. IsCutAtBlank text.now parts.0.now parts.1.now) }
    ensures none { IfNone result (HasNoBlank text.now) }
{
    let at = text.iter().position(|byte| *byte == b' ')?;
    Some((&text[..at], &text[at + 1..]))
}
