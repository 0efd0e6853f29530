//! A pattern made ready to be matched with many texts.

ghost use Rattle.std.specs.Prelude.{◌≡◌, ℕ, ◌+◌, ◌<◌, ◌^◌, ◌↔◌, List, [], IsTrue, slice_index, if◌then◌else◌};
ghost use Rattle.dt_glob.specs.PatternItem.{PatternItem};
ghost use Rattle.dt_glob.specs.Token.{IsToken};
ghost use Rattle.dt_glob.specs.Matches.{Matches};
ghost use Rattle.dt_glob.specs.Test.{takes, is_match};

use crate::pattern::Pattern;
use crate::token::PatternToken;
use std::marker::Model;

/// How many bytes there are.
const BYTES: usize = 256;

/// A pattern made ready to be matched with many texts, each in a few steps for a byte of the text, however many stars
/// there are.
///
/// Of the pattern's items those that take a byte are numbered from 0 on, from the left, and so are the places in front
/// of them and behind the last. Sets of them are kept as the bits of a number.
#[derive(Drop)]
pub struct Matcher<'a> {
    pattern: &'a Pattern,
    /// The items that take a byte, for each byte.
    takers: [u64; BYTES],
    /// The places at which a star stands.
    stars: u64,
    /// The place behind the last item.
    end: u64,
}

impl<'a> Model for Matcher<'a> {
    ghost use Rattle.std.specs.Prelude.{List};
    ghost use Rattle.dt_glob.specs.PatternItem.{PatternItem};
    ghost use Rattle.dt_glob.specs.Ready.{IsMadeReady};

    ghost Value = { List PatternItem };

    ghost view = { λ m. m.pattern.now };

    ghost invariant = { λ m. IsMadeReady m.pattern.now m.takers m.stars m.end };
}

impl<'a> Matcher<'a> {
    /// Makes a pattern ready. It takes no memory, and for each byte of the pattern a few steps for each of the 256 bytes.
    pub fn of(pattern: &'a Pattern) -> Matcher<'a>
        ensures { result ≡ pattern.now }
    {
        let mut takers = [0; BYTES];
        let mut stars = 0;
        let mut place = 1;
        let mut unread = pattern.text();
        while let Some((token, behind)) = PatternToken::split_first(unread) {
            if let PatternToken::Star = token {
                stars |= place;
            } else {
                add_taker(&mut takers, &token, place);
                place *= 2;
            }
            unread = behind;
        }
        Matcher {
            pattern,
            takers,
            stars,
            end: place,
        }
    }

    /// Whether the pattern matches the whole text.
    pub fn matches(&self, text: &[u8]) -> bool
        ensures matches { IsTrue result ↔ Matches self.now text.now }
        ensures test { result ≡ is_match self.now text.now }
    {
        // the places from where the rest of the pattern matches the rest of the text
        let mut places = self.end;
        let mut left = text;
        while let Some((byte, front)) = left.split_last() {
            let taken = (places >> 1) & self.takers[usize::from(*byte)];
            places = taken | (places & self.stars);
            // from no place on, whatever stands in front
            if places == 0 {
                return false;
            }
            left = front;
        }
        places & 1 == 1
    }

    /// Whether this is the pattern of the empty text, which matches the empty text alone.
    pub fn is_empty(&self) -> bool
        ensures { IsTrue result ↔ (self.now ≡ []) }
    {
        self.pattern.is_empty()
    }
}

/// Adds an item that takes a byte, of this number, to those of each byte that it takes.
fn add_taker(takers: &mut [u64; BYTES], token: &PatternToken, place: u64)
    requires token { (item : PatternItem) × IsToken token.now item }
    requires room { (byte : ℕ) → byte < 256 → slice_index takers.old byte + place < 2 ^ 64 }
    ensures { (item : PatternItem) → IsToken token.now item → (byte : ℕ) → byte < 256
        → slice_index takers.new byte ≡ slice_index takers.old byte + (if takes item byte then place else 0) }
{
    for byte in 0..BYTES {
        if token.takes(byte as u8) {
            takers[byte] += place;
        }
    }
}
