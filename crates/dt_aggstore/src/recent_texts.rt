//! Texts that keys have in common.
ghost use Rattle.std.specs.Prelude.{◌≡◌, ◌<◌, ◌≤◌, length};

use crate::limits::{RECENT_TEXTS_MAX, RECENT_TEXTS_MIN};
use std::alloc::Global;
use std::hash::{FoldHasher, Hasher};

/// A text that no key needs to have.
static NO_TEXT: [u8; 32] = [0; 32];

/// Texts that were met last, each where its hash says. Where many keys have few texts, what refers to those refers to one
/// copy of each, and who compares them reads no memory that lies far apart.
#[derive(Drop)]
pub(crate) struct RecentTexts<'a> {
    /// Empty until the first text is met.
    texts: Vec<&'a [u8; 32]>,
    /// For how many texts there is to be a place.
    places: usize,
}

impl<'a> RecentTexts<'a> {
    /// None that was met, where the stores have so many entries. It takes no memory yet.
    pub(crate) fn new(alloc: Global, entries: usize) -> Self {
        RecentTexts {
            texts: Vec::new(alloc),
            places: entries.clamp(RECENT_TEXTS_MIN, RECENT_TEXTS_MAX),
        }
    }

    /// The same text: the copy that is remembered, or else this one, which is remembered from then on in its place. Where there
    /// is no memory for the places, none is remembered.
    pub(crate) fn shared(&mut self, text: &'a [u8; 32]) -> &'a [u8; 32]
        ensures { result.now ≡ text.now }
    {
        let places = self.places_made();
        if places == 0 {
            return text;
        }
        let place = place_of(text, places);
        let met = self.texts[place];
        if *met == *text {
            return met;
        }
        self.texts[place] = text;
        text
    }

    /// How many places there are, once they are made. Where there is no memory for them there is none, and it isn't asked for again.
    #[inline(always)]
    fn places_made(&mut self) -> usize
        ensures { result ≤ length self.new.texts.items }
    {
        if self.texts.is_empty() && self.texts.resize(self.places, &NO_TEXT).is_err() {
            self.places = 0;
            return 0;
        }
        self.texts.len()
    }
}

/// Where a text is looked for, of so many places.
fn place_of(text: &[u8; 32], places: usize) -> usize
    requires { 0 < places }
    ensures { result < places }
{
    let mut hasher = FoldHasher::default();
    hasher.write(text);
    hasher.finish() as usize % places
}
