//! Sets of probes.
ghost use Rattle.std.specs.Prelude.{◌≡◌, ◌==◌, ℕ, ◌<◌, ◌≤◌, true, false, if◌then◌else◌};
ghost use Rattle.dt_machine.specs.BitWord.{has_in};
ghost use Rattle.dt_machine.specs.declared.interest.TheConstants.{INTEREST_WORDS};
ghost use Rattle.dt_machine.specs.declared.limits.TheConstants.{PROBE_ID_MAX};

use crate::bit_word::{BitWord, WORD_BITS};
use crate::limits::PROBE_ID_MAX;

/// How many words a set of probes has: a bit for each identifier from 0 on.
pub const INTEREST_WORDS: usize = (PROBE_ID_MAX / WORD_BITS + 1) as usize;

const _: () = prove!(PROBE_ID_MAX < INTEREST_WORDS as u32 * WORD_BITS);

/// A set of probes, by their identifiers. It lies in the value itself, in 520 bytes.
///
/// Contracts ask it by `has_probe interest id`, or see it as a flag for each identifier (`flags_of`).
#[derive(Clone, Copy)]
pub struct Interest {
    pub(crate) words: [BitWord; INTEREST_WORDS],
    ghost bounded: { (id : ℕ) → PROBE_ID_MAX < id → has_in words id ≡ false },
}

impl Interest {
    ghost use Rattle.dt_machine.specs.Interest.{has_probe, word_of_set};

    /// The empty set.
    pub fn new() -> Self
        ensures { (id : ℕ) → has_probe result id ≡ false }
    {
        Interest {
            words: [BitWord::new(); INTEREST_WORDS],
        }
    }

    /// Takes one probe in, which may be in already.
    pub fn insert(&mut self, id: u32)
        requires { id ≤ PROBE_ID_MAX }
        ensures { (other : ℕ) → has_probe self.new other ≡ (if other == id then true else has_probe self.old other) }
    {
        self.words[(id / WORD_BITS) as usize].insert(id % WORD_BITS);
    }

    /// Whether a probe is in the set. No probe above [`PROBE_ID_MAX`] is.
    pub fn contains(&self, id: u32) -> bool
        ensures value { result ≡ has_probe self.now id }
        ensures bounded { (other : ℕ) → PROBE_ID_MAX < other → has_probe self.now other ≡ false }
    {
        match self.words.get((id / WORD_BITS) as usize) {
            Some(word) => word.contains(id % WORD_BITS),
            None => false,
        }
    }

    /// The 64 identifiers from `64 * at` on, as the numbers from 0 on: so a set is gone through word by word.
    pub fn word(&self, at: usize) -> BitWord
        requires { at < INTEREST_WORDS }
        ensures value { result ≡ word_of_set self.now at }
        ensures bounded { (id : ℕ) → PROBE_ID_MAX < id → has_probe self.now id ≡ false }
    {
        self.words[at]
    }
}
