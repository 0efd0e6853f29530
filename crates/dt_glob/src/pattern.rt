//! Patterns: read, kept and matched.

ghost use Rattle.std.specs.Prelude.{◌≡◌, ℕ, ◌≤◌, ◌↔◌, ◌⊎◌, List, [], length, IsTrue, IfOk, IfErr, OnOk};
ghost use Rattle.dt_glob.specs.declared.fault.GlobFault.{GlobFault};
ghost use Rattle.dt_glob.specs.PatternItem.{PatternItem};
ghost use Rattle.dt_glob.specs.Matches.{Matches};
ghost use Rattle.dt_glob.specs.Test.{is_match};
ghost use Rattle.dt_glob.specs.Spells.{Spells};
ghost use Rattle.dt_glob.specs.Fault.{FaultOf};

use crate::fault::GlobFault;
use crate::matcher::Matcher;
use crate::place::PatternPlace;
use crate::sign::PatternSign;
use arrayvec::ArrayVec;
use std::marker::Model;

/// The most bytes that a pattern's text may have.
pub const PATTERN_MAX: usize = 63;

/// A pattern: a list of items, which matches the texts that can be cut into pieces that its items match in order.
///
/// | item | matches |
/// |---|---|
/// | `*` | any text, the empty one too |
/// | `?` | any one byte |
/// | `\` and a byte | that byte |
/// | `[`set`]` | one byte in the set |
/// | `[!`set`]` | one byte not in the set |
/// | any other byte | itself |
///
/// A set has bytes and ranges, as in `[a-z_]`: a range is all bytes from its first to its last. Each byte of a set may
/// have a `\` in front of it, and then stands for itself. A `-` is a byte of the set where an element begins and in
/// front of the closing_bracket `]`; elsewhere it makes a range of the bytes beside it.
#[derive(Debug, Drop)]
pub struct Pattern {
    text: ArrayVec<u8, PATTERN_MAX>,
}

impl Model for Pattern {
    ghost use Rattle.std.specs.Prelude.{List};
    ghost use Rattle.dt_glob.specs.PatternItem.{PatternItem};
    ghost use Rattle.dt_glob.specs.Spells.{Spells};
    ghost use Rattle.dt_glob.specs.Reading.{items_of_text};

    ghost Value = { List PatternItem };

    ghost view = { λ p. items_of_text p.text.items };

    ghost invariant = { λ p. Spells p.text.items (items_of_text p.text.items) };
}

impl Pattern {
    /// Reads the pattern that a text of at most 63 bytes spells, and takes no memory. A text that is no pattern has
    /// one fault, the first from the left: `EmptySet` at the `]` of a set without an element, `Unclosed` at the end of
    /// a text whose last set has no `]`, and `LoneEscape` at a `\` that ends the text.
    pub fn parse(text: &[u8]) -> Result<Pattern, GlobFault>
        requires { length text.now ≤ PATTERN_MAX }
        ensures found { IfOk result (λ pattern. Spells text.now pattern) }
        ensures fault { IfErr result (FaultOf text.now) }
    {
        check(text)?;
        let Ok(text) = ArrayVec::try_from(text) else {
            unreachable!()
        };
        Ok(Pattern { text })
    }

    /// Whether the pattern matches the whole text. For many texts make the pattern ready once, with [`Matcher::of`].
    pub fn matches(&self, text: &[u8]) -> bool
        ensures matches { IsTrue result ↔ Matches self.now text.now }
        ensures test { result ≡ is_match self.now text.now }
    {
        Matcher::of(self).matches(text)
    }

    /// Whether this is the pattern of the empty text, which matches the empty text alone. Where an empty pattern is to
    /// match everything, ask this first.
    pub fn is_empty(&self) -> bool
        ensures { IsTrue result ↔ (self.now ≡ []) }
    {
        self.text.is_empty()
    }

    /// The text that the pattern was read from.
    pub(crate) fn text(&self) -> &[u8]
        ensures spells { Spells result.now self.now }
        ensures few { length result.now ≤ PATTERN_MAX }
    {
        self.text.as_slice()
    }
}

/// Whether a text is a pattern, and if not its first fault.
fn check(text: &[u8]) -> Result<(), GlobFault>
    ensures found { OnOk result ((items : List PatternItem) × Spells text.now items) }
    ensures fault { IfErr result (FaultOf text.now) }
{
    let mut place = PatternPlace::Outside;
    let mut rest = text;
    while let Some((sign, behind)) = PatternSign::split_first(rest) {
        place = place.step(sign)?;
        rest = behind;
    }
    // a last `\` has nothing to take as itself, and goes before Unclosed where the text ends in a set
    if !rest.is_empty() {
        return Err(GlobFault::LoneEscape);
    }
    match place {
        PatternPlace::Outside => Ok(()),
        _ => Err(GlobFault::Unclosed),
    }
}

/// Law: each text is a pattern of one list of items or has one fault, and never both.
pub fn one_answer()
    ensures some { (text : List ℕ) →
        ((items : List PatternItem) × Spells text items) ⊎ ((fault : GlobFault) × FaultOf text fault) }
    ensures one_pattern { (text : List ℕ) (a b : List PatternItem) → Spells text a → Spells text b → a ≡ b }
    ensures one_fault { (text : List ℕ) (a b : GlobFault) → FaultOf text a → FaultOf text b → a ≡ b }
    ensures never_both { (text : List ℕ) (items : List PatternItem) (fault : GlobFault) →
        Spells text items → FaultOf text fault → ⊥ }
{}

/// Law: the relation of a pattern and a text that it matches, and the test beside it, say the same.
pub fn tests_agree()
    ensures { (items : List PatternItem) (text : List ℕ) → (IsTrue (is_match items text) ↔ Matches items text) }
{}
