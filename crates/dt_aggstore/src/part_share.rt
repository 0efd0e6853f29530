//! Parts of keys as shares hold them: numbers by value, texts by reference.
ghost use Rattle.std.specs.Prelude.{◌≡◌, ◌↔◌, IsTrue, None, Some};
ghost use Rattle.std.specs.Option.{option_cmp};
ghost use Rattle.dt_aggstore.specs.Keys.{part_cmp};
ghost use Rattle.dt_aggstore.specs.Shares.{part_told};

use crate::key::KeyPart;
use crate::recent_texts::RecentTexts;
use std::cmp::Ordering;

/// A place for a part of a key. Of a text there is a reference, to a copy that many keys share.
#[derive(Clone, Copy)]
pub(crate) enum PartShare<'a> {
    /// The key has no part here, and none after it.
    Nothing,
    Number(i64),
    Text(&'a [u8; 32]),
}

impl<'a> PartShare<'a> {
    /// What is held of a part.
    #[inline(always)]
    pub(crate) fn of(part: &'a KeyPart, texts: &mut RecentTexts<'a>) -> Self
        ensures { part_told result ≡ Some part.now }
    {
        match part {
            KeyPart::Number(number) => PartShare::Number(*number),
            KeyPart::Text(text) => PartShare::Text(texts.shared(text)),
        }
    }

    /// Whether there is no part.
    #[inline(always)]
    pub(crate) fn is_nothing(&self) -> bool
        ensures { IsTrue result ↔ (part_told self.now ≡ None) }
    {
        matches!(self, PartShare::Nothing)
    }

    /// How keys are ordered that go on so after parts that are the same: one that has no part here comes first.
    #[inline(always)]
    pub(crate) fn order(&self, other: &PartShare<'_>) -> Ordering
        ensures { result ≡ option_cmp part_cmp (part_told self.now) (part_told other.now) }
    {
        // most parts are numbers: what orders those is short enough to stand in the loop of a sort
        match (self, other) {
            (PartShare::Number(one), PartShare::Number(other)) => one.cmp(other),
            _ => self.order_of_kinds(other),
        }
    }

    /// The same, whatever kinds they are of.
    #[inline(never)]
    fn order_of_kinds(&self, other: &PartShare<'_>) -> Ordering
        ensures { result ≡ option_cmp part_cmp (part_told self.now) (part_told other.now) }
    {
        match (self, other) {
            (PartShare::Nothing, PartShare::Nothing) => Ordering::Equal,
            (PartShare::Nothing, _) => Ordering::Less,
            (_, PartShare::Nothing) => Ordering::Greater,
            (PartShare::Text(one), PartShare::Text(other)) => (**one).cmp(*other),
            (PartShare::Text(_), _) => Ordering::Greater,
            (_, PartShare::Text(_)) => Ordering::Less,
            (PartShare::Number(one), PartShare::Number(other)) => one.cmp(other),
        }
    }
}
