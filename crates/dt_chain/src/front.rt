//! A beginning of the list of all writes, as a token.
ghost use Rattle.std.specs.Prelude.{◌≡◌, ◌⊎◌, ◌↔◌, ◌≤◌, length, IsTrue, MatchBool};
ghost use mathlib.Core.List.{IsPrefix};

use crate::book::{Mark, Site};
use std::marker::{Model, PhantomData};

/// That the list of all writes begins with these: who has it knows of them. It is of 8 bytes, and takes no memory and no
/// step on what is shared, whatever is done with it. The writes themselves exist in proofs alone.
///
/// Contracts see it as the list of writes, the oldest first. Of two fronts of one site one begins the other.
#[derive(Drop)]
pub struct Front<J: Site> {
    mark: Mark,
    of: PhantomData<J>,
}

impl<J: Site> Model for Front<J> {
    ghost use Rattle.std.specs.Prelude.{◌≡◌, List};
    ghost use Rattle.dt_chain.specs.Writes.{Write};

    ghost Value = { List Write };

    ghost view = { λ front. front.mark.log };

    ghost invariant = { λ front. front.mark.book ≡ J.book };
}

impl<J: Site> Front<J> {
    /// A beginning of the site's book.
    pub(crate) fn of(mark: Mark) -> Front<J>
        requires { mark.book ≡ J.book }
        ensures { result ≡ mark.log }
    {
        Front {
            mark,
            of: PhantomData,
        }
    }

    /// The same once more, for another who is to know of it.
    pub fn again(&self) -> Front<J>
        ensures { result ≡ self.now }
    {
        Front {
            mark: self.mark.again(),
            of: PhantomData,
        }
    }

    /// The same, without the site.
    pub(crate) fn mark(&self) -> Mark
        ensures log { result.log ≡ self.now }
        ensures book { result.book ≡ J.book }
    {
        self.mark.again()
    }

    /// How many writes it has.
    pub fn len(&self) -> u64
        ensures { result ≡ length self.now }
    {
        self.mark.len()
    }

    /// Whether the other has no fewer writes, and so begins with these. If not, these begin with the other's.
    pub fn begins(&self, other: &Front<J>) -> bool
        ensures order { MatchBool result (IsPrefix self.now other.now) (IsPrefix other.now self.now) }
        ensures when { IsTrue result ↔ (length self.now ≤ length other.now) }
    {
        self.mark.begins(&other.mark)
    }

    /// The longer of the two, which begins with both.
    pub fn longer(&self, other: &Front<J>) -> Front<J>
        ensures one { (result ≡ self.now) ⊎ (result ≡ other.now) }
        ensures this { IsPrefix self.now result }
        ensures that { IsPrefix other.now result }
    {
        if self.mark.begins(&other.mark) {
            other.again()
        } else {
            self.again()
        }
    }
}
