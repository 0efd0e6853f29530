//! What the sessions of a seat knew.
ghost use Rattle.std.specs.Prelude.{◌≡◌, [], ◌+◌};
ghost use Rattle.dt_facts.specs.Facts.{growing_lists};
ghost use Rattle.dt_facts.specs.Handles.{begun, making};
ghost use Rattle.dt_facts.specs.Lives.{known_more};
ghost use Rattle.dt_seat.specs.Knowledge.{known_items};

use crate::trailed::Note;
use dt_facts::{Beginning, Book, Facts, Maker, Share};
use dt_legal::Traced;
use std::marker::{Brand, Model};

/// What the sessions of a seat knew of their trails: the book and the share of that fact, in one hand. A session has it as long as it is
/// open, and then it lies under the seat's lock for the next one.
///
/// Contracts see it as a `KnownItems` of `specs/Knowledge.antt`.
#[derive(Drop)]
pub(crate) struct Knowledge {
    book: Book,
    share: Share,
}

impl Model for Knowledge {
    ghost use Rattle.dt_seat.specs.Knowledge.{KnownItems, IsKnowledge, items_said};

    ghost Value = { KnownItems };

    ghost view = { λ k. items_said k.share };

    ghost invariant = { λ k. IsKnowledge k.book k.share };
}

impl Knowledge {
    /// Nothing is known yet.
    pub(crate) fn new(facts: &Facts, maker: &mut Maker) -> Knowledge
        requires { maker.old.word ≡ facts.now }
        ensures nothing { result ≡ known_items facts.now maker.old.name [] }
        ensures maker { maker.new ≡ making facts.now (maker.old.name + 1) }
    {
        let mut both = facts.make(maker);
        facts.go_on::<Brand, ()>(&mut both, &());
        let (book, share) = facts.cut(both);
        Knowledge { book, share }
    }

    /// What the note of a life knows is known from then on. That is there in proofs alone, and so `life` and `note` are for the contract.
    pub(crate) fn go_on<J: Traced>(&mut self, facts: &Facts, life: u64, note: &Note<J>)
        requires { self.old.word ≡ facts.now }
        ensures { self.new ≡ known_items self.old.word self.old.name (known_more life note.now.knows self.old.list) }
    {
        facts.go_on_apart::<Brand, (u64, &Note<J>)>(&mut self.book, &mut self.share, &(life, note));
    }

    /// What is known so far, for whoever is to know of it.
    pub(crate) fn begin(&mut self, facts: &Facts) -> Beginning
        requires { self.old.word ≡ facts.now }
        ensures beginning { result ≡ begun self.old.word self.old.name (growing_lists [] self.old.list []) }
        ensures same { self.new ≡ self.old }
    {
        facts.begin(&mut self.book)
    }
}
