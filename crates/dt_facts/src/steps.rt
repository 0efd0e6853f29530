//! What a seat does at the word.
ghost use Rattle.std.specs.Prelude.{◌≡◌};
ghost use Rattle.dt_facts.specs.Rule.{both, book, share, lists_begun};
ghost use Rattle.dt_facts.specs.Handles.{IsOf, IsShare, IsBook, IsBoth, IsBeginning};
ghost use Rattle.dt_facts.specs.Facts.{Follows, HaveGrown, lists_in, longer_lists};

use crate::rule::{
    AgreesWithBook, ComparesLists, CutsBeginning, Given, GoesOnTo, Place, Repeats, Shares,
};
use crate::word::Facts;
use std::mem;

impl Facts {
    // The share goes into its book, and agrees with it.
    pub(crate) fn put_in(&self, seat: &mut Place, other: Place)
        requires book { IsBook seat.old × (seat.old.table_id ≡ self.now) }
        requires share { IsShare other × (other.table_id ≡ self.now) × (other.me.0.name ≡ seat.old.me.0.name) }
        ensures agree { seat.old.me.0.fact ≡ other.me.0.fact }
        ensures both { IsOf self.now (both seat.old.me.0.name seat.old.me.0.fact) seat.new }
    {
        self.table.shared.join_seat::<Shares>(seat, other);
        self.table.shared.load::<AgreesWithBook>(seat, 0);
    }

    // The share comes out of its book.
    pub(crate) fn take_out(&self, seat: &mut Place) -> Place
        requires both { IsBoth seat.old × (seat.old.table_id ≡ self.now) }
        ensures book { IsOf self.now (book seat.old.me.0.name seat.old.me.0.fact) seat.new }
        ensures share { IsOf self.now (share seat.old.me.0.name seat.old.me.0.fact) result }
    {
        self.table.shared.split_seat::<Shares>(seat)
    }

    // Both go on to the fact that was picked.
    pub(crate) fn turn_to<G: Given>(&self, seat: &mut Place)
        requires both { IsBoth seat.old × (seat.old.table_id ≡ self.now) }
        requires follows { Follows seat.old.me.0.fact G.fact }
        ensures { IsOf self.now (both seat.old.me.0.name G.fact) seat.new }
    {
        self.table.shared.load::<GoesOnTo<G>>(seat, 0);
    }

    // The lists so far are cut from the book.
    pub(crate) fn copy_out(&self, seat: &mut Place) -> Place
        requires book { IsBook seat.old × (seat.old.table_id ≡ self.now) }
        ensures book { IsOf self.now (book seat.old.me.0.name seat.old.me.0.fact) seat.new }
        ensures beginning { IsOf self.now (lists_begun seat.old.me.0.name (lists_in seat.old.me.0.fact)) result }
    {
        self.table.shared.split_seat::<CutsBeginning>(seat)
    }

    // The same beginning is cut from another.
    pub(crate) fn repeat(&self, seat: &mut Place) -> Place
        requires { IsBeginning seat.old × (seat.old.table_id ≡ self.now) }
        ensures same { IsOf self.now (lists_begun seat.old.me.0.name seat.old.me.0.knows) seat.new }
        ensures again { IsOf self.now (lists_begun seat.old.me.0.name seat.old.me.0.knows) result }
    {
        self.table.shared.split_seat::<Repeats>(seat)
    }

    // A beginning is told another, and goes on to the longer of the two.
    pub(crate) fn take_in(&self, seat: &mut Place, other: Place)
        requires seat { IsBeginning seat.old × (seat.old.table_id ≡ self.now) }
        requires other { IsBeginning other × (other.table_id ≡ self.now) × (other.me.0.name ≡ seat.old.me.0.name) }
        ensures longer { IsOf self.now (lists_begun seat.old.me.0.name (longer_lists seat.old.me.0.knows other.me.0.knows)) seat.new }
        ensures begins { HaveGrown seat.old.me.0.knows (longer_lists seat.old.me.0.knows other.me.0.knows) × HaveGrown other.me.0.knows (longer_lists seat.old.me.0.knows other.me.0.knows) }
    {
        self.table.shared.join_seat::<CutsBeginning>(seat, other);
        self.table.shared.load::<CutsBeginning>(seat, 0);
    }

    // A beginning goes into its book, and is found to be one.
    pub(crate) fn look_up(&self, seat: &mut Place, other: Place)
        requires book { IsBook seat.old × (seat.old.table_id ≡ self.now) }
        requires beginning { IsBeginning other × (other.table_id ≡ self.now) × (other.me.0.name ≡ seat.old.me.0.name) }
        ensures begins { HaveGrown other.me.0.knows (lists_in seat.old.me.0.fact) }
        ensures book { IsOf self.now (book seat.old.me.0.name seat.old.me.0.fact) seat.new }
    {
        self.table.shared.join_seat::<ComparesLists>(seat, other);
        self.table.shared.load::<ComparesLists>(seat, 0);
    }

    // The share goes into its book, and a beginning stands in its place.
    pub(crate) fn unite(&self, seat: &mut Place, other: &mut Place)
        requires book { IsBook seat.old × (seat.old.table_id ≡ self.now) }
        requires share { IsShare other.old × (other.old.table_id ≡ self.now) × (other.old.me.0.name ≡ seat.old.me.0.name) }
        ensures agree { seat.old.me.0.fact ≡ other.old.me.0.fact }
        ensures both { IsOf self.now (both seat.old.me.0.name seat.old.me.0.fact) seat.new }
    {
        let held = self.copy_out(seat);
        let share = mem::replace(other, held);
        self.put_in(seat, share);
    }
}
