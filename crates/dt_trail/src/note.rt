//! Who follows a row.
ghost use Rattle.std.specs.Prelude.{◌≡◌, ◌<◌, [], length, MatchOption, Some, None};
ghost use Rattle.std.specs.Arc.{arc_value};
ghost use Rattle.atomic_blocks.specs.Cells.{me};
ghost use Rattle.dt_trail.specs.Insides.{row_of, IsDoor, OfRow};
ghost use Rattle.dt_trail.specs.Rule.{note};
ghost use Rattle.dt_trail.specs.Limits.{cells_bound};

use crate::again::word_again;
use crate::door::Door;
use crate::inner::{Inner, RowSeat};
use crate::law::Law;
use crate::moves::{look, take_in, tell, turn};
use crate::seen::Seen;
use crate::told::Told;
use std::alloc::Global;
use std::marker::Model;
use std::sync::Arc;

/// A numbered note, which knows a beginning of the row, and all of the row that is its own: the note 0 the lines of the session,
/// and the note `cpu + 1` the firings of the processor `cpu`.
///
/// Contracts see it as a `Noted` of `specs/Known.antt`: which row it is and whose, the note's number, and the items that it knows.
pub struct TrailNote<K, L: Law<K>> {
    pub(crate) cells: Arc<Inner<K, L>, Global>,
    pub(crate) seat: RowSeat<K>,
    pub(crate) door: Door,
    pub(crate) count: u64,
}

impl<K, L: Law<K>> Model for TrailNote<K, L> {
    ghost use Rattle.dt_trail.specs.Known.{Noted};

    ghost Value = { Noted K };

    ghost use Rattle.std.specs.Arc.{arc_value};
    ghost use Rattle.dt_trail.specs.Insides.{note_noted, IsNote};

    ghost view = { λ t. note_noted (arc_value t.cells) t.seat };

    ghost invariant = { λ t. IsNote (arc_value t.cells) t.seat t.door t.count };
}

impl<K: Drop, L: Law<K>> Drop for TrailNote<K, L> {
    fn drop(self) {
        let Self {
            cells,
            seat,
            door: _,
            count: _,
        } = self;
        drop(seat);
        drop(cells);
    }
}

impl<K, L: Law<K>> TrailNote<K, L> {
    ghost use Rattle.dt_trail.specs.Known.{noted, KnowsNext, ShowsAt, Grows};
    ghost use Rattle.dt_trail.specs.Items.{StartsWith, longer};

    pub(crate) fn of(
        cells: Arc<Inner<K, L>, Global>,
        seat: RowSeat<K>,
        door: Door,
    ) -> TrailNote<K, L>
        requires row { OfRow (arc_value cells) seat }
        requires view { seat.me ≡ me (note (Some (arc_value cells).about.account) seat.me.view.note [] door) None None }
        requires door { IsDoor door × (door.from ≡ 0) }
        ensures { result ≡ noted (row_of (arc_value cells)) seat.me.view.note [] }
    {
        TrailNote {
            cells,
            seat,
            door,
            count: 0,
        }
    }

    /// How many items the note knows.
    pub fn count(&self) -> u64
        ensures { result ≡ length self.now.knows }
    {
        self.count
    }

    /// Reads the next item, which the note knows from then on, or `None` where the row has no more. It waits for nobody and takes
    /// no memory.
    pub fn read(&mut self) -> Option<Seen>
        ensures next { MatchOption result (self.new ≡ self.old) (λ seen. KnowsNext self.old seen self.new) }
        ensures lawful { L.lawful self.new.row.account self.new.knows }
        ensures small { length self.new.knows < cells_bound }
    {
        let inner: &Inner<K, L> = &self.cells;
        let mut door = self.door;
        if self.count >= door.from + door.len {
            let Some(next) = turn(inner, &mut self.seat, door) else {
                return None;
            };
            door = next;
            self.door = next;
        }
        let word = look(inner, &mut self.seat, door, self.count);
        let seen = Seen::of(word)?;
        self.count += 1;
        Some(seen)
    }

    /// Reads on to the first empty cell. Says how many items the note then knows. It waits for nobody and takes no memory.
    pub fn catch_up(&mut self) -> u64
        ensures count { result ≡ length self.new.knows }
        ensures grows { Grows self.old self.new }
        ensures lawful { L.lawful self.new.row.account self.new.knows }
    {
        'items: while let Some(_) = self.read() {}
        self.count
    }

    /// Reads an item again that the note knows, by its place in the row, from 0 on. The note stays as it is. It waits for nobody
    /// and takes no memory.
    pub fn item(&mut self, k: u64) -> Seen
        requires { k < length self.old.knows }
        ensures seen { ShowsAt self.old.knows k result }
        ensures same { self.new ≡ self.old }
    {
        let inner: &Inner<K, L> = &self.cells;
        let mut seat = tell(inner, inner.about.root, &mut self.seat);
        let word = word_again(inner, &mut seat, self.door, k);
        let Some(seen) = Seen::of(word) else {
            unreachable!()
        };
        seen
    }

    /// What the note knows, to be told to another note of the row.
    pub fn told(&mut self) -> Told<K>
        ensures told { (result.row ≡ self.old.row.id) × (result.knows ≡ self.old.knows) }
        ensures same { self.new ≡ self.old }
    {
        let inner: &Inner<K, L> = &self.cells;
        let seat = tell(inner, inner.about.root, &mut self.seat);
        Told {
            seat,
            door: self.door,
            count: self.count,
        }
    }

    /// Takes in what was told. The note then knows the longer of the two beginnings, which begins with both. It waits for
    /// nobody and takes no memory.
    pub fn learn(&mut self, told: Told<K>)
        requires { told.row ≡ self.old.row.id }
        ensures longer { self.new ≡ noted self.old.row self.old.number (longer self.old.knows told.knows) }
        ensures grows { Grows self.old self.new }
        ensures told { StartsWith self.new.knows told.knows }
        ensures lawful { L.lawful self.new.row.account self.new.knows }
    {
        let (seat, door, count) = told.parts();
        let inner: &Inner<K, L> = &self.cells;
        take_in(inner, &mut self.seat, seat);
        if self.count < count {
            self.count = count;
            self.door = door;
        }
    }
}
