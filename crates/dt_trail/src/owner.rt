//! Who appends to a row.
ghost use Rattle.std.specs.Prelude.{◌≡◌, ◌<◌, ◌+◌, ◌++◌, [], ◌∷◌, length, Some, None, OnOk, OnErr};
ghost use Rattle.std.specs.Arc.{arc_value};
ghost use Rattle.atomic_blocks.specs.Cells.{me};
ghost use Rattle.dt_trail.specs.Insides.{row_of, IsDoor, OfRow};
ghost use Rattle.dt_trail.specs.Limits.{block_bound, widenings};
ghost use Rattle.dt_trail.specs.Rule.{owner, first_extent};

use crate::door::Door;
use crate::inner::{Inner, RowSeat};
use crate::item::Item;
use crate::law::Law;
use crate::moves::{arrive, lay_in, read_ahead, set_next, show_all, tell};
use crate::note::TrailNote;
use crate::storage;
use crate::told::Told;
use atomic_blocks::rows::Link;
use std::alloc::{AllocError, Global};
use std::marker::{Brand, Model};
use std::sync::Arc;

/// Who has it may append, and widen the row. It knows the whole row.
///
/// Contracts see it as a `Known` of `specs/Known.antt`: which row it is and whose, the row's items, how many cells the row has,
/// and how often it was widened.
pub struct TrailOwner<K, L: Law<K>> {
    // An append into the block of the item before reads what lies here and cells, and nothing of what the handles share. The count is what each writes, and comes last
    // of what has a size: after it lies what else an offer to a session writes.
    pub(crate) place: OwnerPlace<K, L>,
    pub(crate) count: u64,
    pub(crate) seat: RowSeat<K>,
}

/// Where an owner appends: the row's cells and its root, the door to the block of the next cell, how often the row was widened and how many cells it has.
pub(crate) struct OwnerPlace<K, L: Law<K>> {
    pub(crate) cells: Arc<Inner<K, L>, Global>,
    pub(crate) root: Link<()>,
    pub(crate) door: Door,
    pub(crate) widened: u64,
    pub(crate) width: u64,
    ghost rooted: { root ≡ (arc_value cells).about.root },
}

impl<K: Drop, L: Law<K>> Drop for OwnerPlace<K, L> {
    fn drop(self) {
        let Self {
            cells,
            root: _,
            door: _,
            widened: _,
            width: _,
        } = self;
        drop(cells);
    }
}

impl<K, L: Law<K>> Model for TrailOwner<K, L> {
    ghost use Rattle.dt_trail.specs.Known.{Known};

    ghost Value = { Known K };

    ghost use Rattle.std.specs.Arc.{arc_value};
    ghost use Rattle.dt_trail.specs.Insides.{owner_known, IsOwner};

    ghost view = { λ o. owner_known (arc_value o.place.cells) o.seat o.place.width o.place.widened };

    ghost invariant = { λ o. IsOwner (arc_value o.place.cells) o.seat o.place.door o.count o.place.widened o.place.width };
}

impl<K: Drop, L: Law<K>> Drop for TrailOwner<K, L> {
    fn drop(self) {
        let Self {
            place,
            count: _,
            seat,
        } = self;
        drop(seat);
        drop(place);
    }
}

impl<K, L: Law<K>> TrailOwner<K, L> {
    ghost use Rattle.dt_trail.specs.Items.{whose};
    ghost use Rattle.dt_trail.specs.Known.{known_row, noted, Meets};

    pub(crate) fn of(place: OwnerPlace<K, L>, right: RowSeat<K>) -> TrailOwner<K, L>
        requires row { OfRow (arc_value place.cells) right }
        requires view { right.me ≡ me (owner (Some (arc_value place.cells).about.account) [] place.door (first_extent place.width)) None None }
        requires door { IsDoor place.door × (place.door.from ≡ 0) × (place.width < block_bound) × (place.widened ≡ 0) }
        ensures { result ≡ known_row (row_of (arc_value place.cells)) [] place.width 0 }
    {
        TrailOwner {
            place,
            count: 0,
            seat: right,
        }
    }

    /// How many cells the row has.
    pub fn cells(&self) -> u64
        ensures { result ≡ self.now.cells }
    {
        self.place.width
    }

    /// How many of them are empty.
    pub fn room(&self) -> u64
        ensures { length self.now.knows + result ≡ self.now.cells }
    {
        self.place.width - self.count
    }

    /// How often the row was widened.
    pub fn widened(&self) -> u64
        ensures { result ≡ self.now.widened }
    {
        self.place.widened
    }

    /// Sets the first empty cell to the item, on behalf of the note whose the item is. The note then knows the whole row.
    ///
    /// It waits for nobody, takes no memory and can't fail. There has to be an empty cell. The longer row has to be lawful if what the note knows begins the row and
    /// the row has no further item of the note's. That this is so the rule says at the step, so the note needn't meet the owner before.
    #[inline(always)]
    pub fn append(&mut self, note: &mut TrailNote<K, L>, item: &Item)
        requires row { self.old.row ≡ note.old.row }
        requires room { length self.old.knows < self.old.cells }
        requires mine { whose item.now ≡ note.old.number }
        requires lawful { Meets self.old.knows note.old → L.lawful self.old.row.account (self.old.knows ++ item.now ∷ []) }
        ensures owner { self.new ≡ known_row self.old.row (self.old.knows ++ item.now ∷ []) self.old.cells self.old.widened }
        ensures note { note.new ≡ noted note.old.row note.old.number (self.old.knows ++ item.now ∷ []) }
        ensures met { Meets self.old.knows note.old }
    {
        let count = self.count;
        let place = &mut self.place;
        let inner: &Inner<K, L> = &place.cells;
        arrive(inner, &mut self.seat, &mut place.door, count);
        read_ahead(inner, &mut self.seat, &place.door, count);
        set_next::<Brand, K, L>(
            inner,
            place.root,
            &mut note.seat,
            &mut self.seat,
            place.door,
            count,
            item,
        );
        note.door = place.door;
        note.count = count + 1;
        self.count = count + 1;
    }

    /// The note then knows the whole row.
    pub fn meet(&mut self, note: &mut TrailNote<K, L>)
        requires { self.old.row ≡ note.old.row }
        ensures owner { self.new ≡ self.old }
        ensures note { note.new ≡ noted note.old.row note.old.number self.old.knows }
        ensures met { Meets self.old.knows note.old }
    {
        let place = &self.place;
        let inner: &Inner<K, L> = &place.cells;
        show_all(inner, &mut note.seat, &mut self.seat);
        note.door = place.door;
        note.count = self.count;
    }

    /// The whole row as it is now, to be told to a note of the row.
    pub fn told(&mut self) -> Told<K>
        ensures told { (result.row ≡ self.old.row.id) × (result.knows ≡ self.old.knows) }
        ensures same { self.new ≡ self.old }
    {
        let place = &self.place;
        let inner: &Inner<K, L> = &place.cells;
        let seat = tell(inner, place.root, &mut self.seat);
        Told {
            seat,
            door: place.door,
            count: self.count,
        }
    }

    /// Adds a block of empty cells at the row's end, on behalf of a note, which then knows the whole row. It takes the memory of
    /// the block, 16 bytes a cell.
    ///
    /// `Err`: there was no memory, and nothing is changed.
    pub fn widen(&mut self, note: &mut TrailNote<K, L>, cells: u64) -> Result<(), AllocError>
        requires row { self.old.row ≡ note.old.row }
        requires wide { (0 < cells) × (cells < block_bound) }
        requires few { self.old.widened < widenings }
        ensures wider { OnOk result (self.new ≡ known_row self.old.row self.old.knows (self.old.cells + cells) (self.old.widened + 1)) }
        ensures note { OnOk result (note.new ≡ noted note.old.row note.old.number self.old.knows) }
        ensures met { OnOk result (Meets self.old.knows note.old) }
        ensures same { OnErr result ((self.new ≡ self.old) × (note.new ≡ note.old)) }
    {
        let (link, block) = storage::block(&self.place.cells.alloc, cells)?;
        let place = &mut self.place;
        let inner: &Inner<K, L> = &place.cells;
        let at = place.widened + 1;
        lay_in(
            inner,
            &mut note.seat,
            &mut self.seat,
            at,
            cells,
            link,
            block,
        );
        place.widened = at;
        place.width += cells;
        note.door = place.door;
        note.count = self.count;
        Ok(())
    }
}
