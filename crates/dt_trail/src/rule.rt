//! The rule of the row. The types here are for the proofs.

use crate::door::Door;
use crate::item::Item;
use crate::law::Law;
use atomic_blocks::rows::{Link, LinkPlay, Play, RowRule};
use atomic_table::{Join, Split};
use std::collections::LinkedList;
use std::marker::{Brand, PhantomData};

// What the owner knows of the blocks: how many there are, with how many cells, and the place of the next, once it stands in the root.
pub struct Extent {
    pub blocks: u64,
    pub cells: u64,
    pub planned: bool,
    pub plan: Link<()>,
}

// What a seat knows. A live seat is a note's, with its number. The owner's knows the whole row, and the
// maker's is the owner's while notes are made, with the number of the next. A note that has the owner's right
// remembers what it had known, and one that was told something remembers that, until it has learnt it. All but a spent seat know the account. No value of it is made.
pub struct TrailView<K> {
    pub account: Option<K>,
    pub live: bool,
    pub owns: bool,
    pub makes: bool,
    pub note: u64,
    pub knows: LinkedList<Item>,
    pub had: LinkedList<Item>,
    pub door: Door,
    pub extent: Extent,
}

/// What is fixed at the start: the root, the first block and its cells, and the account that the law is about.
pub struct About<K> {
    pub root: Link<()>,
    pub first: Link<()>,
    pub size: u64,
    pub account: K,
}

/// A root, and blocks of words, each 0 until it is set to an item.
pub struct AppendOnly<L> {
    of: PhantomData<L>,
}

impl<K, L: Law<K>> RowRule<(), TrailView<K>, About<K>> for AppendOnly<L> {
    ghost use Rattle.dt_trail.specs.Rule.{Kept, maker, first_door, first_extent};
    ghost use Rattle.std.specs.Prelude.{Some};

    ghost holds = { λ about. Kept L.lawful about.root.ptr about.account };

    ghost first = { λ about. maker (Some about.account) 0 (first_door about.size about.first.ptr) (first_extent about.size) };
}

/// An item that a call picks: what it appends.
pub trait Picked {
    ghost use Rattle.dt_trail.specs.Items.{TrailItem};

    ghost item: { TrailItem };
}

impl Picked for Brand {
    ghost use Rattle.dt_trail.specs.Items.{long_line};

    ghost item = { long_line };
}

// The first empty cell is set to the item that was picked.
pub struct Sets<P> {
    of: PhantomData<P>,
}

impl<K, P: Picked> Play<(), TrailView<K>> for Sets<P> {
    ghost use Rattle.dt_trail.specs.Rule.{IsSet};

    ghost then = { IsSet P.item };
}

pub struct ReadsCell<L> {
    of: PhantomData<L>,
}

impl<K, L: Law<K>> Play<(), TrailView<K>> for ReadsCell<L> {
    ghost use Rattle.dt_trail.specs.Rule.{TurnReads};

    ghost then = { TurnReads L.lawful };
}

pub struct ComparesItems;

impl<K> Play<(), TrailView<K>> for ComparesItems {
    ghost use Rattle.dt_trail.specs.Rule.{HasCompared};

    ghost then = { HasCompared };
}

// A note learns what it was told.
pub struct Learns<L> {
    of: PhantomData<L>,
}

impl<K, L: Law<K>> Play<(), TrailView<K>> for Learns<L> {
    ghost use Rattle.dt_trail.specs.Rule.{HasLearnt};

    ghost then = { HasLearnt L.lawful };
}

// The root says how many cells the next block has.
pub struct Turns<L> {
    of: PhantomData<L>,
}

impl<K, L: Law<K>> Play<(), TrailView<K>> for Turns<L> {
    ghost use Rattle.dt_trail.specs.Rule.{IsTurned};

    ghost then = { IsTurned L.lawful };
}

// And where it lies.
pub struct SeesItems;

impl<K> LinkPlay<(), TrailView<K>> for SeesItems {
    ghost use Rattle.dt_trail.specs.Rule.{IsSeen};

    ghost then = { IsSeen };
}

// The root says how many cells the first block has.
pub struct GoesBack;

impl<K> Play<(), TrailView<K>> for GoesBack {
    ghost use Rattle.dt_trail.specs.Rule.{IsBack};

    ghost then = { IsBack };
}

// A cell whose item the seat knows is read again.
pub struct ReadsAgain;

impl<K> Play<(), TrailView<K>> for ReadsAgain {
    ghost use Rattle.dt_trail.specs.Rule.{IsFoundAgain};

    ghost then = { IsFoundAgain };
}

// A cell of the door's block is read, and its word is nothing to the seat.
pub struct Peeks;

impl<K> Play<(), TrailView<K>> for Peeks {
    ghost use Rattle.dt_trail.specs.Rule.{IsPeeked};

    ghost then = { IsPeeked };
}

// The place of the next block is written into the root.
pub struct Plans;

impl<K> LinkPlay<(), TrailView<K>> for Plans {
    ghost use Rattle.dt_trail.specs.Rule.{IsPlanned};

    ghost then = { IsPlanned };
}

// The block is set.
pub struct Lays;

impl<K> Play<(), TrailView<K>> for Lays {
    ghost use Rattle.dt_trail.specs.Rule.{IsLaid};

    ghost then = { IsLaid };
}

// The maker makes a note.
pub struct MakesNote;

impl<K> Split<TrailView<K>> for MakesNote {
    ghost use Rattle.dt_trail.specs.Rule.{maker_after, made};

    ghost left = { maker_after };

    ghost right = { made };
}

// The maker ends, and the owner begins.
pub struct Opens;

impl<K> Split<TrailView<K>> for Opens {
    ghost use Rattle.dt_trail.specs.Rule.{row_ended, right_of};

    ghost left = { row_ended };

    ghost right = { right_of };
}

// The owner's right goes into a note for the time of one append, and out again.
pub struct Lends;

impl<K> Split<TrailView<K>> for Lends {
    ghost use Rattle.dt_trail.specs.Rule.{without_right, right_of};

    ghost left = { without_right };

    ghost right = { right_of };
}

impl<K> Join<TrailView<K>> for Lends {
    ghost use Rattle.dt_trail.specs.Rule.{with_right, nobody};

    ghost both = { with_right };

    ghost spent = { nobody };
}

// What a seat knows, told to another.
pub struct TellsItems;

impl<K> Split<TrailView<K>> for TellsItems {
    ghost use Rattle.dt_trail.specs.Rule.{claim_of};

    ghost left = { λ v. v };

    ghost right = { claim_of };
}

impl<K> Join<TrailView<K>> for TellsItems {
    ghost use Rattle.dt_trail.specs.Rule.{informed, nobody};

    ghost both = { informed };

    ghost spent = { nobody };
}
