//! The entries of a store, found by their aggregation and key.
ghost use Rattle.std.specs.Prelude.{◌≡◌, ◌+◌, ◌<◌, ◌≤◌, [], ◌∷◌, ◌++◌, length, zip, IfOk, IfErr, OnErr, IfSome, Some, Contains};
ghost use Rattle.std.specs.List.{IsDistinct};
ghost use Rattle.std.specs.Map.{lookup};
ghost use Rattle.indexmap.specs.IndexMap.{keys, values, index_map_len, spare, IsEmpty};
ghost use Rattle.dt_aggstore.specs.EntryNames.{entry_named, entries_named, words_of, LiesAt};
ghost use Rattle.dt_aggstore.specs.Held.{entry_of};
ghost use Rattle.dt_aggstore.specs.Indexed.{places_from};
ghost use Rattle.dt_aggstore.specs.Keys.{same_entry, without};
ghost use Rattle.dt_aggstore.specs.declared.limits.TheConstants.{AGGSIZE_MAX};

use crate::entry_name::EntryName;
use crate::key::{Aggregation, Key};
use crate::limits::{AGGSIZE_MAX, RECENT_MAX};
use indexmap::IndexMap;
use std::alloc::{AllocError, Global};
use std::marker::Model;
use std::mem;

/// Entries in the order in which they came, each with the place of its cell. All their room is made by `new`.
#[derive(Drop)]
pub(crate) struct EntryIndex {
    index: IndexMap<EntryName, usize>,
    /// Empty, with as much room. An index that is removed from may lose room, so the entries that stay where others
    /// are let go move over to this one.
    other: IndexMap<EntryName, usize>,
    room: usize,
    /// Where in the order the entry stands that was found or put last, for each aggregation by its number: mostly it is
    /// the next one of that aggregation too, and no name is hashed. Where it is another one, the name is looked up.
    recent: [usize; RECENT_MAX],
    /// The name that was looked up last: the next is written in its place, so that none is moved.
    asked: EntryName,
}

impl Model for EntryIndex {
    ghost use Rattle.indexmap.specs.IndexMap.{keys, values};
    ghost use Rattle.dt_aggstore.specs.Indexed.{Indexed, IndexHasRoom};

    ghost Value = { Indexed };

    ghost view = { λ e. record { items = keys e.index; places = values e.index; room = e.room } };

    ghost invariant = { λ e. IndexHasRoom e.room e.index e.other };
}

impl EntryIndex {
    /// No entries, and room for so many. `Err`: there was no memory for it.
    pub(crate) fn new(alloc: Global, room: usize) -> Result<Self, AllocError>
        ensures items { IfOk result (λ entries. entries.items ≡ []) }
        ensures places { IfOk result (λ entries. entries.places ≡ []) }
        ensures room { IfOk result (λ entries. entries.room ≡ room) }
    {
        Ok(EntryIndex {
            index: IndexMap::with_capacity(alloc, room)?,
            other: IndexMap::with_capacity(alloc, room)?,
            room,
            recent: [0; RECENT_MAX],
            asked: EntryName::unwritten(),
        })
    }

    /// The place of the cell of the entry of an aggregation and a key. `Err`: it isn't among them, and this is its name, by
    /// which to put it.
    pub(crate) fn place_of(
        &mut self,
        aggregation: Aggregation,
        key: &Key,
    ) -> Result<usize, EntryName>
        requires { self.old.places ≡ places_from 0 (entries_named self.old.items) }
        ensures same { self.new ≡ self.old }
        ensures found { IfOk result (LiesAt (entries_named self.old.items) (entry_of aggregation key.now.parts.items)) }
        ensures name { IfErr result (λ name. entry_named name ≡ entry_of aggregation key.now.parts.items) }
        ensures none { OnErr result (Contains (entries_named self.old.items) (entry_of aggregation key.now.parts.items) → ⊥) }
    {
        let number = aggregation.number % RECENT_MAX;
        // mostly the entry that was found last is meant again, and then no name is written and hashed
        if let Some(place) = recent_place(&self.index, self.recent[number], aggregation, key) {
            return Ok(place);
        }
        self.asked.write(aggregation, key);
        match self.index.get_index_of(&self.asked) {
            Some(recent) => {
                self.recent[number] = recent;
                Ok(self.index[recent])
            }
            None => Err(self.asked.copy()),
        }
    }

    /// Puts an entry that isn't among them at the end.
    pub(crate) fn push(&mut self, name: EntryName, place: usize)
        requires room { length self.old.items < self.old.room }
        requires new { Contains (entries_named self.old.items) (entry_named name) → ⊥ }
        ensures items { self.new.items ≡ self.old.items ++ name ∷ [] }
        ensures places { self.new.places ≡ self.old.places ++ place ∷ [] }
        ensures room { self.new.room ≡ self.old.room }
    {
        self.recent[name.aggregation.number % RECENT_MAX] = self.index.len();
        put(&mut self.index, name, place);
    }

    /// Lets the entries of an aggregation go, where their cells are taken out too.
    pub(crate) fn let_go(&mut self, aggregation: Aggregation)
        requires { words_of (entries_named self.old.items) ≤ AGGSIZE_MAX }
        ensures names { entries_named self.new.items ≡ without aggregation (entries_named self.old.items) }
        ensures places { self.new.places ≡ places_from 0 (entries_named self.new.items) }
        ensures room { self.new.room ≡ self.old.room }
    {
        put_others(&mut self.other, self.index.keys().as_slice(), aggregation);
        mem::swap(&mut self.index, &mut self.other);
        self.other.clear();
    }

    /// The entries, in their order.
    pub(crate) fn names(&self) -> &[EntryName]
        ensures { result.now ≡ self.now.items }
    {
        self.index.keys().as_slice()
    }

    /// The index from each entry to the place of its cell.
    pub(crate) fn index(&self) -> &IndexMap<EntryName, usize>
        ensures { result.now.entries ≡ zip self.now.items self.now.places }
    {
        &self.index
    }
}

/// The place that stands beside the entry at a position of an index, if it is that of the aggregation and key.
fn recent_place(
    index: &IndexMap<EntryName, usize>,
    position: usize,
    aggregation: Aggregation,
    key: &Key,
) -> Option<usize>
    ensures { IfSome result (λ place. lookup (λ one. same_entry (entry_of aggregation key.now.parts.items) (entry_named one))
        index.now.entries ≡ Some place) }
{
    let (name, place) = index.get_index(position)?;
    if name.is(aggregation, key) {
        Some(*place)
    } else {
        None
    }
}

/// Puts an entry that isn't in an index at its end, beside the place of its cell.
fn put(index: &mut IndexMap<EntryName, usize>, name: EntryName, place: usize)
    requires room { 0 < spare index.old }
    requires new { Contains (entries_named (keys index.old)) (entry_named name) → ⊥ }
    ensures entries { index.new.entries ≡ index.old.entries ++ (name, place) ∷ [] }
    ensures spare { spare index.old ≤ spare index.new + 1 }
{
    index.insert(name, place).unwrap();
}

/// Puts the entries of other aggregations into an empty index, with the places where their cells lie one after another.
fn put_others(
    index: &mut IndexMap<EntryName, usize>,
    entries: &[EntryName],
    aggregation: Aggregation,
)
    requires empty { IsEmpty index.old }
    requires room { length entries.now ≤ spare index.old }
    requires apart { IsDistinct (λ one other. same_entry (entry_named one) (entry_named other)) entries.now }
    requires words { words_of (entries_named entries.now) ≤ AGGSIZE_MAX }
    ensures names { entries_named (keys index.new) ≡ without aggregation (entries_named entries.now) }
    ensures places { values index.new ≡ places_from 0 (entries_named (keys index.new)) }
    ensures few { index_map_len index.new ≤ length entries.now }
    ensures room { spare index.old ≤ index_map_len index.new + spare index.new }
{
    let mut place = 0;
    for name in entries {
        if !aggregation.is(name.aggregation) {
            put(index, name.copy(), place);
            place += name.aggregation.function.cell_words();
        }
    }
}
