//! The store of one processor.
ghost use Rattle.std.specs.Prelude.{◌≡◌, ◌+◌, ◌*◌, ◌<◌, ◌≤◌, ◌↔◌, length, IfOk, IsTrue, Contains, if◌then◌else◌, vec_capacity};
ghost use Rattle.dt_aggstore.specs.Keys.{cost_of};
ghost use Rattle.dt_aggstore.specs.EntryNames.{entry_named, entries_named, words_of};
ghost use Rattle.dt_aggstore.specs.Indexed.{places_from};
ghost use Rattle.dt_aggstore.specs.declared.limits.TheConstants.{ADDED_LIMIT, AGGSIZE_MAX, COST_MIN};

use crate::cells::{add_at, close_up, push_first};
use crate::entry_index::EntryIndex;
use crate::entry_name::{EntryName, costs};
use crate::key::{Aggregation, Key};
use crate::limits::{ADDED_LIMIT, AGGSIZE_MAX, COST_MIN};
use dt_aggfn::cell_length;
use indexmap::IndexMap;
use std::alloc::{AllocError, Global};

/// What one processor keeps of a consumer's aggregations. All its room is made by `new`.
#[derive(Drop)]
pub struct AggStore {
    pub(crate) entries: EntryIndex,
    /// The cells of the entries, in their order.
    pub(crate) cells: Vec<u64>,
    pub(crate) size: usize,
    /// What the entries cost.
    pub(crate) spent: usize,
    pub(crate) added: u64,
    /// How many of those that were added were not kept.
    pub(crate) dropped: u64,
    ghost entry_room: { size < COST_MIN * (entries.room + 1) },
    ghost cell_room: { size < 8 * (vec_capacity cells + 1) },
    ghost spent_is: { spent ≡ cost_of (entries_named entries.items) },
    ghost cells_are: { length cells.items ≡ words_of (entries_named entries.items) },
    ghost places_are: { entries.places ≡ places_from 0 (entries_named entries.items) },
    ghost within: { spent ≤ size },
    ghost small: { size ≤ AGGSIZE_MAX },
    ghost few: { added ≤ ADDED_LIMIT },
    ghost dropped_among: { dropped ≤ added },
}

impl AggStore {
    ghost use Rattle.dt_aggstore.specs.History.{Past, given, truncated, new_past, after, contribution_count};
    ghost use Rattle.dt_aggstore.specs.Choice.{KeepsContribution};
    ghost use Rattle.dt_aggstore.specs.Chosen.{drops};
    ghost use Rattle.dt_aggstore.specs.IsAt.{IsAt, Makes, added_of};
    ghost use Rattle.dt_aggstore.specs.Lent.{LendsIndex, LendsPool, pool_of};

    /// An empty store whose entries may cost `aggsize` bytes, at most [`AGGSIZE_MAX`]. `Err`: there was no
    /// memory for its room.
    pub fn new(alloc: Global, aggsize: usize) -> Result<Self, AllocError>
        requires { aggsize ≤ AGGSIZE_MAX }
        ensures stands { IfOk result (IsAt (new_past aggsize)) }
        ensures added { IfOk result (λ store. added_of store ≡ 0) }
    {
        Ok(AggStore {
            entries: EntryIndex::new(alloc, aggsize / COST_MIN)?,
            cells: Vec::with_capacity(alloc, aggsize / 8)?,
            size: aggsize,
            spent: 0,
            added: 0,
            dropped: 0,
        })
    }

    /// Gives a value to a key of an aggregation, and says whether it is kept. It is kept where the key's entry
    /// is held, or where its cost still fits with those of all entries that are held: eight bytes for each word
    /// of its head, its key (a number 1, a text 4) and its cell. It takes no memory, and is called with fewer
    /// than [`ADDED_LIMIT`] values given before.
    pub fn add(&mut self, aggregation: Aggregation, key: &Key, value: i64) -> bool
        requires { added_of self.old < ADDED_LIMIT }
        ensures stands { (past : Past) → IsAt past self.old
            → IsAt (after past (given aggregation key.now.parts.items value)) self.new }
        ensures keeps { (past : Past) → IsAt past self.old
            → (IsTrue result ↔ KeepsContribution past aggregation key.now.parts.items value) }
        ensures added { added_of self.new ≡ added_of self.old + 1 }
        ensures drops { (past : Past) → IsAt past self.old
            → drops (after past (given aggregation key.now.parts.items value))
            ≡ (if result then drops past else drops past + 1) }
    {
        // A cell has its function's words.
        cell_length();
        self.added += 1;
        match self.entries.place_of(aggregation, key) {
            Ok(place) => {
                add_at(aggregation.function, &mut self.cells, place, value);
                true
            }
            Err(name) => self.insert(name, value),
        }
    }

    /// Forgets all entries of an aggregation. It takes no memory.
    pub fn trunc(&mut self, aggregation: Aggregation)
        ensures stands { (past : Past) → IsAt past self.old → IsAt (after past (truncated aggregation)) self.new }
        ensures added { added_of self.new ≡ added_of self.old }
    {
        // A cell has its function's words.
        cell_length();
        close_up(&mut self.cells, self.entries.names(), aggregation);
        self.entries.let_go(aggregation);
        let spent = costs(self.entries.names());
        self.spent = spent;
    }

    /// How many values were given so far, kept or not.
    pub fn added(&self) -> u64
        ensures counted { result ≡ added_of self.now }
        ensures shows { (past : Past) → IsAt past self.now → result ≡ contribution_count past.events }
    {
        self.added
    }

    /// How many values were not kept so far. A truncation doesn't change it.
    pub fn dropped(&self) -> u64
        ensures { (past : Past) → IsAt past self.now → result ≡ drops past }
    {
        self.dropped
    }

    /// The index of the entries that are held, in the order in which they came, each with the place of its cell in the
    /// [`pool`](AggStore::pool). It takes no memory.
    pub fn index(&self) -> &IndexMap<EntryName, usize>
        ensures { (past : Past) → IsAt past self.now → LendsIndex past (pool_of self.now) result.now.entries }
    {
        // A cell has its function's words.
        cell_length();
        self.entries.index()
    }

    /// The words of the cells, one cell after another. It takes no memory.
    pub fn pool(&self) -> &[u64]
        ensures pool { result.now ≡ pool_of self.now }
        ensures shows { (past : Past) → IsAt past self.now → LendsPool past result.now }
    {
        &self.cells
    }

    /// Makes an entry that isn't held, with the cell of one value, if its cost fits, and says so. Otherwise counts a
    /// drop.
    fn insert(&mut self, name: EntryName, value: i64) -> bool
        requires dropped { self.old.dropped < self.old.added }
        requires new { Contains (entries_named self.old.entries.items) (entry_named name) → ⊥ }
        ensures { Makes name.aggregation name.key.parts.items value self.old.size self.old.added self.old.dropped
            (entries_named self.old.entries.items) self.old.cells.items self.new result }
    {
        // A cell has one word at least.
        cell_length();
        let cost = name.cost();
        if self.size - self.spent < cost {
            // no entry is let go to make room: a contribution whose new entry doesn't fit is a drop
            self.dropped += 1;
            return false;
        }
        let place = self.cells.len();
        push_first(name.aggregation.function, &mut self.cells, value);
        self.entries.push(name, place);
        self.spent += cost;
        true
    }
}
