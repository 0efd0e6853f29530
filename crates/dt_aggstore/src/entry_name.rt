//! By which name a store finds an entry.
ghost use Rattle.std.specs.Prelude.{◌≡◌, ◌≤◌};
ghost use Rattle.dt_aggstore.specs.EntryNames.{entry_named, entries_named};
ghost use Rattle.dt_aggstore.specs.Held.{entry_of};
ghost use Rattle.dt_aggstore.specs.Keys.{same_entry, entry_cost, cost_of};
ghost use Rattle.dt_aggstore.specs.declared.limits.TheConstants.{AGGSIZE_MAX, COST_MIN};

use crate::key::{Aggregation, Key};
use crate::limits::{AGGSIZE_MAX, COST_MIN};
use arrayvec::ArrayVec;
use dt_aggfn::{AggFn, cell_length};

/// An entry of a store, by which its cell is found.
#[derive(PartialEq, Eq, Hash, Drop)]
pub struct EntryName {
    pub aggregation: Aggregation,
    pub key: Key,
}

impl EntryName {
    /// A name in whose place another is written before it is asked for.
    pub(crate) fn unwritten() -> EntryName {
        EntryName {
            aggregation: Aggregation {
                number: 0,
                function: AggFn::Count,
            },
            key: Key {
                parts: ArrayVec::new(),
            },
        }
    }

    /// Writes the name of the entry of an aggregation and a key in the place of this one, which copies the parts alone.
    pub(crate) fn write(&mut self, aggregation: Aggregation, key: &Key)
        ensures { entry_named self.new ≡ entry_of aggregation key.now.parts.items }
    {
        self.aggregation = aggregation;
        self.key.parts.clear();
        for part in key.parts.as_slice() {
            self.key.parts.push(*part);
        }
    }

    /// The entry of an aggregation and a key.
    pub(crate) fn of(aggregation: Aggregation, key: &Key) -> EntryName
        ensures { entry_named result ≡ entry_of aggregation key.now.parts.items }
    {
        let mut name = EntryName {
            aggregation,
            key: Key {
                parts: ArrayVec::new(),
            },
        };
        for part in key.parts.as_slice() {
            name.key.parts.push(*part);
        }
        name
    }

    /// Whether it is the entry of this aggregation and key.
    pub(crate) fn is(&self, aggregation: Aggregation, key: &Key) -> bool
        ensures { result ≡ same_entry (entry_of aggregation key.now.parts.items) (entry_named self.now) }
    {
        aggregation.is(self.aggregation) && key.is(&self.key)
    }

    /// The same entry.
    pub(crate) fn copy(&self) -> EntryName
        ensures { entry_named result ≡ entry_named self.now }
    {
        EntryName::of(self.aggregation, &self.key)
    }

    /// How many bytes it costs: eight for each word of its head, its key and its cell.
    pub(crate) fn cost(&self) -> usize
        ensures cost { result ≡ entry_cost self.now.aggregation self.now.key.parts.items }
        ensures least { COST_MIN ≤ result }
    {
        // A cell has one word at least.
        cell_length();
        8 * (1 + self.key.words() + self.aggregation.function.cell_words())
    }
}

/// What entries cost together.
pub(crate) fn costs(entries: &[EntryName]) -> usize
    requires { cost_of (entries_named entries.now) ≤ AGGSIZE_MAX }
    ensures { result ≡ cost_of (entries_named entries.now) }
{
    entries.iter().map(|name| name.cost()).sum()
}
