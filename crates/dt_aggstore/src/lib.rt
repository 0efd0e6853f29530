//! Stores of aggregations: what one processor keeps of the values that a consumer gives to its aggregations there.
//!
//! A store holds entries, each an aggregation, a key and the cell of its bag (`dt_aggfn`). Which contributions
//! it keeps, which entries it holds and with which values is defined over the list of all that came to it,
//! contributions and truncations (`specs/History.antt`, `specs/Held.antt`, `specs/Choice.antt`), and not over
//! how its entries lie. A new store has an empty past, and each `add` and `trunc` makes its past one event
//! longer (`specs/IsAt.antt`). The entries are found by an index, and their cells lie in a pool of words; a store
//! lends both (`specs/Lent.antt`). The table of an aggregation joins the stores of all processors
//! (`specs/Table.antt`).
#![tactic(auto)]

mod cells;
mod entry_index;
mod entry_name;
mod joining;
mod key;
mod laws;
mod limit_laws;
mod limits;
mod part_share;
mod places;
mod recent_texts;
mod row;
mod share;
mod share_cell;
mod sized_shares;
mod store;
mod table;

pub use entry_name::EntryName;
pub use key::{Aggregation, Key, KeyPart};
pub use laws::{drops_go_on, held_entries, one_choice, one_table};
pub use limit_laws::limits_agree;
pub use limits::{ADDED_LIMIT, AGGSIZE_MAX, KEYS_MAX, STORES_MAX};
pub use row::{Row, RowKey};
pub use store::AggStore;
