//! A trail: a row of cells, each written once, which several threads follow without a lock while one of them appends.
//!
//! A session's history is such a row ([`Trail`]). Its items are the session's lines and the firings of the processors ([`Item`]). Who
//! has the [`TrailOwner`] appends, and widens the row by blocks of cells. Each [`TrailNote`] knows a beginning of the row, and all of
//! the row that is its own: the session's lines, or one processor's firings. A note reads on by itself, at any time and without
//! waiting; what it knows can be told ([`Told`]) to another note of the row. A [`Law`] says which rows there may be: the owner
//! appends only what keeps it, and each note is told that what it knows keeps it.
//!
//! What the row is to each thread is defined in `specs/Known.antt` over lists of items (`specs/Items.antt`), and not over how cells
//! are kept. The rule that all steps keep is in `specs/Rule.antt`.
#![tactic(auto)]

mod again;
mod door;
mod inner;
mod item;
mod law;
mod limit_laws;
mod limits;
mod moves;
mod note;
mod opening;
mod owner;
mod rule;
mod seen;
mod storage;
mod told;

pub use item::{Item, ItemKind};
pub use law::{Law, Named};
pub use limit_laws::limits_agree;
pub use limits::{
    BLOCK_CELLS, BLOCK_CELLS_MAX, TRAIL_CELLS, TRAIL_CELLS_MAX, TRAIL_CPUS_MAX, WIDENINGS_MAX,
};
pub use note::TrailNote;
pub use opening::Trail;
pub use owner::TrailOwner;
pub use seen::Seen;
pub use told::Told;
