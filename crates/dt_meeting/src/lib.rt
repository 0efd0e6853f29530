//! What a session and a processor have in common: one row of items in which nothing that should have been seen was skipped.
//!
//! A session's trail has the firings that it saw, and a processor makes firings that it offers to the seats which it finds named. A row that both
//! share (`specs/Sharing.antt`) has each firing of the processor, at a place after all that the processor knew then, and is the trail where the firings
//! that aren't seen at their place are left out. While both go on, the processor keeps track of each life (`specs/Tracking.antt`): its firings stand in
//! such a row, but for those that it made once the seat's writes had come past the life (`specs/Stages.antt`). The laws here say how that
//! goes on, one step after another, and that such a row is there in the end. A processor that holds no lock does so as far as the seat's writes are
//! in order for the life (`specs/Order.antt`, `specs/Keeping.antt`), and the trail has just those of its firings that its note has. No code runs here, and no law speaks of threads or locks.
#![tactic(auto)]

mod laws;

pub use laws::{
    answered_alike, go_stays_published, keeping_goes_on, named_is_published, nothing_is_skipped,
    rows_are_seen, shared_rows_grow, tracking_goes_on, writes_stay_in_order,
};
