//! Where what a clause leaves is made.
use arrayvec::ArrayVec;
use dt_aggstore::Key;
use dt_record::{RECORD_MAX, TRACED_SIZE, Taken};

/// The room in which what a clause leaves is made, before it goes into a buffer or a store. It serves again, clause after clause and consumer after consumer: who
/// offers firings has one, as a processor of DTrace has its scratch space. What lies in it means nothing.
#[derive(Drop)]
pub struct Scratch {
    /// The record of a clause that traces a variable alone.
    pub(crate) traced: [u8; TRACED_SIZE],
    /// The record of another clause that does nothing but record.
    pub(crate) record: ArrayVec<u8, RECORD_MAX>,
    /// The key of what an aggregation is given.
    pub(crate) key: Key,
    /// What other clauses leave.
    pub(crate) left: Taken,
}

impl Scratch {
    /// Room in which nothing lies. It takes no memory.
    pub fn new() -> Self {
        Scratch {
            traced: [0; TRACED_SIZE],
            record: ArrayVec::new(),
            key: Key {
                parts: ArrayVec::new(),
            },
            left: Taken::new(),
        }
    }
}
