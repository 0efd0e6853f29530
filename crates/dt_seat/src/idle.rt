//! What lies under the lock of a seat as long as it is free.

use crate::knowledge::Knowledge;
use dt_facts::Share;

/// What the next session of a seat gets: the share of the seat's lives, and what its sessions knew.
#[derive(Drop)]
pub(crate) struct Idle {
    pub(crate) share: Share,
    pub(crate) known: Knowledge,
}
