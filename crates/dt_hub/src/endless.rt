//! Where there is nothing to answer.

use std::sync::Wait;

/// Never returns. It is called where another seat's number lies under a lock: that never comes, but no clause says so. It stands apart, so that the
/// loop is out of the way of an offer.
#[cold]
pub(crate) fn wait_for_ever<R: Wait>(rt: &R)
    ensures { ⊥ }
{
    for _ in rt.forever() {}
    unreachable!()
}
