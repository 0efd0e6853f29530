//! What two processors have seen of the writes.
use crate::calls::{Play, both, run, says};
use crate::paths::{looks, names_nobody, tracing};
use dt_hub_calls::texts::{DONE, MACHINE, STOP};
use dt_hub_calls::{HubCalls, TokenCalls};
use std::alloc::Global;
use std::process::Abort;
use std::sync::Wait;
use std::test::Fail;

/// One processor has seen the first write alone, and another two: the one's begin the other's.
fn begins<T: TokenCalls, R: Abort>(rt: &R, one: &T, other: &T) {
    assert_eq!(rt; (one.count_writes(), other.count_writes()), (1, 2));
    assert!(rt; one.begins(other), "no beginning");
    assert!(rt; !other.begins(one), "as many writes");
}

/// A processor looks while a session traces, and another one when it has stopped.
struct TwoLooks;

impl Play for TwoLooks {
    fn play<H: HubCalls, R: Wait + Abort>(
        &self,
        rt: &R,
        alloc: Global,
        hub: &H,
        tokens: Vec<H::Token>,
    ) -> Result<(), Fail> {
        let (mut one, mut other) = both(rt, tokens)?;
        let mut session = tracing(rt, alloc, hub, "root");
        looks(rt, hub, &mut one, 0, 0);
        says(rt, alloc, hub, &mut session, STOP, DONE);
        names_nobody(rt, hub, &mut other);
        hub.close(rt, session);
        begins(rt, &one, &other);
        Ok(())
    }
}

#[test]
fn what_one_processor_saw_begins_what_another_did(rt: HostRuntime) -> Result<(), Fail> {
    run(&rt, rt.alloc(), MACHINE, &TwoLooks)
}
