//! A processor that is told of a session.
use crate::calls::{Play, both, opened, run, says};
use crate::paths::{ONE_RECORD, SNAP, keeps_first};
use dt_hub::{Fired, NoGate};
use dt_hub_calls::HubCalls;
use dt_hub_calls::texts::{DONE, ENABLE, ENABLED, GO, MACHINE};
use std::alloc::Global;
use std::process::Abort;
use std::sync::Wait;
use std::test::Fail;

/// A processor that was told of a session keeps its firing there.
struct Told;

impl Play for Told {
    fn play<H: HubCalls, R: Wait + Abort>(
        &self,
        rt: &R,
        alloc: Global,
        hub: &H,
        tokens: Vec<H::Token>,
    ) -> Result<(), Fail> {
        let (mut one, _other) = both(rt, tokens)?;
        let mut session = opened(rt, alloc, hub, "root");
        says(rt, alloc, hub, &mut session, ENABLE, ENABLED);
        let early = hub.receipt(&mut session);
        hub.tell(&mut one, early);
        says(rt, alloc, hub, &mut session, GO, DONE);
        let receipt = hub.receipt(&mut session);
        hub.tell(&mut one, receipt);
        keeps_first(rt, hub, &mut one);
        assert_eq!(rt; hub.seen(&mut session), 3);
        says(rt, alloc, hub, &mut session, SNAP, ONE_RECORD);
        let late = hub.receipt(&mut session);
        hub.tell(&mut one, late);
        assert_eq!(rt; hub.fire(rt, &mut one, &NoGate), Fired::End);
        hub.close(rt, session);
        Ok(())
    }
}

#[test]
fn a_told_processor_keeps_its_firing(rt: HostRuntime) -> Result<(), Fail> {
    run(&rt, rt.alloc(), MACHINE, &Told)
}
