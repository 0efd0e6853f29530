//! A history that two scripts make, and that widens its trail.
use crate::calls::{Play, both, opened, run, says};
use dt_hub::{Fired, NoGate};
use dt_hub_calls::texts::{DONE, ENABLED, GO, STATUS};
use dt_hub_calls::{HubCalls, with_scripts};
use std::alloc::Global;
use std::process::Abort;
use std::sync::Wait;
use std::test::Fail;

const HEAD: &str = r#"{"cpus":2,"accounts":[{"name":"root","uid":0,"privs":["dtrace_kernel"]}],
"processes":[{"pid":100,"uid":501,"execname":"sh"}],"probes":["syscall::read:entry"],"scripts":["#;

const FIRING: &str = r#"{"probe":3,"pid":100}"#;

/// How many firings each processor makes.
const FIRINGS: u32 = 40_000;

const HISTORY: &str = r#"{"cmd":"option","name":"histsize","value":65537}"#;

const COUNT: &str = r#"{"cmd":"enable","text":"read:entry{@c=count()}"}"#;

const AGG: &str = r#"{"cmd":"agg","name":"c"}"#;

const ROWS: &str =
    "{\"fn\":\"count\",\"name\":\"c\",\"ok\":true,\"rows\":[{\"key\":[],\"value\":65537}]}\n";

const ENDED: &str =
    "{\"aggdrops\":[0,0],\"cause\":\"history\",\"dyndrops\":[0,0],\"errors\":[0,0],\"exit\":null,\"ok\":true,\"phase\":\"stopped\",\"seen\":65537,\"specdrops\":[0,0],\"specfails\":0}\n";

/// Two processors take turns, until their scripts have ended.
fn fires_all<H: HubCalls, R: Wait>(
    rt: &R,
    hub: &H,
    one: &mut H::Token,
    other: &mut H::Token,
) -> u64 {
    let mut count = 0u64;
    for _ in 0..FIRINGS {
        if let Fired::At(_) = hub.fire(rt, one, &NoGate) {
            count = count.wrapping_add(1);
        }
        if let Fired::At(_) = hub.fire(rt, other, &NoGate) {
            count = count.wrapping_add(1);
        }
    }
    count
}

/// The history ends tracing at its last firing.
struct LongHistory;

impl Play for LongHistory {
    fn play<H: HubCalls, R: Wait + Abort>(
        &self,
        rt: &R,
        alloc: Global,
        hub: &H,
        tokens: Vec<H::Token>,
    ) -> Result<(), Fail> {
        let (mut one, mut other) = both(rt, tokens)?;
        let mut session = opened(rt, alloc, hub, "root");
        says(rt, alloc, hub, &mut session, HISTORY, DONE);
        says(rt, alloc, hub, &mut session, COUNT, ENABLED);
        says(rt, alloc, hub, &mut session, GO, DONE);
        assert_eq!(rt; fires_all(rt, hub, &mut one, &mut other), 80_000);
        says(rt, alloc, hub, &mut session, AGG, ROWS);
        assert_eq!(rt; hub.seen(&mut session), 65_541);
        says(rt, alloc, hub, &mut session, STATUS, ENDED);
        hub.close(rt, session);
        Ok(())
    }
}

#[test]
fn a_history_of_two_scripts_ends_tracing(rt: HostRuntime) -> Result<(), Fail> {
    let machine = with_scripts(rt.alloc(), HEAD, 2, FIRING, FIRINGS)?;
    run(&rt, rt.alloc(), machine.as_str(), &LongHistory)
}
