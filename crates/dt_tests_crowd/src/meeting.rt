//! Two processors that really run at once.
use crate::calls::{both, opened, says, tracing};
use crate::flag::Flag;
use crate::scenes::{Scene, run};
use dt_hub::{Fired, Gate, Moment, Offered};
use dt_hub_calls::texts::{DONE, GO};
use dt_hub_calls::{HubCalls, at_seat};
use std::alloc::Global;
use std::process::Abort;
use std::sync::Wait;
use std::test::Fail;
use std::thread::{Threads, join};
use std::time::Clock;

/// Each processor fires another probe.
const MACHINE: &str = r#"{"cpus":2,
"accounts":[{"name":"root","uid":0,"privs":["dtrace_kernel"]}],
"processes":[{"pid":100,"uid":501,"execname":"sh"}],
"probes":["syscall::read:entry","syscall::write:entry"],
"scripts":[[{"probe":3,"pid":100}],[{"probe":4,"pid":100}]]}"#;

/// Both fire the same.
const ALIKE: &str = r#"{"cpus":2,
"accounts":[{"name":"root","uid":0,"privs":["dtrace_kernel"]}],
"processes":[{"pid":100,"uid":501,"execname":"sh"}],
"probes":["syscall::read:entry","syscall::write:entry"],
"scripts":[[{"probe":3,"pid":100}],[{"probe":3,"pid":100}]]}"#;

/// A session enables both probes.
const ENABLE_CALLS: &str = r#"{"cmd":"enable","text":"syscall:::entry{}"}"#;

/// What it is answered.
const ENABLED_CALLS: &str = "{\"count\":2,\"first\":1,\"ok\":true}\n";

/// Processor 0 has the lock of the first session's seat until processor 1 has let go of the second's.
#[derive(Drop)]
struct Meeting<'a, R: Clock + Abort> {
    rt: &'a R,
    locked: Flag,
    passed: Flag,
}

impl<R: Clock + Abort> Gate for Meeting<'_, R> {
    fn at(&self, cpu: u32, _seat: u32, moment: Moment) {
        match (cpu, moment) {
            (0, Moment::Locked) => {
                self.locked.raise();
                self.passed.wait(self.rt);
            }
            (1, Moment::Before) => self.locked.wait(self.rt),
            (1, Moment::After) => self.passed.raise(),
            _ => {}
        }
    }
}

/// Both processors fire, each on a thread of its own.
fn both_fire<H: HubCalls + Sync, R: Threads + Wait + Abort + Clock + Sync>(
    rt: &R,
    hub: &H,
    one: &mut H::Token,
    other: &mut H::Token,
    gate: &Meeting<R>,
) -> (Fired, Fired)
where
    H::Session: Send,
    H::Token: Send,
    H::Receipt: Send,
{
    join(rt, || hub.fire(rt, one, gate), || hub.fire(rt, other, gate))
}

/// Two sessions, of which the first enabled what processor 0 fires and the second all, and two processors on threads of their own. `shared` is what the firing of processor 1
/// comes to at the first one's seat.
pub(crate) fn plays<H: HubCalls + Sync, R: Threads + Wait + Abort + Clock + Sync>(
    rt: &R,
    alloc: Global,
    hub: &H,
    tokens: Vec<H::Token>,
    shared: Offered,
) -> Result<(), Fail>
where
    H::Session: Send,
    H::Token: Send,
    H::Receipt: Send,
{
    let (mut one, mut other) = both(rt, tokens)?;
    // so that neither lies on the first seat
    let aside = opened(rt, alloc, hub, "root");
    let first = tracing(rt, alloc, hub, "root");
    let mut second = opened(rt, alloc, hub, "root");
    says(rt, alloc, hub, &mut second, ENABLE_CALLS, ENABLED_CALLS);
    says(rt, alloc, hub, &mut second, GO, DONE);
    let gate = Meeting {
        rt,
        locked: Flag::new(),
        passed: Flag::new(),
    };
    let came = both_fire(rt, hub, &mut one, &mut other, &gate);
    assert_eq!(rt; came, (Fired::At(0), Fired::At(0)));
    assert_eq!(rt; at_seat(&one, 1), Offered::Kept);
    assert_eq!(rt; at_seat(&one, 2), Offered::Kept);
    assert_eq!(rt; at_seat(&other, 1), shared);
    assert_eq!(rt; at_seat(&other, 2), Offered::Kept);
    hub.close(rt, aside);
    hub.close(rt, first);
    hub.close(rt, second);
    Ok(())
}

#[test]
fn two_processors_meet_at_the_gate(rt: HostRuntime) -> Result<(), Fail> {
    run(&rt, rt.alloc(), MACHINE, Scene::Meeting)
}

/// A processor that finds a seat locked offers its firing to the next one before it waits, and then to that seat too.
#[test]
fn a_locked_seat_is_passed_over_and_come_back_to(rt: HostRuntime) -> Result<(), Fail> {
    run(&rt, rt.alloc(), ALIKE, Scene::Passing)
}
