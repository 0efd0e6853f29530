//! The calls that are tested, each in one function that promises nothing.
use dt_alone::{Item, alone};
use dt_machine::Machine;
use dt_proto::Asked;
use dt_world::{ReplayFault, replay};
use std::alloc::Global;
use std::io::{Read, Write};
use std::test::Fail;

/// Two processors, four accounts, two processes; the first processor fires a system call, and then the clock twice.
pub(crate) const MACHINE: &str = r#"{"cpus":2,
"accounts":[{"name":"root","uid":0,"privs":["dtrace_kernel"]},{"name":"ann","uid":501,"privs":["dtrace_user"]},
{"name":"bob","uid":501,"privs":["dtrace_proc"]},{"name":"joe","uid":501,"privs":["proc_owner"]}],
"processes":[{"pid":100,"uid":501,"execname":"sh"},{"pid":200,"uid":0,"execname":"cron"}],
"probes":["syscall::read:entry","profile:::tick-1sec","fbt:genunix:kmem_alloc:entry","pid100:a:f:entry"],
"scripts":[[{"probe":3,"pid":100,"args":[7]},{"probe":4,"pid":100,"mode":"kernel"},{"probe":4,"pid":100}],[]]}"#;

/// The machine of a text.
pub(crate) fn machine_of(alloc: Global, text: &str) -> Result<Machine, Fail> {
    Ok(Machine::read(alloc, text.as_bytes())?)
}

/// Replays an input, and gives the fault, if there is one.
pub(crate) fn replayed(
    alloc: Global,
    machine: &str,
    input: &mut impl Read,
    output: &mut impl Write,
) -> Option<ReplayFault> {
    replay(alloc, machine.as_bytes(), input, output).err()
}

/// What a consumer of an account is answered alone.
pub(crate) fn answered_alone(
    alloc: Global,
    machine: &Machine,
    name: &str,
    items: &[Item],
) -> Result<Vec<Vec<u8>>, Fail> {
    let account = machine.account(name.as_bytes()).ok_or("no account")?;
    Ok(alone(alloc, account, machine, items)?)
}

/// A line that is asked.
pub(crate) fn asked(alloc: Global, line: &[u8]) -> Result<Asked, Fail> {
    Ok(Asked::Line(line.to_vec(alloc)?))
}
