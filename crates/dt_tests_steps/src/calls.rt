//! The calls that are tested, each in one function that promises nothing, and steps of words.
use dt_chain::{SEATS, Seat, SeatMask};
use dt_machine::Machine;
use dt_proto::Asked;
use dt_steps::{Ran, Step, run};
use std::alloc::Global;
use std::test::Fail;

/// Two processors, four accounts, two processes; the first processor fires a system call, and then the clock twice.
pub(crate) const MACHINE: &str = r#"{"cpus":2,
"accounts":[{"name":"root","uid":0,"privs":["dtrace_kernel"]},{"name":"ann","uid":501,"privs":["dtrace_user"]},
{"name":"bob","uid":501,"privs":["dtrace_proc"]},{"name":"joe","uid":501,"privs":["proc_owner"]}],
"processes":[{"pid":100,"uid":501,"execname":"sh"},{"pid":200,"uid":0,"execname":"cron"}],
"probes":["syscall::read:entry","profile:::tick-1sec","fbt:genunix:kmem_alloc:entry","pid100:a:f:entry"],
"scripts":[[{"probe":3,"pid":100,"args":[7]},{"probe":4,"pid":100,"mode":"kernel"},{"probe":4,"pid":100}],[]]}"#;

/// The machine of a text.
pub(crate) fn machine_of(alloc: Global, text: &str) -> Result<Machine, Fail> {
    Ok(Machine::read(alloc, text.as_bytes())?)
}

/// What a list of steps is answered.
pub(crate) fn ran(alloc: Global, machine: &Machine, steps: &[Step]) -> Result<Ran, Fail> {
    Ok(run(alloc, machine, steps)?)
}

pub(crate) fn seat_numbered(number: u32) -> Result<Seat, Fail> {
    Ok(Seat::new(number).ok_or("no seat")?)
}

/// A line that is asked.
pub(crate) fn asked(alloc: Global, line: &[u8]) -> Result<Asked, Fail> {
    Ok(Asked::Line(line.to_vec(alloc)?))
}

/// A look on a processor with a firing of a script.
pub(crate) fn look(machine: &Machine, on: u32, cpu: u32, place: u32) -> Result<Step, Fail> {
    let firing = machine.firing(cpu, place).ok_or("no firing")?;
    Ok(Step::Look(on, *firing))
}

/// The seats that a mask names, in order, each with its life.
pub(crate) fn named(alloc: Global, mask: SeatMask) -> Result<Vec<(u32, u64)>, Fail> {
    let mut seats = Vec::new(alloc);
    for number in 0..SEATS as u32 {
        if let Some(life) = mask.life_of(seat_numbered(number)?) {
            seats.push((number, life))?;
        }
    }
    Ok(seats)
}

/// The replies of a run, each with its seat, as a replay writes them.
pub(crate) fn replies_of(alloc: Global, ran: &Ran) -> Result<Vec<u8>, Fail> {
    let mut text = Vec::new(alloc);
    for (seat, reply) in &ran.replies {
        text.extend_from_slice(format!(in alloc; "{} ", seat.number())?.as_bytes())?;
        text.extend_from_slice(reply)?;
    }
    Ok(text)
}

/// The first word of a line, the second, and the rest.
pub(crate) fn words_of(line: &str) -> (&str, &str, &str) {
    let (word, rest) = line.split_once(' ').unwrap_or((line, ""));
    let (first, more) = rest.split_once(' ').unwrap_or((rest, ""));
    (word, first, more)
}

/// The step of a line on a seat.
pub(crate) fn step_on(alloc: Global, word: &str, seat: Seat, line: &str) -> Result<Step, Fail> {
    match word {
        "open" => Ok(Step::Open(seat, line.as_bytes().to_vec(alloc)?)),
        "ask" => Ok(Step::Ask(seat, asked(alloc, line.as_bytes())?)),
        "publish" => Ok(Step::Publish(seat)),
        "finish" => Ok(Step::Finish(seat)),
        "withdraw" => Ok(Step::Withdraw(seat)),
        "close" => Ok(Step::Close(seat)),
        _ => Err("no step".into()),
    }
}
