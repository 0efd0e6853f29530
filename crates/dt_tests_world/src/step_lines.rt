//! Lines that are step lines, and lines that are none.
use dt_world::StepLine;
use std::alloc::Global;
use std::test::Fail;

/// The step line of a text, as text: its name, its numbers, and its bytes.
fn told(alloc: Global, text: &[u8]) -> Result<String, Fail> {
    let Some(line) = StepLine::parse(text) else {
        return Ok(String::from_str(alloc, "none")?);
    };
    match line {
        StepLine::Open { seat, account } => with_bytes(alloc, "open", seat.number(), account),
        StepLine::Close { seat } => on_seat(alloc, "close", seat.number()),
        StepLine::Withdraw { seat } => on_seat(alloc, "withdraw", seat.number()),
        StepLine::Ask { seat, line } => with_bytes(alloc, "ask", seat.number(), line),
        StepLine::Publish { seat } => on_seat(alloc, "publish", seat.number()),
        StepLine::Finish { seat } => on_seat(alloc, "finish", seat.number()),
        StepLine::Look { cpu } => on_processor(alloc, "look", cpu),
        StepLine::Offer { cpu, seat } => {
            Ok(format!(in alloc; "offer, processor {cpu}, seat {}", seat.number())?)
        }
        StepLine::Call { seat, line } => with_bytes(alloc, "call", seat.number(), line),
        StepLine::Fire { cpu } => on_processor(alloc, "fire", cpu),
    }
}

fn on_seat(alloc: Global, name: &str, seat: u32) -> Result<String, Fail> {
    Ok(format!(in alloc; "{name}, seat {seat}")?)
}

fn with_bytes(alloc: Global, name: &str, seat: u32, bytes: &[u8]) -> Result<String, Fail> {
    Ok(format!(in alloc; "{name}, seat {seat}, {bytes:?}")?)
}

fn on_processor(alloc: Global, name: &str, cpu: u32) -> Result<String, Fail> {
    Ok(format!(in alloc; "{name}, processor {cpu}")?)
}

/// Texts, and the step lines that they are.
const ROWS: &[(&[u8], &str)] = &[
    (b"open 0 ann", "open, seat 0, [97, 110, 110]"),
    (b"open 255 ann", "open, seat 255, [97, 110, 110]"),
    (b"open 64 ann", "open, seat 64, [97, 110, 110]"),
    (b"open 1  a ", "open, seat 1, [32, 97, 32]"),
    (b"open 1 ", "open, seat 1, []"),
    (b"close 9", "close, seat 9"),
    (b"withdraw 10", "withdraw, seat 10"),
    (b"ask 0 {}", "ask, seat 0, [123, 125]"),
    (b"ask 7 ", "ask, seat 7, []"),
    (b"ask 7  \xff\r", "ask, seat 7, [32, 255, 13]"),
    (b"publish 1", "publish, seat 1"),
    (b"finish 1", "finish, seat 1"),
    (b"look 0", "look, processor 0"),
    (b"look 4294967295", "look, processor 4294967295"),
    (b"offer 0 1", "offer, processor 0, seat 1"),
    (
        b"offer 4294967295 255",
        "offer, processor 4294967295, seat 255",
    ),
    (b"call 2 x y", "call, seat 2, [120, 32, 121]"),
    (b"call 2 ", "call, seat 2, []"),
    (b"fire 10", "fire, processor 10"),
    (b"open 256 ann", "none"),
    (b"open 00 ann", "none"),
    (b"open 01 ann", "none"),
    (b"open +1 ann", "none"),
    (b"open -1 ann", "none"),
    (b"open 0", "none"),
    (b"open  0 ann", "none"),
    (b"open ann 0", "none"),
    (b"Open 0 ann", "none"),
    (b" open 0 ann", "none"),
    (b"open\t0 ann", "none"),
    (b"opens 0 ann", "none"),
    (b"close", "none"),
    (b"close ", "none"),
    (b"close 256", "none"),
    (b"close 1 ", "none"),
    (b"close 1\r", "none"),
    (b"withdraw x", "none"),
    (b"ask 0", "none"),
    (b"ask 256 {}", "none"),
    (b"ask {}", "none"),
    (b"publish 1 1", "none"),
    (b"finish 00", "none"),
    (b"look 4294967296", "none"),
    (b"look 00", "none"),
    (b"look 0 0", "none"),
    (b"offer 0", "none"),
    (b"offer 0 256", "none"),
    (b"offer 4294967296 0", "none"),
    (b"offer 0  1", "none"),
    (b"offer 0 1 ", "none"),
    (b"call 2", "none"),
    (b"fire \xff", "none"),
    (b"", "none"),
];

#[test]
fn reads_step_lines_and_nothing_else(rt: HostRuntime) -> Result<(), Fail> {
    let alloc = rt.alloc();
    for (text, wanted) in ROWS {
        assert_eq!(rt; told(alloc, text)?.as_str(), *wanted, "{text:?}");
    }
    Ok(())
}
