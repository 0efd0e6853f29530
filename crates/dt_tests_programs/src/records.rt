//! What clauses leave, byte by byte, and records back from their bytes, up to a megabyte of them.
use arrayvec::ArrayVec;
use dt_cred::{Mode, Probe, Process};
use dt_expr::{Scene, Value};
use dt_lang::{Clause, ParseProgram, Program};
use dt_locals::Locals;
use dt_machine::Firing;
use dt_names::{ProbeTuple, ShortText};
use dt_record::{
    Layout, RECORD_MAX, SpecEnd, Taken, VALUES_MAX, give_only, only_gives, only_records,
    record_only, split, taken, traced_record, traced_variable,
};
use dt_speculation::Specs;
use std::alloc::Global;
use std::fmt;
use std::process::Abort;
use std::test::Fail;

/// In each line a clause and what it leaves of the firing: its record in hexadecimal digits, `-` for none; then `=` and each
/// number that it gives, `spec` and the identifier that the record is directed to, `commit` or `discard` and one whose speculation it ends, `exit` and a status. There is
/// room for two variables and one speculation. Or `passed` where its predicate is 0, and `fault` where it is abandoned.
const CLAUSES: &str = r#"
a{} => 00000005
a{;;} => 00000005
a{trace(arg0)} => 000000050000000000000007
a{trace(-arg0);trace(epid)} => 00000005fffffffffffffff90000000000000005
a{trace("ab")} => 000000056162000000000000000000000000000000000000000000000000000000000000
a{trace(execname)} => 000000057368000000000000000000000000000000000000000000000000000000000000
a{stack(2);ustack(1)} => 0000000500000000000000110000000000000000ffffffffffffffff
a/arg1/{trace(1)} => passed
a/arg0/{trace(1)} => 000000050000000000000001
a/(1 / arg1)/{} => fault
a{trace(1);trace(1 % arg1)} => fault
a{exit(1 / arg1)} => fault
a{@n[1 / arg1]=count()} => fault
a{exit(3);exit(4)} => - exit 3
a{trace(1);exit(2)} => 000000050000000000000001 exit 2
a{@n[arg0,execname]=sum(5);@m=count()} => - = 7 = 5 = 0
a{trace(arg0)} => 000000050000000000000007
a{trace(epid)} => 000000050000000000000005
a{trace(uid)} => 0000000500000000000001f5
a/arg0/{trace(arg0)} => 000000050000000000000007
a/arg1/{trace(arg0)} => passed
a{self->n = 3; trace(self->n)} => 000000050000000000000003
a{self->n = self->n + 1; self->n = self->n + 1; trace(self->n)} => 000000050000000000000002
a{self->a = 1; self->b = 2; self->c = 3; trace(self->c)} => 000000050000000000000000
a{self->n = 3; self->n = 0} => -
a/self->n == 0/{@n[self->n] = sum(self->m)} => - = 0 = 0
a{self->s = speculation(); self->t = speculation(); trace(self->s); trace(self->t)} => 0000000500000000000000010000000000000000
a{speculate(arg0)} => 00000005 spec 7
a{speculate(-1);trace(2)} => 000000050000000000000002 spec 0
a{commit(1);discard(-3);commit(arg0)} => - commit 1 discard 0 commit 7
a{commit(1);exit(4)} => - commit 1 exit 4
a{self->n = 1; commit(1); self->m = 1 / arg1} => fault
"#;

/// What a clause left, in the words of the table.
fn words_of(alloc: Global, left: &Taken) -> Result<String, Fail> {
    let mut words = match &left.bytes {
        Some(bytes) => digits_of(alloc, bytes.as_slice())?,
        None => String::from_str(alloc, "-")?,
    };
    push_given(alloc, &mut words, left.values.as_slice())?;
    if let Some(id) = left.spec {
        push_named(alloc, &mut words, "spec", id)?;
    }
    push_ends(alloc, &mut words, left.ends.as_slice())?;
    if let Some(status) = left.exit {
        push_named(alloc, &mut words, "exit", status)?;
    }
    Ok(words)
}

/// Adds a number and the word of the table that stands before it.
fn push_named(
    alloc: Global,
    words: &mut String,
    name: &str,
    number: impl fmt::Display + Drop,
) -> Result<(), Fail> {
    words.push_str(&format!(in alloc; " {name} {number}")?)?;
    Ok(())
}

/// Adds the speculations that are ended, in the words of the table.
fn push_ends(alloc: Global, words: &mut String, ends: &[SpecEnd]) -> Result<(), Fail> {
    for end in ends {
        let one = match end {
            SpecEnd::Commit(id) => format!(in alloc; " commit {id}")?,
            SpecEnd::Discard(id) => format!(in alloc; " discard {id}")?,
        };
        words.push_str(&one)?;
    }
    Ok(())
}

/// Adds the numbers that are given, in the words of the table.
fn push_given(alloc: Global, words: &mut String, values: &[Value]) -> Result<(), Fail> {
    for value in values {
        if let Value::Number(number) = value {
            words.push_str(&format!(in alloc; " = {number}")?)?;
        }
    }
    Ok(())
}

fn digits_of(alloc: Global, bytes: &[u8]) -> Result<String, Fail> {
    let mut digits = String::new(alloc);
    for byte in bytes {
        digits.push_str(&format!(in alloc; "{byte:02x}")?)?;
    }
    Ok(digits)
}

fn parsed(alloc: Global, text: &str) -> Result<Program, Fail> {
    Ok(Program::parse(alloc, text.as_bytes())?)
}

/// A word of the table.
fn word(alloc: Global, word: &str) -> Result<String, Fail> {
    Ok(String::from_str(alloc, word)?)
}

/// What a clause leaves.
fn told(alloc: Global, clause: &Clause, scene: &Scene) -> Result<String, Fail> {
    let mut locals = Locals::new(alloc, 64)?;
    let mut specs = Specs::new(alloc, 1, 64, 1)?;
    match taken(5, clause, scene, &mut locals, &mut specs) {
        Ok(Some(left)) => words_of(alloc, &left),
        Ok(None) => word(alloc, "passed"),
        Err(_) => word(alloc, "fault"),
    }
}

/// What it leaves in place of what the clauses before it left.
fn told_again(
    alloc: Global,
    clause: &Clause,
    scene: &Scene,
    left: &mut Taken,
) -> Result<String, Fail> {
    let mut locals = Locals::new(alloc, 64)?;
    let mut specs = Specs::new(alloc, 1, 64, 1)?;
    match left.take(5, clause, scene, &mut locals, &mut specs) {
        Ok(true) => words_of(alloc, left),
        Ok(false) => word(alloc, "passed"),
        Err(_) => word(alloc, "fault"),
    }
}

/// Room for what clauses leave that do nothing but record, or nothing but give.
#[derive(Drop)]
struct BareRoom {
    record: ArrayVec<u8, RECORD_MAX>,
    values: ArrayVec<Value, VALUES_MAX>,
    /// How many clauses did nothing but record so far, how many nothing but give, and how many traced a variable alone.
    recording: usize,
    giving: usize,
    tracing: usize,
}

/// What it leaves by the way of such clauses, in place of what those before it left; nothing where it does more.
fn told_bare(
    alloc: Global,
    clause: &Clause,
    scene: &Scene,
    room: &mut BareRoom,
) -> Result<Option<String>, Fail> {
    match told_record(alloc, clause, scene, room)? {
        Some(words) => Ok(Some(words)),
        None => told_given(alloc, clause, scene, room),
    }
}

/// What a clause leaves that does nothing but record.
fn told_record(
    alloc: Global,
    clause: &Clause,
    scene: &Scene,
    room: &mut BareRoom,
) -> Result<Option<String>, Fail> {
    if !only_records(clause) {
        return Ok(None);
    }
    let locals = Locals::new(alloc, 64)?;
    room.recording = room.recording.saturating_add(1);
    Ok(Some(
        match record_only(&mut room.record, 5, clause, scene, &locals) {
            Ok(true) => digits_of(alloc, room.record.as_slice())?,
            Ok(false) => word(alloc, "passed")?,
            Err(_) => word(alloc, "fault")?,
        },
    ))
}

/// What a clause leaves that does nothing but give.
fn told_given(
    alloc: Global,
    clause: &Clause,
    scene: &Scene,
    room: &mut BareRoom,
) -> Result<Option<String>, Fail> {
    if !only_gives(clause) {
        return Ok(None);
    }
    let locals = Locals::new(alloc, 64)?;
    room.giving = room.giving.saturating_add(1);
    Ok(Some(match give_only(&mut room.values, clause, scene, &locals) {
        Ok(true) => given(alloc, room.values.as_slice())?,
        Ok(false) => word(alloc, "passed")?,
        Err(_) => word(alloc, "fault")?,
    }))
}

/// No record, and the numbers that are given, in the words of the table.
fn given(alloc: Global, values: &[Value]) -> Result<String, Fail> {
    let mut words = String::from_str(alloc, "-")?;
    push_given(alloc, &mut words, values)?;
    Ok(words)
}

/// What a clause leaves that traces a variable and does nothing else, whatever was left before; nothing where it does more.
fn told_traced(
    alloc: Global,
    clause: &Clause,
    scene: &Scene,
    room: &mut BareRoom,
) -> Result<Option<String>, Fail> {
    let Some(variable) = traced_variable(clause) else {
        return Ok(None);
    };
    room.tracing = room.tracing.saturating_add(1);
    Ok(Some(digits_of(alloc, &traced_record(5, variable, scene))?))
}

/// Compares what was told of a line's clause by a way.
fn is_told(rt: &impl Abort, told: &str, wanted: &str, way: &str, line: &str) {
    assert_eq!(rt; told, wanted, "{way}: {line}");
}

/// Compares what was told by a way, if anything was.
fn if_told(rt: &impl Abort, told: Option<String>, wanted: &str, way: &str, line: &str) {
    if let Some(told) = told {
        is_told(rt, told.as_str(), wanted, way, line);
    }
}

/// Checks by each way what the clause of a line leaves.
fn leaves(
    rt: &impl Abort,
    alloc: Global,
    scene: &Scene,
    (left, room): (&mut Taken, &mut BareRoom),
    line: &str,
) -> Result<(), Fail> {
    let Some((text, wanted)) = line.split_once(" => ") else {
        return Ok(());
    };
    let program = parsed(alloc, text)?;
    let clause = program.clauses.first().ok_or("no clause")?;
    leaves_taken(rt, alloc, (clause, scene), left, (wanted, line))?;
    leaves_bare(rt, alloc, (clause, scene), room, (wanted, line))
}

/// Checks what a clause leaves that is taken, alone and in place of what those before it left.
fn leaves_taken(
    rt: &impl Abort,
    alloc: Global,
    (clause, scene): (&Clause, &Scene),
    left: &mut Taken,
    (wanted, line): (&str, &str),
) -> Result<(), Fail> {
    let alone = told(alloc, clause, scene)?;
    is_told(rt, alone.as_str(), wanted, "alone", line);
    let again = told_again(alloc, clause, scene, left)?;
    is_told(rt, again.as_str(), wanted, "after others", line);
    Ok(())
}

/// Checks what it leaves by the ways of clauses that do nothing but record or give, where it has one.
fn leaves_bare(
    rt: &impl Abort,
    alloc: Global,
    (clause, scene): (&Clause, &Scene),
    room: &mut BareRoom,
    (wanted, line): (&str, &str),
) -> Result<(), Fail> {
    let bare = told_bare(alloc, clause, scene, room)?;
    if_told(rt, bare, wanted, "bare", line);
    let traced = told_traced(alloc, clause, scene, room)?;
    if_told(rt, traced, wanted, "traced", line);
    Ok(())
}

/// Checks what the table says of each clause, and gives the room that those took that do nothing but record or give.
fn table_holds(rt: &impl Abort, alloc: Global, scene: &Scene) -> Result<BareRoom, Fail> {
    let mut left = Taken::new();
    let mut room = BareRoom {
        record: ArrayVec::new(),
        values: ArrayVec::new(),
        recording: 0,
        giving: 0,
        tracing: 0,
    };
    for line in CLAUSES.lines() {
        leaves(rt, alloc, scene, (&mut left, &mut room), line)?;
    }
    Ok(room)
}

/// The probe and the process of the firing.
fn probe_and_process() -> Option<(Probe, Process)> {
    let tuple = ProbeTuple::parse(b"syscall::read:entry")?;
    let process = Process {
        pid: 100,
        uid: 501,
        execname: ShortText::new(b"sh")?,
    };
    Some((Probe::new(3, tuple), process))
}

/// The firing that each clause sees.
fn firing() -> Firing {
    Firing {
        cpu: 0,
        place: 0,
        probe: 3,
        pid: 100,
        tid: 1,
        mode: Mode::User,
        timestamp: 0,
        args: [7, 0, 0, 0, 0, 0, 0, 0, 0, 0],
        kstack: [17, 0, 0, 0, 0, 0, 0, 0],
        ustack: [u64::MAX, 0, 0, 0, 0, 0, 0, 0],
    }
}

#[test]
fn leaves_what_the_table_says(rt: HostRuntime) -> Result<(), Fail> {
    let (probe, process) = probe_and_process().ok_or("no probe")?;
    let firing = firing();
    let scene = Scene {
        epid: 5,
        probe: &probe,
        process: &process,
        firing: &firing,
    };
    let room = table_holds(&rt, rt.alloc(), &scene)?;
    // so many lines of the table have such a way
    assert_eq!(rt; (room.recording, room.giving, room.tracing), (16, 3, 4));
    Ok(())
}

/// The EPID of each record of these bytes and how many values it has, or `none` where they are no records.
fn records(alloc: Global, layout: Layout, bytes: &[u8]) -> Result<String, Fail> {
    let Some(records) = split(alloc, &[layout], bytes)? else {
        return Ok(String::from_str(alloc, "none")?);
    };
    let mut text = String::new(alloc);
    for record in &records {
        let one = format!(in alloc; " {}:{}", record.epid, record.values.len())?;
        text.push_str(one.as_str())?;
    }
    Ok(text)
}

/// A record, of EPID 1, of two values.
const RECORD: &[u8] = &[
    0, 0, 0, 1, 128, 0, 0, 0, 0, 0, 0, 0, 128, 0, 0, 0, 0, 0, 0, 0,
];

#[test]
fn reads_records_back(rt: HostRuntime) -> Result<(), Fail> {
    let alloc = rt.alloc();
    let program = parsed(alloc, "read:entry{trace(arg0);trace(arg0 / arg1)}")?;
    let clause = program.clauses.first().ok_or("no clause")?;
    is_read_back(&rt, alloc, clause, RECORD, " 1:2")?;
    is_read_back(&rt, alloc, clause, &RECORD[..19], "none")?;
    is_read_back(&rt, alloc, clause, &[], "")
}

/// Compares what is read back of these bytes, which are records of a clause.
fn is_read_back(
    rt: &impl Abort,
    alloc: Global,
    clause: &Clause,
    bytes: &[u8],
    wanted: &str,
) -> Result<(), Fail> {
    let found = records(alloc, Layout::of(clause), bytes)?;
    assert!(rt; found.as_str() == wanted, "{} bytes", bytes.len());
    Ok(())
}

#[test]
fn reads_a_megabyte_of_records_back(rt: HostRuntime) -> Result<(), Fail> {
    let alloc = rt.alloc();
    let program = parsed(alloc, "read:entry{trace(arg0);trace(epid)}")?;
    are_read_back(&rt, alloc, program.clauses.first().ok_or("no clause")?)
}

/// Reads 1,048,560 bytes back, as many of a clause's records as the largest buffer holds, and one byte less.
fn are_read_back(rt: &impl Abort, alloc: Global, clause: &Clause) -> Result<(), Fail> {
    let bytes = RECORD.repeat(alloc, 52_428)?;
    let all = " 1:2".repeat(alloc, 52_428)?;
    is_read_back(rt, alloc, clause, &bytes, all.as_str())?;
    let (_, cut) = bytes.split_last().ok_or("no bytes")?;
    is_read_back(rt, alloc, clause, cut, "none")
}
