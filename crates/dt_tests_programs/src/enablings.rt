//! Worked rows: which ECBs a program adds, or for what it is refused, and what is listed.
use crate::asserts::same;
use dt_cred::Probe;
use dt_ecb::{Ecb, EnableFault, RestrictedAction, Shapes, enable, listed};
use dt_expr::{Expr, Text};
use dt_lang::{
    AggregationUse, Argument, Bounds, CLAUSES_MAX, Call, Clause, DESCRIPTIONS_MAX, Description,
    Frames, KEYS_MAX, ParseProgram, Program, STATEMENTS_MAX, Statement,
};
use dt_machine::Machine;
use dt_names::ShortText;
use std::alloc::Global;
use std::process::Abort;
use std::test::Fail;

/// Two processes, of ann's and eve's uid and of root's, and probes 3 to 6.
const MACHINE: &str = r#"{"cpus":1,
"accounts":[{"name":"root","uid":0,"privs":["dtrace_kernel"]},{"name":"ann","uid":501,"privs":["dtrace_user"]},
{"name":"eve","uid":501,"privs":["dtrace_proc","dtrace_user"]}],
"processes":[{"pid":100,"uid":501,"execname":"sh"},{"pid":200,"uid":0,"execname":"cron"}],
"probes":["syscall::read:entry","profile:::tick-1sec","fbt:genunix:kmem_alloc:entry","pid100:libc:malloc:entry"],
"scripts":[[]]}"#;

/// `given PROGRAM` accepts what a program uses, `forget` forgets all that. Else an account, its next EPID and a
/// program, with the EPID, the probe and the clause of each of its ECBs, or the refusal; or `list`, an account and a
/// description, with the numbers of the probes; or `named` and a name, with its number and its function.
const ROWS: &str = "
ann 1 fbt:::entry = NoMatch 1
ann 1 syscall:::entry stack = Privilege 1 stack
ann 1 fbt:::entry stack = Privilege 1 stack
root 1 syscall:::entry stack = 1:3:0
ann 7 syscall:::entry = 7:3:0
ann 1 ::: = 1:1:0 2:2:0 3:3:0 4:4:0
root 1 ::: = 1:1:0 2:2:0 3:3:0 4:4:0 5:5:0
eve 1 pid*::: = 1:6:0
root 1 pid*::: = NoMatch 1
ann 1 BEGIN / rea? / read:entry,tick-1sec,syscall::: = NoMatch 2
ann 1 BEGIN / rea?:entry / read:entry,tick-1sec,syscall::: = 1:1:0 2:3:1 3:3:2 4:4:2
ann 1 BEGIN / nothing / read:entry trace;stack = Privilege 3 stack
root 1 BEGIN exit = 1:1:0
root 1 BEGIN trace;count,a = 1:1:0
root 1 nothing count,a = NoMatch 1
root 1 nothing count,a;sum,a = AggClash a
ann 1 nothing count,a;sum,a;stack = Privilege 1 stack
root 1 BEGIN count,a;sum,b / END sum,a;count,b = AggClash a
root 1 BEGIN count,a;count,a = 1:1:0
root 1 BEGIN count,a,number;count,a,text = AggClash a
root 1 BEGIN count,a,number;count,a,number,text = AggClash a
root 1 BEGIN ten,a;ten,a = 1:1:0
root 1 BEGIN ten,a;tens,a = AggClash a
root 1 BEGIN ten,a;twenty,a = AggClash a
root 1 text BEGIN{@a=lquantize(arg0,0,10)}END{@a=lquantize(arg0,0,10,1)} = 1:1:0 2:2:1
root 1 text BEGIN{@a=lquantize(arg0,0,10)}END{@a=lquantize(arg0,0,10,2)} = AggClash a
named a =
given BEGIN count,a,text;ten,b
given BEGIN ten,b;sum,
named a = 0 a Count
named b = 1 b Lquantize(Bounds { lower: 0, upper: 10, step: 1 })
named c =
named ab =
named  = 3  Sum
root 1 BEGIN sum,c;count,a = AggClash a
root 1 BEGIN sum,a,text = AggClash a
root 1 BEGIN count,c;twenty,b;count,c,number = AggClash b
root 1 BEGIN count,a,text;ten,b = 1:1:0
forget
root 1 BEGIN sum,c;count,a = 1:1:0
root 1 16 x BEGIN sum,a#;sum,b#;sum,c#;sum,d# = 16 from 1:1:0 to 16:1:15
root 1 13 x BEGIN sum,a#;sum,b#;sum,c#;sum,d#;sum,e# = Limit
given 16 x BEGIN sum,a#;sum,b#;sum,c#;sum,d#
named d15 = 63 d15 Sum
root 1 BEGIN sum,a0;sum,d15 = 1:1:0
root 1 BEGIN sum,a0;sum,e = Limit
root 1 nothing sum,e = NoMatch 1
forget
root 705 64 x ::: = 320 from 705:1:0 to 1024:5:63
root 706 64 x ::: = Limit
root 1020 ::: = 1020:1:0 1021:2:0 1022:3:0 1023:4:0 1024:5:0
root 1021 ::: = Limit
root 1025 BEGIN = Limit
root 1025 nothing = NoMatch 1
list ann fbt::: =
list ann :::e* = 3
list root :::e* = 3 5
list eve = 1 2 3 4 6
";

/// What an argument, a value or a status is in the rows.
const ZERO: Expr = Expr::Number(0);

/// A key by its kind.
fn key(kind: &str) -> Result<Argument, Fail> {
    if kind == "text" {
        let text = ShortText::new(b"t").ok_or("no text")?;
        return Ok(Argument::Text(Text::Literal(text)));
    }
    Ok(Argument::Number(ZERO))
}

/// What an aggregation is given, by the name of its function. `ten`, `tens` and `twenty` are levels.
fn call(function: &str) -> Result<Call, Fail> {
    Ok(match function {
        "count" => Call::Count,
        "sum" => Call::Sum(ZERO),
        "ten" => Call::Lquantize(
            ZERO,
            Bounds {
                lower: 0,
                upper: 10,
                step: 1,
            },
        ),
        "tens" => Call::Lquantize(
            ZERO,
            Bounds {
                lower: 0,
                upper: 10,
                step: 5,
            },
        ),
        "twenty" => Call::Lquantize(
            ZERO,
            Bounds {
                lower: 0,
                upper: 20,
                step: 1,
            },
        ),
        _ => return Err("no function".into()),
    })
}

/// A statement: an action, or a function, an aggregation's name and the kinds of its keys.
fn statement(alloc: Global, text: &str) -> Result<Statement, Fail> {
    let (word, rest) = text.split_once(',').unwrap_or((text, ""));
    match word {
        "trace" => Ok(Statement::Trace(Argument::Number(ZERO))),
        "stack" => Ok(Statement::Stack(Frames { count: 2 })),
        "exit" => Ok(Statement::Exit(ZERO)),
        _ => aggregate(alloc, word, rest),
    }
}

/// A statement that gives to an aggregation.
fn aggregate(alloc: Global, function: &str, rest: &str) -> Result<Statement, Fail> {
    let (name, kinds) = rest.split_once(',').unwrap_or((rest, ""));
    let name = ShortText::new(name.as_bytes()).ok_or("no name")?;
    let keys = keys(alloc, kinds)?;
    if keys.len() > KEYS_MAX {
        return Err("too many keys".into());
    }
    let call = call(function)?;
    Ok(Statement::Aggregate(AggregationUse { name, keys, call }))
}

/// Keys of these kinds, which stand between commas.
fn keys(alloc: Global, kinds: &str) -> Result<Vec<Argument>, Fail> {
    let mut keys = Vec::new(alloc);
    for kind in kinds.split(',') {
        if kind != "" {
            keys.push(key(kind)?)?;
        }
    }
    Ok(keys)
}

/// A clause: descriptions with `,` between them, and statements with `;` between them.
fn clause(alloc: Global, text: &str) -> Result<Clause, Fail> {
    let (head, body) = text.split_once(' ').unwrap_or((text, ""));
    let descriptions = descriptions(alloc, head)?;
    let statements = statements(alloc, body)?;
    if descriptions.is_empty() || descriptions.len() > DESCRIPTIONS_MAX {
        return Err("no head".into());
    }
    if statements.len() > STATEMENTS_MAX {
        return Err("too many statements".into());
    }
    Ok(Clause {
        descriptions,
        predicate: None,
        statements,
    })
}

fn descriptions(alloc: Global, head: &str) -> Result<Vec<Description>, Fail> {
    let mut descriptions = Vec::new(alloc);
    for word in head.split(',') {
        descriptions.push(description(word).ok_or("no description")?)?;
    }
    Ok(descriptions)
}

fn statements(alloc: Global, body: &str) -> Result<Vec<Statement>, Fail> {
    let mut statements = Vec::new(alloc);
    for word in body.split(';') {
        if word != "" {
            statements.push(statement(alloc, word)?)?;
        }
    }
    Ok(statements)
}

fn parsed(alloc: Global, text: &str) -> Result<Program, Fail> {
    Ok(Program::parse(alloc, text.as_bytes())?)
}

fn description(text: &str) -> Option<Description> {
    Description::parse(text.as_bytes()).ok()
}

/// A program: clauses with ` / ` between them, or a number of times the same with ` x ` after the number, where `#` is
/// how many times went before; or its text after `text`.
fn program(alloc: Global, text: &str) -> Result<Program, Fail> {
    if let Some(text) = text.strip_prefix("text ") {
        return parsed(alloc, text);
    }
    let (times, text) = text.split_once(" x ").unwrap_or(("1", text));
    let times = times.parse::<u32>().ok().ok_or("no number")?;
    let mut clauses = Vec::new(alloc);
    for time in 0..times {
        push_clauses(alloc, &mut clauses, text, time)?;
    }
    if clauses.is_empty() || clauses.len() > CLAUSES_MAX {
        return Err("no program".into());
    }
    Ok(Program { clauses })
}

/// Adds the clauses of a text, where `#` is how many times went before.
fn push_clauses(
    alloc: Global,
    clauses: &mut Vec<Clause>,
    text: &str,
    time: u32,
) -> Result<(), Fail> {
    let number = format!(in alloc; "{time}")?;
    for part in text.split(" / ") {
        clauses.push(numbered_clause(alloc, part, number.as_str())?)?;
    }
    Ok(())
}

/// A clause, with this number in the place of each `#`.
fn numbered_clause(alloc: Global, text: &str, number: &str) -> Result<Clause, Fail> {
    clause(alloc, text.replace(alloc, "#", number)?.as_str())
}

/// ECBs as text; of more than eight, how many, the first and the last.
fn spelled(alloc: Global, ecbs: &[Ecb]) -> Result<String, Fail> {
    let text = each_spelled(alloc, ecbs)?;
    if ecbs.len() > 8 {
        shortened(alloc, ecbs.len(), text.as_str())
    } else {
        Ok(text)
    }
}

fn each_spelled(alloc: Global, ecbs: &[Ecb]) -> Result<String, Fail> {
    let mut text = String::new(alloc);
    for ecb in ecbs {
        let one = format!(in alloc; " {}:{}:{}", ecb.epid, ecb.probe, ecb.clause)?;
        text.push_str(one.as_str())?;
    }
    Ok(text)
}

fn shortened(alloc: Global, count: usize, text: &str) -> Result<String, Fail> {
    let first = text.split(' ').nth(1).unwrap_or("");
    let last = text.rsplit(' ').next().unwrap_or("");
    Ok(format!(in alloc; " {count} from {first} to {last}")?)
}

/// What a program is answered.
fn answered(alloc: Global, machine: &Machine, shapes: &Shapes, row: &str) -> Result<String, Fail> {
    let (name, rest) = row.split_once(' ').ok_or("no account")?;
    let (epid, text) = rest.split_once(' ').ok_or("no EPID")?;
    let program = program(alloc, text)?;
    enabled(alloc, machine, shapes, name, epid.parse::<u32>()?, &program)
}

/// The ECBs that a program adds for an account and its next EPID, or the refusal.
fn enabled(
    alloc: Global,
    machine: &Machine,
    shapes: &Shapes,
    name: &str,
    epid: u32,
    program: &Program,
) -> Result<String, Fail> {
    let account = machine.account(name.as_bytes()).ok_or("no account")?;
    if epid < 1 || epid > 1025 {
        return Err("no EPID".into());
    }
    match enable(alloc, account, machine, program, shapes, epid) {
        Ok(ecbs) => spelled(alloc, &ecbs),
        Err(fault) => refusal(alloc, &fault),
    }
}

/// A refusal as text.
fn refusal(alloc: Global, fault: &EnableFault) -> Result<String, Fail> {
    match fault {
        EnableFault::Privilege { clause, what } => privilege(alloc, *clause, *what),
        EnableFault::AggClash { what } => clash(alloc, what),
        EnableFault::NoMatch { clause } => Ok(format!(in alloc; " NoMatch {clause}")?),
        EnableFault::Limit => Ok(String::from_str(alloc, " Limit")?),
        EnableFault::Memory => Err("out of memory".into()),
    }
}

fn privilege(alloc: Global, clause: u32, what: RestrictedAction) -> Result<String, Fail> {
    Ok(format!(in alloc; " Privilege {clause} {what}")?)
}

fn clash(alloc: Global, what: &ShortText) -> Result<String, Fail> {
    let name = str::from_utf8(what.as_bytes()).ok().ok_or("no name")?;
    Ok(format!(in alloc; " AggClash {name}")?)
}

/// The identifiers of the probes that are listed.
fn listing(alloc: Global, machine: &Machine, row: &str) -> Result<String, Fail> {
    let (name, text) = row.split_once(' ').unwrap_or((row, ""));
    let account = machine.account(name.as_bytes()).ok_or("no account")?;
    let description = description(text).ok_or("no description")?;
    identifiers(alloc, &listed(alloc, account, machine, &description)?)
}

/// The identifiers of probes, as text.
fn identifiers(alloc: Global, probes: &[Probe]) -> Result<String, Fail> {
    let mut told = String::new(alloc);
    for probe in probes {
        told.push_str(format!(in alloc; " {}", probe.id)?.as_str())?;
    }
    Ok(told)
}

/// What a program uses, beside what is accepted.
fn accepted(alloc: Global, shapes: &Shapes, text: &str) -> Result<Shapes, Fail> {
    Ok(shapes.after(alloc, &program(alloc, text)?)?)
}

fn machine(alloc: Global) -> Result<Machine, Fail> {
    Ok(Machine::read(alloc, MACHINE.as_bytes())?)
}

/// What a row but `given` and `forget` is answered.
fn told(alloc: Global, machine: &Machine, shapes: &Shapes, asked: &str) -> Result<String, Fail> {
    if let Some(rest) = asked.strip_prefix("list ") {
        listing(alloc, machine, rest)
    } else if let Some(name) = asked.strip_prefix("named ") {
        numbered(alloc, shapes, name)
    } else {
        answered(alloc, machine, shapes, asked)
    }
}

/// The number of a name, the name and its function, or nothing.
fn numbered(alloc: Global, shapes: &Shapes, name: &str) -> Result<String, Fail> {
    let Some(one) = shapes.named(name.as_bytes()) else {
        return Ok(String::new(alloc));
    };
    let name = str::from_utf8(one.name.as_bytes()).ok().ok_or("no name")?;
    Ok(format!(in alloc; " {} {name} {:?}", one.number, one.function)?)
}

#[test]
fn worked_rows(rt: HostRuntime) -> Result<(), Fail> {
    let alloc = rt.alloc();
    let machine = machine(alloc)?;
    let mut shapes = Shapes::new(alloc);
    for row in ROWS.lines() {
        play_row(&rt, alloc, &machine, &mut shapes, row)?;
    }
    Ok(())
}

/// Accepts or forgets what a row says, or checks it.
fn play_row(
    rt: &impl Abort,
    alloc: Global,
    machine: &Machine,
    shapes: &mut Shapes,
    row: &str,
) -> Result<(), Fail> {
    if let Some(text) = row.strip_prefix("given ") {
        *shapes = accepted(alloc, shapes, text)?;
    } else if row == "forget" {
        *shapes = Shapes::new(alloc);
    } else {
        check_row(rt, alloc, machine, shapes, row)?;
    }
    Ok(())
}

/// Checks that what a row asks is answered what it says. A row without ` =` is passed over.
fn check_row(
    rt: &impl Abort,
    alloc: Global,
    machine: &Machine,
    shapes: &Shapes,
    row: &str,
) -> Result<(), Fail> {
    if let Some((asked, want)) = row.split_once(" =") {
        same(
            rt,
            told(alloc, machine, shapes, asked)?.as_str(),
            want,
            asked,
        );
    }
    Ok(())
}
