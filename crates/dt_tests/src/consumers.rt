//! Consumers: what each line is answered, and which firings are seen.
use crate::asserts::same;
use dt_aggfn::{AggFn, CellAnswer};
use dt_aggstore::{Row, RowKey};
use dt_consumer::{Consumer, Draft};
use dt_life::{Command, OptionValue, Phase, Refusal, Reply};
use dt_machine::{Interest, Machine, PROBE_ID_MAX};
use std::alloc::Global;
use std::process::Abort;
use std::test::Fail;

/// Two processors, and probes 3 to 5.
const MACHINE: &str = r#"{"cpus":2,
"accounts":[{"name":"root","uid":0,"privs":["dtrace_kernel"]},{"name":"ann","uid":501,"privs":["dtrace_user"]}],
"processes":[{"pid":100,"uid":501,"execname":"sh"},{"pid":200,"uid":0,"execname":"cron"}],
"probes":["syscall::read:entry","profile:::tick-1sec","fbt:genunix:kmem_alloc:entry"],
"scripts":[[{"probe":3,"pid":100,"args":[4,0]},{"probe":3,"pid":100,"args":[4,2]}],
[{"probe":3,"pid":100,"args":[9,3]},{"probe":3,"pid":200},{"probe":3,"pid":100,"args":[6,1]}]]}"#;

/// `account NAME` begins a consumer; in any other row a step and what it is answered. A program is clauses with ` / `
/// between them, each a description and `quotient`, which traces arg0 / arg1, or `total`, which is
/// `@total[arg1] = sum(arg0 / arg1)`, or `exit`, which exits with arg0, or nothing.
const ROWS: &str = "
account root
interest = probes
status = Inactive 0 0 0
program BEGIN / read:entry quotient / tick-1sec = 3 from 1
interest = probes 1 3 4
program nothing = refused 5 NoMatch
program fbt::: = 1 from 4
interest = probes 1 3 4 5
describe 2 = 2: 3 syscall::read:entry 12
describe 4 = 4: 5 fbt:genunix:kmem_alloc:entry 4
describe 0 = refused 14 NoEpid
describe 5 = refused 14 NoEpid
snap 0 = refused 10 Busy
snap 2 = refused 12 NoCpu
go = done, publishes
status = Active 0 0 0
snap 0 = 0: [0, 0, 0, 1] 0
fire 0 0 = seen
fire 0 1 = seen
fire 1 0 = seen
status = Active 3 1 0
snap 0 = 0: [0, 0, 0, 2, 0, 0, 0, 0, 0, 0, 0, 2] 0
snap 0 = 0: [] 0
snap 1 = 1: [0, 0, 0, 2, 0, 0, 0, 0, 0, 0, 0, 3] 0
go = refused 10 Busy
describe 1 = 1: 1 dtrace:::BEGIN 4
list read:entry = 3
list a:b:c:d:e = refused 4 Program
account ann
program read:entry quotient = 1 from 1
go = done, publishes
snap 0 = 0: [] 0
fire 1 1 = unseen
fire 1 0 = seen
status = Active 1 0 0
account root
option bufsize 0 = refused 11 Option
option bufsize 1048577 = refused 11 Option
option histsize 1048577 = refused 11 Option
option bufsize ring = refused 11 Option
option bufpolicy tape = refused 11 Option
option bufpolicy 1 = refused 11 Option
option size 1 = refused 11 Option
stop = refused 10 Busy
option bufpolicy fill = done
option bufsize 3 = done
program read:entry / END = 2 from 1
go = refused 9 Limit
option bufsize 16 = done
go = done, publishes
option bufsize 16 = refused 10 Busy
fire 0 0 = seen
fire 0 0 = seen
fire 0 0 = seen
snap 0 = 0: [0, 0, 0, 1, 0, 0, 0, 1, 0, 0, 0, 1] 0
fire 0 0 = seen
stop = done
snap 0 = 0: [0, 0, 0, 1, 0, 0, 0, 1, 0, 0, 0, 1, 0, 0, 0, 2] 0 filled
status = Stopped(Some(Stop)) 4 0 0
stop = refused 10 Busy
fire 0 0 = unseen
account root
option bufpolicy ring = done
option bufsize 8 = done
option histsize 3 = done
program read:entry / read:entry quotient = 2 from 1
go = done, publishes
fire 0 1 = seen
fire 0 1 = seen
snap 0 = refused 10 Busy
fire 0 1 = seen
status = Stopped(Some(History)) 3 0 0
snap 0 = 0: [0, 0, 0, 1, 0, 0, 0, 1] 3
account root
program BEGIN exit / END = 2 from 1
go = done, publishes
status = Stopped(Some(Exit(0))) 0 0 0
snap 0 = 0: [0, 0, 0, 2] 0
go = refused 10 Busy
account root
option histsize 1 = done
program read:entry exit / read:entry / END exit = 3 from 1
go = done, publishes
fire 0 1 = seen
status = Stopped(Some(Exit(4))) 1 0 0
snap 0 = 0: [] 0
account root
option aggsize 7 = refused 11 Option
option aggsize 1048577 = refused 11 Option
option aggsize 24 = done
agg total = refused 13 NoAgg
program tick-1sec / read:entry total = 2 from 1
agg total = Sum
trunc total = done
go = done, publishes
option aggsize 24 = refused 10 Busy
fire 0 0 = seen
fire 0 1 = seen
fire 0 1 = seen
fire 1 0 = seen
agg total = Sum 2=4 3=3
fire 1 2 = seen
fire 1 0 = seen
agg total = Sum 2=4 3=6
status = Active 6 1 0, dropped 0 1
trunc other = refused 13 NoAgg
trunc total = done
agg total = Sum
fire 1 2 = seen
stop = done
agg total = Sum 1=6
status = Stopped(Some(Stop)) 7 1 0, dropped 0 1
trunc total = done
agg total = Sum
account root
program read:entry / END = 2 from 1
go = done, publishes
fire 0 0 = seen
close = done, closes
fire 0 0 = unseen
snap 0 = 0: [0, 0, 0, 1] 0
stop = refused 10 Busy
status = Stopped(None) 1 0 0
close = done, closes
account root
option bufpolicy fill = done
option bufsize 3 = done
program END / read:entry total = 2 from 1
close = done, closes
go = refused 10 Busy
snap 0 = 0: [] 0
snap 2 = refused 12 NoCpu
agg total = Sum
trunc total = done
status = Stopped(None) 0 0 0
account root
program BEGIN exit = 1 from 1
go = done, publishes
close = done, closes
status = Stopped(Some(Exit(0))) 0 0 0
";

/// The text of a program whose clauses stand here with ` / ` between them.
fn program(alloc: Global, clauses: &str) -> Result<String, Fail> {
    let mut text = String::new(alloc);
    for clause in clauses.split(" / ") {
        let (head, body) = clause.split_once(' ').unwrap_or((clause, ""));
        let statement = statement_of(body);
        text.push_str(format!(in alloc; "{head}{{{statement}}} ")?.as_str())?;
    }
    Ok(text)
}

/// The statement of a clause.
fn statement_of(body: &str) -> &'static str {
    match body {
        "quotient" => "trace(arg0/arg1)",
        "total" => "@total[arg1]=sum(arg0/arg1)",
        "exit" => "exit(arg0)",
        _ => "",
    }
}

/// A table of sums as text: its function, and each key with its sum.
fn table(alloc: Global, function: AggFn, rows: &[Row]) -> Result<String, Fail> {
    let mut text = format!(in alloc; "{function:?}")?;
    for row in rows {
        if let (RowKey::Numbers(numbers), CellAnswer::Number(sum)) = (&row.key, &row.value) {
            if let Some(key) = numbers.as_slice().first() {
                text.push_str(format!(in alloc; " {key}={sum}")?.as_str())?;
            }
        }
    }
    Ok(text)
}

/// A reply as text.
fn spelled(alloc: Global, reply: &Reply) -> Result<String, Fail> {
    match reply {
        Reply::Done => Ok(String::from_str(alloc, "done")?),
        Reply::Enabled { count, first } => Ok(format!(in alloc; "{count} from {first}")?),
        Reply::Snapped {
            cpu,
            data,
            drops,
            filled,
        } => snapped(alloc, *cpu, data, *drops, *filled),
        Reply::Status {
            phase,
            seen,
            errors,
            aggdrops,
            ..
        } => status(alloc, *phase, *seen, errors, aggdrops),
        Reply::Aggregated { function, rows, .. } => table(alloc, *function, rows),
        Reply::Refused(refusal) => refused(alloc, *refusal),
        Reply::Listed { .. } | Reply::Described { .. } => of_probes(alloc, reply),
    }
}

fn snapped(alloc: Global, cpu: u32, data: &[u8], drops: u64, filled: bool) -> Result<String, Fail> {
    let end = if filled { " filled" } else { "" };
    Ok(format!(in alloc; "{cpu}: {data:?} {drops}{end}")?)
}

fn status(
    alloc: Global,
    phase: Phase,
    seen: u64,
    errors: &[u64],
    aggdrops: &[u64],
) -> Result<String, Fail> {
    let mut text = format!(in alloc; "{phase:?} {seen}")?;
    push_counts(alloc, &mut text, errors)?;
    if aggdrops.iter().any(|count| *count > 0) {
        text.push_str(", dropped")?;
        push_counts(alloc, &mut text, aggdrops)?;
    }
    Ok(text)
}

fn push_counts(alloc: Global, text: &mut String, counts: &[u64]) -> Result<(), Fail> {
    for count in counts {
        text.push_str(format!(in alloc; " {count}")?.as_str())?;
    }
    Ok(())
}

fn refused(alloc: Global, refusal: Refusal) -> Result<String, Fail> {
    Ok(format!(in alloc; "refused {} {}", refusal.number(), refusal.name())?)
}

/// A reply that has probes, as text.
fn of_probes(alloc: Global, reply: &Reply) -> Result<String, Fail> {
    let mut text = String::new(alloc);
    match reply {
        Reply::Listed { probes } => {
            for probe in probes {
                text.push_str(format!(in alloc; "{}", probe.id)?.as_str())?;
            }
        }
        Reply::Described {
            epid,
            probe,
            layout,
        } => text.push_str(format!(in alloc;
            "{epid}: {} {} {}",
            probe.id,
            probe.tuple,
            layout.size()
        )?.as_str())?,
        _ => {}
    }
    Ok(text)
}

/// An option's name and its value, which is a number or a word.
fn option(alloc: Global, text: &str) -> Result<Command, Fail> {
    let (name, value) = text.split_once(' ').ok_or("no value")?;
    let value = match value.parse::<u64>() {
        Ok(number) => OptionValue::Number(number),
        Err(_) => OptionValue::Text(String::from_str(alloc, value)?),
    };
    Ok(Command::Option {
        name: String::from_str(alloc, name)?,
        value,
    })
}

/// The command of a step that is a line.
fn command(alloc: Global, text: &str) -> Result<Command, Fail> {
    let (word, rest) = text.split_once(' ').unwrap_or((text, ""));
    match word {
        "program" => Ok(Command::Enable {
            text: program(alloc, rest)?,
        }),
        "option" => option(alloc, rest),
        "go" => Ok(Command::Go),
        "stop" => Ok(Command::Stop),
        "status" => Ok(Command::Status),
        "close" => Ok(Command::Close),
        "snap" => Ok(Command::Snap { cpu: number(rest)? }),
        "describe" => Ok(Command::Describe {
            epid: number(rest)?,
        }),
        _ => naming(alloc, word, rest),
    }
}

/// The command of a step that names an aggregation or a probe.
fn naming(alloc: Global, word: &str, name: &str) -> Result<Command, Fail> {
    let name = String::from_str(alloc, name)?;
    Ok(match word {
        "agg" => Command::Agg { name },
        "trunc" => Command::Trunc { name },
        _ => Command::List { probe: name },
    })
}

fn number(word: &str) -> Result<u64, Fail> {
    Ok(word.parse::<u64>().ok().ok_or("no number")?)
}

/// What a draft says of its line.
fn told(alloc: Global, draft: &Draft) -> Result<String, Fail> {
    let mut told = spelled(alloc, draft.reply())?;
    if draft.publishes() {
        told.push_str(", publishes")?;
    }
    if draft.closes() {
        told.push_str(", closes")?;
    }
    Ok(told)
}

/// Whether the firing at a place of a processor's script is seen.
fn offered(consumer: &mut Consumer, machine: &Machine, cpu: u32, place: u32) -> Option<bool> {
    let firing = machine.firing(cpu, place)?;
    Some(consumer.offer(machine, firing))
}

fn interests(consumer: &Consumer) -> Result<Interest, Fail> {
    Ok(consumer.interest()?)
}

/// The probes that a consumer is interested in, among all that a machine can have.
fn interest(alloc: Global, consumer: &Consumer) -> Result<String, Fail> {
    let interest = interests(consumer)?;
    let mut text = String::from_str(alloc, "probes")?;
    for id in 0..PROBE_ID_MAX + 1 {
        if interest.contains(id) {
            text.push_str(format!(in alloc; " {id}")?.as_str())?;
        }
    }
    Ok(text)
}

/// What a step is answered: `fire CPU PLACE`, `interest`, or a line.
fn answered(
    alloc: Global,
    machine: &Machine,
    consumer: &mut Consumer,
    text: &str,
) -> Result<String, Fail> {
    if let Some(numbers) = text.strip_prefix("fire ") {
        fired(alloc, machine, consumer, numbers)
    } else if text == "interest" {
        interest(alloc, consumer)
    } else {
        asked(alloc, machine, consumer, text)
    }
}

/// Whether the firing at a processor's place is seen, as text.
fn fired(
    alloc: Global,
    machine: &Machine,
    consumer: &mut Consumer,
    numbers: &str,
) -> Result<String, Fail> {
    let (cpu, place) = numbers.split_once(' ').ok_or("no place")?;
    let (cpu, place) = (cpu.parse::<u32>()?, place.parse::<u32>()?);
    let seen = offered(consumer, machine, cpu, place).ok_or("no firing")?;
    Ok(String::from_str(alloc, if seen { "seen" } else { "unseen" })?)
}

/// What a line is answered.
fn asked(
    alloc: Global,
    machine: &Machine,
    consumer: &mut Consumer,
    text: &str,
) -> Result<String, Fail> {
    let line: Result<Command, Refusal> = Ok(command(alloc, text)?);
    let draft = consumer.draft(alloc, machine, &line)?;
    let told = told(alloc, &draft)?;
    consumer.apply(machine, draft);
    Ok(told)
}

/// A consumer of the account of this name.
fn consumer(alloc: Global, machine: &Machine, name: &str) -> Result<Consumer, Fail> {
    let account = machine.account(name.as_bytes()).ok_or("no account")?;
    Ok(Consumer::new(alloc, *account, machine)?)
}

fn machine(alloc: Global) -> Result<Machine, Fail> {
    Ok(Machine::read(alloc, MACHINE.as_bytes())?)
}

#[test]
fn consumers_answer_what_the_rows_say(rt: HostRuntime) -> Result<(), Fail> {
    let alloc = rt.alloc();
    let machine = machine(alloc)?;
    let mut asking = consumer(alloc, &machine, "root")?;
    play_rows(&rt, alloc, &machine, &mut asking)
}

/// Plays all rows, which begin with this consumer.
fn play_rows(
    rt: &impl Abort,
    alloc: Global,
    machine: &Machine,
    asking: &mut Consumer,
) -> Result<(), Fail> {
    for row in ROWS.lines() {
        play_row(rt, alloc, machine, asking, row)?;
    }
    Ok(())
}

/// Begins a consumer, or checks a row of the one that there is.
fn play_row(
    rt: &impl Abort,
    alloc: Global,
    machine: &Machine,
    asking: &mut Consumer,
    row: &str,
) -> Result<(), Fail> {
    if let Some(name) = row.strip_prefix("account ") {
        *asking = consumer(alloc, machine, name)?;
    } else {
        check_row(rt, alloc, machine, asking, row)?;
    }
    Ok(())
}

/// Checks that a row's step is answered what the row says. A row without ` = ` is passed over.
fn check_row(
    rt: &impl Abort,
    alloc: Global,
    machine: &Machine,
    consumer: &mut Consumer,
    row: &str,
) -> Result<(), Fail> {
    if let Some((text, want)) = row.split_once(" = ") {
        same(
            rt,
            answered(alloc, machine, consumer, text)?.as_str(),
            want,
            text,
        );
    }
    Ok(())
}
