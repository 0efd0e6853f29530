//! `dtr`, which traces from a terminal: a one-liner in, rows, tables and pictures of distributions out. It is a client of a service, `dtraced serve`.
//!
//! What stands here are words, the socket, time and files. What is printed for the values that a service answers is what `dt_front` is proved to print.
#![tactic(auto)]

mod checking;
mod enabling;
mod fault;
mod following;
mod forms;
mod input;
mod json_lines;
mod judging;
mod learning;
mod listing;
mod output;
mod page;
mod reading;
mod requests;
mod session;
mod snapping;
mod streams;
mod summing;
mod trail_lines;
mod words;

use checking::judge_trail;
use enabling::{begin, set_up};
use fault::Trouble;
use following::{Plan, follow};
use forms::Misfit;
use input::watch_input;
use judging::judge_machine;
use learning::Learnt;
use listing::list_probes;
use output::{create_output, reason_of, tell_path, write_answer};
use page::{Terminals, Widths, widths_of};
use reading::Readings;
use session::Session;
use snapping::RowShape;
use std::alloc::Global;
use std::io::{IsTerminal, Stdin, Write};
use std::net::Net;
use std::os::unix::net::UnixStream;
use std::process::ExitCode;
use std::rt::{Clock, Env, Files};
use std::thread::Threads;
use std::time::Duration;
use std::{env, fs};
use streams::hold_streams;
use summing::{ListedAggregation, push_tables};
use words::{Invocation, USAGE, tell_words};

fn main(rt: HostRuntime) -> ExitCode {
    let held = hold_streams(&rt);
    let terminals = Terminals {
        rows: rt.stdout().is_terminal(),
        messages: rt.stderr().is_terminal(),
    };
    let answered = match held {
        Ok(()) => execute(&rt, rt.stdin(), terminals),
        Err(fault) => Err(fault),
    };
    match answered {
        Ok(status) => ExitCode::from(status),
        Err(fault) => {
            // Where standard error fails too, the status is all that tells.
            let _told = eprint!(rt; "{fault}");
            ExitCode::from(fault.status())
        }
    }
}

/// Does what the program's words ask for, and gives the status.
fn execute<R: Files + Net + Env + Print + Eprint + AllocGlobal + Clock + Threads>(
    rt: &R,
    input: Stdin,
    terminals: Terminals,
) -> Result<u8, Trouble> {
    let args = words_given(rt)?;
    let words = words_lent(rt.alloc(), &args)?;
    execute_given(rt, input, terminals, &words)
}

/// The words that the program is called with. The first is its own name.
fn words_given<R: Env + Eprint + AllocGlobal>(rt: &R) -> Result<Vec<String>, Trouble> {
    match env::args(rt) {
        Ok(args) => Ok(args.collect::<Vec<String>>(rt.alloc())?),
        Err(_) => Err(tell_words(rt, b"a word isn't UTF-8")),
    }
}

/// The words as clap reads them.
fn words_lent<'a>(alloc: Global, args: &'a [String]) -> Result<Vec<&'a str>, Trouble> {
    Ok(
        args.iter()
            .map(|word| word.as_str())
            .collect::<Vec<&str>>(alloc)?,
    )
}

/// Reads the words, and does what they ask for. Gives the status.
fn execute_given<R: Files + Net + Env + Print + Eprint + AllocGlobal + Clock + Threads>(
    rt: &R,
    input: Stdin,
    terminals: Terminals,
    words: &[&str],
) -> Result<u8, Trouble> {
    match Invocation::read(rt, words) {
        Ok(Some(words)) => execute_words(rt, input, terminals, &words),
        Ok(None) => write_answer(rt, USAGE.as_bytes()).map(|()| 0),
        Err(fault) => Err(fault),
    }
}

/// Does what words ask for that were read, and gives the status.
fn execute_words<R: Files + Net + Env + Print + Eprint + AllocGlobal + Clock + Threads>(
    rt: &R,
    input: Stdin,
    terminals: Terminals,
    words: &Invocation<'_>,
) -> Result<u8, Trouble> {
    if let Some(misfit) = words.misfit() {
        return Err(tell_misfit(rt, misfit));
    }
    if let Some(machine) = words.machine {
        return judge_machine(rt, machine);
    }
    let rows = terminals.rows && words.output.is_none();
    let widths = widths_of(rt, words.width, Terminals { rows, ..terminals });
    let path = words.path.unwrap_or("");
    if let Some(machine) = words.trail {
        return judge_trail(rt, widths.messages, machine, path);
    }
    match (serve_words(rt, input, widths, words, path), words.output) {
        (Err(Trouble::Output), Some(file)) => Err(tell_path(rt, "can't write", file, "")),
        (answered, _) => answered,
    }
}

/// Tells why the words are none of the program's forms, and gives the trouble that this is.
fn tell_misfit<R: Eprint + AllocGlobal>(rt: &R, misfit: Misfit) -> Trouble {
    match format!(in rt.alloc(); "{misfit}") {
        Ok(told) => tell_words(rt, told.as_bytes()),
        Err(_) => Trouble::Memory,
    }
}

/// Traces on the service at this path, or lists its probes, and gives the status.
fn serve_words<R: Files + Net + Env + Print + Eprint + AllocGlobal + Clock + Threads>(
    rt: &R,
    input: Stdin,
    widths: Widths,
    words: &Invocation<'_>,
    path: &str,
) -> Result<u8, Trouble> {
    let shape = RowShape {
        widths,
        quiet: words.quiet,
        json: words.json,
    };
    let programs = programs_of(rt, words)?;
    let Ok(stream) = UnixStream::connect(rt, path) else {
        return Err(tell_path(rt, "no service answers at", path, NO_SERVICE));
    };
    let mut session = Session::new(rt.alloc(), &stream)?;
    serve_session(rt, input, &mut session, words, shape, &programs)
}

/// Traces in a session, or lists probes, and gives the status.
fn serve_session<R: Files + Print + Eprint + AllocGlobal + Clock + Threads>(
    rt: &R,
    input: Stdin,
    session: &mut Session<'_>,
    words: &Invocation<'_>,
    shape: RowShape,
    programs: &[String],
) -> Result<u8, Trouble> {
    if !words.list {
        return trace(rt, input, session, words, shape, programs);
    }
    let description = words.programs.first().copied().unwrap_or("");
    list_probes(rt, session, description, shape, words.output)?;
    Ok(0)
}

/// What is added where nobody serves at a socket's path.
const NO_SERVICE: &str = "; is the path right, does `dtraced serve` run, and may you write to it?";

/// The texts of the programs: those of `-n`, and those of the files of `-s`.
fn programs_of<R: Files + Eprint + AllocGlobal>(
    rt: &R,
    words: &Invocation<'_>,
) -> Result<Vec<String>, Trouble> {
    let mut programs = Vec::new(rt.alloc());
    for text in &words.programs {
        programs.push(String::from_str(rt.alloc(), text)?)?;
    }
    for path in &words.files {
        programs.push(program_in(rt, path)?)?;
    }
    Ok(programs)
}

/// The text of a program's file. Where it can't be read, that is told.
fn program_in<R: Files + Eprint + AllocGlobal>(rt: &R, path: &str) -> Result<String, Trouble> {
    match fs::read_to_string(rt, path) {
        Ok(text) => Ok(text),
        Err(fault) => Err(tell_path(rt, "can't read", path, reason_of(fault.kind()))),
    }
}

/// Traces, and gives the status with which a clause exited, or 0. The file of `-o` is made once all programs are accepted.
fn trace<R: Files + Print + Eprint + AllocGlobal + Clock + Threads>(
    rt: &R,
    input: Stdin,
    session: &mut Session<'_>,
    words: &Invocation<'_>,
    shape: RowShape,
    programs: &[String],
) -> Result<u8, Trouble> {
    let alloc = rt.alloc();
    let readings = Readings::of(alloc, programs)?;
    let aggregations = readings.aggregations(alloc)?;
    let records = readings.may_record();
    let count = set_up(rt, session, shape.widths.messages, words, programs)?;
    let switched = policy_in(&words.options) == "switch";
    let mut known = Learnt::new(alloc, count, switched, readings)?;
    // stop, status and close come beside the aggregations
    session.kept = (aggregations.len() as u64).saturating_add(4);
    let setting = TraceSetting {
        words,
        shape,
        aggregations: &aggregations,
        records,
        count,
    };
    trace_accepted(rt, input, session, setting, &mut known)
}

/// What is traced once all programs are accepted, and how it is shown.
#[derive(Clone, Copy, Drop)]
struct TraceSetting<'a> {
    /// The program's words.
    words: &'a Invocation<'a>,
    /// How rows are written.
    shape: RowShape,
    /// The aggregations of the programs.
    aggregations: &'a [ListedAggregation],
    /// Whether a clause may leave records.
    records: bool,
    /// How many enablings there are.
    count: u64,
}

/// Makes the file of `-o`, traces, and gives the status.
fn trace_accepted<R: Files + Print + Eprint + AllocGlobal + Clock + Threads>(
    rt: &R,
    input: Stdin,
    session: &mut Session<'_>,
    setting: TraceSetting<'_>,
    known: &mut Learnt,
) -> Result<u8, Trouble> {
    let mut file = create_output(rt, setting.words.output)?;
    trace_into(rt, input, session, setting, known, &mut file)
}

/// Traces into the file of `-o`, if there is one, and gives the status.
fn trace_into<R: Print + Eprint + AllocGlobal + Clock + Threads, F: Write>(
    rt: &R,
    input: Stdin,
    session: &mut Session<'_>,
    setting: TraceSetting<'_>,
    known: &mut Learnt,
    file: &mut Option<F>,
) -> Result<u8, Trouble> {
    begin(rt, session, setting.count)?;
    let exit = go_on(rt, input, session, setting, known, file)?;
    push_tables(rt, session, setting.aggregations, setting.shape, file)?;
    let _closed = session.ask(rt.alloc(), "{\"cmd\":\"close\"}")?;
    Ok(status_of_exit(exit))
}

/// Follows what is traced until that ends, and gives the number with which a clause exited, where one did.
fn go_on<R: Print + Eprint + AllocGlobal + Clock + Threads, F: Write>(
    rt: &R,
    input: Stdin,
    session: &mut Session<'_>,
    setting: TraceSetting<'_>,
    known: &mut Learnt,
    file: &mut Option<F>,
) -> Result<Option<i64>, Trouble> {
    let ended = watch_input(rt, rt.alloc(), input)?;
    let plan = Plan {
        every: setting.words.every.unwrap_or(Duration::from_secs(1)),
        length: setting.words.length,
        records: setting.records,
        readable: policy_in(&setting.words.options) != "ring",
        ended: &ended,
        shape: setting.shape,
    };
    follow(rt, session, known, &plan, file).map_err(Trouble::in_tracing)
}

/// The status of a program whose clause exited with this number: the number itself where it is a status, and else 1; 0 where none exited.
fn status_of_exit(exit: Option<i64>) -> u8 {
    match exit {
        Some(number) => u8::try_from(number).unwrap_or(1),
        None => 0,
    }
}

/// The policy of buffers that the options ask for.
fn policy_in<'a>(options: &[(&'a str, &'a str)]) -> &'a str {
    let mut policy = "switch";
    for (name, value) in options {
        if *name == "bufpolicy" {
            policy = value;
        }
    }
    policy
}
