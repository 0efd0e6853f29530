//! The words that the program is called with.

use crate::fault::Trouble;
use crate::output::tell;
use crate::page::PAGE_MIN;
use clap::error::ErrorKind;
use clap::{Arg, ArgAction, ArgMatches, Command};
use dt_front::{before_byte, push_shown};
use std::alloc::{AllocError, Global};
use std::time::Duration;

/// The forms of the program's words.
pub(crate) const USAGE: &str =
    "usage: dtr SOCKET -l [-n DESCRIPTION] [-q] [-o FILE] [--width COLUMNS]\n       dtr SOCKET {-n PROGRAM | -s FILE}.. [-x OPTION=VALUE].. [-q] [--json]\n           [-o FILE] [--every SECONDS] [--for SECONDS] [--width COLUMNS]\n       dtr --machine FILE\n       dtr --trail MACHINE TRAIL [--width COLUMNS]\n";

/// What the program is asked for.
#[derive(Drop)]
pub(crate) struct Invocation<'a> {
    /// The path of the service's socket, or with `--trail` of the trail.
    pub(crate) path: Option<&'a str>,
    /// Whether probes are to be listed.
    pub(crate) list: bool,
    /// Programs, or with `-l` a description.
    pub(crate) programs: Vec<&'a str>,
    /// Files with programs.
    pub(crate) files: Vec<&'a str>,
    /// Options of the session: their names and values.
    pub(crate) options: Vec<(&'a str, &'a str)>,
    /// Whether rows have values alone.
    pub(crate) quiet: bool,
    /// Whether lines of JSON are wanted.
    pub(crate) json: bool,
    /// The file to write to in place of standard output.
    pub(crate) output: Option<&'a str>,
    /// How long the program waits between two looks at least.
    pub(crate) every: Option<Duration>,
    /// For how long it traces.
    pub(crate) length: Option<Duration>,
    /// How wide the page is.
    pub(crate) width: Option<usize>,
    /// The machine file that is to be judged.
    pub(crate) machine: Option<&'a str>,
    /// The machine file of a trail that is to be judged.
    pub(crate) trail: Option<&'a str>,
}

impl<'a> Invocation<'a> {
    /// Reads the program's words, of which the first is its own name. `None` where they ask for help.
    pub(crate) fn read<R: Eprint + AllocGlobal>(
        rt: &R,
        words: &'a [&'a str],
    ) -> Result<Option<Self>, Trouble> {
        let Ok(command) = program(rt.alloc()) else {
            return Err(Trouble::Memory);
        };
        match command.try_get_matches_from(words) {
            Ok(given) => Invocation::found(rt, &given),
            Err(error) if error.kind() == ErrorKind::DisplayHelp => Ok(None),
            Err(error) => Err(unread_words(rt, &error)),
        }
    }

    /// What clap found in the words, which don't ask for help.
    fn found<R: Eprint + AllocGlobal>(
        rt: &R,
        given: &ArgMatches<'a>,
    ) -> Result<Option<Self>, Trouble> {
        match Invocation::of(rt, given) {
            Ok(invocation) => Ok(Some(invocation)),
            Err(fault) => Err(fault),
        }
    }

    /// What clap found in the words.
    fn of<R: Eprint + AllocGlobal>(rt: &R, given: &ArgMatches<'a>) -> Result<Self, Trouble> {
        let alloc = rt.alloc();
        let programs = all_of(alloc, given, "program")?;
        let files = all_of(alloc, given, "script")?;
        let options = options_of(rt, given)?;
        let numbers = Numbers::of(rt, given)?;
        Ok(Invocation {
            path: given.get_str("path"),
            list: given.get_flag("list"),
            programs,
            files,
            options,
            quiet: given.get_flag("quiet"),
            json: given.get_flag("json"),
            output: given.get_str("output"),
            every: numbers.every,
            length: numbers.length,
            width: numbers.width,
            machine: given.get_str("machine"),
            trail: given.get_str("trail"),
        })
    }
}

/// Those of the program's words that have a number. They are read apart, so that the vectors are let go of at one `?` and not at three.
#[derive(Clone, Copy, Drop)]
struct Numbers {
    /// How long the program waits between two looks at least.
    every: Option<Duration>,
    /// For how long it traces.
    length: Option<Duration>,
    /// How wide the page is.
    width: Option<usize>,
}

impl Numbers {
    /// The numbers in what clap found.
    fn of<R: Eprint + AllocGlobal>(rt: &R, given: &ArgMatches<'_>) -> Result<Self, Trouble> {
        Ok(Numbers {
            every: every_in(rt, given.get_str("every"))?,
            length: seconds_in(rt, "--for", given.get_str("for"))?,
            width: width_in(rt, given.get_str("width"))?,
        })
    }
}

/// Says which word clap doesn't take, or which lacks its value.
fn unread_words<R: Eprint + AllocGlobal>(rt: &R, error: &clap::Error) -> Trouble {
    if error.kind() == ErrorKind::OutOfMemory {
        return Trouble::Memory;
    }
    match format!(in rt.alloc(); "{error}") {
        Ok(text) => {
            let line = before_byte(b'\n', text.as_bytes());
            tell_words(rt, line.strip_prefix(b"error: ").unwrap_or(line))
        }
        Err(_) => Trouble::Memory,
    }
}

/// Tells what is wrong with the program's words, and gives the trouble that this is.
pub(crate) fn tell_words<R: Eprint + AllocGlobal>(rt: &R, what: &[u8]) -> Trouble {
    match words_line(rt.alloc(), what) {
        Ok(line) => {
            tell(rt, &line);
            Trouble::Words
        }
        Err(fault) => fault,
    }
}

/// The line that tells what is wrong with the program's words.
fn words_line(alloc: Global, what: &[u8]) -> Result<Vec<u8>, Trouble> {
    let mut line = Vec::from_slice(alloc, b"dtr: ")?;
    push_shown(&mut line, what)?;
    line.push(b'\n')?;
    Ok(line)
}

/// Tells what an option takes, where it is given another word.
fn wrong_value<R: Eprint + AllocGlobal>(rt: &R, option: &str, takes: &str, word: &str) -> Trouble {
    match format!(in rt.alloc(); "{option} takes {takes}, and not '{word}'") {
        Ok(told) => tell_words(rt, told.as_bytes()),
        Err(_) => Trouble::Memory,
    }
}

/// All values of an argument, in order.
fn all_of<'a>(alloc: Global, given: &ArgMatches<'a>, id: &str) -> Result<Vec<&'a str>, Trouble> {
    let mut all = Vec::new(alloc);
    if let Some(values) = given.get_strs(id) {
        for value in values {
            all.push(*value)?;
        }
    }
    Ok(all)
}

/// The options of the session: the name and the value of each word of `-x`.
fn options_of<'a, R: Eprint + AllocGlobal>(
    rt: &R,
    given: &ArgMatches<'a>,
) -> Result<Vec<(&'a str, &'a str)>, Trouble> {
    let mut options = Vec::new(rt.alloc());
    if let Some(words) = given.get_strs("option") {
        for word in words {
            match word.split_once('=') {
                Some(option) => options.push(option)?,
                None => return Err(wrong_value(rt, "-x", "OPTION=VALUE", word)),
            }
        }
    }
    Ok(options)
}

/// Whether a word is digits alone, and at least one.
pub(crate) fn is_digits(word: &str) -> bool {
    !word.is_empty() && word.bytes().all(|byte| byte.is_ascii_digit())
}

/// The time of the word that an option is given: whole seconds, or seconds and tenths as `0.5`.
fn seconds_in<R: Eprint + AllocGlobal>(
    rt: &R,
    option: &str,
    word: Option<&str>,
) -> Result<Option<Duration>, Trouble> {
    let Some(word) = word else {
        return Ok(None);
    };
    let (whole, tenths) = match word.split_once('.') {
        Some((whole, tenths)) => (whole, tenths),
        None => (word, "0"),
    };
    let is_plain = is_digits(whole) && is_digits(tenths) && tenths.len() == 1;
    match (whole.parse::<u32>(), tenths.parse::<u8>()) {
        (Ok(whole), Ok(tenths)) if is_plain => {
            Ok(Some(Duration::from_millis(u64::from(whole) * 1000 + u64::from(tenths) * 100)))
        }
        _ => Err(wrong_value(rt, option, "seconds, as 2 or 0.5", word)),
    }
}

/// How long there is between two looks, where a word tells it: more than no time.
fn every_in<R: Eprint + AllocGlobal>(
    rt: &R,
    word: Option<&str>,
) -> Result<Option<Duration>, Trouble> {
    match seconds_in(rt, "--every", word)? {
        Some(every) if every.is_zero() => {
            Err(wrong_value(rt, "--every", "more than 0 seconds", word.unwrap_or("")))
        }
        every => Ok(every),
    }
}

/// The width of a word: a number of columns, 40 or more.
fn width_in<R: Eprint + AllocGlobal>(rt: &R, word: Option<&str>) -> Result<Option<usize>, Trouble> {
    let Some(word) = word else {
        return Ok(None);
    };
    match word.parse::<usize>() {
        Ok(width) if is_digits(word) && width >= PAGE_MIN => Ok(Some(width)),
        _ => Err(wrong_value(rt, "--width", "40 columns or more", word)),
    }
}

/// The words that clap reads. They are added a few at a time, since each `?` of a long chain costs the proof much.
fn program<'a>(alloc: Global) -> Result<Command<'a>, AllocError> {
    let command = with_service(alloc, Command::new(alloc, "dtr"))?;
    let command = with_programs(alloc, command)?;
    let command = with_output(alloc, command)?;
    let command = with_numbers(alloc, command)?;
    with_judged(alloc, command)
}

/// Adds the words that say which service is asked, and that its probes are listed.
fn with_service<'a>(alloc: Global, command: Command<'a>) -> Result<Command<'a>, AllocError> {
    command
        .arg(Arg::new(alloc, "path").action(ArgAction::Set))?
        .arg(flag(alloc, "list").short('l'))
}

/// Adds the words that say what is traced.
fn with_programs<'a>(alloc: Global, command: Command<'a>) -> Result<Command<'a>, AllocError> {
    command
        .arg(values(alloc, "program", "PROGRAM").short('n'))?
        .arg(values(alloc, "script", "FILE").short('s'))?
        .arg(values(alloc, "option", "OPTION=VALUE").short('x'))
}

/// Adds the words that say what is written, and where.
fn with_output<'a>(alloc: Global, command: Command<'a>) -> Result<Command<'a>, AllocError> {
    command
        .arg(flag(alloc, "quiet").short('q'))?
        .arg(value(alloc, "output", "FILE").short('o'))?
        .arg(flag(alloc, "json").long("json"))
}

/// Adds the words that have a number: times, and the width of the page.
fn with_numbers<'a>(alloc: Global, command: Command<'a>) -> Result<Command<'a>, AllocError> {
    command
        .arg(value(alloc, "every", "SECONDS").long("every"))?
        .arg(value(alloc, "for", "SECONDS").long("for"))?
        .arg(value(alloc, "width", "COLUMNS").long("width"))
}

/// Adds the words that name a file to be judged.
fn with_judged<'a>(alloc: Global, command: Command<'a>) -> Result<Command<'a>, AllocError> {
    command
        .arg(value(alloc, "machine", "FILE").long("machine"))?
        .arg(value(alloc, "trail", "MACHINE").long("trail"))
}

/// An argument that is there or not.
fn flag<'a>(alloc: Global, id: &'a str) -> Arg<'a> {
    Arg::new(alloc, id).action(ArgAction::SetTrue)
}

/// An argument that has a value, which may begin with a `-`, and is called so.
fn value<'a>(alloc: Global, id: &'a str, called: &'a str) -> Arg<'a> {
    Arg::new(alloc, id)
        .action(ArgAction::Set)
        .value_name(called)
        .allow_hyphen_values(true)
}

/// The same, where it may be given several times.
fn values<'a>(alloc: Global, id: &'a str, called: &'a str) -> Arg<'a> {
    value(alloc, id, called).action(ArgAction::Append)
}
