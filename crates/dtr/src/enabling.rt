//! How a session is set up: its options, and its programs.

use crate::fault::Trouble;
use crate::output::tell;
use crate::requests;
use crate::session::Session;
use crate::words::Invocation;
use dt_front::{ToldRefusal, number_field, push_caret, push_number, push_shown};
use serde_json::Value;
use std::alloc::{AllocError, Global};

/// The number by which a service tells who connects that all its seats are taken.
const FULL: u64 = 17;

/// The number by which it tells that the account of its socket has no privilege to trace.
const NO_PRIVILEGE: u64 = 18;

/// Sets the options, and enables the programs. Gives how many enablings there are.
pub(crate) fn set_up<R: Print + Eprint + AllocGlobal>(
    rt: &R,
    session: &mut Session<'_>,
    width: usize,
    words: &Invocation<'_>,
    programs: &[String],
) -> Result<u64, Trouble> {
    for (name, value) in &words.options {
        set_option(rt, session, name, value)?;
    }
    let mut count = 0_u64;
    for (place, program) in programs.iter().enumerate() {
        let refused = refused_program(rt.alloc(), words, place)?;
        count = count.saturating_add(enable(rt, session, width, program, &refused)?);
    }
    Ok(count)
}

/// Sets an option.
fn set_option<R: Print + Eprint + AllocGlobal>(
    rt: &R,
    session: &mut Session<'_>,
    name: &str,
    value: &str,
) -> Result<(), Trouble> {
    let alloc = rt.alloc();
    let reply = session.ask_made(alloc, requests::option(alloc, name, value))?;
    accepted_as(rt, &reply, format!(in alloc; "-x {name}={value}"))
}

/// What is told of the program at this place where it is refused: the files of `-s` come after the texts of `-n`.
fn refused_program(alloc: Global, words: &Invocation<'_>, place: usize) -> Result<String, Trouble> {
    let texts = words.programs.len();
    if place >= texts {
        let path = words.files.get(place - texts).copied().unwrap_or("");
        return refused_file(alloc, path);
    }
    if texts > 1 {
        return refused_text(alloc, place.saturating_add(1), texts);
    }
    let which = if words.files.is_empty() { "" } else { " of -n" };
    Ok(format!(in alloc; "the program{which} is refused")?)
}

/// What is told of the program of a file where it is refused.
fn refused_file(alloc: Global, path: &str) -> Result<String, Trouble> {
    Ok(format!(in alloc; "the program of {path} is refused")?)
}

/// What is told of the program of this number of so many of `-n` where it is refused.
fn refused_text(alloc: Global, number: usize, texts: usize) -> Result<String, Trouble> {
    Ok(format!(in alloc; "program {number} of the {texts} of -n is refused")?)
}

/// Enables a program, and gives how many enablings it made.
fn enable<R: Print + Eprint + AllocGlobal>(
    rt: &R,
    session: &mut Session<'_>,
    width: usize,
    program: &str,
    refused: &str,
) -> Result<u64, Trouble> {
    let alloc = rt.alloc();
    let line = requests::with_text(alloc, "enable", "text", program);
    let reply = session.ask_made(alloc, line)?;
    accepted(rt, &reply, refused, Some((program, width)))?;
    number_field(&reply, "count").ok_or(Trouble::Strange)
}

/// Begins to trace, and says how many probes matched.
pub(crate) fn begin<R: Print + Eprint + AllocGlobal>(
    rt: &R,
    session: &mut Session<'_>,
    count: u64,
) -> Result<(), Trouble> {
    let reply = session.ask(rt.alloc(), "{\"cmd\":\"go\"}")?;
    accepted(rt, &reply, "tracing doesn't begin", None)?;
    tell_matched(rt, count)
}

/// Tells how many probes matched.
fn tell_matched<R: Eprint + AllocGlobal>(rt: &R, count: u64) -> Result<(), Trouble> {
    let probes = if count == 1 { "probe" } else { "probes" };
    let matched = format!(in rt.alloc(); "dtr: {count} {probes} matched\n")?;
    tell(rt, matched.as_bytes());
    Ok(())
}

/// Says why a reply is a refusal, where it is one, with the place in a program's text that is meant. The text is given with the width of messages.
pub(crate) fn accepted<R: Print + Eprint + AllocGlobal>(
    rt: &R,
    reply: &Value,
    what: &str,
    program: Option<(&str, usize)>,
) -> Result<(), Trouble> {
    let Some(refusal) = ToldRefusal::in_reply(reply) else {
        return Ok(());
    };
    let told = explained(rt.alloc(), &refusal, what, program)?;
    tell(rt, &told);
    Err(Trouble::Refused)
}

/// The same, where what is told was made for it, if there was memory to make it.
pub(crate) fn accepted_as<R: Print + Eprint + AllocGlobal>(
    rt: &R,
    reply: &Value,
    what: Result<String, AllocError>,
) -> Result<(), Trouble> {
    let what = what?;
    accepted(rt, reply, &what, None)
}

/// What was refused, and why; and where a place of a text is meant, its line, and a caret below the place. What a service without a seat refuses, or one of an account without a
/// privilege, is a session, whatever was asked.
fn explained(
    alloc: Global,
    refusal: &ToldRefusal<'_>,
    what: &str,
    program: Option<(&str, usize)>,
) -> Result<Vec<u8>, Trouble> {
    let what = match refusal.number {
        FULL | NO_PRIVILEGE => "no session",
        _ => what,
    };
    let mut told = Vec::from_slice(alloc, b"dtr: ")?;
    push_shown(&mut told, what.as_bytes())?;
    match (program, refusal.at) {
        (Some((text, width)), Some(at)) => {
            push_reason_at(alloc, &mut told, refusal, text, width, at)?;
        }
        _ => push_reason(&mut told, refusal)?,
    }
    Ok(told)
}

/// Adds why a line was refused.
fn push_reason(told: &mut Vec<u8>, refusal: &ToldRefusal<'_>) -> Result<(), Trouble> {
    told.extend_from_slice(b": ")?;
    refusal.push_sentence(told)?;
    Ok(())
}

/// Adds why a text was refused, the line of it that has this place, and a caret below the place.
fn push_reason_at(
    alloc: Global,
    told: &mut Vec<u8>,
    refusal: &ToldRefusal<'_>,
    text: &str,
    width: usize,
    at: u64,
) -> Result<(), Trouble> {
    let at = usize::try_from(at).unwrap_or(usize::MAX).min(text.len());
    if text.contains('\n') {
        told.extend_from_slice(b" in line ")?;
        push_number(told, line_number(text.as_bytes(), at))?;
    }
    push_reason(told, refusal)?;
    push_caret(alloc, told, width.max(1), text.as_bytes(), at)?;
    Ok(())
}

/// The number of the line that has a place of a text, counted from 1.
fn line_number(text: &[u8], at: usize) -> u64 {
    let mut number = 1_u64;
    for byte in text.iter().take(at) {
        if *byte == b'\n' {
            number = number.saturating_add(1);
        }
    }
    number
}
