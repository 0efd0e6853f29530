//! Whether a trail agrees with what its session was to be answered.

use crate::fault::Trouble;
use crate::judging::{read_file, read_machine};
use crate::output::{tell, write_answer};
use crate::trail_lines::{firing_in, flaw_in, lines_of, place_in, place_of_item, place_of_reply};
use dt_alone::{CheckFault, Item, Verdict, alone, check};
use dt_cred::Account;
use dt_front::{push_caret, push_number, push_shown};
use dt_machine::Machine;
use dt_proto::Asked;
use std::alloc::Global;
use std::rt::Files;

/// Says whether a trail agrees with what its session was to be answered on a machine, and if not, which line is wrong, and what was due. Gives the status.
pub(crate) fn judge_trail<R: Files + Print + Eprint + AllocGlobal>(
    rt: &R,
    width: usize,
    machine: &str,
    trail: &str,
) -> Result<u8, Trouble> {
    let alloc = rt.alloc();
    let Some(machine) = read_machine(rt, machine)? else {
        return Ok(1);
    };
    let text = read_file(rt, trail)?;
    let lines = lines_of(alloc, &text)?;
    match check(alloc, &machine, &text) {
        Ok(Verdict::Agree(replies)) => answer_agreement(rt, replies),
        Ok(Verdict::Differs(reply)) => {
            tell_wrong(rt, difference(alloc, width, &machine, &lines, reply))
        }
        Ok(Verdict::Illegal(item)) => tell_wrong(rt, out_of_place(alloc, &machine, &lines, item)),
        Err(CheckFault::Text) => {
            let ended = text.last() == Some(&b'\n');
            tell_wrong(rt, no_trail(alloc, &machine, &lines, ended))
        }
        Err(CheckFault::Memory) => Err(Trouble::Memory),
    }
}

/// Says that a trail agrees, and gives the status.
fn answer_agreement<R: Print + AllocGlobal>(rt: &R, replies: usize) -> Result<u8, Trouble> {
    let told = format!(in rt.alloc();
        "the trail agrees: of its {replies} replies each is the one that was due\n"
    )?;
    write_answer(rt, told.as_bytes())?;
    Ok(0)
}

/// Tells what is wrong with a trail, and gives the status.
fn tell_wrong<R: Eprint>(rt: &R, told: Result<Vec<u8>, Trouble>) -> Result<u8, Trouble> {
    let told = told?;
    tell(rt, &told);
    Ok(1)
}

/// What is told of the first reply that isn't the one that was due.
fn difference(
    alloc: Global,
    width: usize,
    machine: &Machine,
    lines: &[&[u8]],
    number: usize,
) -> Result<Vec<u8>, Trouble> {
    let mut told = Vec::new(alloc);
    match place_of_reply(lines, number) {
        Some(place) => {
            push_asked(&mut told, lines, place)?;
            push_due(alloc, &mut told, width, machine, lines, place)?;
        }
        None => told.extend_from_slice(b"dtr: the trail differs\n")?,
    }
    Ok(told)
}

/// Adds what was asked, and the reply that the trail has at a place.
fn push_asked(told: &mut Vec<u8>, lines: &[&[u8]], place: usize) -> Result<(), Trouble> {
    told.extend_from_slice(b"dtr: the trail differs: line ")?;
    push_place(told, place)?;
    told.extend_from_slice(b" isn't the reply that was due\ndtr: asked was\n")?;
    push_line(told, line_at(lines, place.saturating_sub(1)))?;
    told.extend_from_slice(b"dtr: the trail has\n")?;
    push_line(told, line_at(lines, place))
}

/// Adds the reply that was due at a place.
fn push_due(
    alloc: Global,
    told: &mut Vec<u8>,
    width: usize,
    machine: &Machine,
    lines: &[&[u8]],
    place: usize,
) -> Result<(), Trouble> {
    told.extend_from_slice(b"dtr: due was, with the first byte that differs marked\n")?;
    let due = due_reply(alloc, machine, lines, place)?;
    let at = first_difference(line_at(lines, place), &due).min(due.len());
    push_caret(alloc, told, width.max(1), &due, at)?;
    Ok(())
}

/// The line of the reply that was due at a place.
fn due_reply(
    alloc: Global,
    machine: &Machine,
    lines: &[&[u8]],
    place: usize,
) -> Result<Vec<u8>, Trouble> {
    let mut due = Vec::from_slice(alloc, b"reply ")?;
    let head = line_at(lines, 0);
    let name = head.strip_prefix(b"account ").unwrap_or(head);
    if let Some(account) = machine.account(name) {
        push_reply(alloc, &mut due, account, machine, lines, place)?;
    }
    Ok(due)
}

/// Adds the last reply that an account is given for the lines before a place.
fn push_reply(
    alloc: Global,
    due: &mut Vec<u8>,
    account: &Account,
    machine: &Machine,
    lines: &[&[u8]],
    place: usize,
) -> Result<(), Trouble> {
    let items = items_before(alloc, machine, lines, place)?;
    let replies = alone(alloc, account, machine, &items)?;
    if let Some(reply) = replies.last() {
        due.extend_from_slice(reply.strip_suffix(b"\n").unwrap_or(reply))?;
    }
    Ok(())
}

/// What reached the session by the lines before a place.
fn items_before(
    alloc: Global,
    machine: &Machine,
    lines: &[&[u8]],
    place: usize,
) -> Result<Vec<Item>, Trouble> {
    let mut items = Vec::new(alloc);
    for line in lines.iter().take(place) {
        if let Some(item) = item_of(alloc, machine, line)? {
            items.push(item)?;
        }
    }
    Ok(items)
}

/// What reached the session by a line; nothing by a reply.
fn item_of(alloc: Global, machine: &Machine, line: &[u8]) -> Result<Option<Item>, Trouble> {
    if let Some(asked) = line.strip_prefix(b"line ") {
        let asked = Vec::from_slice(alloc, asked)?;
        return Ok(Some(Item::Line(Asked::Line(asked))));
    }
    if line == b"long".as_slice() {
        return Ok(Some(Item::Line(Asked::Long)));
    }
    Ok(firing_in(machine, line).map(|firing| Item::Firing(*firing)))
}

/// What is told of the first line that may not stand where it does.
fn out_of_place(
    alloc: Global,
    machine: &Machine,
    lines: &[&[u8]],
    number: usize,
) -> Result<Vec<u8>, Trouble> {
    let mut told = Vec::new(alloc);
    match place_of_item(lines, number) {
        Some(place) => {
            let why = why_not(machine, lines, place);
            told.extend_from_slice(b"dtr: line ")?;
            push_flaw(&mut told, lines, place, b" may not stand there: ", why)?;
        }
        None => told.extend_from_slice(b"dtr: a line may not stand where it does\n")?,
    }
    Ok(told)
}

/// Adds the number of the line at a place, what it does wrong and why, and the line.
fn push_flaw(
    told: &mut Vec<u8>,
    lines: &[&[u8]],
    place: usize,
    what: &[u8],
    why: &str,
) -> Result<(), Trouble> {
    push_place(told, place)?;
    told.extend_from_slice(what)?;
    told.extend_from_slice(why.as_bytes())?;
    told.push(b'\n')?;
    push_line(told, line_at(lines, place))
}

/// Why a line may not stand at its place.
fn why_not(machine: &Machine, lines: &[&[u8]], place: usize) -> &'static str {
    let line = line_at(lines, place);
    let Some((cpu, number)) = place_in(line) else {
        return "the session has asked its 1,024 lines before it";
    };
    if machine.firing(cpu, number).is_none() {
        return "the machine's scripts have no such firing";
    }
    if has_come(lines, place, cpu, number) {
        return "this firing, or a later one of its processor, came before it";
    }
    "the session doesn't trace there, or has enabled nothing that sees this firing"
}

/// Whether a firing of a processor, or a later one, stands before a place.
fn has_come(lines: &[&[u8]], place: usize, cpu: u32, number: u32) -> bool {
    for line in lines.iter().take(place) {
        if let Some((earlier_cpu, earlier)) = place_in(line) {
            if earlier_cpu == cpu && earlier >= number {
                return true;
            }
        }
    }
    false
}

/// What is told of a text that is no trail.
fn no_trail(
    alloc: Global,
    machine: &Machine,
    lines: &[&[u8]],
    ended: bool,
) -> Result<Vec<u8>, Trouble> {
    let mut told = Vec::from_slice(alloc, b"dtr: trail refused: ")?;
    match flaw_in(machine, lines, ended) {
        Some(flaw) => {
            told.extend_from_slice(b"line ")?;
            push_flaw(&mut told, lines, flaw.place, b" is wrong: ", flaw.why)?;
        }
        None => told.extend_from_slice(b"the text is no trail of a session on this machine\n")?,
    }
    Ok(told)
}

/// The line at a place; none has no bytes.
fn line_at<'a>(lines: &[&'a [u8]], place: usize) -> &'a [u8] {
    match lines.get(place) {
        Some(line) => line,
        None => &[],
    }
}

/// Adds the number of the line at a place, counted from 1.
fn push_place(told: &mut Vec<u8>, place: usize) -> Result<(), Trouble> {
    push_number(told, (place as u64).saturating_add(1))?;
    Ok(())
}

/// Adds a line as a terminal is shown it.
fn push_line(told: &mut Vec<u8>, line: &[u8]) -> Result<(), Trouble> {
    told.extend_from_slice(b"    ")?;
    push_shown(told, line)?;
    told.push(b'\n')?;
    Ok(())
}

/// The first place at which what was due isn't what is given.
fn first_difference(given: &[u8], due: &[u8]) -> usize {
    for place in 0..due.len() {
        if given.get(place) != due.get(place) {
            return place;
        }
    }
    due.len()
}
