//! The lines of a trail's text, and which of them is wrong.

use crate::fault::Trouble;
use dt_front::{after_byte, before_byte};
use dt_machine::{Firing, Machine};
use dt_proto::number_of;
use std::alloc::Global;

/// A line that a trail doesn't have.
#[derive(Clone, Copy, Drop)]
pub(crate) struct TrailFlaw {
    /// Its place among the lines, from 0 on.
    pub(crate) place: usize,
    /// What is wrong with it.
    pub(crate) why: &'static str,
}

/// What a line of a trail is.
#[derive(Clone, Copy, PartialEq, Eq, Drop)]
enum LineKind {
    /// A line that was asked.
    Asked,
    /// A reply.
    Reply,
    /// A firing.
    Fired,
    /// None of these.
    Other,
}

/// What stands before each newline, and after the last.
pub(crate) fn lines_of(alloc: Global, text: &[u8]) -> Result<Vec<&[u8]>, Trouble> {
    let mut lines = Vec::new(alloc);
    let mut rest = text;
    for _ in 0..text.len() {
        if rest.is_empty() {
            break;
        }
        lines.push(before_byte(b'\n', rest))?;
        rest = after_byte(b'\n', rest);
    }
    Ok(lines)
}

/// What a line is.
fn kind_of(line: &[u8]) -> LineKind {
    if line.starts_with(b"line ") || line == b"long".as_slice() {
        LineKind::Asked
    } else if line.starts_with(b"reply ") {
        LineKind::Reply
    } else if place_in(line).is_some() {
        LineKind::Fired
    } else {
        LineKind::Other
    }
}

/// The processor and the place that a line of a firing tells.
pub(crate) fn place_in(line: &[u8]) -> Option<(u32, u32)> {
    let place = line.strip_prefix(b"fired ")?;
    let cpu = number_of(before_byte(b' ', place))?;
    let number = number_of(after_byte(b' ', place))?;
    Some((cpu, number))
}

/// The firing that a line tells of, where it does and the machine has it.
pub(crate) fn firing_in<'m>(machine: &'m Machine, line: &[u8]) -> Option<&'m Firing> {
    let (cpu, place) = place_in(line)?;
    machine.firing(cpu, place)
}

/// The place of the reply of this number, counted from 1.
pub(crate) fn place_of_reply(lines: &[&[u8]], number: usize) -> Option<usize> {
    let mut left = number;
    for place in 1..lines.len() {
        if kind_of(lines[place]) == LineKind::Reply {
            left = left.saturating_sub(1);
            if left == 0 {
                return Some(place);
            }
        }
    }
    None
}

/// The place of the line with which the item of this number, counted from 1, begins.
pub(crate) fn place_of_item(lines: &[&[u8]], number: usize) -> Option<usize> {
    let mut left = number;
    for place in 1..lines.len() {
        if kind_of(lines[place]) != LineKind::Reply {
            left = left.saturating_sub(1);
            if left == 0 {
                return Some(place);
            }
        }
    }
    None
}

/// The first line that a trail of this machine doesn't have.
pub(crate) fn flaw_in(machine: &Machine, lines: &[&[u8]], ended: bool) -> Option<TrailFlaw> {
    if let Some(why) = flaw_of_head(machine, lines) {
        return Some(TrailFlaw { place: 0, why });
    }
    if let Some(flaw) = flaw_of_items(lines) {
        return Some(flaw);
    }
    let place = lines.len().saturating_sub(1);
    if !ended {
        return Some(TrailFlaw {
            place,
            why: "it has no newline",
        });
    }
    let why = "its reply is missing";
    match lines.last() {
        Some(line) if kind_of(line) == LineKind::Asked => Some(TrailFlaw { place, why }),
        _ => None,
    }
}

/// What is wrong with the first line, which is to name an account that may trace.
fn flaw_of_head(machine: &Machine, lines: &[&[u8]]) -> Option<&'static str> {
    let form = "a trail begins with a line `account NAME`";
    let Some(head) = lines.first() else {
        return Some(form);
    };
    let Some(name) = head.strip_prefix(b"account ") else {
        return Some(form);
    };
    match machine.account(name) {
        Some(account) if account.privs.has_dtrace() => None,
        Some(_) => Some("this account has no privilege to trace"),
        None => Some("the machine has no account of this name"),
    }
}

/// The first line after the head that may not stand after the one before it.
fn flaw_of_items(lines: &[&[u8]]) -> Option<TrailFlaw> {
    let mut asked = false;
    for place in 1..lines.len() {
        let kind = kind_of(lines[place]);
        if let Some(why) = flaw_after(asked, kind) {
            return Some(TrailFlaw { place, why });
        }
        asked = kind == LineKind::Asked;
    }
    None
}

/// What is wrong with a line of this kind after one that was asked, or after another.
fn flaw_after(asked: bool, kind: LineKind) -> Option<&'static str> {
    match kind {
        LineKind::Reply if asked => None,
        _ if asked => Some("the reply to the line before it belongs here"),
        LineKind::Reply => Some("no line was asked before it"),
        LineKind::Other => Some(
            "a line of a trail is `line LINE`, `long`, `reply REPLY` or `fired CPU PLACE`",
        ),
        LineKind::Asked | LineKind::Fired => None,
    }
}
