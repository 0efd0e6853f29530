//! Why a line was refused, as a person wants to read it.
ghost use Rattle.std.specs.Prelude.{◌≡◌, ◌++◌, ◌≤◌, ◌<◌, OnOk, length, option_map};
ghost use Rattle.serde_json.specs.View.{view};
ghost use Rattle.dt_front.specs.Refusals as spec;
ghost use Rattle.dt_front.specs.Refusals.{before_place, caret_text, from_place, in_rows, marked_line, rest_line, tail_length};
ghost use Rattle.dt_front.specs.Sentences as sentences;
ghost use Rattle.dt_front.specs.Sentences.{sentence, subject, sentence_words};
ghost use Rattle.dt_front.specs.RefusalForms.{form_of_refusal};

use crate::columns::{push_blanks, push_number};
use crate::escaping::push_shown;
use crate::fields::{number_field, text_field};
use crate::parts::before_byte;
use serde_json::Value;
use std::alloc::{AllocError, Global};

/// Why a line was refused.
#[derive(Clone, Copy, Drop)]
pub struct ToldRefusal<'a> {
    /// The refusal's number.
    pub number: u64,
    /// The first byte of what is wrong, in a program's text.
    pub at: Option<u64>,
    /// The clause that is meant, counted from 1.
    pub clause: Option<u64>,
    /// What a program's text is refused for.
    pub why: Option<&'a str>,
    /// The name of what is refused.
    pub what: Option<&'a str>,
}

impl<'a> ToldRefusal<'a> {
    /// The refusal that a reply is, if it is one.
    pub fn in_reply(reply: &'a Value) -> Option<Self>
        ensures { option_map form_of_refusal result ≡ spec.refusal_in (view reply.now) }
    {
        match number_field(reply, "error") {
            Some(number) => Some(ToldRefusal {
                number,
                at: number_field(reply, "at"),
                clause: number_field(reply, "clause"),
                why: text_field(reply, "why"),
                what: text_field(reply, "what"),
            }),
            None => None,
        }
    }

    /// Adds a sentence that says why, and ends the line.
    pub fn push_sentence(&self, out: &mut Vec<u8>) -> Result<(), AllocError>
        ensures { OnOk result (out.new.items ≡ out.old.items ++ sentence (form_of_refusal self.now)) }
    {
        let (before, after) = words(self.number, self.why);
        out.extend_from_slice(before.as_bytes())?;
        push_subject(out, self.clause, self.what)?;
        out.extend_from_slice(after.as_bytes())?;
        out.push(b'\n')?;
        Ok(())
    }
}

/// Adds what a sentence tells: a clause's number, or else the name of what is refused.
fn push_subject(
    out: &mut Vec<u8>,
    clause: Option<u64>,
    what: Option<&str>,
) -> Result<(), AllocError>
    ensures { OnOk result (out.new.items ≡ out.old.items ++ subject clause (option_map (λ text. text.now) what.entry)) }
{
    match clause {
        Some(clause) => push_number(out, clause),
        None => match what {
            Some(what) => push_shown(out, what.as_bytes()),
            None => Ok(()),
        },
    }
}

/// The words of a refusal's sentence before the clause or the name that it tells, and those after it.
fn words(number: u64, why: Option<&str>) -> (&'static str, &'static str)
    ensures before { result.0.now ≡ (sentence_words number (option_map (λ text. text.now) why.entry)).before }
    ensures after { result.1.now ≡ (sentence_words number (option_map (λ text. text.now) why.entry)).after }
{
    match number {
        4 => (flaw(why), ""),
        5 => ("clause ", " matches no probe that this account may enable"),
        6 => (
            "clause ",
            " records a kernel stack, which wants the privilege dtrace_kernel",
        ),
        7 => ("the action ", " is destructive, and no program may say it"),
        8 => (
            "the aggregation @",
            " is used with another function, other bounds or other kinds of keys elsewhere",
        ),
        9 => (
            "there is no room: 1,024 enablings, 64 aggregations, or under fill the bytes of a buffer for END's records",
            "",
        ),
        10 => ("this can't be asked while tracing stands as it does", ""),
        11 => (
            "no option is called so or takes this value: bufsize or histsize (1 to 1048576), bufpolicy (switch, fill, ring), aggsize (8 to 1048576), dynvarsize (32 to 1048576), nspec (1 to 64), specsize (4 to 65536)",
            "",
        ),
        15 => ("the session's 1,024 lines are spent", ""),
        16 => ("the service has no memory for this now; try again", ""),
        17 => ("all seats of the service are taken; try again later", ""),
        18 => ("this account has no privilege to trace", ""),
        3 => ("the program is too long for a line of 65,536 bytes", ""),
        _ => (
            "the service didn't understand dtr: are both of one version?",
            "",
        ),
    }
}

/// What is wrong with a program's text.
fn flaw(why: Option<&str>) -> &'static str
    ensures { result.now ≡ sentences.flaw (option_map (λ text. text.now) why.entry) }
{
    match why {
        Some("Syntax") => "syntax error: no program goes on like this",
        Some("Probe") =>
            "this describes no probe: a description has one to four fields of patterns, as syscall::read:entry",
        Some("Action") => "no action or aggregating function is called so",
        Some("Variable") => "no variable is called so",
        Some("TooLong") => "this is too long, or one more than there may be",
        Some("Range") =>
            "these bounds make no levels: the lower is below the upper, the step divides the range, 512 levels at most",
        Some("Spec") =>
            "this doesn't go with an earlier statement of its clause: put speculate first, once and without exit and aggregations, and commit into a clause of its own",
        _ => "this is no program",
    }
}

/// Adds the line of a text that has a place, on a page of this width, and a caret under the place's byte: below the row of the page that has it.
pub fn push_caret(
    alloc: Global,
    out: &mut Vec<u8>,
    page: usize,
    text: &[u8],
    at: usize,
) -> Result<(), AllocError>
    requires wide { 0 < page }
    requires inside { at ≤ length text.now }
    ensures { OnOk result (out.new.items ≡ out.old.items ++ caret_text page text.now at) }
{
    let mut head = Vec::from_slice(alloc, b"    ")?;
    push_shown(&mut head, before(text, at))?;
    let mut tail = Vec::new(alloc);
    push_shown(&mut tail, from(text, at))?;
    push_marked(out, page, &head, &tail)
}

/// Adds a line of a page of this width, and a caret under the byte after which its second part begins.
fn push_marked(out: &mut Vec<u8>, page: usize, head: &[u8], tail: &[u8]) -> Result<(), AllocError>
    requires { 0 < page }
    ensures { OnOk result (out.new.items ≡ out.old.items ++ marked_line page head.now tail.now) }
{
    let column = head.len() % page;
    let left = (page - column).min(tail.len());
    push_in_rows(out, page, head)?;
    out.extend_from_slice(&tail[..left])?;
    out.push(b'\n')?;
    push_blanks(out, column)?;
    out.extend_from_slice(b"^\n")?;
    push_rest(out, &tail[left..])
}

/// Adds a text in rows of a page of this width: a newline ends each full one.
fn push_in_rows(out: &mut Vec<u8>, page: usize, text: &[u8]) -> Result<(), AllocError>
    requires { 0 < page }
    ensures { OnOk result (out.new.items ≡ out.old.items ++ in_rows page text.now) }
{
    let rows = text.len() / page;
    for row in 0..rows {
        out.extend_from_slice(&text[row * page..row * page + page])?;
        out.push(b'\n')?;
    }
    out.extend_from_slice(&text[rows * page..])
}

/// Adds a line, where it isn't empty.
fn push_rest(out: &mut Vec<u8>, rest: &[u8]) -> Result<(), AllocError>
    ensures { OnOk result (out.new.items ≡ out.old.items ++ rest_line rest.now) }
{
    if rest.is_empty() {
        return Ok(());
    }
    out.extend_from_slice(rest)?;
    out.push(b'\n')?;
    Ok(())
}

/// What stands on a place's line before it.
fn before(text: &[u8], at: usize) -> &[u8]
    requires { at ≤ length text.now }
    ensures { result.now ≡ before_place text.now at }
{
    let head = &text[..at];
    &head[head.len() - tail_length(head)..]
}

/// What stands on a place's line from it on.
fn from(text: &[u8], at: usize) -> &[u8]
    requires { at ≤ length text.now }
    ensures { result.now ≡ from_place text.now at }
{
    before_byte(b'\n', &text[at..])
}

/// How many bytes come after the last newline.
fn tail_length(bytes: &[u8]) -> usize
    ensures same { result ≡ tail_length bytes.now }
    ensures within { result ≤ length bytes.now }
{
    for back in 0..bytes.len() {
        if bytes[bytes.len() - 1 - back] == b'\n' {
            return back;
        }
    }
    bytes.len()
}
