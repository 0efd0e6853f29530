//! A session over any source and any sink.
ghost use Rattle.std.specs.Prelude.{◌≡◌, ◌≢◌, ◌<◌, ◌+◌, ◌^◌, ℕ, List, [], ◌∷◌, ◌++◌, IsTrue, IsFalse, IfSome, IfNone, take};
ghost use Rattle.std.specs.Io.KnownBytes.{Appends, Consumes, IsAtEnd};
ghost use Rattle.dt_proto.specs.Asked.{form_lent};
ghost use Rattle.dt_proto.specs.HasRead.{HasRead};
ghost use Rattle.dt_proto.specs.Lines.{LineForm, lines_of};
ghost use Rattle.dt_server.specs.Served.{HasServed};
ghost use Rattle.dt_server.specs.Talk.{ServesOn, ServesToEnd, ComesOfAsking, IsTalk, IsOfLine, ended_after};

use crate::device::{Sink, Source};
use crate::ended::Ended;
use dt_hub::{Hub, HubSite, LineAnswer, Receipt, Session};
use dt_proto::{Lines, WholeLine};
use std::alloc::Global;
use std::sync::Wait;

/// How many bytes are pulled at once.
const CHUNK: usize = 4096;

/// Serves a session that has asked nothing: it reads lines from the source, however their bytes are cut, asks each, and writes what it is answered to the
/// sink, until the session ends; then it closes the session. It tells how that ended, and what the session knew just before it was closed.
///
/// A line for which there is no memory is answered by a fixed line, and is no part of the session's life. After the reply to a `close`, and
/// after the refusal of a line over the quota, nothing more is asked. What stands after the last newline is no line.
pub fn serve_session<J: HubSite, T: Wait, R: Source, W: Sink>(
    rt: &T,
    alloc: Global,
    hub: &Hub<J>,
    mut session: Session<J>,
    source: &mut R,
    sink: &mut W,
) -> (Ended, Receipt<J>)
    requires fresh { session.knows ≡ [] }
    requires source { R.failures source.old < 2 ^ 63 }
    requires sink { W.failures sink.old < 2 ^ 63 }
    ensures whose { (result.1.seat ≡ session.seat) × (result.1.life ≡ session.life) × (result.1.account ≡ session.account) }
    ensures served { result.0 ≢ Ended.Memory → (input : List ℕ) × (text : List ℕ)
        × Consumes (R.remaining source.old) (R.remaining source.new) input
        × Appends (W.contents sink.old) (W.contents sink.new) text
        × HasServed session.account J.contents result.0 (lines_of input) result.1.knows text }
    ensures end { result.0 ≡ Ended.EndOfInput → IsAtEnd (R.remaining source.new) }
    ensures memory { result.0 ≡ Ended.Memory → (source.new ≡ source.old) × (sink.new ≡ sink.old) × (result.1.knows ≡ []) }
    ensures read_fault { result.0 ≡ Ended.ReadFault → R.failures source.new ≡ R.failures source.old + 1 }
    ensures no_read_fault { result.0 ≢ Ended.ReadFault → R.failures source.new ≡ R.failures source.old }
    ensures write_fault { result.0 ≡ Ended.WriteFault → W.failures sink.new ≡ W.failures sink.old + 1 }
    ensures no_write_fault { result.0 ≢ Ended.WriteFault → W.failures sink.new ≡ W.failures sink.old }
{
    let ended = match Lines::new(alloc) {
        Ok(mut lines) => talk(rt, alloc, hub, &mut session, &mut lines, source, sink),
        Err(_) => Ended::Memory,
    };
    let receipt = hub.receipt(&mut session);
    hub.close(rt, session);
    (ended, receipt)
}

/// Reads and answers until the session ends.
fn talk<J: HubSite, T: Wait, R: Source, W: Sink>(
    rt: &T,
    alloc: Global,
    hub: &Hub<J>,
    session: &mut Session<J>,
    lines: &mut Lines,
    source: &mut R,
    sink: &mut W,
) -> Ended
    requires lines { HasRead [] lines.old }
    requires source { R.failures source.old < 2 ^ 63 }
    requires sink { W.failures sink.old < 2 ^ 63 }
    ensures same { (session.new.seat ≡ session.old.seat) × (session.new.life ≡ session.old.life)
        × (session.new.account ≡ session.old.account) }
    ensures talk { (input : List ℕ) × (text : List ℕ)
        × Consumes (R.remaining source.old) (R.remaining source.new) input
        × Appends (W.contents sink.old) (W.contents sink.new) text
        × IsTalk session.old.account J.contents result session.old.knows session.new.knows (lines_of input) text }
    ensures end { result ≡ Ended.EndOfInput → IsAtEnd (R.remaining source.new) }
    ensures memory { result ≢ Ended.Memory }
    ensures read_fault { result ≡ Ended.ReadFault → R.failures source.new ≡ R.failures source.old + 1 }
    ensures no_read_fault { result ≢ Ended.ReadFault → R.failures source.new ≡ R.failures source.old }
    ensures write_fault { result ≡ Ended.WriteFault → W.failures sink.new ≡ W.failures sink.old + 1 }
    ensures no_write_fault { result ≢ Ended.WriteFault → W.failures sink.new ≡ W.failures sink.old }
{
    let mut buf = [0u8; CHUNK];
    for _ in rt.forever() {
        match source.pull(&mut buf) {
            Ok(0) => return Ended::EndOfInput,
            Ok(n) => {
                if let Some(ended) = answer_piece(rt, alloc, hub, session, lines, &buf[..n], sink) {
                    return ended;
                }
            }
            Err(_) => return Ended::ReadFault,
        }
    }
    unreachable!()
}

/// Answers each line that becomes whole in a piece. `Some`: the session is over.
fn answer_piece<J: HubSite, T: Wait, W: Sink>(
    rt: &T,
    alloc: Global,
    hub: &Hub<J>,
    session: &mut Session<J>,
    lines: &mut Lines,
    piece: &[u8],
    sink: &mut W,
) -> Option<Ended>
    requires { W.failures sink.old < 2 ^ 63 }
    ensures same { (session.new.seat ≡ session.old.seat) × (session.new.life ≡ session.old.life)
        × (session.new.account ≡ session.old.account) }
    ensures none { IfNone result ((text : List ℕ) × (asked : List LineForm)
        × Appends (W.contents sink.old) (W.contents sink.new) text
        × ServesOn session.old.account J.contents session.old.knows session.new.knows asked text
        × ((input : List ℕ) → HasRead input lines.old → HasRead (input ++ piece.now) lines.new
        × (lines_of (input ++ piece.now) ≡ lines_of input ++ asked))) }
    ensures some { IfSome result (λ ended. (text : List ℕ) × (asked : List LineForm)
        × Appends (W.contents sink.old) (W.contents sink.new) text
        × ServesToEnd session.old.account J.contents ended session.old.knows session.new.knows asked text
        × ((input : List ℕ) → HasRead input lines.old
        → (rest : List LineForm) × (lines_of (input ++ piece.now) ≡ lines_of input ++ asked ++ rest))) }
    ensures kind { IfSome result IsOfLine }
    ensures failures { IfNone result (W.failures sink.new ≡ W.failures sink.old) }
    ensures write_fault { IfSome result (λ ended. ended ≡ Ended.WriteFault → W.failures sink.new ≡ W.failures sink.old + 1) }
    ensures no_write_fault { IfSome result (λ ended. ended ≢ Ended.WriteFault → W.failures sink.new ≡ W.failures sink.old) }
{
    let mut rest = piece;
    while !rest.is_empty() {
        let fed = lines.feed(rest);
        if fed.whole {
            if let Some(ended) = answer_line(rt, alloc, hub, session, lines.line(), sink) {
                return Some(ended);
            }
        }
        rest = &rest[fed.used..];
    }
    None
}

/// Asks a line and writes what it is answered. `Some`: the session is over.
fn answer_line<J: HubSite, T: Wait, W: Sink>(
    rt: &T,
    alloc: Global,
    hub: &Hub<J>,
    session: &mut Session<J>,
    line: WholeLine<'_>,
    sink: &mut W,
) -> Option<Ended>
    requires { W.failures sink.old < 2 ^ 63 }
    ensures same { (session.new.seat ≡ session.old.seat) × (session.new.life ≡ session.old.life)
        × (session.new.account ≡ session.old.account) }
    ensures none { IfNone result ((text : List ℕ) × Appends (W.contents sink.old) (W.contents sink.new) text
        × ServesOn session.old.account J.contents session.old.knows session.new.knows (form_lent line.entry ∷ []) text) }
    ensures some { IfSome result (λ ended. (text : List ℕ) × Appends (W.contents sink.old) (W.contents sink.new) text
        × ServesToEnd session.old.account J.contents ended session.old.knows session.new.knows (form_lent line.entry ∷ []) text) }
    ensures kind { IfSome result IsOfLine }
    ensures failures { IfNone result (W.failures sink.new ≡ W.failures sink.old) }
    ensures write_fault { IfSome result (λ ended. ended ≡ Ended.WriteFault → W.failures sink.new ≡ W.failures sink.old + 1) }
    ensures no_write_fault { IfSome result (λ ended. ended ≢ Ended.WriteFault → W.failures sink.new ≡ W.failures sink.old) }
{
    let answer = ask_line(rt, alloc, hub, session, line);
    if push_all(sink, answer.text()) {
        ended_by(&answer)
    } else {
        Some(Ended::WriteFault)
    }
}

/// How the session ends after this answer, where it does.
fn ended_by(answer: &LineAnswer) -> Option<Ended>
    ensures { result ≡ ended_after answer.now }
{
    match answer {
        LineAnswer::Reply(_) | LineAnswer::Memory => None,
        LineAnswer::Closed(_) => Some(Ended::Closed),
        LineAnswer::Quota(_) => Some(Ended::Quota),
    }
}

/// Asks a line. Where there is no memory for it, the session catches up with its trail, so that what it knows is legal.
fn ask_line<J: HubSite, T: Wait>(
    rt: &T,
    alloc: Global,
    hub: &Hub<J>,
    session: &mut Session<J>,
    line: WholeLine<'_>,
) -> LineAnswer
    ensures same { (session.new.seat ≡ session.old.seat) × (session.new.life ≡ session.old.life)
        × (session.new.account ≡ session.old.account) }
    ensures asked { ComesOfAsking session.old.account J.contents session.old.knows (form_lent line.entry) result session.new.knows }
{
    let Ok(asked) = line.to_asked(alloc) else {
        let _count = hub.seen(session);
        return LineAnswer::Memory;
    };
    let answer = hub.ask(rt, alloc, session, &asked);
    if let LineAnswer::Memory = answer {
        let _count = hub.seen(session);
        return LineAnswer::Memory;
    }
    answer
}

/// Writes all bytes, and says whether it did: else the sink failed, and a beginning was written.
fn push_all<W: Sink>(sink: &mut W, bytes: &[u8]) -> bool
    requires { W.failures sink.old < 2 ^ 63 }
    ensures yes { IsTrue result → Appends (W.contents sink.old) (W.contents sink.new) bytes.now }
    ensures no { IsFalse result → (n : ℕ) × Appends (W.contents sink.old) (W.contents sink.new) (take n bytes.now) }
    ensures failures { IsTrue result → W.failures sink.new ≡ W.failures sink.old }
    ensures fault { IsFalse result → W.failures sink.new ≡ W.failures sink.old + 1 }
{
    let mut rest = bytes;
    while !rest.is_empty() {
        match sink.push(rest) {
            Ok(n) => rest = &rest[n..],
            Err(_) => return false,
        }
    }
    true
}
