//! Sessions on the first seats, which step lines play.
use dt_hub::{Gate, LineAnswer, Moment, NoGate};
use dt_hub_calls::texts::STATUS;
use dt_hub_calls::{HubCalls, TokenCalls};
use dt_proto::Asked;
use std::alloc::Global;
use std::mem;
use std::sync::{Mutex, MutexGuard, Wait};

/// The sessions that are open on the first three seats. It isn't `Drop`: [`Player::end`] closes them.
pub(crate) struct Player<H: HubCalls> {
    first: Option<H::Session>,
    second: Option<H::Session>,
    third: Option<H::Session>,
    /// The lines that came since a `look`, and wait for its first `offer`.
    waiting: Option<Vec<String>>,
}

/// What a firing has played once it looked, before it takes the lock of the first seat that is named.
struct Interlude<H: HubCalls> {
    player: Player<H>,
    lines: Vec<String>,
    text: Option<Vec<u8>>,
}

/// A gate at which an interlude is played.
struct Between<'a, H: HubCalls, R: Wait> {
    rt: &'a R,
    alloc: Global,
    hub: &'a H,
    interlude: Mutex<Interlude<H>>,
}

impl<H: HubCalls, R: Wait> Gate for Between<'_, H, R> {
    fn at(&self, _cpu: u32, _seat: u32, moment: Moment) {
        if moment != Moment::Before {
            return;
        }
        let mut interlude = self.interlude.lock(self.rt);
        interlude.play(self.rt, self.alloc, self.hub);
        MutexGuard::unlock(interlude);
    }
}

impl<H: HubCalls> Interlude<H> {
    /// Plays the lines that are left, and keeps what is answered. Where one can't be played nothing is kept.
    fn play<R: Wait>(&mut self, rt: &R, alloc: Global, hub: &H) {
        let lines = mem::replace(&mut self.lines, Vec::new(alloc));
        for line in &lines {
            let answer = self.player.take_of_session(rt, alloc, hub, line.as_str());
            self.text = joined(self.text.take(), answer);
        }
    }
}

/// A text and what is added to it.
fn joined(text: Option<Vec<u8>>, answer: Option<Vec<u8>>) -> Option<Vec<u8>> {
    let mut text = text?;
    text.extend_from_slice(&answer?).ok()?;
    Some(text)
}

/// Closes a session, if it is there.
fn close<H: HubCalls, R: Wait>(rt: &R, hub: &H, session: Option<H::Session>) {
    match session {
        Some(session) => hub.close(rt, session),
        None => {}
    }
}

/// What a session is answered to a line, after its seat's number. An accepted `close` closes it, too, once it was answered.
fn called<H: HubCalls, R: Wait>(
    rt: &R,
    alloc: Global,
    hub: &H,
    session: &mut Option<H::Session>,
    number: &str,
    line: &str,
) -> Option<Vec<u8>> {
    let asked = Asked::Line(line.as_bytes().to_vec(alloc).ok()?);
    let answer = match session {
        Some(session) => hub.ask(rt, alloc, session, &asked),
        None => return None,
    };
    let mut text = number.as_bytes().to_vec(alloc).ok()?;
    text.push(b' ').ok()?;
    text.extend_from_slice(answer.text()).ok()?;
    if matches!(answer, LineAnswer::Closed(_)) {
        close(rt, hub, session.take());
    }
    Some(text)
}

/// Opens a session in place of another.
fn open<H: HubCalls, R: Wait>(
    rt: &R,
    alloc: Global,
    hub: &H,
    session: &mut Option<H::Session>,
    name: &str,
) -> Option<Vec<u8>> {
    close(rt, hub, session.take());
    match hub.open(rt, alloc, name) {
        Ok(opened) => {
            close(rt, hub, session.replace(opened));
            Some(Vec::new(alloc))
        }
        Err(_) => None,
    }
}

/// Plays a line of a seat.
fn act<H: HubCalls, R: Wait>(
    rt: &R,
    alloc: Global,
    hub: &H,
    session: &mut Option<H::Session>,
    word: &str,
    number: &str,
    more: &str,
) -> Option<Vec<u8>> {
    match word {
        "open" => open(rt, alloc, hub, session, more),
        "call" => called(rt, alloc, hub, session, number, more),
        "close" => {
            close(rt, hub, session.take());
            Some(Vec::new(alloc))
        }
        _ => None,
    }
}

/// Whether a session traces, as its own `status` is answered. A session that traces now has traced since its `go`.
fn traces<H: HubCalls, R: Wait>(
    rt: &R,
    alloc: Global,
    hub: &H,
    session: &mut H::Session,
) -> Option<bool> {
    let asked = Asked::Line(STATUS.as_bytes().to_vec(alloc).ok()?);
    let answer = hub.ask(rt, alloc, session, &asked);
    let text = str::from_utf8(answer.text()).ok()?;
    Some(text.contains(r#""phase":"active""#))
}

/// Tells a processor what a session knows, or lets the two meet: then it says how many items the trail has, and that it is complete, where the session still traces: then it
/// lacks no firing that the processor made for the session once it knew of its `go`.
fn joins<H: HubCalls, R: Wait>(
    rt: &R,
    alloc: Global,
    hub: &H,
    session: &mut Option<H::Session>,
    token: &mut H::Token,
    word: &str,
    number: &str,
) -> Option<Vec<u8>> {
    let session = match session {
        Some(session) => session,
        None => return None,
    };
    if word == "tell" {
        let receipt = hub.receipt(session);
        hub.tell(token, receipt);
        return Some(Vec::new(alloc));
    }
    hub.meet(rt, session, token);
    let count = hub.seen(session);
    let cpu = token.cpu();
    let came = if traces(rt, alloc, hub, session)? {
        "complete for"
    } else {
        "met"
    };
    let text = format!(in alloc; "{number} {came} processor {cpu}: {count} items\n").ok()?;
    Some(text.into_bytes())
}

impl<H: HubCalls> Player<H> {
    pub(crate) fn new() -> Player<H> {
        Player {
            first: None,
            second: None,
            third: None,
            waiting: None,
        }
    }

    /// Plays a line, and tells what is answered: nothing, but to a `call` and a `meet`. `None`: it can't be played.
    pub(crate) fn take<R: Wait>(
        &mut self,
        rt: &R,
        alloc: Global,
        hub: &H,
        tokens: &mut Vec<H::Token>,
        line: &str,
    ) -> Option<Vec<u8>> {
        let (word, rest) = line.split_once(' ')?;
        let (number, more) = rest.split_once(' ').unwrap_or((rest, ""));
        if word == "look" {
            self.waiting = Some(Vec::new(alloc));
            return Some(Vec::new(alloc));
        }
        if word == "offer" {
            let cpu: usize = number.parse().ok()?;
            return self.fire_after(rt, alloc, hub, tokens.get_mut(cpu)?);
        }
        if let Some(waiting) = &mut self.waiting {
            waiting.push(line.to_string(alloc).ok()?).ok()?;
            return Some(Vec::new(alloc));
        }
        if word == "fire" {
            let cpu: usize = number.parse().ok()?;
            let _came = hub.fire(rt, tokens.get_mut(cpu)?, &NoGate);
            return Some(Vec::new(alloc));
        }
        if word == "tell" || word == "meet" {
            let cpu: usize = more.parse().ok()?;
            let token = tokens.get_mut(cpu)?;
            return match number {
                "0" => joins(rt, alloc, hub, &mut self.first, token, word, number),
                "1" => joins(rt, alloc, hub, &mut self.second, token, word, number),
                _ => joins(rt, alloc, hub, &mut self.third, token, word, number),
            };
        }
        self.take_of_session(rt, alloc, hub, line)
    }

    /// Plays a line of a session.
    fn take_of_session<R: Wait>(
        &mut self,
        rt: &R,
        alloc: Global,
        hub: &H,
        line: &str,
    ) -> Option<Vec<u8>> {
        let (word, rest) = line.split_once(' ')?;
        let (number, more) = rest.split_once(' ').unwrap_or((rest, ""));
        match number {
            "0" => act(rt, alloc, hub, &mut self.first, word, number, more),
            "1" => act(rt, alloc, hub, &mut self.second, word, number, more),
            _ => act(rt, alloc, hub, &mut self.third, word, number, more),
        }
    }

    /// A processor makes its next firing: it looks, then the lines are played that came since its `look`, and then it offers the firing to each seat that was named,
    /// whichever `offer` names. Where no `look` came before, the firing was made by an earlier `offer`.
    fn fire_after<R: Wait>(
        &mut self,
        rt: &R,
        alloc: Global,
        hub: &H,
        token: &mut H::Token,
    ) -> Option<Vec<u8>> {
        let Some(lines) = self.waiting.take() else {
            return Some(Vec::new(alloc));
        };
        let gate = Between {
            rt,
            alloc,
            hub,
            interlude: Mutex::new(Interlude {
                player: mem::replace(self, Player::new()),
                lines,
                text: Some(Vec::new(alloc)),
            }),
        };
        let _came = hub.fire(rt, token, &gate);
        let Between {
            rt: _rt,
            alloc: _alloc,
            hub: _hub,
            interlude,
        } = gate;
        let Interlude {
            player,
            lines: left,
            text,
        } = interlude.into_inner();
        mem::replace(self, player).end(rt, hub);
        // a firing that names nobody comes to no gate
        if left.is_empty() { text } else { None }
    }

    /// Closes the sessions.
    pub(crate) fn end<R: Wait>(self, rt: &R, hub: &H) {
        let Player {
            first,
            second,
            third,
            waiting: _waiting,
        } = self;
        close(rt, hub, first);
        close(rt, hub, second);
        close(rt, hub, third);
    }
}
