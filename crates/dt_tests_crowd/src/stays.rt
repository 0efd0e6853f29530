//! Two sessions that stay while others come and go, and meet each processor.
use crate::crowd::{Board, asks};
use dt_alone::{Verdict, check};
use dt_hub::{Fired, NoGate};
use dt_hub_calls::texts::{GO, STATUS, STOP};
use dt_hub_calls::{HubCalls, LifeHeard, SessionCalls, Sight, TokenCalls, meet_heard, trail_text};
use std::alloc::{AllocError, Global};
use std::process::Abort;
use std::sync::Wait;

/// What the first asks, which sees each firing until its history is full.
const FIRST_LINES: [&str; 3] = [
    r#"{"cmd":"option","name":"histsize","value":3000}"#,
    r#"{"cmd":"enable","text":"syscall:::entry{@c[execname]=count();trace(pid)}"}"#,
    GO,
];

/// What the second asks, which sees one firing in four.
const SECOND_LINES: [&str; 3] = [
    r#"{"cmd":"option","name":"histsize","value":10000}"#,
    r#"{"cmd":"enable","text":"syscall::read:entry{@c[pid]=count()}"}"#,
    GO,
];

/// What either asks between the two rounds of firings.
const BETWEEN: [&str; 1] = [STATUS];

/// What either asks after them.
const LAST_LINES: [&str; 3] = [STOP, r#"{"cmd":"agg","name":"c"}"#, STATUS];

const FIRST: Sight = Sight {
    go: 2,
    stop: Some(4),
    history: 3_000,
};

const SECOND: Sight = Sight {
    go: 2,
    stop: Some(4),
    history: 10_000,
};

/// A processor, and what it was answered of the two sessions.
#[derive(Drop)]
pub(crate) struct Firer<T: TokenCalls> {
    pub(crate) token: T,
    first: LifeHeard,
    second: LifeHeard,
}

impl<T: TokenCalls> Firer<T> {
    /// Has fired at this place. The second session sees the firings of one probe by one process.
    pub(crate) fn fired(&mut self, place: u32) -> Result<(), AllocError> {
        self.first.fired(&self.token, true)?;
        self.second.fired(&self.token, place % 4 == 0)?;
        Ok(())
    }

    /// Fires so often, unless its script ends.
    fn fires<H: HubCalls<Token = T>, R: Wait>(
        &mut self,
        rt: &R,
        hub: &H,
        most: u32,
    ) -> Result<(), AllocError> {
        for _ in 0..most {
            if let Fired::At(place) = hub.fire(rt, &mut self.token, &NoGate) {
                self.fired(place)?;
            }
        }
        Ok(())
    }
}

/// The two sessions, and what they were answered.
pub(crate) struct Stay<H: HubCalls> {
    first: H::Session,
    second: H::Session,
    first_replies: Vec<Vec<u8>>,
    second_replies: Vec<Vec<u8>>,
}

impl<H: HubCalls> Stay<H> {
    pub(crate) fn new(alloc: Global, first: H::Session, second: H::Session) -> Stay<H> {
        Stay {
            first,
            second,
            first_replies: Vec::new(alloc),
            second_replies: Vec::new(alloc),
        }
    }

    /// Both sessions close.
    pub(crate) fn closes<R: Wait>(self, rt: &R, hub: &H) {
        let Stay {
            first,
            second,
            first_replies: _first,
            second_replies: _second,
        } = self;
        hub.close(rt, first);
        hub.close(rt, second);
    }

    /// Both ask lines.
    fn asks<R: Wait>(
        &mut self,
        rt: &R,
        alloc: Global,
        hub: &H,
        first: &[&str],
        second: &[&str],
    ) -> Result<(), AllocError> {
        asks(
            rt,
            alloc,
            hub,
            &mut self.first,
            first,
            &mut self.first_replies,
        )?;
        asks(
            rt,
            alloc,
            hub,
            &mut self.second,
            second,
            &mut self.second_replies,
        )
    }

    /// Both begin to trace, before the processors fire.
    pub(crate) fn begins<R: Wait>(
        &mut self,
        rt: &R,
        alloc: Global,
        hub: &H,
        tokens: Vec<H::Token>,
    ) -> Result<Vec<Firer<H::Token>>, AllocError> {
        self.asks(rt, alloc, hub, &FIRST_LINES, &SECOND_LINES)?;
        let mut firers = Vec::new(alloc);
        for token in tokens {
            let first = LifeHeard::new(alloc, &self.first);
            let second = LifeHeard::new(alloc, &self.second);
            firers.push(Firer {
                token,
                first,
                second,
            })?;
        }
        Ok(firers)
    }

    /// Each processor makes at most so many firings, and both meet it.
    fn meets_all<R: Wait + Abort>(
        &mut self,
        rt: &R,
        alloc: Global,
        hub: &H,
        firers: &mut Vec<Firer<H::Token>>,
        most: u32,
    ) -> Result<(), AllocError> {
        for firer in firers {
            firer.fires(rt, hub, most)?;
            let Firer {
                token,
                first,
                second,
            } = firer;
            let met = meet_heard(rt, alloc, hub, &mut self.first, token, first, FIRST)?;
            met.expect(rt, "no row in common");
            let met = meet_heard(rt, alloc, hub, &mut self.second, token, second, SECOND)?;
            met.expect(rt, "no row in common");
        }
        Ok(())
    }

    /// Between two rounds of firings the first session meets each processor, and the second tells each what it knows.
    pub(crate) fn goes_on<R: Wait + Abort>(
        &mut self,
        rt: &R,
        alloc: Global,
        hub: &H,
        firers: &mut Vec<Firer<H::Token>>,
    ) -> Result<(), AllocError> {
        let known = hub.seen(&mut self.second);
        for firer in firers {
            let Firer {
                token,
                first,
                second,
            } = firer;
            let met = meet_heard(rt, alloc, hub, &mut self.first, token, first, FIRST)?;
            met.expect(rt, "no row in common");
            let receipt = hub.receipt(&mut self.second);
            hub.tell(token, receipt);
            second.learns(known);
        }
        self.asks(rt, alloc, hub, &BETWEEN, &BETWEEN)
    }

    /// After all firings but a few both meet each processor, and stop; then the processors make the rest of them, and both meet each once more. Answers how many firings
    /// are on the two trails.
    pub(crate) fn ends<R: Wait + Abort>(
        &mut self,
        rt: &R,
        alloc: Global,
        hub: &H,
        board: &Board,
        firers: &mut Vec<Firer<H::Token>>,
        most: u32,
    ) -> Result<u64, AllocError> {
        self.meets_all(rt, alloc, hub, firers, 0)?;
        self.asks(rt, alloc, hub, &LAST_LINES, &LAST_LINES)?;
        self.meets_all(rt, alloc, hub, firers, most)?;
        let first = judged(
            rt,
            alloc,
            board,
            &mut self.first,
            "root",
            &self.first_replies,
        )?;
        let second = judged(
            rt,
            alloc,
            board,
            &mut self.second,
            "ann",
            &self.second_replies,
        )?;
        Ok(first.wrapping_add(second))
    }
}

/// A session's trail is answered as it is due. Answers how many firings are on it.
pub(crate) fn judged<S: SessionCalls, R: Abort>(
    rt: &R,
    alloc: Global,
    board: &Board,
    session: &mut S,
    name: &str,
    replies: &[Vec<u8>],
) -> Result<u64, AllocError> {
    let (text, firings) = trail_text(alloc, session, name, replies)?;
    let verdict = check(alloc, &board.machine, &text);
    assert_eq!(rt; verdict, Ok(Verdict::Agree(replies.len())));
    Ok(firings)
}
