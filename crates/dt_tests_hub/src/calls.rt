//! What a test does with a hub, and what it takes for granted there.
ghost use Rattle.std.specs.Prelude.{◌≡◌};

use dt_chain::SEATS;
use dt_hub::{Hub, HubParts, HubSite, Offered};
use dt_hub_calls::{HubCalls, TokenCalls, answered, at_seat, two_of};
use dt_machine::Machine;
use std::alloc::Global;
use std::marker::Brand;
use std::process::Abort;
use std::sync::Wait;
use std::test::Fail;

/// What a test does with a hub, and with the tokens of its processors.
pub(crate) trait Play {
    fn play<H: HubCalls, R: Wait + Abort>(
        &self,
        rt: &R,
        alloc: Global,
        hub: &H,
        tokens: Vec<H::Token>,
    ) -> Result<(), Fail>;
}

/// Plays on a new hub of a machine, whose text this is.
pub(crate) fn run<R: Wait + Abort, P: Play>(
    rt: &R,
    alloc: Global,
    machine: &str,
    play: &P,
) -> Result<(), Fail> {
    let machine = Machine::read(alloc, machine.as_bytes())?;
    let parts = HubParts::new(alloc, machine)?;
    staged::<Brand, R, P>(rt, alloc, parts, play)
}

fn staged<J: HubSite, R: Wait + Abort, P: Play>(
    rt: &R,
    alloc: Global,
    parts: HubParts,
    play: &P,
) -> Result<(), Fail>
    requires contents { parts.contents ≡ J.contents }
    requires chains { parts.book ≡ J.book }
    requires facts { parts.word ≡ J.word }
{
    let (hub, tokens) = Hub::<J>::new(rt, alloc, parts)?;
    let result = play.play(rt, alloc, &hub, tokens);
    hub.end(rt);
    result
}

/// The tokens of a machine's two processors.
pub(crate) fn both<T: Drop, R: Abort>(rt: &R, tokens: Vec<T>) -> Result<(T, T), Fail> {
    assert_eq!(rt; tokens.len(), 2);
    Ok(two_of(tokens).ok_or("no processor")?)
}

/// A session that is opened: there has to be a seat, and memory.
pub(crate) fn opened<H: HubCalls, R: Wait + Abort>(
    rt: &R,
    alloc: Global,
    hub: &H,
    name: &str,
) -> H::Session {
    hub.open(rt, alloc, name).expect(rt, "no session")
}

/// A line is answered by this text.
pub(crate) fn says<H: HubCalls, R: Wait + Abort>(
    rt: &R,
    alloc: Global,
    hub: &H,
    session: &mut H::Session,
    line: &str,
    reply: &str,
) {
    let answer = answered(rt, alloc, hub, session, line);
    assert!(rt; answer.text() == reply.as_bytes(), "another reply");
}

/// The last firing came to this at one seat, and named no other.
pub(crate) fn only_at<T: TokenCalls, R: Abort>(rt: &R, token: &T, number: u32, came: Offered) {
    for other in 0..SEATS as u32 {
        let expected = if other == number {
            came
        } else {
            Offered::NotNamed
        };
        assert_eq!(rt; at_seat(token, other), expected);
    }
}
