//! What a test takes for granted on a hub.
use dt_hub_calls::texts::{DONE, ENABLE, ENABLED, GO};
use dt_hub_calls::{HubCalls, answered, two_of};
use std::alloc::Global;
use std::process::Abort;
use std::sync::Wait;
use std::test::Fail;

/// The tokens of a machine's two processors.
pub(crate) fn both<T: Drop, R: Abort>(rt: &R, tokens: Vec<T>) -> Result<(T, T), Fail> {
    assert_eq!(rt; tokens.len(), 2);
    Ok(two_of(tokens).ok_or("no processor")?)
}

/// A session that is opened: there has to be a seat, and memory.
pub(crate) fn opened<H: HubCalls, R: Wait + Abort>(
    rt: &R,
    alloc: Global,
    hub: &H,
    name: &str,
) -> H::Session {
    hub.open(rt, alloc, name).expect(rt, "no session")
}

/// A line is answered by this text.
pub(crate) fn says<H: HubCalls, R: Wait + Abort>(
    rt: &R,
    alloc: Global,
    hub: &H,
    session: &mut H::Session,
    line: &str,
    reply: &str,
) {
    let answer = answered(rt, alloc, hub, session, line);
    assert!(rt; answer.text() == reply.as_bytes(), "another reply");
}

/// A session of an account's that traces.
pub(crate) fn tracing<H: HubCalls, R: Wait + Abort>(
    rt: &R,
    alloc: Global,
    hub: &H,
    name: &str,
) -> H::Session {
    let mut session = opened(rt, alloc, hub, name);
    says(rt, alloc, hub, &mut session, ENABLE, ENABLED);
    says(rt, alloc, hub, &mut session, GO, DONE);
    session
}
