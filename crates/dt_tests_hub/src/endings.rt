//! What an answer tells of its session's end.
use crate::calls::{Play, opened, run};
use dt_hub::LineAnswer;
use dt_hub_calls::texts::{DONE, MACHINE, STATUS};
use dt_hub_calls::{HubCalls, answered};
use std::alloc::Global;
use std::process::Abort;
use std::sync::Wait;
use std::test::Fail;

pub(crate) const CLOSE: &str = r#"{"cmd":"close"}"#;

/// How many lines a session may ask.
const QUOTA: u32 = 1_024;

/// One session closes, and another uses up its lines.
struct Ends;

impl Play for Ends {
    fn play<H: HubCalls, R: Wait + Abort>(
        &self,
        rt: &R,
        alloc: Global,
        hub: &H,
        tokens: Vec<H::Token>,
    ) -> Result<(), Fail> {
        drop(tokens);
        let mut first = opened(rt, alloc, hub, "root");
        let answer = answered(rt, alloc, hub, &mut first, CLOSE);
        assert!(rt;
            matches!(answer, LineAnswer::Closed(_)),
            "not told as closed"
        );
        assert!(rt; answer.text() == DONE.as_bytes(), "another reply");
        hub.close(rt, first);
        let mut second = opened(rt, alloc, hub, "root");
        for _ in 0..QUOTA {
            let answer = answered(rt, alloc, hub, &mut second, STATUS);
            assert!(rt;
                matches!(answer, LineAnswer::Reply(_)),
                "not told as going on"
            );
        }
        let answer = answered(rt, alloc, hub, &mut second, CLOSE);
        assert!(rt;
            matches!(answer, LineAnswer::Quota(_)),
            "not told as over the quota"
        );
        hub.close(rt, second);
        Ok(())
    }
}

#[test]
fn an_answer_tells_what_ends_a_session(rt: HostRuntime) -> Result<(), Fail> {
    run(&rt, rt.alloc(), MACHINE, &Ends)
}
