//! A list of 170,012 steps, ten times as long as the others.
use crate::calls::{
    MACHINE, asked, look, machine_of, named, ran, replies_of, seat_numbered, step_on, words_of,
};
use dt_chain::Seat;
use dt_machine::Machine;
use dt_steps::{Ran, Step};
use std::alloc::Global;
use std::process::Abort;
use std::test::Fail;

/// How many firings come before each time that the sessions ask.
const FIRINGS: u32 = 566;

/// How often they ask.
const TURNS: u32 = 100;

/// What each look names: both seats, each with its first life.
const BOTH: [(u32, u64); 2] = [(0, 0), (9, 0)];

/// Two sessions that count the same firings.
const BEGUN: &str = r#"open 0 root
open 9 root
ask 0 {"cmd":"option","name":"histsize","value":65536}
ask 9 {"cmd":"option","name":"histsize","value":65536}
ask 0 {"cmd":"enable","text":"read:entry{@=count()}"}
ask 9 {"cmd":"enable","text":"read:entry{@=count()}"}
ask 0 {"cmd":"go"}
ask 9 {"cmd":"go"}
publish 0
publish 9
finish 0
finish 9"#;

const BEGUN_ANSWERS: &str = r#"0 {"ok":true}
9 {"ok":true}
0 {"count":1,"first":1,"ok":true}
9 {"count":1,"first":1,"ok":true}
0 {"ok":true}
9 {"ok":true}
"#;

#[test]
fn a_long_list_is_answered_to_its_end(rt: HostRuntime) -> Result<(), Fail> {
    let alloc = rt.alloc();
    let machine = machine_of(alloc, MACHINE)?;
    let steps = long_list(alloc, &machine, seat_numbered(0)?, seat_numbered(9)?)?;
    assert_eq!(rt; steps.len(), 170_012);
    is_answered(&rt, alloc, &ran(alloc, &machine, &steps)?)
}

/// Each turn is answered, and each look names both.
fn is_answered(rt: &impl Abort, alloc: Global, ran: &Ran) -> Result<(), Fail> {
    assert!(rt;
        replies_of(alloc, ran)?.as_slice() == long_answers(alloc)?.as_bytes(),
        "the replies"
    );
    assert_eq!(rt; ran.masks.len(), 56_600);
    for mask in &ran.masks {
        assert!(rt;
            named(alloc, *mask)?.as_slice() == BOTH.as_slice(),
            "a look"
        );
    }
    Ok(())
}

/// The sessions begin; in each turn the same firing is looked at and offered to both, and then each of them asks.
fn long_list(alloc: Global, machine: &Machine, one: Seat, other: Seat) -> Result<Vec<Step>, Fail> {
    let mut steps = Vec::new(alloc);
    for line in BEGUN.lines() {
        let (word, seat, more) = words_of(line);
        steps.push(step_on(alloc, word, seat_numbered(seat.parse::<u32>()?)?, more)?)?;
    }
    for _turn in 0..TURNS {
        push_turn(alloc, machine, one, other, &mut steps)?;
    }
    Ok(steps)
}

/// Adds the steps of a turn.
fn push_turn(
    alloc: Global,
    machine: &Machine,
    one: Seat,
    other: Seat,
    steps: &mut Vec<Step>,
) -> Result<(), Fail> {
    for _firing in 0..FIRINGS {
        steps.push(look(machine, 0, 0, 0)?)?;
        steps.push(Step::Offer(0, one))?;
        steps.push(Step::Offer(0, other))?;
    }
    steps.push(Step::Ask(one, asked(alloc, br#"{"cmd":"agg","name":""}"#)?))?;
    steps.push(Step::Ask(other, asked(alloc, br#"{"cmd":"status"}"#)?))?;
    Ok(())
}

/// What is answered to it: in each turn, how many firings there were.
fn long_answers(alloc: Global) -> Result<String, Fail> {
    let mut answers = String::from_str(alloc, BEGUN_ANSWERS)?;
    let mut seen = 0u32;
    for _turn in 0..TURNS {
        seen = seen.saturating_add(FIRINGS);
        answers.push_str(counted(alloc, seen)?.as_str())?;
    }
    Ok(answers)
}

/// The replies of a turn.
fn counted(alloc: Global, seen: u32) -> Result<String, Fail> {
    let mut text = format!(in alloc;
        "0 {{\"fn\":\"count\",\"name\":\"\",\"ok\":true,\"rows\":[{{\"key\":[],\"value\":{seen}}}]}}\n"
    )?;
    text.push_str(
        "9 {\"aggdrops\":[0,0],\"cause\":null,\"dyndrops\":[0,0],\"errors\":[0,0],\"exit\":null,\"ok\":true,\"phase\":\"active\",\"seen\":",
    )?;
    text.push_str(format!(in alloc; "{seen},\"specdrops\":[0,0],\"specfails\":0}}\n")?.as_str())?;
    Ok(text)
}
