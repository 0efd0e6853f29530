//! What a consumer is answered alone.
use crate::calls::{MACHINE, answered_alone, asked, machine_of};
use dt_alone::Item;
use dt_machine::Machine;
use dt_proto::Asked;
use std::alloc::Global;
use std::process::Abort;
use std::test::Fail;

const ENABLE: &str = r#"{"cmd":"enable","text":"syscall::read:entry{}"}"#;

const GO: &str = r#"{"cmd":"go"}"#;

const SNAP: &str = r#"{"cmd":"snap","cpu":0}"#;

const REPLIES: &str = r#"{"count":1,"first":1,"ok":true}
{"ok":true}
{"cpu":0,"data":"00000001","drops":0,"filled":false,"ok":true}
"#;

/// Items, in which `fired` is the first firing of processor 0 and `long` a long line, with what `root` is answered.
const TABLE: &[(&[&str], &[&str])] = &[
    (&[ENABLE, GO, "fired", SNAP], &[REPLIES]),
    // a firing before the `go` is not seen
    (
        &[ENABLE, "fired", GO, "fired", SNAP, "long"],
        &[REPLIES, "{\"error\":3,\"name\":\"LineLong\"}\n"],
    ),
];

#[test]
fn a_consumer_is_answered_alone(rt: HostRuntime) -> Result<(), Fail> {
    let alloc = rt.alloc();
    let machine = machine_of(alloc, MACHINE)?;
    for (words, replies) in TABLE {
        let items = items_of(alloc, &machine, words)?;
        let told = answered_alone(alloc, &machine, "root", &items)?;
        let lines = items
            .iter()
            .filter(|item| !matches!(item, Item::Firing(_)))
            .count();
        assert_eq!(rt; told.len(), lines);
        let told = told.concat(alloc)?;
        let wanted = replies.concat(alloc)?;
        assert_eq!(rt; told.as_slice(), wanted.as_bytes());
    }
    Ok(())
}

/// A firing three thousand times, and more lines than a session may ask: each but the first three is none, and after 1,024 lines the quota
/// is used up.
#[test]
fn a_long_life_is_answered_alone(rt: HostRuntime) -> Result<(), Fail> {
    let alloc = rt.alloc();
    let machine = machine_of(alloc, MACHINE)?;
    let items = long_life(alloc, &machine)?;
    let told = answered_alone(alloc, &machine, "root", &items)?;
    assert_eq!(rt; told.len(), 1_103usize);
    are_right(&rt, &told, shown(alloc)?.as_str());
    Ok(())
}

/// Each reply is right, where this is what the `snap` is answered.
fn are_right(rt: &impl Abort, told: &[Vec<u8>], shown: &str) {
    for (place, reply) in told.iter().enumerate() {
        let wanted = match place {
            0 => "{\"count\":1,\"first\":1,\"ok\":true}\n",
            1 => "{\"ok\":true}\n",
            2 => shown,
            3..=1_023 => "{\"error\":2,\"name\":\"Request\"}\n",
            _ => "{\"error\":15,\"name\":\"Quota\"}\n",
        };
        assert!(rt; reply.as_slice() == wanted.as_bytes(), "{place}");
    }
}

fn long_life(alloc: Global, machine: &Machine) -> Result<Vec<Item>, Fail> {
    let mut items = items_of(alloc, machine, &[ENABLE, GO])?;
    for _firing in 0..3_000usize {
        items.append(&mut items_of(alloc, machine, &["fired"])?)?;
    }
    items.append(&mut items_of(alloc, machine, &[SNAP])?)?;
    for _line in 0..1_100usize {
        items.push(Item::Line(asked(alloc, b"[]")?))?;
    }
    Ok(items)
}

/// What its `snap` is answered.
fn shown(alloc: Global) -> Result<String, Fail> {
    let data = "00000001".repeat(alloc, 3_000)?;
    let parts = [
        r#"{"cpu":0,"data":""#,
        data.as_str(),
        "\",\"drops\":0,\"filled\":false,\"ok\":true}\n",
    ];
    Ok(parts.concat(alloc)?)
}

fn items_of(alloc: Global, machine: &Machine, words: &[&str]) -> Result<Vec<Item>, Fail> {
    let mut items = Vec::new(alloc);
    for word in words {
        let item = match *word {
            "fired" => Item::Firing(*machine.firing(0, 0).ok_or("no firing")?),
            "long" => Item::Line(Asked::Long),
            line => Item::Line(asked(alloc, line.as_bytes())?),
        };
        items.push(item)?;
    }
    Ok(items)
}
