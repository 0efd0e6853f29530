//! Plays step lines on a hub, which `examples/test` compares, and has sessions and processors at work on one, which `bench/hub` measures.
//!
//! `play MACHINE STEPS` plays the lines one after the other, in one thread, and writes the replies as `dtraced replay` does. Lines are `open SEAT ACCOUNT`,
//! `call SEAT LINE`, `fire CPU`, `look CPU`, `offer CPU SEAT`, `tell SEAT CPU`, `meet SEAT CPU` and `close SEAT`; the seats are the first three. Lines of sessions between a `look` and the first `offer` are played
//! once the processor has looked, before it takes a lock; with that offer the firing goes to all seats that were named. To a `meet` it writes which processor was met,
//! whether the seat's trail is complete for it, which is where the session still traces by its `status`, and how many items the trail had. `measure MACHINE INTERESTED OTHERS` opens so many sessions that enable the
//! probe of the scripts, and so many that enable another, and lets the last two processors fire their whole scripts, one after the other, or, with the word `together`, at
//! the same time, each on a thread of its own; with one more word, that many firings each, one after the other. It writes how many firings were made, and how long they took. `ask MACHINE SESSIONS` opens
//! so many sessions one after the other, each of which asks its `status` a thousand times, and writes how many replies came, and how long the lines took. With no word the program does nothing.
#![tactic(auto)]

ghost use Rattle.std.specs.Prelude.{◌≡◌};

mod measuring;
mod player;

use dt_hub::{Hub, HubParts, HubSite};
use dt_hub_calls::HubCalls;
use dt_machine::Machine;
use measuring::{Scene, ask_in_turn, opens};
use player::Player;
use std::alloc::Global;
use std::fmt::Display;
use std::marker::Brand;
use std::rt::Clock;
use std::sync::Wait;
use std::thread::Threads;
use std::{env, fs, io};

/// What is to be done.
#[derive(Drop)]
enum Work {
    /// Lines are played.
    Play { steps: Vec<u8> },
    /// Sessions and processors are at work.
    Measure(Scene),
    /// So many sessions ask.
    Ask { sessions: u64 },
}

fn main(rt: HostRuntime) -> io::Result<()> {
    let Some((machine, work)) = asked(&rt) else {
        return Ok(());
    };
    let Ok(machine) = Machine::read(rt.alloc(), &machine) else {
        return println!(rt; "no machine");
    };
    let Ok(parts) = HubParts::new(rt.alloc(), machine) else {
        return println!(rt; "out of memory");
    };
    match staged::<Brand, _>(&rt, rt.alloc(), parts, &work) {
        Some(text) => match str::from_utf8(&text) {
            Ok(text) => print!(rt; "{text}"),
            Err(_) => println!(rt; "no text"),
        },
        None => println!(rt; "this can't be played"),
    }
}

/// The machine's text, and the work, that the program's words name.
fn asked(rt: &HostRuntime) -> Option<(Vec<u8>, Work)> {
    let words = env::args(rt).ok()?.collect::<Vec<String>>(rt.alloc()).ok()?;
    let machine = fs::read(rt, words.get(2)?.as_str()).ok()?;
    let third = words.get(3)?.as_str();
    match words.get(1)?.as_str() {
        "play" => {
            let steps = fs::read(rt, third).ok()?;
            Some((machine, Work::Play { steps }))
        }
        "measure" => {
            let most = match words.get(6) {
                Some(word) => word.as_str().parse().ok()?,
                None => u64::MAX,
            };
            let scene = Scene {
                interested: third.parse().ok()?,
                others: words.get(4)?.as_str().parse().ok()?,
                is_together: words.get(5).is_some_and(|word| word.as_str() == "together"),
                most,
            };
            Some((machine, Work::Measure(scene)))
        }
        "ask" => {
            let sessions = third.parse().ok()?;
            Some((machine, Work::Ask { sessions }))
        }
        _ => None,
    }
}

/// Makes a hub, does the work on it, and ends it.
fn staged<J: HubSite + Send + Sync, R: Threads + Wait + Clock + Sync>(
    rt: &R,
    alloc: Global,
    parts: HubParts,
    work: &Work,
) -> Option<Vec<u8>>
    requires contents { parts.contents ≡ J.contents }
    requires chains { parts.book ≡ J.book }
    requires facts { parts.word ≡ J.word }
{
    let Ok((hub, tokens)) = Hub::<J>::new(rt, alloc, parts) else {
        return None;
    };
    let text = done(rt, alloc, &hub, tokens, work);
    hub.end(rt);
    text
}

/// Does the work on a hub that threads may share, with tokens that may go to them: what is to be written.
fn done<H: HubCalls + Sync, R: Threads + Wait + Clock + Sync>(
    rt: &R,
    alloc: Global,
    hub: &H,
    tokens: Vec<H::Token>,
    work: &Work,
) -> Option<Vec<u8>>
where
    H::Session: Send,
    H::Token: Send,
    H::Receipt: Send,
{
    let mut tokens = tokens;
    match work {
        Work::Play { steps } => played(rt, alloc, hub, &mut tokens, steps),
        Work::Measure(scene) => {
            let left = scene.interested.saturating_add(scene.others);
            told(alloc, &opens(rt, alloc, hub, &mut tokens, scene, left))
        }
        Work::Ask { sessions } => told(alloc, &ask_in_turn(rt, alloc, hub, *sessions)?),
    }
}

/// The line that tells what was measured.
fn told<M: Display>(alloc: Global, measured: &M) -> Option<Vec<u8>> {
    let line = format!(in alloc; "{measured}\n");
    Some(line.ok()?.into_bytes())
}

/// Plays the lines.
fn played<H: HubCalls, R: Wait>(
    rt: &R,
    alloc: Global,
    hub: &H,
    tokens: &mut Vec<H::Token>,
    steps: &Vec<u8>,
) -> Option<Vec<u8>> {
    let steps = str::from_utf8(steps.as_slice()).ok()?;
    let mut player = Player::new();
    let mut text = Vec::new(alloc);
    let mut is_well = true;
    for line in steps.lines() {
        is_well = is_well && takes(rt, alloc, hub, tokens, &mut player, line, &mut text);
    }
    player.end(rt, hub);
    if is_well { Some(text) } else { None }
}

/// Plays a line, and adds what is answered. False: it can't be played.
fn takes<H: HubCalls, R: Wait>(
    rt: &R,
    alloc: Global,
    hub: &H,
    tokens: &mut Vec<H::Token>,
    player: &mut Player<H>,
    line: &str,
    text: &mut Vec<u8>,
) -> bool {
    match player.take(rt, alloc, hub, tokens, line) {
        Some(answer) => text.extend_from_slice(&answer).is_ok(),
        None => false,
    }
}
