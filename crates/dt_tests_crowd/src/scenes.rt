//! Scenes in several threads, each on a hub of its own. They are functions, and no methods of a trait: such a method sends nothing to a thread by the bounds of its
//! own parameters.
ghost use Rattle.std.specs.Prelude.{◌≡◌};

use crate::gates::Meanwhile;
use crate::{crowd, gates, meeting, rows};
use dt_hub::{Hub, HubParts, HubSite, Offered};
use dt_hub_calls::HubCalls;
use dt_machine::Machine;
use std::alloc::Global;
use std::marker::Brand;
use std::process::Abort;
use std::sync::Wait;
use std::test::Fail;
use std::thread::Threads;
use std::time::Clock;

/// What happens on a hub, in several threads.
#[derive(Clone, Copy)]
pub(crate) enum Scene {
    /// A processor is held at the gate of a seat.
    Held(Meanwhile),
    /// Two processors are at work at once, of which only one fires for both sessions.
    Meeting,
    /// The same, where both do.
    Passing,
    /// Sessions come and go, and processors fire.
    Crowd,
    /// Three sessions ask the lines of rows, two processors fire, and then they meet.
    Rows,
}

/// Plays on a new hub of a machine, whose text this is.
pub(crate) fn run<R: Threads + Wait + Abort + Clock + Sync>(
    rt: &R,
    alloc: Global,
    machine: &str,
    scene: Scene,
) -> Result<(), Fail> {
    let machine = Machine::read(alloc, machine.as_bytes())?;
    let parts = HubParts::new(alloc, machine)?;
    staged::<Brand, R>(rt, alloc, parts, scene)
}

fn staged<J: HubSite + Send + Sync, R: Threads + Wait + Abort + Clock + Sync>(
    rt: &R,
    alloc: Global,
    parts: HubParts,
    scene: Scene,
) -> Result<(), Fail>
    requires contents { parts.contents ≡ J.contents }
    requires chains { parts.book ≡ J.book }
    requires facts { parts.word ≡ J.word }
{
    let (hub, tokens) = Hub::<J>::new(rt, alloc, parts)?;
    let result = played(rt, alloc, &hub, tokens, scene);
    hub.end(rt);
    result
}

/// Plays on a hub that threads may share, with tokens that may go to them.
fn played<H: HubCalls + Sync, R: Threads + Wait + Abort + Clock + Sync>(
    rt: &R,
    alloc: Global,
    hub: &H,
    tokens: Vec<H::Token>,
    scene: Scene,
) -> Result<(), Fail>
where
    H::Session: Send,
    H::Token: Send,
    H::Receipt: Send,
{
    match scene {
        Scene::Held(meanwhile) => gates::plays(rt, alloc, hub, tokens, meanwhile),
        Scene::Meeting => meeting::plays(rt, alloc, hub, tokens, Offered::NotNamed),
        Scene::Passing => meeting::plays(rt, alloc, hub, tokens, Offered::Kept),
        Scene::Crowd => crowd::plays(rt, alloc, hub, tokens),
        Scene::Rows => rows::plays(rt, alloc, hub, tokens),
    }
}
