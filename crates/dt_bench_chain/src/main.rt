//! What looks through the chains cost, beside what they stand on: a look at plain entries, and an entry of `left_right`; and
//! what publications and withdrawals cost. `bench/chains` runs it.
//!
//! With a word it prints a line for each measure, its name and how long one takes, in picoseconds. With none it does nothing.
#![tactic(auto)]

ghost use Rattle.std.specs.Prelude.{◌≡◌};

mod looking;
mod writing;

use dt_chain::{ChainReader, ChainWriter, Chains, Entries, SEATS, Seat, Site, Write};
use dt_cred::Account;
use dt_machine::{Firing, Interest, Machine};
use looking::{entering, looking_plainly, looking_through};
use std::alloc::Global;
use std::marker::Brand;
use std::sync::Wait;
use std::time::{Clock, Instant};
use std::{env, io};
use writing::{publishing, publishing_plainly, withdrawing};

const MACHINE: &str = r#"{"cpus":1,"accounts":[{"name":"root","uid":0,"privs":["dtrace_kernel"]}],
"processes":[{"pid":100,"uid":501,"execname":"sh"}],"probes":["syscall::read:entry","profile:::tick-1sec"],
"scripts":[[{"probe":3,"pid":100}]]}"#;

/// What is measured on: a firing of probe 3, and who looks and publishes.
#[derive(Drop)]
struct Scene {
    machine: Machine,
    account: Account,
    firing: Firing,
}

/// How long one takes, in picoseconds.
#[derive(Clone, Copy)]
struct Measures {
    entry: u64,
    plain: u64,
    through: u64,
    plain_beside: u64,
    through_beside: u64,
    named: u64,
    few: u64,
    many: u64,
    both: u64,
    few_plainly: u64,
}

fn main(rt: HostRuntime) -> io::Result<()> {
    let words = match env::args(&rt) {
        Ok(words) => words.count(),
        Err(_) => 0,
    };
    // the first is the program's own name
    if words < 2 {
        return Ok(());
    }
    let Some(scene) = scene_to_measure(rt.alloc()) else {
        return println!(rt; "no machine");
    };
    match measured::<Brand, _>(&rt, rt.alloc(), &scene, Chains::new()) {
        Some(measures) => print(&rt, &measures),
        None => println!(rt; "no memory"),
    }
}

/// A line for each measure.
fn print(rt: &impl Print, it: &Measures) -> io::Result<()> {
    println!(rt; "entry {}", it.entry)?;
    println!(rt; "plain {}", it.plain)?;
    println!(rt; "through {}", it.through)?;
    println!(rt; "plain_beside_255 {}", it.plain_beside)?;
    println!(rt; "through_beside_255 {}", it.through_beside)?;
    println!(rt; "through_naming_1 {}", it.named)?;
    println!(rt; "publish_1_probe {}", it.few)?;
    println!(rt; "publish_4093_probes {}", it.many)?;
    println!(rt; "publish_1_probe_and_withdraw {}", it.both)?;
    println!(rt; "publish_1_probe_plainly {}", it.few_plainly)
}

fn scene_to_measure(alloc: Global) -> Option<Scene> {
    let machine = Machine::read(alloc, MACHINE.as_bytes()).ok()?;
    let account = *machine.account(b"root")?;
    let firing = *machine.firing(0, 0)?;
    Some(Scene {
        machine,
        account,
        firing,
    })
}

fn measured<J: Site, R: Wait + Clock>(
    rt: &R,
    alloc: Global,
    scene: &Scene,
    chains: Chains,
) -> Option<Measures>
    requires { chains ≡ J.book }
{
    let mut writer = chains.writer::<J>(alloc, 1).ok()?;
    let measures = match writer.reader() {
        Ok(mut reader) => measured_in_turn(rt, alloc, scene, &mut writer, &mut reader),
        Err(_) => None,
    };
    writer.end(rt);
    measures
}

fn measured_in_turn<J: Site, R: Wait + Clock>(
    rt: &R,
    alloc: Global,
    scene: &Scene,
    writer: &mut ChainWriter<J>,
    reader: &mut ChainReader<J>,
) -> Option<Measures> {
    let mut entries = Entries::new(alloc);
    entries.reserve().ok()?;
    measured_beside(rt, alloc, scene, writer, reader, &mut entries)
}

/// The same, beside plain `Entries` that have room.
fn measured_beside<J: Site, R: Wait + Clock>(
    rt: &R,
    alloc: Global,
    scene: &Scene,
    writer: &mut ChainWriter<J>,
    reader: &mut ChainReader<J>,
    entries: &mut Entries,
) -> Option<Measures> {
    let entry = entering(rt, alloc)?;
    let plain = looking_plainly(rt, scene, entries);
    let through = looking_through(rt, scene, reader);
    let few = publishing(rt, alloc, scene, writer, &probes(3, 4))?;
    let named = looking_through(rt, scene, reader);
    let many = publishing(rt, alloc, scene, writer, &probes(3, 4096))?;
    let both = withdrawing(rt, alloc, scene, writer, &probes(3, 4))?;
    publish_others(rt, alloc, scene, entries, writer)?;
    let plain_beside = looking_plainly(rt, scene, entries);
    let through_beside = looking_through(rt, scene, reader);
    let few_plainly = publishing_plainly(rt, scene, entries, &probes(3, 4))?;
    Some(Measures {
        entry,
        plain,
        through,
        plain_beside,
        through_beside,
        named,
        few,
        many,
        both,
        few_plainly,
    })
}

/// All seats but the first publish another probe than that of the firing, here and there.
fn publish_others<J: Site, R: Wait>(
    rt: &R,
    alloc: Global,
    scene: &Scene,
    entries: &mut Entries,
    writer: &mut ChainWriter<J>,
) -> Option<()> {
    let other = probes(4, 5);
    for number in 1..SEATS as u32 {
        let seat = Seat::new(number)?;
        entries.publish(seat, 1, &scene.account, &other).ok()?;
        let write = Write::publication(alloc, seat, 1, &scene.account, &other).ok()?;
        writer.publish(rt, write).ok()?;
    }
    Some(())
}

/// The probes of these identifiers, of which each is at most 4,096.
fn probes(from: u32, to: u32) -> Interest {
    let mut interest = Interest::new();
    for id in from..to.min(4096) {
        interest.insert(id);
    }
    interest
}

/// How long each of so many took since a start, in picoseconds.
fn each<C: Clock>(clock: &C, start: Option<Instant>, count: u64) -> u64 {
    let Some(start) = start else {
        return 0;
    };
    match start.elapsed(clock) {
        Ok(time) => time
            .as_secs()
            .wrapping_mul(1_000_000_000)
            .wrapping_add(u64::from(time.subsec_nanos()))
            .wrapping_mul(1000)
            .checked_div(count)
            .unwrap_or(0),
        Err(_) => 0,
    }
}
