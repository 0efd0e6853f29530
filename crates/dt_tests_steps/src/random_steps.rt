//! Random lists of steps: each session is answered as if it were alone.
use crate::calls::{asked, look, machine_of, ran, seat_numbered};
use dt_chain::Seat;
use dt_machine::Machine;
use dt_steps::{Ran, Step};
use std::alloc::Global;
use std::process::Abort;
use std::test::Fail;

/// Two processors, three accounts of which one may not trace, and six firings.
const MACHINE: &str = r#"{"cpus":2,
"accounts":[{"name":"root","uid":0,"privs":["dtrace_kernel"]},{"name":"ann","uid":501,"privs":["dtrace_user"]},
{"name":"joe","uid":502,"privs":["proc_owner"]}],
"processes":[{"pid":100,"uid":501,"execname":"sh"},{"pid":200,"uid":0,"execname":"cron"}],
"probes":["syscall::read:entry","profile:::tick-1sec"],
"scripts":[[{"probe":3,"pid":100,"args":[7]},{"probe":3,"pid":200,"args":[8]},{"probe":4,"pid":100}],
[{"probe":3,"pid":100,"args":[9]},{"probe":4,"pid":200,"mode":"kernel"},{"probe":3,"pid":200,"args":[-1]}]]}"#;

/// The processors.
const CPUS: [u32; 2] = [0, 1];

/// The places in each script.
const PLACES: [u32; 3] = [0, 1, 2];

/// Which seats are used: of three words of a set, at their ends.
const USED: [u32; 4] = [0, 63, 64, 255];

/// Who opens; `root` comes more often.
const ACCOUNTS: [&str; 4] = ["root", "ann", "root", "joe"];

/// What is asked; what stands here more often is asked more often.
const LINES: [&str; 20] = [
    r#"{"cmd":"enable","text":"read:entry{trace(arg0)}"}"#,
    r#"{"cmd":"enable","text":"read:entry{trace(arg0)}"}"#,
    r#"{"cmd":"enable","text":"read:entry{@a[execname]=sum(arg0)} END{trace(1)}"}"#,
    r#"{"cmd":"enable","text":"syscall:::entry{trace(pid)} profile:::{}"}"#,
    r#"{"cmd":"option","name":"bufsize","value":24}"#,
    r#"{"cmd":"option","name":"bufpolicy","value":"fill"}"#,
    r#"{"cmd":"go"}"#,
    r#"{"cmd":"go"}"#,
    r#"{"cmd":"go"}"#,
    r#"{"cmd":"go"}"#,
    r#"{"cmd":"snap","cpu":0}"#,
    r#"{"cmd":"snap","cpu":0}"#,
    r#"{"cmd":"snap","cpu":0}"#,
    r#"{"cmd":"snap","cpu":1}"#,
    r#"{"cmd":"status"}"#,
    r#"{"cmd":"agg","name":"a"}"#,
    r#"{"cmd":"trunc","name":"a"}"#,
    r#"{"cmd":"stop"}"#,
    r#"{"cmd":"close"}"#,
    "no JSON",
];

/// Numbers that look random, the same ones for each seed.
#[derive(Drop)]
struct Random {
    state: u64,
}

impl Random {
    /// The next number, below a bound.
    fn below(&mut self, bound: usize) -> usize {
        // a linear congruence, whose high bits are the better ones
        self.state = self
            .state
            .wrapping_mul(6_364_136_223_846_793_005)
            .wrapping_add(1_442_695_040_888_963_407);
        ((self.state >> 33) as usize)
            .checked_rem(bound)
            .unwrap_or(0)
    }
}

/// The text at a place of a table.
fn named(table: &[&'static str], at: usize) -> &'static str {
    table.get(at).copied().unwrap_or("")
}

/// What a planned step does.
#[derive(Clone, Copy)]
enum Kind {
    /// Who opens, by the place among the accounts.
    Open(usize),
    /// What is asked, by the place among the lines.
    Ask(usize),
    Publish,
    Finish,
    Withdraw,
    Close,
    /// A processor, and the place of a firing in its script.
    Look(u32, u32),
    /// A processor.
    Offer(u32),
}

impl Kind {
    fn name(self) -> &'static str {
        match self {
            Kind::Open(_) => "open",
            Kind::Ask(_) => "ask",
            Kind::Publish => "publish",
            Kind::Finish => "finish",
            Kind::Withdraw => "withdraw",
            Kind::Close => "close",
            Kind::Look(..) => "look",
            Kind::Offer(_) => "offer",
        }
    }
}

/// A planned step: on which seat, and how many sessions were closed there before. A look is on no seat.
#[derive(Clone, Copy)]
struct Planned {
    kind: Kind,
    seat: Option<Seat>,
    closed: u64,
}

impl Planned {
    /// The step itself.
    fn step(&self, alloc: Global, machine: &Machine) -> Result<Step, Fail> {
        if let Kind::Look(cpu, place) = self.kind {
            return look(machine, cpu, cpu, place);
        }
        let Some(seat) = self.seat else {
            return Err("no seat".into());
        };
        match self.kind {
            Kind::Open(at) => Ok(Step::Open(seat, named(&ACCOUNTS, at).as_bytes().to_vec(alloc)?)),
            Kind::Ask(at) => Ok(Step::Ask(seat, asked(alloc, named(&LINES, at).as_bytes())?)),
            Kind::Publish => Ok(Step::Publish(seat)),
            Kind::Finish => Ok(Step::Finish(seat)),
            Kind::Withdraw => Ok(Step::Withdraw(seat)),
            Kind::Offer(cpu) => Ok(Step::Offer(cpu, seat)),
            Kind::Close | Kind::Look(..) => Ok(Step::Close(seat)),
        }
    }
}

/// A seat as the plan has it: whether a session is there, and how many were closed.
#[derive(Clone, Copy)]
struct Place {
    seat: Seat,
    is_open: bool,
    closed: u64,
}

/// A planned list of steps. A processor looks only after each seat had its offer of the firing before: so the same looks are
/// enabled without some of the seats.
#[derive(Drop)]
struct Plan {
    random: Random,
    places: Vec<Place>,
    steps: Vec<Planned>,
}

impl Plan {
    /// So many rounds of steps for a seed. In each round both processors look, and then offer to each seat.
    fn new(alloc: Global, seed: u64, rounds: u32) -> Result<Self, Fail> {
        let mut plan = Plan {
            random: Random { state: seed },
            places: Vec::new(alloc),
            steps: Vec::new(alloc),
        };
        for number in USED {
            plan.use_seat(number)?;
        }
        for _round in 0..rounds {
            plan.round()?;
        }
        Ok(plan)
    }

    /// Takes a seat among those that are used.
    fn use_seat(&mut self, number: u32) -> Result<(), Fail> {
        let seat = seat_numbered(number)?;
        self.places.push(Place {
            seat,
            is_open: false,
            closed: 0,
        })?;
        Ok(())
    }

    /// Both processors look, and then offer to each seat.
    fn round(&mut self) -> Result<(), Fail> {
        for cpu in CPUS {
            self.some()?;
            self.look(cpu)?;
        }
        let first = self.random.below(USED.len());
        for turn in 0..USED.len() {
            for cpu in CPUS {
                self.some()?;
                self.add(Kind::Offer(cpu), first.wrapping_add(turn) % USED.len())?;
            }
        }
        Ok(())
    }

    /// A few steps of sessions, or none.
    fn some(&mut self) -> Result<(), Fail> {
        for _step in 0..self.random.below(5) {
            let kind = match self.random.below(32) {
                0..=2 => Kind::Open(self.random.below(ACCOUNTS.len())),
                3 => Kind::Close,
                4 => Kind::Withdraw,
                5..=10 => Kind::Publish,
                11..=16 => Kind::Finish,
                _ => Kind::Ask(self.random.below(LINES.len())),
            };
            let at = self.random.below(USED.len());
            self.add(kind, at)?;
        }
        Ok(())
    }

    /// A look with some firing of the processor.
    fn look(&mut self, cpu: u32) -> Result<(), Fail> {
        let at = self.random.below(PLACES.len());
        let place = PLACES.get(at).copied().unwrap_or(0);
        self.steps.push(Planned {
            kind: Kind::Look(cpu, place),
            seat: None,
            closed: 0,
        })?;
        Ok(())
    }

    /// Adds a step on a seat. A session is there from its open, by an account that may trace, to its close.
    fn add(&mut self, kind: Kind, at: usize) -> Result<(), Fail> {
        let Some(place) = self.places.get_mut(at) else {
            return Err("no place".into());
        };
        self.steps.push(Planned {
            kind,
            seat: Some(place.seat),
            closed: place.closed,
        })?;
        match kind {
            Kind::Open(at) if named(&ACCOUNTS, at) != "joe" => place.is_open = true,
            Kind::Close if place.is_open => {
                place.is_open = false;
                place.closed = place.closed.saturating_add(1);
            }
            _ => {}
        }
        Ok(())
    }

    /// What all its steps are answered, or only the looks and the steps of one session: the one after so many were closed on
    /// its seat.
    fn run(
        &self,
        alloc: Global,
        machine: &Machine,
        only: Option<(Seat, u64)>,
    ) -> Result<Ran, Fail> {
        let mut steps = Vec::new(alloc);
        for planned in &self.steps {
            let is_kept = match (only, planned.seat) {
                (Some((seat, closed)), Some(own)) => own == seat && planned.closed == closed,
                _ => true,
            };
            if is_kept {
                steps.push(planned.step(alloc, machine)?)?;
            }
        }
        ran(alloc, machine, &steps)
    }

    /// How many of its steps have this name.
    fn count(&self, name: &str) -> usize {
        self.steps
            .iter()
            .filter(|planned| planned.kind.name() == name)
            .count()
    }
}

/// What a run answered at a seat.
fn told_at(alloc: Global, ran: &Ran, seat: Seat) -> Result<Vec<u8>, Fail> {
    let mut text = Vec::new(alloc);
    for (at, reply) in &ran.replies {
        if *at == seat {
            text.extend_from_slice(reply)?;
        }
    }
    Ok(text)
}

/// What is told at a seat is what each of its sessions is told alone, one after the other, byte for byte.
#[test]
fn random_steps(rt: HostRuntime) -> Result<(), Fail> {
    let machine = machine_of(rt.alloc(), MACHINE)?;
    for seed in [1, 2] {
        plays(&rt, rt.alloc(), &machine, seed)?;
    }
    Ok(())
}

/// Plays the list of a seed. It has each kind of step often, and much is recorded in it.
fn plays(rt: &impl Abort, alloc: Global, machine: &Machine, seed: u64) -> Result<(), Fail> {
    let plan = Plan::new(alloc, seed, 500)?;
    for name in [
        "open", "ask", "publish", "finish", "withdraw", "close", "look", "offer",
    ] {
        assert!(rt; plan.count(name) >= 200, "seed {seed}: {name}");
    }
    let recorded = recorded_alike(rt, alloc, machine, &plan, seed)?;
    assert!(rt; recorded >= 10, "seed {seed}: {recorded}");
    Ok(())
}

/// How many replies have records, where at each seat is told what its sessions are told alone.
fn recorded_alike(
    rt: &impl Abort,
    alloc: Global,
    machine: &Machine,
    plan: &Plan,
    seed: u64,
) -> Result<usize, Fail> {
    let all = plan.run(alloc, machine, None)?;
    let mut recorded = 0usize;
    for place in &plan.places {
        let told = told_at(alloc, &all, place.seat)?;
        assert!(rt;
            told_alone(alloc, machine, plan, place)? == told,
            "seed {seed}, seat {}",
            place.seat.number()
        );
        recorded = recorded.saturating_add(recorded_in(&told)?);
    }
    Ok(recorded)
}

/// What each session of a seat is told alone, one after the other.
fn told_alone(
    alloc: Global,
    machine: &Machine,
    plan: &Plan,
    place: &Place,
) -> Result<Vec<u8>, Fail> {
    let mut alone = Vec::new(alloc);
    for closed in 0..place.closed.saturating_add(1) {
        let ran = plan.run(alloc, machine, Some((place.seat, closed)))?;
        alone.extend_from_slice(&told_at(alloc, &ran, place.seat)?)?;
    }
    Ok(alone)
}

/// How many of these replies have records.
fn recorded_in(told: &[u8]) -> Result<usize, Fail> {
    let replies = str::from_utf8(told).ok().ok_or("no text")?;
    Ok(
        replies
            .split("\"data\":")
            .filter(|piece| piece.starts_with("\"0"))
            .count(),
    )
}
