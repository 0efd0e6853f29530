//! A processor's thread.
ghost use Rattle.std.specs.Prelude.{◌≡◌, ◌≢◌, ◌⊎◌, ◌+◌, ◌≤◌, ℕ, None};
ghost use Rattle.dt_chain.specs.Seats.{life_at};
ghost use Rattle.dt_machine.specs.Registry.{firing_at};

use crate::desk::{Desk, Duty};
use dt_hub::{CpuSeat, Fired, Gate, Hub, HubSite};
use std::sync::Wait;

/// Makes so many firings of a processor's script, or fewer where the script ends or the chains give no entry, and answers how many it made.
pub fn fire_many<J: HubSite, R: Wait, G: Gate>(
    rt: &R,
    hub: &Hub<J>,
    cpu_seat: &mut CpuSeat<J>,
    gate: &G,
    count: u32,
) -> u32
    ensures most { result ≤ count }
    ensures made { cpu_seat.new.place ≡ cpu_seat.old.place + result }
    ensures cpu { cpu_seat.new.cpu ≡ cpu_seat.old.cpu }
    ensures early { result ≢ count → (firing_at J.contents.scripts cpu_seat.new.cpu cpu_seat.new.place ≡ None)
        ⊎ ((seat : ℕ) → life_at cpu_seat.new.mask seat ≡ None) }
{
    'firings: for made in 0..count {
        match hub.fire(rt, cpu_seat, gate) {
            Fired::At(_) => {}
            Fired::End => return made,
            Fired::Refused => return made,
        }
    }
    count
}

/// Makes firings as its desk is asked for them, and lets go of sessions as they end, for ever.
pub(crate) fn work<J: HubSite, R: Wait, G: Gate>(
    rt: &R,
    hub: &Hub<J>,
    mut cpu_seat: CpuSeat<J>,
    gate: &G,
    desk: &Desk,
) {
    for _ in rt.forever() {
        match desk.next(rt) {
            Duty::Fire(count) => {
                let made = fire_many(rt, hub, &mut cpu_seat, gate, count);
                desk.done(rt, made);
            }
            Duty::LetGo(seat) => hub.let_go(rt, &mut cpu_seat, seat),
        }
    }
}
