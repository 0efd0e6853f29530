//! How a processor looks and fires.
ghost use Rattle.dt_hub.specs.Firings.{ComesOfCall, ComesOfLook};

use crate::cpu_seat::{CpuSeat, note_down, read_ahead};
use crate::firing::Fired;
use crate::gate::Gate;
use crate::hub::Hub;
use crate::looking::Looked;
use dt_seat::HubSite;
use std::sync::Wait;
use std::sync::atomic::Ordering;

impl<J: HubSite> Hub<J> {
    /// Where a processor's next firing stands, and the seats that it would be offered to if it fired now. It takes nothing from the script. It takes no lock and waits
    /// for nobody.
    pub fn look(&self, cpu_seat: &mut CpuSeat<J>) -> Looked
        ensures { ComesOfLook J.contents result cpu_seat.old cpu_seat.new }
    {
        let Some(firing) = self.machine.firing(cpu_seat.cpu, cpu_seat.place) else {
            return Looked::End;
        };
        match cpu_seat.reader.look(&self.machine, firing) {
            Some(mask) => Looked::At {
                place: cpu_seat.place,
                mask,
            },
            None => Looked::Refused,
        }
    }

    /// A processor makes the next firing of its script: it finds which seats are named, and offers the firing to these and to no others, one after the other, each under
    /// its lock. Where another has the lock of a seat, those whose locks nobody has come first, and then it waits. What it came to at each seat, the token tells. It takes no memory.
    ///
    /// It is inlined: who makes many firings has one loop of them.
    #[inline(always)]
    pub fn fire<R: Wait, G: Gate>(&self, rt: &R, cpu_seat: &mut CpuSeat<J>, gate: &G) -> Fired
        ensures { ComesOfCall J.contents result cpu_seat.old cpu_seat.new }
    {
        let Some(firing) = self.machine.firing(cpu_seat.cpu, cpu_seat.place) else {
            return Fired::End;
        };
        let (cpu, place) = (cpu_seat.cpu, cpu_seat.place);
        cpu_seat.ahead = read_ahead(&self.machine, cpu, place, cpu_seat.ahead);
        // read before the look: what is published after that is counted later, and looked for by a later firing
        let changes = self.changes.load(Ordering::SeqCst);
        let Ok(()) = cpu_seat
            .naming
            .look(&mut cpu_seat.reader, &self.machine, firing, changes)
        else {
            return Fired::Refused;
        };
        note_down(&self.facts, &mut cpu_seat.log, &cpu_seat.followers);
        if !cpu_seat.naming.mask().is_empty() {
            // a firing of a script belongs to the machine
            let context = self.machine.context_of(firing);
            self.offer_to_named(
                rt,
                &context,
                cpu_seat.naming.mask(),
                &mut cpu_seat.scratch,
                &mut cpu_seat.followers,
                &mut cpu_seat.held,
                &mut cpu_seat.missed,
                &mut cpu_seat.reader,
                gate,
            );
        }
        let place = cpu_seat.place;
        cpu_seat.place = place + 1;
        Fired::At(place)
    }
}
