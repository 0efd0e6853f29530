//! How a session hands on what it knows, and a processor takes it in.
ghost use Rattle.std.specs.Prelude.{◌≡◌};
ghost use mathlib.Core.List.{IsPrefix};
ghost use Rattle.dt_hub.specs.Tellings.{HasBeenTold};
ghost use Rattle.dt_seat.specs.Publications.{IsPublished};

use crate::cpu_seat::CpuSeat;
use crate::hub::Hub;
use dt_chain::ChainReader;
use dt_seat::{HubSite, Receipt, Session};

/// A processor's reader is told of the writes that a receipt has, if it has any.
fn hears_writes<J: HubSite>(reader: &mut ChainReader<J>, receipt: &Receipt<J>)
    ensures seen { reader.new.seen ≡ reader.old.seen }
    ensures kept { IsPrefix reader.old.told reader.new.told }
    ensures published { IsPrefix receipt.now.published reader.new.told }
{
    if let Some(front) = receipt.front() {
        reader.tell(&front);
    }
}

impl<J: HubSite> Hub<J> {
    /// What a session knows, to be told to processors: the items of its trail, and, after its `go` was accepted, its publication. It takes no lock and no memory,
    /// and waits for nobody.
    pub fn receipt(&self, session: &mut Session<J>) -> Receipt<J>
        ensures whose { (result.seat ≡ session.old.seat) × (result.life ≡ session.old.life) × (result.account ≡ session.old.account) }
        ensures knows { result.knows ≡ session.old.knows }
        ensures published { result.published ≡ session.old.published }
        ensures own_go { IsPublished J.contents result.seat result.life result.account result.knows result.published }
        ensures same { session.new ≡ session.old }
    {
        session.receipt(&self.facts)
    }

    /// Tells a processor what a session knew. It takes no lock and no memory, and waits for nobody.
    pub fn tell(&self, cpu_seat: &mut CpuSeat<J>, receipt: Receipt<J>)
        ensures { HasBeenTold receipt cpu_seat.old cpu_seat.new }
    {
        hears_writes(&mut cpu_seat.reader, &receipt);
        let at = receipt.seat().number() as usize;
        cpu_seat.followers[at].tell(&self.facts, receipt);
    }
}
