//! How a processor lets go of sessions that have ended.
ghost use Rattle.std.specs.Prelude.{◌<◌, ℕ, List};
ghost use Rattle.dt_chain.specs.Writes.{Write};
ghost use Rattle.dt_hub.specs.Forgetting.{HasLetGo};
ghost use Rattle.dt_seat.specs.Keeps.{Forgets};
ghost use Rattle.dt_seat.specs.Tracked.{AreTracked};

use crate::cpu_seat::CpuSeat;
use crate::hub::Hub;
use dt_chain::Seat;
use dt_seat::{Follower, HubSite};
use std::sync::{MutexGuard, Wait};

impl<J: HubSite> Hub<J> {
    /// What a processor has at one seat.
    fn let_go_at<R: Wait>(&self, rt: &R, follower: &mut Follower<J>)
        requires there { follower.old.cpu < J.contents.registry.cpus }
        ensures forgets { Forgets follower.old follower.new }
        ensures tracked { (writes : List Write) (knew : ℕ → List ℕ) → AreTracked J.contents writes knew follower.old
            → AreTracked J.contents writes knew follower.new }
    {
        // most processors have no note of most seats, and these locks aren't taken
        if !follower.has_note() {
            return;
        }
        let number = follower.seat().number();
        let mut locked = self.seats[number as usize].lock(rt);
        // that this lock's seat has this number is known of no `Vec` of locks: it is looked at, and never differs
        if locked.number().number() == number {
            locked.let_go(&self.facts, follower);
        }
        MutexGuard::unlock(locked);
    }

    /// A processor lets go of what it has of sessions that have ended at a seat. A session's trail is shared by all processors that fired for it: its memory is given
    /// back once the session has ended and each of these has let go of it, or has fired for a later session of the same seat. Of a session that hasn't ended nothing is
    /// forgotten. It takes no memory. It takes that seat's lock if the processor has a trail of it, and waits for who has it, as a firing that is offered there does.
    pub fn let_go<R: Wait>(&self, rt: &R, cpu_seat: &mut CpuSeat<J>, seat: Seat)
        ensures { HasLetGo seat cpu_seat.old cpu_seat.new }
    {
        let at = seat.number() as usize;
        self.let_go_at(rt, &mut cpu_seat.followers[at]);
    }
}
