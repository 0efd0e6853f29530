//! How a session and a processor meet.
ghost use Rattle.std.specs.Prelude.{◌≡◌, ◌<◌, ◌+◌, ℕ, List};
ghost use mathlib.Core.List.{IsPrefix};
ghost use Rattle.dt_facts.specs.Lives.{IsRowOfLife};
ghost use Rattle.dt_hub.specs.Meetings.{HaveMet, HasSeenAll};
ghost use Rattle.dt_meeting.specs.Sharing.{IsShared};
ghost use Rattle.dt_seat.specs.Keeps.{Carries, known_by, known_of, noted_of, over_of};
ghost use Rattle.dt_seat.specs.Tracked.{AreTracked};
ghost use Rattle.dt_trail.specs.Items.{StartsWith, TrailItem, own};

use crate::cpu_seat::CpuSeat;
use crate::endless::wait_for_ever;
use crate::hub::Hub;
use dt_chain::ChainReader;
use dt_seat::{Follower, HubSite, Session};
use std::sync::{MutexGuard, Wait};

impl<J: HubSite> Hub<J> {
    /// A session and a processor meet under the lock of the session's seat.
    fn meet_at<R: Wait>(
        &self,
        rt: &R,
        session: &mut Session<J>,
        follower: &mut Follower<J>,
        reader: &mut ChainReader<J>,
    )
        requires follower { (follower.old.seat ≡ session.old.seat) × (follower.old.cpu < J.contents.registry.cpus) }
        ensures session { HasSeenAll J.contents session.old session.new }
        ensures carried { Carries follower.old follower.new session.new.life }
        ensures over { over_of follower.new ≡ session.new.life }
        ensures whose { IsRowOfLife session.new.life session.new.row follower.new.lives }
        ensures known { known_of session.new.life follower.new ≡ session.new.knows }
        ensures noted { noted_of session.new.life follower.new ≡ session.new.knows }
        ensures whole { known_by follower.new.note ≡ session.new.knows }
        ensures begins { StartsWith session.new.knows (known_of session.new.life follower.old) }
        ensures own_firings { own (follower.old.cpu + 1) session.new.knows ≡ own (follower.old.cpu + 1) (noted_of session.new.life follower.old) }
        ensures shared { (knew : ℕ → List ℕ) → AreTracked J.contents reader.old.told knew follower.old
            → (row : List TrailItem) × IsShared session.new.account J.contents follower.old.cpu session.new.knows (knew session.new.life) row }
        ensures tracked { (knew : ℕ → List ℕ) → AreTracked J.contents reader.old.told knew follower.old
            → AreTracked J.contents reader.new.told knew follower.new }
        ensures reader { (reader.new.seen ≡ reader.old.seen) × IsPrefix reader.old.told reader.new.told
            × IsPrefix session.new.published reader.new.told }
    {
        let number = session.seat().number();
        let mut locked = self.seats[number as usize].lock(rt);
        // that this lock's seat has this number is known of no `Vec` of locks: it is looked at, and never differs
        if locked.number().number() != number {
            MutexGuard::unlock(locked);
            wait_for_ever(rt);
            unreachable!()
        }
        locked.meet(rt, &self.facts, &self.chains, session, follower, reader);
        MutexGuard::unlock(locked);
    }

    /// A session and a processor meet: both then know the whole trail and what each other knows, and there is one row in which all firings of the processor so far
    /// stand, each after all that the processor knew of the session as it fired. Without those that the session doesn't see where they stand, that row is the session's
    /// trail. So, where the session still traces as they meet, no firing that it should see was skipped since the processor knew of its `go`, whatever [`Hub::fire`]
    /// answered. Of a session that has stopped the row says only where such a firing isn't seen, which may be after the stop.
    ///
    /// It takes the lock of the session's seat and inside it that of the chains' writer, and waits for those that have them. It takes no memory. Its time is linear in what
    /// the two didn't know of each other.
    pub fn meet<R: Wait>(&self, rt: &R, session: &mut Session<J>, cpu_seat: &mut CpuSeat<J>)
        ensures { HaveMet J.contents session.old session.new cpu_seat.old cpu_seat.new }
    {
        let at = session.seat().number() as usize;
        self.meet_at(
            rt,
            session,
            &mut cpu_seat.followers[at],
            &mut cpu_seat.reader,
        );
    }
}
