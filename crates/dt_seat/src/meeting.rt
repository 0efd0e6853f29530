//! How a session and a processor meet at a seat.
ghost use Rattle.std.specs.Prelude.{◌≡◌, ◌<◌, ◌+◌, ℕ, List, IsSomeAnd};
ghost use Rattle.dt_facts.specs.Lives.{IsRowOfLife};
ghost use Rattle.dt_legal.specs.Rows.{IsLegalRow};
ghost use Rattle.dt_meeting.specs.Sharing.{IsShared};
ghost use Rattle.dt_seat.specs.Keeps.{Carries, known_by, known_of, noted_of, over_of};
ghost use Rattle.dt_seat.specs.Publications.{IsPublished};
ghost use Rattle.dt_seat.specs.Seats.{StaysOn};
ghost use Rattle.dt_seat.specs.Tracked.{AreTracked};
ghost use Rattle.dt_trail.specs.Items.{StartsWith, TrailItem, own};
ghost use mathlib.Core.List.{IsPrefix};

use crate::follower::Follower;
use crate::hub_publisher::{HubPublisher, among_own};
use crate::locked::LockedSeat;
use crate::notebook::hear;
use crate::present::meet_at;
use crate::session::Session;
use crate::site::HubSite;
use dt_chain::ChainReader;
use dt_facts::Facts;
use std::sync::{Mutex, Wait};

impl<J: HubSite> LockedSeat<J> {
    /// The session that is open on the seat and a processor meet: both then know the whole trail, and the processor's reader knows of the session's publication, once its
    /// `go` was accepted. The processor's firings so far and the trail stand in one row, as far as the processor kept track of the seat. It waits for the chains' writer,
    /// and takes no memory.
    pub fn meet<R: Wait>(
        &mut self,
        rt: &R,
        facts: &Facts,
        chains: &Mutex<HubPublisher<J>>,
        session: &mut Session<J>,
        follower: &mut Follower<J>,
        reader: &mut ChainReader<J>,
    )
        requires facts { facts.now ≡ J.word }
        requires session { session.old.seat ≡ self.old.number }
        requires follower { (follower.old.seat ≡ self.old.number) × (follower.old.cpu < J.contents.registry.cpus) }
        ensures session { (session.new.seat ≡ session.old.seat) × (session.new.life ≡ session.old.life) × (session.new.row ≡ session.old.row)
            × (session.new.account ≡ session.old.account) × (session.new.published ≡ session.old.published) }
        ensures longer { StartsWith session.new.knows session.old.knows }
        ensures lines { own 0 session.new.knows ≡ own 0 session.old.knows }
        ensures legal { IsLegalRow session.old.account J.contents session.new.knows }
        ensures own_go { IsPublished J.contents session.new.seat session.new.life session.new.account session.new.knows session.new.published }
        ensures carried { Carries follower.old follower.new session.old.life }
        ensures over { over_of follower.new ≡ session.old.life }
        ensures whose { IsRowOfLife session.old.life session.old.row follower.new.lives }
        ensures known { known_of session.old.life follower.new ≡ session.new.knows }
        ensures noted { noted_of session.old.life follower.new ≡ session.new.knows }
        ensures whole { known_by follower.new.note ≡ session.new.knows }
        ensures begins { StartsWith session.new.knows (known_of session.old.life follower.old) }
        ensures own_firings { own (follower.old.cpu + 1) session.new.knows ≡ own (follower.old.cpu + 1) (noted_of session.old.life follower.old) }
        ensures shared { (knew : ℕ → List ℕ) → AreTracked J.contents reader.old.told knew follower.old
            → (row : List TrailItem) × IsShared session.old.account J.contents follower.old.cpu session.new.knows (knew session.old.life) row }
        ensures tracked { (knew : ℕ → List ℕ) → AreTracked J.contents reader.old.told knew follower.old
            → AreTracked J.contents reader.new.told knew follower.new }
        ensures reader { (reader.new.seen ≡ reader.old.seen) × IsPrefix reader.old.told reader.new.told
            × IsPrefix session.old.published reader.new.told }
        ensures seat { (self.new.number ≡ self.old.number) × (self.new.life ≡ self.old.life) × (self.new.writes ≡ self.old.writes) }
        ensures trail { StaysOn self.old.trail self.new.trail × IsSomeAnd self.new.trail (λ trail. trail.knows ≡ session.new.knows) }
    {
        facts.agree(&mut self.lives, &mut session.share);
        among_own(
            rt,
            facts,
            chains,
            &mut self.writes,
            self.number,
            &reader.told(),
        );
        let Some(present) = &mut self.present else {
            unreachable!()
        };
        meet_at(
            facts,
            self.life,
            &mut self.lives,
            present,
            &mut self.keeps,
            &mut session.notebook.note,
            follower,
        );
        session
            .known
            .go_on(facts, session.life, &session.notebook.note);
        hear(reader, &present.front);
        hear(reader, &session.notebook.front);
        follower.is_right();
    }
}
