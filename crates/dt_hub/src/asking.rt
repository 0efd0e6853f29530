//! How sessions ask, and see.
ghost use Rattle.std.specs.Prelude.{◌≡◌, length};
ghost use mathlib.Core.List.{IsPrefix};
ghost use Rattle.dt_hub.specs.Asking.{IsLineAnswered};
ghost use Rattle.dt_legal.specs.Rows.{IsLegalRow};
ghost use Rattle.dt_seat.specs.Publications.{IsPublished};
ghost use Rattle.dt_seat.specs.Trailed.{item_of_line};
ghost use Rattle.dt_trail.specs.Items.{StartsWith, own};

use crate::answered::LineAnswer;
use crate::endless::wait_for_ever;
use crate::hub::Hub;
use dt_proto::Asked;
use dt_seat::{HubSite, Session};
use std::alloc::Global;
use std::sync::atomic::Ordering;
use std::sync::{MutexGuard, Wait};

impl<J: HubSite> Hub<J> {
    /// Asks a line of a session's consumer, and tells whether the session goes on after it. It waits for those that have the lock of the session's seat, and a `go` and what ends tracing for those that
    /// publish.
    pub fn ask<R: Wait>(
        &self,
        rt: &R,
        alloc: Global,
        session: &mut Session<J>,
        asked: &Asked,
    ) -> LineAnswer
        ensures answered { IsLineAnswered J.contents session.old (item_of_line asked.now) result session.new }
        ensures session { (session.new.seat ≡ session.old.seat) × (session.new.life ≡ session.old.life)
            × (session.new.row ≡ session.old.row) × (session.new.account ≡ session.old.account) }
        ensures published { IsPublished J.contents session.new.seat session.new.life session.new.account session.new.knows
            session.new.published }
        ensures fronts { IsPrefix session.old.published session.new.published }
    {
        let number = session.seat().number();
        let mut locked = self.seats[number as usize].lock(rt);
        // that this lock's seat has this number is known of no `Vec` of locks: it is looked at, and never differs
        if locked.number().number() != number {
            MutexGuard::unlock(locked);
            wait_for_ever(rt);
            unreachable!()
        }
        let result = locked.ask(
            rt,
            alloc,
            &self.machine,
            &self.facts,
            &self.chains,
            session,
            asked,
        );
        // a `go` may have been published, or what ended tracing withdrawn: this is counted after it was done, and before anybody is answered
        self.changes.fetch_add(1, Ordering::SeqCst);
        MutexGuard::unlock(locked);
        LineAnswer::of(result)
    }

    /// Lets a session catch up with its trail, and says how many items it then knows. It takes no lock and waits for nobody.
    pub fn seen(&self, session: &mut Session<J>) -> u64
        ensures count { result ≡ length session.new.knows }
        ensures longer { StartsWith session.new.knows session.old.knows }
        ensures lines { own 0 session.new.knows ≡ own 0 session.old.knows }
        ensures legal { IsLegalRow session.new.account J.contents session.new.knows }
        ensures own_go { IsPublished J.contents session.new.seat session.new.life session.new.account session.new.knows
            session.new.published }
        ensures same { (session.new.seat ≡ session.old.seat) × (session.new.life ≡ session.old.life)
            × (session.new.row ≡ session.old.row) × (session.new.published ≡ session.old.published)
            × (session.new.account ≡ session.old.account) }
    {
        session.seen(&self.facts)
    }
}
