//! A session on a seat.

use crate::knowledge::Knowledge;
use crate::notebook::Notebook;
use crate::site::HubSite;
use dt_chain::Seat;
use dt_cred::Account;
use dt_facts::{Beginning, Facts, Share};
use std::marker::Model;

/// A session: who has it may ask lines of the consumer on its seat. It isn't `Drop`: [`LockedSeat::close`](crate::LockedSeat::close) alone ends it, so no seat
/// stays taken by a session that was let go.
///
/// Contracts see it as a `Sat` of `specs/Sessions.antt`: its seat, its number there, its trail with its account, what it knows of that trail, and
/// which writes it knows to be published.
pub struct Session<J: HubSite> {
    pub(crate) seat: Seat,
    pub(crate) life: u64,
    pub(crate) account: Account,
    pub(crate) share: Share,
    pub(crate) lives: Beginning,
    pub(crate) known: Knowledge,
    pub(crate) notebook: Notebook<J>,
}

impl<J: HubSite> Model for Session<J> {
    ghost use Rattle.dt_seat.specs.Sessions.{Sat, IsNotebook, IsSessionOn, session_seen};

    ghost Value = { Sat };

    ghost view = { λ s. session_seen s.seat s.life s.notebook.note s.notebook.front };

    ghost invariant = { λ s. IsSessionOn J.word J.contents.registry.cpus s.seat s.life s.account s.share s.lives s.known s.notebook.note
        × IsNotebook J.contents s.seat s.life s.notebook.note s.notebook.lines.items s.notebook.front };
}

impl<J: HubSite> Session<J> {
    ghost use Rattle.std.specs.Prelude.{◌≡◌, length};
    ghost use Rattle.dt_legal.specs.Rows.{IsLegalRow};
    ghost use Rattle.dt_seat.specs.Publications.{IsPublished};
    ghost use Rattle.dt_trail.specs.Items.{StartsWith, own};

    /// The seat that it is on.
    pub fn seat(&self) -> Seat
        ensures { result ≡ self.now.seat }
    {
        self.seat
    }

    /// How many sessions were on the seat before it.
    pub fn life(&self) -> u64
        ensures { result ≡ self.now.life }
    {
        self.life
    }

    /// Catches up with its trail, and says how many items it then knows. It takes no lock and waits for nobody.
    pub fn seen(&mut self, facts: &Facts) -> u64
        requires { facts.now ≡ J.word }
        ensures count { result ≡ length self.new.knows }
        ensures longer { StartsWith self.new.knows self.old.knows }
        ensures lines { own 0 self.new.knows ≡ own 0 self.old.knows }
        ensures legal { IsLegalRow self.new.account J.contents self.new.knows }
        ensures own_go { IsPublished J.contents self.new.seat self.new.life self.new.account self.new.knows self.new.published }
        ensures same { (self.new.seat ≡ self.old.seat) × (self.new.life ≡ self.old.life) × (self.new.row ≡ self.old.row)
            × (self.new.published ≡ self.old.published) × (self.new.account ≡ self.old.account) }
    {
        let count = self.notebook.note.catch_up();
        self.known.go_on(facts, self.life, &self.notebook.note);
        count
    }
}
