//! What a processor has at one seat.
ghost use Rattle.std.specs.Prelude.{◌≡◌, ◌+◌, ℕ, None, Some, is_some};
ghost use Rattle.dt_cred.specs.declared.account.Account.{Account};
ghost use Rattle.dt_facts.specs.Facts.{last_note, no_lists, processor_fact};
ghost use Rattle.dt_facts.specs.Handles.{begun, holding};
ghost use Rattle.dt_facts.specs.Lives.{IsRowOfLife};
ghost use Rattle.dt_seat.specs.Keeps.{followed_at, known_by, with_note};
ghost use Rattle.dt_seat.specs.Names.{known_name, life_name, processor_name};
ghost use Rattle.dt_seat.specs.Tracked.{IsToldLater};
ghost use Rattle.dt_trail.specs.Known.{Meets, Noted, noted};

use crate::site::HubSite;
use crate::told_of::ToldOf;
use crate::trailed::{Note, Owner};
use dt_chain::Seat;
use dt_facts::{Beginning, Share};
use std::marker::Model;

/// What a processor has at one seat: the note of the trail of the life that it took last, if it took any, and what it was told of a later one.
///
/// Contracts see it as a `Followed` of `specs/Keeps.antt`.
#[derive(Drop)]
pub struct Follower<J: HubSite> {
    pub(crate) seat: Seat,
    pub(crate) cpu: u32,
    pub(crate) share: Share,
    pub(crate) lives: Beginning,
    pub(crate) known: Beginning,
    pub(crate) life: u64,
    pub(crate) note: Option<Note<J>>,
    pub(crate) told: Option<ToldOf>,
}

impl<J: HubSite> Model for Follower<J> {
    ghost use Rattle.dt_seat.specs.Keeps.{Followed, IsFollower, followed};

    ghost Value = { Followed };

    ghost view = { λ f. followed f.seat f.cpu f.share f.lives f.note f.told };

    ghost invariant = { λ f. IsFollower J.word J.contents.registry.cpus f.seat f.cpu f.life f.share f.lives f.known f.note f.told };
}

impl<J: HubSite> Follower<J> {
    /// A processor that took no note at the seat, on which no session was open yet.
    pub(crate) fn new(
        seat: Seat,
        cpu: u32,
        share: Share,
        lives: Beginning,
        known: Beginning,
    ) -> Follower<J>
        requires share { share ≡ holding J.word (processor_name J.contents.registry.cpus seat cpu) (processor_fact None) }
        requires lives { lives ≡ begun J.word (life_name J.contents.registry.cpus seat) no_lists }
        requires known { (known.word ≡ J.word) × (known.name ≡ known_name J.contents.registry.cpus seat) }
        ensures { result ≡ followed_at seat cpu }
    {
        Follower {
            seat,
            cpu,
            share,
            lives,
            known,
            life: 0,
            note: None,
            told: None,
        }
    }

    /// Which seat it is at.
    pub fn seat(&self) -> Seat
        ensures { result ≡ self.now.seat }
    {
        self.seat
    }

    /// What it has is right: what was told is of a later life than the note, and the note's trail is the one that the life opened with.
    pub(crate) fn is_right(&self)
        ensures orderly { IsToldLater self.now }
        ensures row { (life : ℕ) (note : Noted Account) → self.now.note ≡ Some note → self.now.took ≡ Some (last_note life note.row)
            → IsRowOfLife life note.row self.now.lives }
    {
        let _ = &self.seat;
    }

    /// Its note, which is of this trail, then knows the whole trail.
    pub(crate) fn meet(&mut self, owner: &mut Owner<J>)
        requires { self.old.note ≡ Some (noted owner.old.row (self.old.cpu + 1) (known_by self.old.note)) }
        ensures owner { owner.new ≡ owner.old }
        ensures note { self.new ≡ with_note self.old (noted owner.old.row (self.old.cpu + 1) owner.old.knows) }
        ensures met { Meets owner.old.knows (noted owner.old.row (self.old.cpu + 1) (known_by self.old.note)) }
    {
        let Some(note) = &mut self.note else {
            unreachable!()
        };
        owner.meet(note);
    }

    /// Whether it has the note of a life there.
    pub fn has_note(&self) -> bool
        ensures { result ≡ is_some self.now.note }
    {
        self.note.is_some()
    }
}
