//! What lies under the lock of a seat.
ghost use Rattle.std.specs.Prelude.{◌≡◌, ◌<◌, ◌≤◌, ◌+◌, ◌++◌, ℕ, List, Some, None, IfOk, IfSome, IsSome, IsSomeAnd, MatchBool, OnErr, length, option_map};
ghost use Rattle.dt_chain.specs.Chains.{IsMaskAfter};
ghost use Rattle.dt_chain.specs.Seats.{life_at};
ghost use Rattle.dt_chain.specs.Writes.{Write};
ghost use Rattle.dt_chain.specs.declared.seat_mask.SeatMask.{SeatMask};
ghost use Rattle.dt_cred.specs.declared.firing.Firing.{Firing};
ghost use Rattle.dt_legal.specs.Rows.{AreBelowPlace};
ghost use Rattle.dt_machine.specs.Context.{IsContext};
ghost use Rattle.dt_machine.specs.Registry.{firing_at};
ghost use Rattle.dt_seat.specs.Keeps.{Forgets, known_by, noted_of};
ghost use Rattle.dt_seat.specs.Publications.{IsPublished};
ghost use mathlib.Core.List.{IsPrefix};
ghost use Rattle.dt_seat.specs.Seats.{IsRepliedTo, ComesOfFiring, KnowsPublication, StaysOn, kept_items};
ghost use Rattle.dt_seat.specs.Tracked.{AreTracked, counts_with};
ghost use Rattle.dt_seat.specs.Trailed.{item_of_line};
ghost use Rattle.dt_seat.specs.Written.{AreWritesOf};
ghost use Rattle.dt_trail.specs.Items.{StartsWith, own};

use crate::asking::ask_at;
use crate::follower::Follower;
use crate::held::Held;
use crate::hub_publisher::{HubPublisher, among_own};
use crate::idle::Idle;
use crate::keep::Keep;
use crate::notebook::hear;
use crate::present::{Present, hold_at};
use crate::replied::Replied;
use crate::session::Session;
use crate::site::HubSite;
use dt_chain::{ChainReader, Seat};
use dt_consumer::Scratch;
use dt_facts::{Book, Facts, Share};
use dt_machine::{Context, Machine};
use dt_proto::Asked;
use std::alloc::{AllocError, Global};
use std::marker::Model;
use std::sync::{Mutex, Wait};

/// What lies under the lock of a seat: the session that is open there, if there is one, with its trail and the consumer that stands for it;
/// how many sessions were there before; what is kept for each processor; and the share of what the seat wrote into the chains.
///
/// Contracts see it as a `Seated` of `specs/Seats.antt`.
#[derive(Drop)]
pub struct LockedSeat<J: HubSite> {
    // First, and its first fields first: so what nearly each offer reads and writes of the session lies near the lock.
    pub(crate) present: Option<Present<J>>,
    pub(crate) number: Seat,
    pub(crate) life: u64,
    pub(crate) keeps: Vec<Keep<J>>,
    pub(crate) lives: Book,
    pub(crate) free: Option<Idle>,
    pub(crate) writes: Share,
}

impl<J: HubSite> Model for LockedSeat<J> {
    ghost use Rattle.dt_seat.specs.Seats.{Seated, HoldsPublication, IsSeat, Wrote, seated};

    ghost Value = { Seated };

    ghost view = { λ l. seated l.number l.life l.present l.writes };

    ghost invariant = { λ l. IsSeat J.word J.contents l.number l.life l.present l.lives l.free l.keeps.items
        × Wrote J.word J.contents l.number l.life l.present l.writes
        × HoldsPublication J.contents l.number l.life l.present l.writes };
}

impl<J: HubSite> LockedSeat<J> {
    /// Which seat it is.
    pub fn number(&self) -> Seat
        ensures { result ≡ self.now.number }
    {
        self.number
    }

    /// How many sessions were there before the present one, or before the next.
    pub fn life(&self) -> u64
        ensures { result ≡ self.now.life }
    {
        self.life
    }

    /// Whether no session is open.
    pub fn is_free(&self) -> bool
        ensures { MatchBool result (self.now.trail ≡ None) (IsSome self.now.trail) }
    {
        self.present.is_none()
    }

    /// Answers a line of the session: the text of its reply, with its newline, and whether the session goes on. The session then knows its
    /// whole trail, with the line, if that is within the quota.
    ///
    /// `Err`: there was no memory. The trail has the items that it had, so that the line is no part of it, and may be asked again.
    pub fn ask<R: Wait>(
        &mut self,
        rt: &R,
        alloc: Global,
        machine: &Machine,
        facts: &Facts,
        chains: &Mutex<HubPublisher<J>>,
        session: &mut Session<J>,
        asked: &Asked,
    ) -> Result<Replied, AllocError>
        requires machine { machine.now ≡ J.contents }
        requires facts { facts.now ≡ J.word }
        requires seat { session.old.seat ≡ self.old.number }
        ensures answered { IfOk result (λ replied. IsRepliedTo J.contents session.old.account session.old.knows (item_of_line asked.now)
            replied.text.items replied.ending session.new.knows) }
        ensures refused { OnErr result (StartsWith session.new.knows session.old.knows × (own 0 session.new.knows ≡ own 0 session.old.knows)) }
        ensures unchanged { OnErr result (option_map (λ t. t.knows) self.new.trail ≡ option_map (λ t. t.knows) self.old.trail) }
        ensures published { IsPublished J.contents session.new.seat session.new.life session.new.account session.new.knows session.new.published }
        ensures session { (session.new.seat ≡ session.old.seat) × (session.new.life ≡ session.old.life)
            × (session.new.row ≡ session.old.row) × (session.new.account ≡ session.old.account) }
        ensures fronts { IsPrefix session.old.published session.new.published }
        ensures seat { (self.new.number ≡ self.old.number) × (self.new.life ≡ self.old.life) × (self.old.life ≡ session.old.life) }
        ensures trail { StaysOn self.old.trail self.new.trail }
        ensures own { IsSomeAnd self.new.trail (λ trail. trail.row ≡ session.old.row) }
        ensures writes { IsSomeAnd self.new.trail (λ trail. AreWritesOf J.contents trail.row.account self.new.life trail.knows self.new.writes) }
    {
        facts.agree(&mut self.lives, &mut session.share);
        let Some(present) = &mut self.present else {
            unreachable!()
        };
        let result = ask_at(
            rt,
            alloc,
            machine,
            facts,
            chains,
            self.number,
            self.life,
            present,
            &mut self.writes,
            &mut session.notebook,
            asked,
        );
        session
            .known
            .go_on(facts, session.life, &session.notebook.note);
        result
    }

    /// A life that a look has named is open, if it isn't over: no look names one that wasn't open yet, as the list of all writes shows. Nothing changes.
    fn find_open<R: Wait>(
        &mut self,
        rt: &R,
        facts: &Facts,
        chains: &Mutex<HubPublisher<J>>,
        life: u64,
        reader: &ChainReader<J>,
    )
        requires facts { facts.now ≡ J.word }
        requires there { self.old.life ≤ life }
        requires named { (firing : Firing) × (mask : SeatMask) × IsMaskAfter J.contents.registry reader.now.seen firing mask
            × (life_at mask self.old.number ≡ Some life) }
        ensures same { self.new ≡ self.old }
        ensures open { (self.old.life ≡ life) × IsSome self.old.trail }
    {
        if self.life == life && self.present.is_some() {
            return;
        }
        let seen = reader.seen();
        among_own(rt, facts, chains, &mut self.writes, self.number, &seen);
        unreachable!()
    }

    /// A processor offers a firing of its script to a life of the seat that its look has named. Its note, if it has one, has no firing of it at this place or a later
    /// one. Its reader is told of the publication of the session's `go`, once that was accepted.
    #[inline(always)]
    pub fn hold<R: Wait>(
        &mut self,
        rt: &R,
        machine: &Machine,
        facts: &Facts,
        chains: &Mutex<HubPublisher<J>>,
        life: u64,
        context: &Context,
        scratch: &mut Scratch,
        follower: &mut Follower<J>,
        reader: &mut ChainReader<J>,
    ) -> Held
        requires machine { machine.now ≡ J.contents }
        requires facts { facts.now ≡ J.word }
        requires context { IsContext J.contents.registry context.now }
        requires script { firing_at J.contents.scripts context.now.firing.now.cpu context.now.firing.now.place
            ≡ Some context.now.firing.now }
        requires follower { (follower.old.seat ≡ self.old.number) × (follower.old.cpu ≡ context.now.firing.now.cpu) }
        requires below { AreBelowPlace context.now.firing.now.cpu context.now.firing.now.place (known_by follower.old.note) }
        requires named { (mask : SeatMask) × IsMaskAfter J.contents.registry reader.old.seen context.now.firing.now mask
            × (life_at mask self.old.number ≡ Some life) }
        ensures held { ComesOfFiring J.contents life context.now.firing.now result follower.old follower.new }
        ensures own { own (context.now.firing.now.cpu + 1) (noted_of life follower.new)
            ≡ own (context.now.firing.now.cpu + 1) (noted_of life follower.old) ++ kept_items result context.now.firing.now }
        ensures tracked { (knew : ℕ → List ℕ) → ((l : ℕ) → length (knew l) ≡ context.now.firing.now.place)
            → AreTracked J.contents reader.old.seen knew follower.old
            → AreTracked J.contents reader.new.told (counts_with knew follower.old) follower.new }
        ensures reader { (reader.new.seen ≡ reader.old.seen) × IsPrefix reader.old.told reader.new.told }
        ensures published { KnowsPublication J.contents life follower.new reader.new.told }
        ensures seat { (self.new.number ≡ self.old.number) × (self.new.life ≡ self.old.life) }
        ensures trail { StaysOn self.old.trail self.new.trail }
        ensures writes { self.new.writes ≡ self.old.writes }
    {
        // for the proof: what the reader has seen begins what it knows
        let _known = reader.told();
        if life < self.life {
            facts.catch_up(&mut self.lives, &mut follower.lives);
            follower.is_right();
            return Held::Gone;
        }
        self.find_open(rt, facts, chains, life, reader);
        let Some(present) = &mut self.present else {
            unreachable!()
        };
        let held = hold_at(
            machine,
            facts,
            life,
            &mut self.lives,
            present,
            &mut self.keeps,
            context,
            scratch,
            follower,
        );
        hear(reader, &present.front);
        follower.is_right();
        held
    }

    /// A processor lets go of its note of a life of the seat that is over, and so of that life's trail, whose memory is given back once nobody has it. It forgets
    /// what it knew of that life, and nothing of one that isn't over.
    pub fn let_go(&mut self, facts: &Facts, follower: &mut Follower<J>)
        requires facts { facts.now ≡ J.word }
        requires follower { (follower.old.seat ≡ self.old.number) × (follower.old.cpu < J.contents.registry.cpus) }
        ensures follower { Forgets follower.old follower.new }
        ensures gone { IfSome follower.new.took (λ last. self.old.life ≤ last.life) }
        ensures tracked { (writes : List Write) (knew : ℕ → List ℕ) → AreTracked J.contents writes knew follower.old
            → AreTracked J.contents writes knew follower.new }
        ensures seat { self.new ≡ self.old }
    {
        self.let_go_of_note(facts, follower);
        follower.is_right();
    }

    /// The same, without what is kept track of.
    fn let_go_of_note(&mut self, facts: &Facts, follower: &mut Follower<J>)
        requires facts { facts.now ≡ J.word }
        requires follower { (follower.old.seat ≡ self.old.number) × (follower.old.cpu < J.contents.registry.cpus) }
        ensures follower { Forgets follower.old follower.new }
        ensures gone { IfSome follower.new.took (λ last. self.old.life ≤ last.life) }
        ensures seat { self.new ≡ self.old }
    {
        if follower.note.is_none() || follower.life >= self.life {
            return;
        }
        facts.catch_up(&mut self.lives, &mut follower.lives);
        self.keeps[follower.cpu as usize].forget(facts, follower);
    }
}
