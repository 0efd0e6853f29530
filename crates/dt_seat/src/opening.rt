//! How a session comes to a seat, and leaves it.
ghost use Rattle.std.specs.Prelude.{◌≡◌, ◌+◌, ◌<◌, ◌^◌, [], None, Some, IfOk, OnErr};
ghost use Rattle.dt_chain.specs.Limits.{seat_count};
ghost use Rattle.dt_chain.specs.Writes.{withdrawn};
ghost use Rattle.dt_seat.specs.Written.{MayEndWith};
ghost use Rattle.dt_trail.specs.Known.{known_row};
ghost use Rattle.dt_trail.specs.Limits.{opening_cells};

use crate::asking::withdraw;
use crate::hub_publisher::HubPublisher;
use crate::idle::Idle;
use crate::locked::LockedSeat;
use crate::notebook::Notebook;
use crate::notes::{forget_notes, hand_out};
use crate::present::Present;
use crate::session::Session;
use crate::site::HubSite;
use crate::trailed::{Owner, new_trail};
use dt_consumer::Consumer;
use dt_cred::Account;
use dt_facts::Facts;
use dt_machine::Machine;
use std::alloc::{AllocError, Global};
use std::marker::Brand;
use std::sync::{Mutex, Wait};

impl<J: HubSite> LockedSeat<J> {
    /// Opens a session of an account on the seat, which is free and has had fewer than the most sessions. The session knows nothing yet, and its
    /// trail is empty.
    ///
    /// `Err`: there was no memory, and the seat is as it was.
    pub fn open(
        &mut self,
        alloc: Global,
        machine: &Machine,
        facts: &Facts,
        account: &Account,
    ) -> Result<Session<J>, AllocError>
        requires machine { machine.now ≡ J.contents }
        requires facts { facts.now ≡ J.word }
        requires free { self.old.trail ≡ None }
        requires left { self.old.life + 1 < 2 ^ 64 }
        ensures session { IfOk result (λ session. (session.seat ≡ self.old.number) × (session.life ≡ self.old.life)
            × (session.account ≡ account.now) × (session.knows ≡ []) × (session.published ≡ [])) }
        ensures new { IfOk result (λ session. (session.seat < seat_count) × (session.life + 1 < 2 ^ 64)
            × (session.row.account ≡ session.account)) }
        ensures trail { IfOk result (λ session. self.new.trail ≡ Some (known_row session.row [] opening_cells 0)) }
        ensures seat { (self.new.number ≡ self.old.number) × (self.new.life ≡ self.old.life) }
        ensures same { OnErr result (self.new ≡ self.old) }
    {
        let cpus = machine.cpus();
        let consumer = Consumer::new(alloc, *account, machine)?;
        let (owner, notes) = new_trail::<J>(alloc, *account, u64::from(cpus) + 1)?;
        let Some(Idle { mut share, known }) = self.free.take() else {
            unreachable!()
        };
        facts.go_on_apart::<Brand, Owner<J>>(&mut self.lives, &mut share, &owner);
        let note = hand_out(&mut self.keeps, notes);
        self.present = Some(Present {
            account: *account,
            owner,
            consumer,
            is_published: false,
            front: None,
        });
        Ok(Session {
            seat: self.number,
            life: self.life,
            account: *account,
            share,
            lives: facts.begin(&mut self.lives),
            known,
            notebook: Notebook {
                note,
                lines: Vec::new(alloc),
                front: None,
            },
        })
    }

    /// Ends the session on the seat, and withdraws what it published. Its consumer goes, and its trail with the last who has a note of it.
    pub fn close<R: Wait>(
        &mut self,
        rt: &R,
        facts: &Facts,
        chains: &Mutex<HubPublisher<J>>,
        session: Session<J>,
    )
        requires facts { facts.now ≡ J.word }
        requires seat { session.seat ≡ self.old.number }
        ensures free { self.new.trail ≡ None }
        ensures seat { self.new.number ≡ self.old.number }
        ensures life { (session.life ≡ self.old.life) × (self.new.life ≡ self.old.life + 1) }
        ensures writes { MayEndWith (withdrawn self.old.number) self.old.writes self.new.writes }
    {
        let Session {
            seat: _,
            life: _,
            account: _,
            mut share,
            lives,
            known,
            notebook,
        } = session;
        facts.go_on_apart::<Brand, ()>(&mut self.lives, &mut share, &());
        drop(lives);
        drop(notebook);
        let Some(present) = self.present.take() else {
            unreachable!()
        };
        let is_published = present.is_published;
        drop(present);
        withdraw(
            rt,
            facts,
            chains,
            self.number,
            is_published,
            &mut self.writes,
        );
        forget_notes(&mut self.keeps);
        self.free = Some(Idle { share, known });
        self.life += 1;
    }
}
