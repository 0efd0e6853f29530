//! What is on a seat.
ghost use Rattle.std.specs.Prelude.{◌≡◌, ℕ, [], None, IfOk, IfSome, vec_len, slice_get};
ghost use Rattle.dt_chain.specs.declared.seat.TheConstants.{SEATS};
ghost use Rattle.dt_machine.specs.Registry.{Registry};
ghost use Rattle.dt_steps.specs.Stands.{IsPlace};

use crate::session::{Answered, Finished, Session};
use dt_chain::{Entries, SEATS, Seat};
use dt_consumer::Scratch;
use dt_cred::Account;
use dt_machine::{Context, Machine};
use dt_proto::WholeLine;
use std::alloc::{AllocError, Global};

/// What is on a seat: the session that goes on, if there is one, and how many sessions were there before it. That is
/// its number too, and the life that is published of it.
#[derive(Drop)]
pub(crate) struct Place {
    pub(crate) present: Option<Session>,
    pub(crate) earlier: u64,
}

impl Place {
    ghost use Rattle.std.specs.Prelude.{◌+◌, ◌<◌, ◌^◌, OnOk, List, Some, true, length, is_some, option_map};
    ghost use Rattle.std.specs.Option.{option_map_or};
    ghost use Rattle.dt_chain.specs.IsAt.{EntriesAreAt};
    ghost use Rattle.dt_chain.specs.Writes.{Write};
    ghost use Rattle.dt_life.specs.Life.{is_over};
    ghost use Rattle.dt_machine.specs.Context.{IsContext};
    ghost use Rattle.dt_proto.specs.Asked.{form_lent, form_asked};
    ghost use Rattle.dt_steps.specs.Sound.{IsDueToShown};
    ghost use Rattle.dt_steps.specs.Stands.{IsAskedOn, IsFinishedOn, IsPublishedOn, opened_on, closed_on, first_account, sees_on};
    ghost use Rattle.dt_steps.specs.Steps as steps;
    ghost use Rattle.dt_steps.specs.World as world;

    /// A seat on which there was no session yet.
    pub(crate) fn new() -> Place
        ensures { (registry : Registry) → IsPlace registry (record { present = None; earlier = [] }) result }
    {
        Place {
            present: None,
            earlier: 0,
        }
    }

    /// Opens a session, where the seat is free, for the machine's account of this name, if that has a dtrace privilege.
    pub(crate) fn open(
        &mut self,
        alloc: Global,
        machine: &Machine,
        name: &[u8],
    ) -> Result<(), AllocError>
        ensures { OnOk result ((place : world.Place) → IsPlace machine.now.registry place self.old
            → IsPlace machine.now.registry (opened_on machine.now.registry place name.now) self.new) }
    {
        // on a taken seat, or without an account that may trace, the step isn't enabled
        if self.present.is_some() {
            return Ok(());
        }
        let Some(account) = machine.account(name) else {
            return Ok(());
        };
        if account.privs.has_dtrace() {
            self.present = Some(Session::new(alloc, *account, machine)?);
        }
        Ok(())
    }

    /// Asks a line of its session, and answers the reply's bytes.
    pub(crate) fn ask(
        &mut self,
        alloc: Global,
        machine: &Machine,
        line: WholeLine<'_>,
    ) -> Result<Option<Answered>, AllocError>
        ensures asked { IfOk result (λ reply. (place : world.Place) → IsPlace machine.now.registry place self.old
            → IsAskedOn machine.now.registry place (form_lent line.entry) (option_map (λ answered. answered.text.items) reply) self.new) }
        ensures over { IfOk result (λ reply. IfSome reply (λ answered. (place : world.Place) (session : world.Session)
            → IsPlace machine.now.registry place self.old → place.present ≡ Some session
            → answered.is_over ≡ is_over (world.life_in machine.now.registry session))) }
    {
        match &mut self.present {
            Some(session) if session.may_ask() => session.ask(alloc, machine, line),
            _ => Ok(None),
        }
    }

    /// Lets the published `go` of its session take effect, and answers the reply's bytes.
    pub(crate) fn finish(&mut self, machine: &Machine) -> Option<Finished>
        ensures finished { (place : world.Place) → IsPlace machine.now.registry place self.old
            → IsFinishedOn machine.now.registry place (option_map (λ finished. finished.text.items) result) self.new }
        ensures line { IfSome result (λ finished. (place : world.Place) (session : world.Session) (pending : world.Pending)
            → IsPlace machine.now.registry place self.old → place.present ≡ Some session → session.go ≡ Some pending
            → form_asked finished.line ≡ pending.line) }
    {
        match &mut self.present {
            Some(session) => session.finish(machine),
            None => None,
        }
    }

    /// Publishes the interest of its session, where a `go` of that is pending and not published.
    pub(crate) fn publish(
        &mut self,
        publications: &mut Entries,
        seat: Seat,
    ) -> Result<(), AllocError>
        ensures { OnOk result ((registry : Registry) (place : world.Place) (writes : List Write)
            → IsPlace registry place self.old → EntriesAreAt writes publications.old
            → IsPublishedOn registry seat place writes self.new publications.new) }
    {
        match &mut self.present {
            Some(session) if session.is_unpublished() => {
                let interest = session.consumer.interest()?;
                publications.publish(seat, self.earlier, &session.account, &interest)?;
                session.set_published();
                Ok(())
            }
            _ => Ok(()),
        }
    }

    /// Whether its publication may be withdrawn: no consumer on it is active, and no `go` is pending.
    pub(crate) fn may_withdraw(&self) -> bool
        ensures { (registry : Registry) (place : world.Place) → IsPlace registry place self.now
            → result ≡ option_map_or (world.may_withdraw registry) place.present true }
    {
        match &self.present {
            Some(session) => session.may_withdraw(),
            None => true,
        }
    }

    /// A firing reaches its session, if that has this life. Answers whether the session saw the firing. It is due to a session
    /// that is shown it: the look asked for that, so the offer doesn't.
    pub(crate) fn deliver(
        &mut self,
        machine: &Machine,
        life: u64,
        context: &Context,
        scratch: &mut Scratch,
    ) -> bool
        ensures seen { (place : world.Place) → IsPlace machine.now.registry place self.old
            → IsContext machine.now.registry context.now
            → IsDueToShown machine.now.registry place (record { life = life; firing = context.now.firing.now })
            → result ≡ sees_on machine.now.registry (record { life = life; firing = context.now.firing.now }) place }
        ensures reached { (place : world.Place) → IsPlace machine.now.registry place self.old
            → IsContext machine.now.registry context.now
            → IsDueToShown machine.now.registry place (record { life = life; firing = context.now.firing.now })
            → IsPlace machine.now.registry
            (steps.offered (record { life = life; firing = context.now.firing.now }) place) self.new }
    {
        // the mask was made for a session that was here before
        if life != self.earlier {
            return false;
        }
        match &mut self.present {
            Some(session) => session.consumer.offer_shown(machine, context, scratch),
            None => false,
        }
    }

    /// Whether its session is there, and the first on the seat.
    pub(crate) fn is_first(&self) -> bool
        ensures { (registry : Registry) (place : world.Place) → IsPlace registry place self.now
            → result ≡ is_some (first_account place) }
    {
        match &self.present {
            Some(_) => self.earlier == 0,
            None => false,
        }
    }

    /// The account of its session, where that is the first on the seat.
    pub(crate) fn first(&self) -> Option<Account>
        ensures { (registry : Registry) (place : world.Place) → IsPlace registry place self.now → result ≡ first_account place }
    {
        match &self.present {
            Some(session) if self.earlier == 0 => Some(session.account),
            _ => None,
        }
    }

    /// Ends its session.
    pub(crate) fn close(&mut self)
        ensures { (registry : Registry) (place : world.Place) → length place.earlier + 1 < 2 ^ 64 → IsPlace registry place self.old
            → IsPlace registry (closed_on place) self.new }
    {
        if self.present.is_some() {
            self.present = None;
            self.earlier = self.earlier.saturating_add(1);
        }
    }
}

/// Seats on which there was no session yet.
pub(crate) fn free_seats(alloc: Global) -> Result<Vec<Place>, AllocError>
    ensures all { IfOk result (λ seats. vec_len seats ≡ SEATS) }
    ensures free { IfOk result (λ seats. (registry : Registry) (seat : ℕ)
        → IfSome (slice_get seats.items seat) (IsPlace registry (record { present = None; earlier = [] }))) }
{
    let mut seats = Vec::with_capacity(alloc, SEATS)?;
    for _seat in 0..SEATS {
        seats.push(Place::new())?;
    }
    Ok(seats)
}
