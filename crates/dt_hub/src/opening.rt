//! How sessions come and go.
ghost use Rattle.std.specs.Prelude.{◌≡◌, ◌↔◌, [], Some, IfOk, IfErr, IfNone, IfSome, OnErr};
ghost use Rattle.dt_cred.specs.declared.account.Account.{Account};
ghost use Rattle.dt_hub.specs.Hubs.{IsNew, MayOpen};
ghost use Rattle.dt_hub.specs.declared.fault.OpenFault.TheVariants as faults;
ghost use Rattle.dt_trail.specs.Known.{known_row};
ghost use Rattle.dt_trail.specs.Limits.{opening_cells};

use crate::fault::OpenFault;
use crate::hub::Hub;
use dt_cred::Account;
use dt_seat::{HubSite, LockedSeat, Session};
use std::alloc::{AllocError, Global};
use std::sync::atomic::Ordering;
use std::sync::{MutexGuard, Wait};

impl<J: HubSite> Hub<J> {
    /// Opens a session where a seat is free, and says whether it did. Where it didn't, nothing has changed.
    fn open_at(
        &self,
        alloc: Global,
        locked: &mut LockedSeat<J>,
        account: &Account,
    ) -> Option<Result<Session<J>, AllocError>>
        ensures session { IfSome result (λ opened. IfOk opened (λ session. (session.account ≡ account.now) × (session.knows ≡ []))) }
        ensures place { IfSome result (λ opened. IfOk opened (λ session. (session.seat ≡ locked.old.number)
            × (session.life ≡ locked.old.life))) }
        ensures new { IfSome result (λ opened. IfOk opened IsNew) }
        ensures trail { IfSome result (λ opened. IfOk opened (λ session.
            locked.new.trail ≡ Some (known_row session.row [] opening_cells 0))) }
        ensures none { IfNone result (locked.new ≡ locked.old) }
        ensures refused { IfSome result (λ opened. OnErr opened (locked.new ≡ locked.old)) }
    {
        if !locked.is_free() || locked.life() == u64::MAX {
            return None;
        }
        Some(locked.open(alloc, &self.machine, &self.facts, account))
    }

    /// Opens a session on the first seat that is free, of those whose lock nobody has: it waits for nobody. `None`: there is no such seat.
    fn open_unlocked(
        &self,
        alloc: Global,
        account: &Account,
    ) -> Option<Result<Session<J>, AllocError>>
        ensures session { IfSome result (λ opened. IfOk opened (λ session. (session.account ≡ account.now) × (session.knows ≡ []))) }
        ensures new { IfSome result (λ opened. IfOk opened IsNew) }
    {
        for seat in &self.seats {
            if let Some(mut locked) = seat.try_lock() {
                let opened = self.open_at(alloc, &mut locked, account);
                MutexGuard::unlock(locked);
                if let Some(result) = opened {
                    return Some(result);
                }
            }
        }
        None
    }

    /// Opens a session on the first seat that is free, and waits for who has the lock of one before it. `None`: no seat is free.
    fn open_in_turn<R: Wait>(
        &self,
        rt: &R,
        alloc: Global,
        account: &Account,
    ) -> Option<Result<Session<J>, AllocError>>
        ensures session { IfSome result (λ opened. IfOk opened (λ session. (session.account ≡ account.now) × (session.knows ≡ []))) }
        ensures new { IfSome result (λ opened. IfOk opened IsNew) }
    {
        for seat in &self.seats {
            let mut locked = seat.lock(rt);
            let opened = self.open_at(alloc, &mut locked, account);
            MutexGuard::unlock(locked);
            if let Some(result) = opened {
                return Some(result);
            }
        }
        None
    }

    /// Opens a session of the machine's account of this name, on the first seat that is free; one whose lock somebody has is passed over as long as there
    /// is another. It knows nothing yet, and its trail is empty. Close it by [`Hub::close`].
    ///
    /// `Err`, in this order: no such account, or none with a dtrace privilege; no seat is free; there was no memory. Nothing has changed then.
    pub fn open<R: Wait>(&self, rt: &R, alloc: Global, name: &[u8]) -> Result<Session<J>, OpenFault>
        ensures session { IfOk result (λ session. MayOpen J.contents.registry name.now session.account
            × (session.knows ≡ [])) }
        ensures new { IfOk result IsNew }
        ensures privilege { IfErr result (λ fault. (fault ≡ faults.NoPrivilege)
            ↔ ((account : Account) → MayOpen J.contents.registry name.now account → ⊥)) }
    {
        let Some(account) = self.machine.account(name) else {
            return Err(OpenFault::NoPrivilege);
        };
        if !account.privs.has_dtrace() {
            return Err(OpenFault::NoPrivilege);
        }
        let opened = match self.open_unlocked(alloc, account) {
            Some(opened) => Some(opened),
            // only who found each seat taken, under its lock, is told that none is free
            None => self.open_in_turn(rt, alloc, account),
        };
        match opened {
            Some(Ok(session)) => Ok(session),
            Some(Err(AllocError)) => Err(OpenFault::Memory),
            None => Err(OpenFault::Full),
        }
    }

    /// Ends a session. Its seat is free then, and what it published is withdrawn, unless there is no memory for that: it then stays until the next write of a seat,
    /// and names a life that sees nothing.
    pub fn close<R: Wait>(&self, rt: &R, session: Session<J>) {
        let seat = session.seat();
        let number = seat.number();
        // that this lock's seat has this number is known of no `Vec` of locks: it is looked at, and never differs
        'lock: for _ in rt.forever() {
            let mut locked = self.seats[number as usize].lock(rt);
            if locked.number().number() == number {
                locked.close(rt, &self.facts, &self.chains, session);
                // counted after it was withdrawn, so that who finds the count as it was has not missed it
                self.changes.fetch_add(1, Ordering::SeqCst);
                MutexGuard::unlock(locked);
                return;
            }
            MutexGuard::unlock(locked);
        }
        unreachable!()
    }
}
