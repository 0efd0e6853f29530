//! Writes as values: what a seat publishes, or that it withdraws that.
ghost use Rattle.std.specs.Prelude.{◌≡◌, IfOk};

use crate::seat::Seat;
use dt_cred::Account;
use dt_machine::Interest;
use std::alloc::{AllocError, Global};
use std::marker::Model;

/// One write: a seat's publication, or the withdrawal of the one that it has. It can be kept, handed on, and applied to
/// any number of `Entries`, by `Entries::apply`.
///
/// Contracts see it as a `Write` of `specs/Writes.antt`.
#[derive(Clone, Drop)]
pub struct Write {
    pub(crate) stored: StoredWrite,
}

#[derive(Clone, Drop)]
pub(crate) enum StoredWrite {
    Publication(Publication),
    Withdrawal(Seat),
}

/// What a seat publishes for one of its lives.
#[derive(Clone, Drop)]
pub(crate) struct Publication {
    pub(crate) seat: Seat,
    pub(crate) life: u64,
    pub(crate) account: Account,
    /// A set of probes is 520 bytes: on the heap, a write is cheap to move.
    pub(crate) interest: Box<Interest>,
}

impl Model for Write {
    ghost use Rattle.dt_chain.specs.Writes.{Write};

    ghost Value = { Write };

    ghost use Rattle.dt_chain.specs.Kinds.{write_of};

    ghost view = { λ write. write_of write.stored };
}

impl Write {
    ghost use Rattle.dt_chain.specs.Writes.{published, withdrawn, seat_of};
    ghost use Rattle.dt_machine.specs.Interest.{flags_of};

    /// A seat publishes for one of its lives, in place of the publication that it may have. It takes the memory for
    /// the set of probes (520 bytes).
    ///
    /// `Err`: there was no memory.
    pub fn publication(
        alloc: Global,
        seat: Seat,
        life: u64,
        account: &Account,
        interest: &Interest,
    ) -> Result<Write, AllocError>
        ensures { IfOk result (λ write. write ≡ published seat life account.now (flags_of interest.now)) }
    {
        let interest = Box::new(alloc, *interest)?;
        Ok(Write {
            stored: StoredWrite::Publication(Publication {
                seat,
                life,
                account: *account,
                interest,
            }),
        })
    }

    /// A seat withdraws its publication, if it has one. It takes no memory.
    pub fn withdrawal(seat: Seat) -> Write
        ensures { result ≡ withdrawn seat }
    {
        Write {
            stored: StoredWrite::Withdrawal(seat),
        }
    }

    /// The seat that writes.
    pub fn seat(&self) -> Seat
        ensures { result ≡ seat_of self.now }
    {
        match &self.stored {
            StoredWrite::Publication(publication) => publication.seat,
            StoredWrite::Withdrawal(seat) => *seat,
        }
    }
}
