//! The law of a session's trail.

use dt_cred::Account;
use dt_trail::Law;
use std::marker::{Brand, PhantomData};

/// Which machine is traced. All that has a type of one of these traces the same: a program picks it in one call, for the machine that
/// it has.
pub trait Traced {
    ghost use Rattle.dt_machine.specs.Registry.{Contents};

    ghost contents: { Contents };
}

impl Traced for Brand {
    ghost use Rattle.std.specs.Prelude.{[]};

    ghost contents = { record { registry = record { cpus = 0; accounts = []; processes = []; probes = [] }; scripts = [] } };
}

/// The law that the trails of a machine's sessions keep: an account may have the rows that are legal for it.
pub struct LegalIn<J> {
    of: PhantomData<J>,
}

impl<J: Traced> Law<Account> for LegalIn<J> {
    ghost use Rattle.dt_legal.specs.Rows.{IsLegalRow};
    ghost use Rattle.dt_legal.specs.laws.Beginning.{legal_beginning};

    ghost lawful = { λ account row. IsLegalRow account J.contents row };

    ghost closed = { λ account xs ys. legal_beginning account J.contents xs ys };
}
