//! What is known of a clause before it is taken.
ghost use Rattle.std.specs.Prelude.{◌≡◌};
ghost use Rattle.dt_consumer.specs.Recording.{outline_of};

use dt_lang::Clause;
use dt_record::{leaves_record, only_gives, only_records};

/// What is known of a clause before it is taken: it is asked once, as the clause is accepted, and not at each firing.
#[derive(Clone, Copy)]
pub(crate) struct Outline {
    /// Whether it leaves a record.
    pub(crate) leaves_record: bool,
    /// Whether all that it does is to record.
    pub(crate) only_records: bool,
    /// Whether all that it does is to give to aggregations.
    pub(crate) only_gives: bool,
}

impl Outline {
    /// That of a clause.
    pub(crate) fn of(clause: &Clause) -> Self
        ensures { result ≡ outline_of clause.now }
    {
        Outline {
            leaves_record: leaves_record(clause),
            only_records: only_records(clause),
            only_gives: only_gives(clause),
        }
    }
}
