//! A list of writes that exists in proofs alone.
ghost use Rattle.std.specs.Prelude.{◌≡◌, ◌++◌, ◌∷◌, []};

use crate::write::Write;
use logbook::{Opening, Rule, Seen, Start};
use std::marker::Model;

/// The rule of a book that is opened for what it shows, and never goes on.
struct Still;

impl Rule<Write, u64> for Still {
    ghost use Rattle.std.specs.Prelude.{[]};
    ghost use base.Fml.{ftrue};

    ghost holds = { λ cells log. Unit {0} };

    ghost first = { [] };

    ghost hinted = { λ n log. Unit {0} };

    ghost shows = { λ log. [] };

    ghost keeps = { λ names log. ftrue };

    ghost moves = { λ ask before after answer. Unit {0} };
}

/// A list of writes. It has no bytes, and nothing is done for it when the program runs. Contracts see the list, the oldest
/// first.
#[derive(Drop)]
pub(crate) struct History {
    shown: Seen<Write, u64, Still>,
}

impl Model for History {
    ghost use Rattle.std.specs.Prelude.{List};
    ghost use Rattle.dt_chain.specs.Writes.{Write};

    ghost Value = { List Write };

    ghost view = { λ history. history.shown.log };
}

/// The list of one write.
struct One;

impl Opening<Write, Write> for One {
    ghost use Rattle.std.specs.Prelude.{◌∷◌, []};

    ghost log = { λ count write. write ∷ [] };
}

/// A list, and another one behind it.
#[derive(Drop)]
struct Two {
    first: Seen<Write, u64, Still>,
    then: Seen<Write, u64, Still>,
}

/// The list of both.
struct JoinedRow;

impl Opening<Two, Write> for JoinedRow {
    ghost use Rattle.std.specs.Prelude.{◌++◌};

    ghost log = { λ count two. two.first.log ++ two.then.log };
}

impl History {
    /// No write.
    pub(crate) fn new() -> History
        ensures { result ≡ [] }
    {
        let (shown, _pen, _other) = Seen::open(Start::alone(), 0, 0);
        History { shown }
    }

    /// The list with one more write behind it.
    pub(crate) fn with(&self, write: &Write) -> History
        ensures { result ≡ self.now ++ write.now ∷ [] }
    {
        let (then, _pens) = Seen::open_row::<Write, One>(write, Start::alone(), 0);
        let two = Two {
            first: self.shown.again(),
            then,
        };
        let (shown, _pens) = Seen::open_row::<Two, JoinedRow>(&two, Start::alone(), 0);
        History { shown }
    }
}
