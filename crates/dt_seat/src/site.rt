//! Which hub is meant.

use dt_chain::Site as ChainSite;
use dt_legal::Traced;
use std::marker::Brand;

/// Which hub is meant: all that has a type of one of these is of one hub, with its machine, its chains and the word of its facts. A
/// program picks it in one call, for the hub that it makes.
pub trait HubSite: ChainSite + Traced {
    ghost use Rattle.atomic_table.specs.Seated.{TableId};

    ghost word: { TableId };
}

impl HubSite for Brand {
    ghost use Rattle.std.specs.Prelude.{[]};

    ghost word = { record { words = 0; slots = 0; views_name = 0; atom = 0; block = 0; offset = 0; slot_names = [] } };
}
