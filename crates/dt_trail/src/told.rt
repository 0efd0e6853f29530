//! What one note tells another.
ghost use Rattle.std.specs.Prelude.{◌≡◌, length};

use crate::door::Door;
use crate::inner::RowSeat;
use std::marker::Model;

/// A beginning of a row, told by a note or by the owner. It has no cell, and can be handed to another thread.
///
/// Contracts see it as a `Heard` of `specs/Known.antt`: which row it is, and the items.
pub struct Told<K> {
    pub(crate) seat: RowSeat<K>,
    pub(crate) door: Door,
    pub(crate) count: u64,
}

impl<K> Model for Told<K> {
    ghost use Rattle.dt_trail.specs.Known.{Heard};
    ghost use Rattle.dt_trail.specs.Insides.{heard, IsHeard};

    ghost Value = { Heard };

    ghost view = { λ t. heard t.seat };

    ghost invariant = { λ t. IsHeard t.seat t.door t.count };
}

impl<K> Told<K> {
    ghost use Rattle.dt_trail.specs.Items.{longer};
    ghost use Rattle.dt_trail.specs.Insides.{heard, IsHeard};

    /// How many items were told.
    pub fn count(&self) -> u64
        ensures { result ≡ length self.now.knows }
    {
        self.count
    }

    /// The longer of two beginnings of one row, for whoever was told twice and has no note of the row. It waits for nobody and
    /// takes no memory. A note that learns both is promised more: what it then knows begins with both.
    pub fn longer(self, other: Told<K>) -> Told<K>
        requires { self.row ≡ other.row }
        ensures row { result.row ≡ self.row }
        ensures longer { result.knows ≡ longer self.knows other.knows }
    {
        if self.count < other.count {
            other
        } else {
            self
        }
    }

    pub(crate) fn parts(self) -> (RowSeat<K>, Door, u64)
        ensures { IsHeard result.0 result.1 result.2 × (heard result.0 ≡ self) }
    {
        let Self { seat, door, count } = self;
        (seat, door, count)
    }
}

impl<K> Drop for Told<K> {
    fn drop(self) {
        let Self {
            seat,
            door: _,
            count: _,
        } = self;
        drop(seat);
    }
}
