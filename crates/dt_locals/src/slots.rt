//! The slots of a table: how a hole is closed up.
ghost use Rattle.std.specs.Prelude.{◌≡◌, ◌<◌, ℤ, pos, length};
ghost use Rattle.dt_locals.specs.Hash.{home_in};
ghost use Rattle.dt_locals.specs.Slots.{AreHashed, AreHashedBut, HasValue, taken_count, value_at};
ghost use Rattle.dt_locals.specs.declared.variable.LocalVariable.{LocalVariable};

use crate::variable::LocalVariable;

/// A place for a variable that isn't 0. It is free where its value is 0.
#[derive(Clone, Copy)]
pub(crate) struct LocalSlot {
    pub(crate) variable: LocalVariable,
    pub(crate) value: i64,
}

impl LocalSlot {
    ghost use Rattle.std.specs.Prelude.{◌↔◌, IsTrue};

    /// Whether no variable lies in it.
    pub(crate) fn is_free(&self) -> bool
        ensures { IsTrue result ↔ (self.now.value ≡ pos 0) }
    {
        self.value == 0
    }
}

/// Closes a hole up: what lies after it, up to the next free slot, moves into it where its home isn't after the hole, and leaves
/// a hole where it lay.
pub(crate) fn close_up(slots: &mut [LocalSlot], beginnings: usize, hole: usize)
    requires beginnings { 0 < beginnings }
    requires within { hole < length slots.old }
    requires hashed { AreHashedBut (home_in beginnings) slots.old hole }
    requires free { value_at slots.old hole ≡ pos 0 }
    ensures hashed { AreHashed (home_in beginnings) slots.new }
    ensures values { (variable : LocalVariable) (value : ℤ) → HasValue slots.old variable value
        → HasValue slots.new variable value }
    ensures taken { taken_count slots.new ≡ taken_count slots.old }
    ensures length { length slots.new ≡ length slots.old }
{
    let mut gap = hole;
    for place in hole + 1..slots.len() {
        let slot = slots[place];
        // no variable after a free slot has its home before it
        if slot.is_free() {
            break;
        }
        if slot.variable.home(beginnings) <= gap {
            slots.swap(gap, place);
            gap = place;
        }
    }
}
