//! The table of the variables that aren't 0.
ghost use Rattle.std.specs.Prelude.{◌≡◌, ◌≢◌, ◌+◌, ◌*◌, ◌<◌, ◌≤◌, ◌⊎◌, ◌↔◌, ℤ, pos, length, IsTrue, IfOk, cond, vec_len};
ghost use Rattle.dt_locals.specs.History.{same_local};
ghost use Rattle.dt_locals.specs.Hash.{home_in};
ghost use Rattle.dt_locals.specs.Slots.{AreHashed, IsSlotFor, HasValue, taken_count, value_at, local_at};
ghost use Rattle.dt_locals.specs.Values.{is_set};
ghost use Rattle.dt_locals.specs.declared.limits.TheConstants.{DYNVARSIZE_MAX, LOCAL_SIZE};
ghost use Rattle.dt_locals.specs.declared.variable.LocalVariable.{LocalVariable};

use crate::limits::{DYNVARSIZE_MAX, LOCAL_SIZE};
use crate::slots::{LocalSlot, close_up};
use crate::variable::LocalVariable;
use dt_names::Name;
use std::alloc::{AllocError, Global};

/// The variables that aren't 0, as many as there is room for. Each lies at its home, a slot that its number tells, or after it,
/// and no slot between is free. All room is made by `new`.
#[derive(Drop)]
pub(crate) struct Table {
    pub(crate) slots: Vec<LocalSlot>,
    /// How many slots are homes.
    pub(crate) homes: usize,
    pub(crate) room: usize,
    /// How many slots are taken.
    pub(crate) taken: usize,
    ghost some_homes: { 0 < homes },
    ghost long: { length slots.items ≡ homes + room },
    ghost small: { LOCAL_SIZE * room ≤ DYNVARSIZE_MAX },
    ghost few_homes: { homes ≡ 2 * room + 1 },
    ghost hashed: { AreHashed (home_in homes) slots.items },
    ghost counted: { taken ≡ taken_count slots.items },
    ghost within: { taken ≤ room },
}

impl Table {
    /// No variables, and room for so many. `Err`: there was no memory for it.
    pub(crate) fn new(alloc: Global, room: usize) -> Result<Table, AllocError>
        requires { LOCAL_SIZE * room ≤ DYNVARSIZE_MAX }
        ensures room { IfOk result (λ table. table.room ≡ room) }
        ensures taken { IfOk result (λ table. table.taken ≡ 0) }
        ensures values { IfOk result (λ table. (variable : LocalVariable) → HasValue table.slots.items variable (pos 0)) }
    {
        let free = LocalSlot {
            variable: LocalVariable {
                pid: 0,
                tid: 0,
                name: Name::new(b"").unwrap(),
            },
            value: 0,
        };
        let homes = 2 * room + 1;
        Ok(Table {
            slots: vec![in alloc; free; homes + room]?,
            homes,
            room,
            taken: 0,
        })
    }

    /// The value of a variable.
    pub(crate) fn get(&self, variable: &LocalVariable) -> i64
        ensures { (value : ℤ) → HasValue self.now.slots.items variable.now value → result ≡ value }
    {
        self.slots[self.find(variable)].value
    }

    /// Gives a variable a value and says so; or leaves it 0, where it is 0 and there is no room for another that isn't.
    pub(crate) fn set(&mut self, variable: &LocalVariable, value: i64) -> bool
        ensures room { self.new.room ≡ self.old.room }
        ensures answers { (was : ℤ) → HasValue self.old.slots.items variable.now was
            → (IsTrue result ↔ ((value ≡ pos 0) ⊎ ((was ≢ pos 0) ⊎ (self.old.taken < self.old.room)))) }
        ensures values { (other : LocalVariable) (was : ℤ) → HasValue self.old.slots.items other was
            → HasValue self.new.slots.items other
            (cond (same_local variable.now other) (cond result value (pos 0)) was) }
        ensures taken { (was : ℤ) → HasValue self.old.slots.items variable.now was
            → self.new.taken + cond (is_set was) 1 0 ≡ self.old.taken + cond (is_set (cond result value (pos 0))) 1 0 }
    {
        let place = self.find(variable);
        let is_free = self.slots[place].is_free();
        if value == 0 {
            if !is_free {
                self.free(place);
            }
            return true;
        }
        // no variable that isn't 0 is let go to make room
        if is_free && self.taken == self.room {
            return false;
        }
        self.write(place, variable, value);
        true
    }

    /// Gives a variable a value that isn't 0, in the slot that is found for it. If that is free, there is room.
    fn write(&mut self, place: usize, variable: &LocalVariable, value: i64)
        requires found { IsSlotFor (home_in self.old.homes) self.old.slots.items variable.now place }
        requires given { value ≢ pos 0 }
        requires room { value_at self.old.slots.items place ≡ pos 0 → self.old.taken < self.old.room }
        ensures room { self.new.room ≡ self.old.room }
        ensures values { (other : LocalVariable) (was : ℤ) → HasValue self.old.slots.items other was
            → HasValue self.new.slots.items other (cond (same_local variable.now other) value was) }
        ensures taken { self.new.taken + cond (is_set (value_at self.old.slots.items place)) 1 0 ≡ self.old.taken + 1 }
    {
        let taken = if self.slots[place].is_free() {
            self.taken + 1
        } else {
            self.taken
        };
        self.taken = taken;
        self.slots[place] = LocalSlot {
            variable: *variable,
            value,
        };
    }

    /// The first slot from a variable's home on that is free or taken for it. There is one, since there are more slots from there
    /// on than are taken in all.
    fn find(&self, variable: &LocalVariable) -> usize
        ensures { IsSlotFor (home_in self.now.homes) self.now.slots.items variable.now result }
    {
        for place in variable.home(self.homes)..self.slots.len() {
            let slot = &self.slots[place];
            if slot.is_free() || slot.variable.is(variable) {
                return place;
            }
        }
        unreachable!("fewer slots are taken than there are from a home on")
    }

    /// Frees a slot.
    fn free(&mut self, place: usize)
        requires within { place < vec_len self.old.slots }
        requires taken { value_at self.old.slots.items place ≢ pos 0 }
        ensures room { self.new.room ≡ self.old.room }
        ensures values { (variable : LocalVariable) (was : ℤ) → HasValue self.old.slots.items variable was
            → HasValue self.new.slots.items variable
            (cond (same_local (local_at self.old.slots.items place) variable) (pos 0) was) }
        ensures taken { self.new.taken + 1 ≡ self.old.taken }
    {
        self.slots[place].value = 0;
        self.taken -= 1;
        close_up(&mut self.slots, self.homes, place);
    }
}
