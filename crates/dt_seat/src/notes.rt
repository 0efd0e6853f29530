//! The notes that a seat keeps for its processors.
ghost use Rattle.std.specs.Prelude.{◌≡◌, ◌+◌, ℕ, Some, option_map, slice_get, vec_len};
ghost use Rattle.dt_seat.specs.Keeps.{kept, without_note};

use crate::keep::Keep;
use crate::site::HubSite;
use crate::trailed::Note;

/// Lets go of the notes that weren't taken.
pub(crate) fn forget_notes<J: HubSite>(keeps: &mut Vec<Keep<J>>)
    ensures many { vec_len keeps.new ≡ vec_len keeps.old }
    ensures each { (cpu : ℕ) → slice_get keeps.new.items cpu ≡ option_map without_note (slice_get keeps.old.items cpu) }
{
    let many = keeps.len();
    'keeps: for cpu in 0..many {
        let keep = &mut keeps[cpu];
        keep.note = None;
    }
}

/// Gives each processor its note of a new trail, and hands out the first, which is the session's.
pub(crate) fn hand_out<J: HubSite>(keeps: &mut Vec<Keep<J>>, notes: Vec<Note<J>>) -> Note<J>
    requires { vec_len notes ≡ vec_len keeps.old + 1 }
    ensures many { vec_len keeps.new ≡ vec_len keeps.old }
    ensures each { (cpu : ℕ) → slice_get keeps.new.items cpu
        ≡ option_map (λ k. kept (slice_get notes.items (cpu + 1)) k.book) (slice_get keeps.old.items cpu) }
    ensures first { slice_get notes.items 0 ≡ Some result }
{
    let mut notes = notes;
    let mut left = keeps.len();
    'notes: while left > 0 {
        left -= 1;
        let keep = &mut keeps[left];
        keep.note = notes.pop();
    }
    let Some(first) = notes.pop() else {
        unreachable!()
    };
    first
}
