//! A law that says something: an account is a number, and may have a row of at most so many items.
ghost use Rattle.std.specs.Prelude.{◌≡◌, ◌≤◌};
ghost use Rattle.dt_trail.specs.Items.{whose};

use crate::asserts::same;
use dt_trail::{Item, Law, Trail, TrailNote, TrailOwner};
use std::test::*;

struct Short;

impl Law<u64> for Short {
    ghost use Rattle.dt_tests_trail.specs.Short.{IsShort, beginning};

    ghost lawful = { IsShort };

    ghost closed = { beginning };
}

// Appends the item, if there is room and the account may have one more.
fn append_lawful(
    owner: &mut TrailOwner<u64, Short>,
    note: &mut TrailNote<u64, Short>,
    most: u64,
    item: &Item,
)
    requires row { owner.old.row ≡ note.old.row }
    requires account { owner.old.row.account ≡ most }
    requires mine { whose item.now ≡ note.old.number }
    ensures { (owner.new.row ≡ owner.old.row) × (note.new.row ≡ note.old.row) × (note.new.number ≡ note.old.number) }
{
    let room = owner.room();
    if room > 0 && owner.cells() - room < most {
        owner.append(note, item);
    }
}

// A note that has caught up knows no more items than the account may have.
fn caught_up(note: &mut TrailNote<u64, Short>) -> u64
    ensures { result ≤ note.old.row.account }
{
    note.catch_up()
}

#[test]
fn what_a_note_knows_is_lawful(rt: HostRuntime) -> Result<(), Fail> {
    let (mut owner, mut notes) = Trail::new::<u64, Short>(rt.alloc(), 2, 5, 2)?;
    let mut other = notes.pop().ok_or("a note")?;
    let mut session = notes.pop().ok_or("a note")?;
    append_lawful(&mut owner, &mut session, 2, &Item::long_line());
    append_lawful(&mut owner, &mut session, 2, &Item::long_line());
    append_lawful(&mut owner, &mut session, 2, &Item::long_line());
    same(&rt, "the room that is left", owner.room(), 3);
    same(&rt, "what the note knows", caught_up(&mut other), 2);
    Ok(())
}
