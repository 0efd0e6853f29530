//! A trail whose owner is kept beside the notes that append.
ghost use Rattle.std.specs.Prelude.{◌≡◌, ◌<◌, ◌+◌, [], IfOk, OnOk};
ghost use Rattle.dt_trail.specs.Items.{whose};
ghost use Rattle.dt_trail.specs.Known.{AreNew, noted};
ghost use Rattle.dt_trail.specs.Limits.{block_bound};

use dt_trail::{Item, Law, Trail, TrailNote, TrailOwner, WIDENINGS_MAX};
use std::alloc::{AllocError, Global};
use std::test::Fail;

/// Every row is lawful.
pub(crate) struct Any;

impl Law<u64> for Any {
    ghost lawful = { λ _ _. Unit {0} };

    ghost closed = { λ _ _ _ h. h };
}

pub(crate) type Owner = TrailOwner<u64, Any>;

pub(crate) type Note = TrailNote<u64, Any>;

/// A trail's owner, the note of its session and that of processor 0.
#[derive(Drop)]
pub(crate) struct Writers {
    pub(crate) owner: Owner,
    pub(crate) session: Note,
    pub(crate) cpu: Note,
    ghost one_row: { (owner.row ≡ session.row) × (owner.row ≡ cpu.row) },
    ghost numbered: { (session.number ≡ 0) × (cpu.number ≡ 1) },
}

impl Writers {
    /// A trail of so many cells, and the notes of the processors 1 and 2.
    pub(crate) fn open(alloc: Global, cells: u64) -> Result<(Writers, Note, Note), Fail>
        requires { (0 < cells) × (cells < block_bound) }
    {
        let (owner, mut notes) = Trail::new::<u64, Any>(alloc, 7, cells, 4)?;
        let last = last_of(&owner, &mut notes, 3)?;
        let other = last_of(&owner, &mut notes, 2)?;
        let cpu = last_of(&owner, &mut notes, 1)?;
        let session = last_of(&owner, &mut notes, 0)?;
        Ok((Writers::of(owner, session, cpu), other, last))
    }

    fn of(owner: Owner, session: Note, cpu: Note) -> Writers
        requires row { (owner.row ≡ session.row) × (owner.row ≡ cpu.row) }
        requires number { (session.number ≡ 0) × (cpu.number ≡ 1) }
    {
        Writers {
            owner,
            session,
            cpu,
        }
    }

    /// Appends a line of the session, if there is room.
    pub(crate) fn line(&mut self, line: &Item)
        requires { whose line.now ≡ 0 }
    {
        if self.owner.room() > 0 {
            self.owner.append(&mut self.session, line);
        }
    }

    /// Appends a firing of processor 0, if there is room.
    pub(crate) fn firing(&mut self, place: u32) {
        if self.owner.room() > 0 {
            self.owner.append(&mut self.cpu, &Item::fired(0, place));
        }
    }

    /// Widens the trail, if it can be.
    pub(crate) fn widen(&mut self, cells: u64) -> Result<(), AllocError>
        requires { (0 < cells) × (cells < block_bound) }
    {
        if self.owner.widened() < WIDENINGS_MAX {
            self.owner.widen(&mut self.session, cells)?;
        }
        Ok(())
    }

    /// The session's note knows the whole row.
    pub(crate) fn meet(&mut self) {
        self.owner.meet(&mut self.session);
    }
}

// Takes the last of the new notes of a trail, by its number.
fn last_of(owner: &Owner, notes: &mut Vec<Note>, number: u64) -> Result<Note, Fail>
    requires { AreNew owner.now.row (number + 1) notes.old.items }
    ensures note { IfOk result (λ note. note ≡ noted owner.now.row number []) }
    ensures others { OnOk result (AreNew owner.now.row number notes.new.items) }
{
    match notes.pop() {
        Some(note) => Ok(note),
        None => Err("a note".into()),
    }
}
