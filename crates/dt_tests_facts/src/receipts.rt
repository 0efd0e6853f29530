//! Who is told twice what a session knows, has no note of its trail, and is shown to have lost nothing.
ghost use Rattle.std.specs.Prelude.{◌≡◌, ◌<◌, length};
ghost use mathlib.Core.List.{IsPrefix};
ghost use Rattle.dt_facts.specs.Facts.{nothing, items_fact, lists_in};
ghost use Rattle.dt_facts.specs.Lives.{items_of_life};

use dt_facts::{Beginning, Book, Facts, Share};
use dt_trail::{Item, Law, Told, Trail, TrailNote, TrailOwner};
use std::marker::Brand;
use std::test::*;
use std::thread::{Threads, join};

/// Every row is lawful.
struct Any;

impl Law<u64> for Any {
    ghost lawful = { λ _ _. Unit {0} };

    ghost closed = { λ _ _ _ h. h };
}

type Owner = TrailOwner<u64, Any>;

type Note = TrailNote<u64, Any>;

/// A session: its trail, and the fact of the items that its note knows, as those of life 0.
#[derive(Drop)]
struct Session {
    owner: Owner,
    note: Note,
    book: Book,
    share: Share,
    ghost one_row: { owner.row ≡ note.row },
    ghost numbered: { note.number ≡ 0 },
    ghost agree: { book ≡ share },
    ghost says: { share.fact ≡ items_fact (lists_in share.fact).items },
    ghost knows: { items_of_life 0 (lists_in share.fact).items ≡ note.knows },
}

/// What was told, beside a beginning of the fact of the items, which has the same items of life 0.
#[derive(Drop)]
struct Receipt {
    told: Told<u64>,
    beginning: Beginning,
    ghost same: { items_of_life 0 beginning.lists.items ≡ told.knows },
}

// The session's note has lost nothing.
fn append_line(owner: &mut Owner, note: &mut Note)
    requires row { (owner.old.row ≡ note.old.row) × (note.old.number ≡ 0) }
    requires room { length owner.old.knows < owner.old.cells }
    ensures row { (owner.new.row ≡ owner.old.row) × (note.new.row ≡ note.old.row) × (note.new.number ≡ note.old.number) }
    ensures grown { IsPrefix note.old.knows note.new.knows }
{
    owner.append(note, &Item::long_line());
}

impl Session {
    fn new(facts: &Facts, owner: Owner, note: Note, mut book: Book, mut share: Share) -> Session
        requires row { (owner.row ≡ note.row) × (note.number ≡ 0) }
        requires word { (book.word ≡ facts.now) × (share.word ≡ facts.now) × (share.name ≡ book.name) }
        requires empty { share.fact ≡ nothing }
        ensures word { result.share.word ≡ facts.now }
    {
        facts.go_on_apart::<Brand, _>(&mut book, &mut share, &note);
        Session {
            owner,
            note,
            book,
            share,
        }
    }

    /// A long line is appended, if there is room, and the fact goes on with the note.
    fn append(&mut self, facts: &Facts)
        requires { self.old.share.word ≡ facts.now }
        ensures word { self.new.share.word ≡ facts.now }
        ensures name { self.new.share.name ≡ self.old.share.name }
        ensures row { self.new.note.row ≡ self.old.note.row }
        ensures grown { IsPrefix self.old.note.knows self.new.note.knows }
    {
        if self.owner.room() > 0 {
            append_line(&mut self.owner, &mut self.note);
            facts.go_on_apart::<Brand, _>(&mut self.book, &mut self.share, &self.note);
        }
    }

    /// What the session knows.
    fn receipt(&mut self, facts: &Facts) -> Receipt
        requires { self.old.share.word ≡ facts.now }
        ensures told { (result.told.row ≡ self.old.note.row.id) × (result.told.knows ≡ self.old.note.knows) }
        ensures beginning { (result.beginning.word ≡ facts.now) × (result.beginning.name ≡ self.old.share.name) }
        ensures same { self.new ≡ self.old }
    {
        Receipt {
            told: self.note.told(),
            beginning: facts.begin(&mut self.book),
        }
    }
}

impl Receipt {
    /// The longer of the two, which begins with both.
    fn longer(self, facts: &Facts, other: Receipt) -> Receipt
        requires row { self.told.row ≡ other.told.row }
        requires word { (self.beginning.word ≡ facts.now) × (other.beginning.word ≡ facts.now) }
        requires name { other.beginning.name ≡ self.beginning.name }
        ensures one { IsPrefix self.told.knows result.told.knows }
        ensures other { IsPrefix other.told.knows result.told.knows }
    {
        let Receipt {
            told,
            mut beginning,
        } = self;
        let Receipt {
            told: later,
            beginning: second,
        } = other;
        facts.learn(&mut beginning, second);
        Receipt {
            told: told.longer(later),
            beginning,
        }
    }
}

// The session appends after the first receipt. Another thread has both, and keeps what begins with both: how many items that has.
fn told_twice<R: Threads + Sync>(rt: &R, facts: &Facts, session: Session) -> u64
    requires { session.share.word ≡ facts.now }
{
    let mut session = session;
    let early = session.receipt(facts);
    session.append(facts);
    session.append(facts);
    let late = session.receipt(facts);
    let (kept, _) = join(
        rt,
        move || -> Receipt
            requires row { early.told.row ≡ late.told.row }
            requires word { (early.beginning.word ≡ facts.now) × (late.beginning.word ≡ facts.now) }
            requires name { late.beginning.name ≡ early.beginning.name }
        { early.longer(facts, late) },
        || (),
    );
    kept.told.count()
}

#[test]
fn who_is_told_twice_loses_nothing(rt: HostRuntime) -> Result<(), Fail> {
    let (facts, mut maker) = Facts::new(rt.alloc())?;
    let (book, share) = facts.cut(facts.make(&mut maker));
    let (owner, mut notes) = Trail::new::<u64, Any>(rt.alloc(), 7, 2, 1)?;
    let note = notes.pop().ok_or("a note")?;
    let session = Session::new(&facts, owner, note, book, share);
    assert_eq!(rt; told_twice(&rt, &facts, session), 2);
    Ok(())
}
