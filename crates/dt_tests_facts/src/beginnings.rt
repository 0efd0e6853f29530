//! Beginnings of writes, learnt and compared.
ghost use Rattle.std.specs.Prelude.{◌≡◌};
ghost use Rattle.dt_facts.specs.Facts.{lists_in, longer_lists, HaveGrown, Follows};
ghost use Rattle.dt_facts.specs.Handles.{begun, holding};

use dt_facts::{Beginning, Book, Facts, Given, Share};
use std::test::*;

struct NoWrites;

impl Given for NoWrites {
    ghost use Rattle.std.specs.Prelude.{[]};
    ghost use Rattle.dt_facts.specs.Facts.{writes_fact};

    ghost fact = { writes_fact [] };
}

// A beginning that was cut early catches up with the fact that the call picks.
fn catches_up<G: Given>(facts: &Facts, book: &mut Book, share: &mut Share) -> Beginning
    requires book { book.old.word ≡ facts.now }
    requires share { (share.old.word ≡ facts.now) × (share.old.name ≡ book.old.name) }
    requires follows { Follows share.old.fact G.fact }
    ensures beginning { result ≡ begun facts.now book.old.name (lists_in G.fact) }
    ensures begins { HaveGrown (lists_in book.old.fact) (lists_in G.fact) }
    ensures book { book.new ≡ holding facts.now book.old.name G.fact }
{
    let mut early = facts.begin(book);
    facts.go_on_apart::<G, _>(book, share, &());
    facts.catch_up(book, &mut early);
    early
}

// Of a beginning that was told twice, each begins what the book says.
fn both_begin(facts: &Facts, book: &mut Book, beginning: Beginning)
    requires book { book.old.word ≡ facts.now }
    requires beginning { (beginning.word ≡ facts.now) × (beginning.name ≡ book.old.name) }
    ensures begins { HaveGrown beginning.lists (lists_in book.old.fact) }
    ensures same { book.new ≡ book.old }
{
    let mut beginning = beginning;
    let other = facts.again(&mut beginning);
    longer_begins(facts, book, beginning, other);
}

// The longer of two beginnings begins what the book says.
fn longer_begins(facts: &Facts, book: &mut Book, one: Beginning, other: Beginning)
    requires book { book.old.word ≡ facts.now }
    requires one { (one.word ≡ facts.now) × (one.name ≡ book.old.name) }
    requires other { (other.word ≡ facts.now) × (other.name ≡ book.old.name) }
    ensures begins { HaveGrown (longer_lists one.lists other.lists) (lists_in book.old.fact) }
    ensures same { book.new ≡ book.old }
{
    let mut one = one;
    facts.learn(&mut one, other);
    facts.compare(book, one);
}

#[test]
fn beginnings_are_learnt_and_compared(rt: HostRuntime) -> Result<(), Fail> {
    let (facts, mut maker) = Facts::new(rt.alloc())?;
    let (mut book, mut share) = facts.cut(facts.make(&mut maker));
    let early = facts.begin(&mut book);
    let late = catches_up::<NoWrites>(&facts, &mut book, &mut share);
    let again = facts.begin(&mut book);
    longer_begins(&facts, &mut book, early, late);
    both_begin(&facts, &mut book, again);
    Ok(())
}
