//! A share goes to another thread, while its book lies under a lock.
ghost use Rattle.std.specs.Prelude.{◌≡◌};
ghost use Rattle.dt_tests_facts.specs.Numbers.{number_fact};

use crate::desk::{Desk, Which};
use dt_facts::{Book, Facts, Given, Share};
use std::marker::Brand;
use std::sync::{Mutex, MutexGuard, Wait};
use std::test::*;
use std::thread::{Threads, join};

// Another thread changes the number, and comes back to the lock: it finds what its share says.
fn visit<W: Which, R: Wait>(rt: &R, facts: &Facts, desk: &Mutex<Desk<W>>, share: Share) -> u64
    requires word { (facts.now ≡ W.word) × (share.word ≡ W.word) }
    requires name { share.name ≡ W.name }
    requires fact { share.fact ≡ number_fact 3 }
    ensures { result ≡ 4 }
{
    let mut share = share;
    let mut guard = desk.lock(rt);
    guard.change(facts, &mut share, 4);
    MutexGuard::unlock(guard);
    let mut guard = desk.lock(rt);
    let found = guard.find(facts, &mut share);
    MutexGuard::unlock(guard);
    found
}

fn look<W: Which, R: Wait>(rt: &R, desk: &Mutex<Desk<W>>) {
    for _ in 0..1_000 {
        MutexGuard::unlock(desk.lock(rt));
    }
}

fn visited<W: Which + Send, R: Threads + Wait + Sync>(
    rt: &R,
    facts: &Facts,
    book: Book,
    share: Share,
) -> u64
    requires word { (facts.now ≡ W.word) × (book.word ≡ W.word) × (share.word ≡ W.word) }
    requires name { (book.name ≡ W.name) × (share.name ≡ W.name) }
    requires fact { (book.fact ≡ number_fact 3) × (share.fact ≡ number_fact 3) }
{
    let desk = Mutex::new(Desk::<W>::new(3, book));
    let (found, _) = join(
        rt,
        || -> u64
            requires word { (facts.now ≡ W.word) × (share.word ≡ W.word) }
            requires name { share.name ≡ W.name }
            requires fact { share.fact ≡ number_fact 3 }
        { visit(rt, facts, &desk, share) },
        || look(rt, &desk),
    );
    found
}

struct Three;

impl Given for Three {
    ghost use Rattle.dt_tests_facts.specs.Numbers.{number_fact};

    ghost fact = { number_fact 3 };
}

#[test]
fn who_has_the_share_knows_what_lies_under_the_lock(rt: HostRuntime) -> Result<(), Fail> {
    let (facts, mut maker) = Facts::new(rt.alloc())?;
    let mut both = facts.make(&mut maker);
    facts.go_on::<Three, _>(&mut both, &());
    let (book, share) = facts.cut(both);
    assert_eq!(rt; visited::<Brand, _>(&rt, &facts, book, share), 4);
    Ok(())
}
