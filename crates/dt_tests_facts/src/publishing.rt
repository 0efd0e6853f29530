//! A publisher, the share of one of its seats, and the lock that it lies under.
ghost use Rattle.std.specs.Prelude.{◌≡◌, ◌+◌};

use dt_chain::{Chains, Seat, Site};
use dt_facts::{Facts, Share};
use dt_publisher::Publisher;
use std::alloc::{AllocError, Global};
use std::marker::Brand;
use std::process::Abort;
use std::sync::{Mutex, MutexGuard, Wait};
use std::test::*;
use std::thread::{Threads, join};

// A seat withdraws twice, and its share then agrees with its book.
fn withdraws_twice<J: Site, R: Wait>(
    rt: &R,
    facts: &Facts,
    publisher: &mut Publisher<J>,
    share: &mut Share,
    seat: Seat,
) -> Result<(), AllocError>
    requires facts { publisher.old.word ≡ facts.now }
    requires share { (share.old.word ≡ facts.now) × (share.old.name ≡ publisher.old.first + seat) }
{
    publisher.withdraw(rt, facts, share, seat)?;
    publisher.withdraw(rt, facts, share, seat)?;
    publisher.agree(facts, share, seat);
    Ok(())
}

// How many writes are published, if all are that a front has which was told before.
fn count<J: Site, R: Wait>(rt: &R, publisher: &Mutex<Publisher<J>>) -> Option<u64> {
    let guard = publisher.lock(rt);
    let front = guard.published();
    MutexGuard::unlock(guard);
    let guard = publisher.lock(rt);
    let has = guard.has(&front);
    MutexGuard::unlock(guard);
    if has { Some(front.len()) } else { None }
}

// Two threads count what is published.
fn counted<J: Site + Send, R: Threads + Wait + Sync>(
    rt: &R,
    publisher: Publisher<J>,
) -> (Option<u64>, Option<u64>) {
    let publisher = Mutex::new(publisher);
    let counts = join(rt, || count(rt, &publisher), || count(rt, &publisher));
    publisher.into_inner().end(rt);
    counts
}

// A new publisher has a share for each seat. Both withdrawals of one of them are published then.
fn publishes<J: Site + Send, R: Threads + Wait + Abort + Sync>(
    rt: &R,
    alloc: Global,
    chains: Chains,
) -> Result<(), Fail>
    requires { chains ≡ J.book }
{
    let seat = Seat::new(3).ok_or("no seat")?;
    let (facts, mut maker) = Facts::new(alloc)?;
    let writer = chains.writer::<J>(alloc, 1)?;
    let (mut publisher, mut shares) = Publisher::new(rt, alloc, writer, &facts, &mut maker)?;
    let result = withdraws_twice(rt, &facts, &mut publisher, &mut shares[3], seat);
    let counts = counted(rt, publisher);
    result?;
    assert_eq!(rt; shares.len(), 256);
    assert_eq!(rt; counts, (Some(2), Some(2)));
    Ok(())
}

#[test]
fn a_share_goes_on_with_its_book(rt: HostRuntime) -> Result<(), Fail> {
    publishes::<Brand, _>(&rt, rt.alloc(), Chains::new())
}
