//! Names, and their shares and books, in one thread.
ghost use Rattle.std.specs.Prelude.{◌≡◌, ◌+◌};
ghost use Rattle.dt_facts.specs.Handles.{holding, making};
ghost use Rattle.dt_tests_facts.specs.Numbers.{number_fact};

use dt_facts::{Beginning, Book, Both, Facts, Given, Maker, Share};
use std::mem;
use std::test::*;

struct Seven;

impl Given for Seven {
    ghost use Rattle.dt_tests_facts.specs.Numbers.{number_fact};

    ghost fact = { number_fact 7 };
}

// A new name's fact goes on, is cut into book and share, which agree, and is put together again.
fn goes_round(facts: &Facts, maker: &mut Maker) -> Both
    requires { maker.old.word ≡ facts.now }
    ensures both { result ≡ holding facts.now maker.old.name (number_fact 7) }
    ensures maker { maker.new ≡ making facts.now (maker.old.name + 1) }
{
    let mut both = facts.make(maker);
    facts.go_on::<Seven, _>(&mut both, &());
    let (mut book, mut share) = facts.cut(both);
    facts.agree(&mut book, &mut share);
    facts.join(book, share)
}

#[test]
fn a_fact_goes_round(rt: HostRuntime) -> Result<(), Fail> {
    let (facts, mut maker) = Facts::new(rt.alloc())?;
    let first = goes_round(&facts, &mut maker);
    drop(first);
    drop(goes_round(&facts, &mut maker));
    Ok(())
}

#[test]
fn handles_have_no_bytes(rt: HostRuntime) -> Result<(), Fail> {
    assert_eq!(rt; mem::size_of::<Share>(), 0);
    assert_eq!(rt; mem::size_of::<Book>(), 0);
    assert_eq!(rt; mem::size_of::<Both>(), 0);
    assert_eq!(rt; mem::size_of::<Beginning>(), 0);
    assert_eq!(rt; mem::size_of::<Maker>(), 0);
    Ok(())
}
