//! How the books are made.
ghost use Rattle.std.specs.Prelude.{◌≡◌, ◌+◌, ◌≤◌, [], IfOk, vec_capacity};
ghost use Rattle.dt_chain.specs.Limits.{seat_count};
ghost use Rattle.dt_facts.specs.Facts.{writes_fact};
ghost use Rattle.dt_facts.specs.Handles.{holding, making};
ghost use Rattle.dt_publisher.specs.Publishers.{AreOwnWrites};

use dt_chain::SEATS;
use dt_facts::{Book, Facts, Maker, Share};
use std::alloc::{AllocError, Global};
use std::marker::Brand;

/// Room for a book and for a share of each seat: all memory that is needed.
///
/// `Err`: there was no memory.
pub(crate) fn room(alloc: Global) -> Result<(Vec<Book>, Vec<Share>), AllocError>
    ensures books { IfOk result (λ t. (t.0.items ≡ []) × (seat_count ≤ vec_capacity t.0)) }
    ensures shares { IfOk result (λ t. (t.1.items ≡ []) × (seat_count ≤ vec_capacity t.1)) }
{
    let books = Vec::with_capacity(alloc, SEATS)?;
    let shares = Vec::with_capacity(alloc, SEATS)?;
    Ok((books, shares))
}

/// The book and the share of a seat that wrote nothing.
fn no_writes(facts: &Facts, maker: &mut Maker) -> (Book, Share)
    requires { maker.old.word ≡ facts.now }
    ensures book { result.0 ≡ holding facts.now maker.old.name (writes_fact []) }
    ensures share { result.1 ≡ result.0 }
    ensures maker { maker.new ≡ making facts.now (maker.old.name + 1) }
{
    let mut both = facts.make(maker);
    facts.go_on::<Brand, ()>(&mut both, &());
    facts.cut(both)
}

/// The books and the shares of all seats, which wrote nothing. There is room for them, so it takes no memory.
pub(crate) fn fill(facts: &Facts, maker: &mut Maker, books: &mut Vec<Book>, shares: &mut Vec<Share>)
    requires maker { maker.old.word ≡ facts.now }
    requires books { (books.old.items ≡ []) × (seat_count ≤ vec_capacity books.old) }
    requires shares { (shares.old.items ≡ []) × (seat_count ≤ vec_capacity shares.old) }
    ensures books { AreOwnWrites facts.now maker.old.name [] books.new.items }
    ensures shares { AreOwnWrites facts.now maker.old.name [] shares.new.items }
    ensures maker { maker.new ≡ making facts.now (maker.old.name + seat_count) }
{
    'seats: for _seat in 0..SEATS {
        let (book, share) = no_writes(facts, maker);
        books.push_reserved(book);
        shares.push_reserved(share);
    }
}
