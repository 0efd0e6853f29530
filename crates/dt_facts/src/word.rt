//! The word, and the calls on shares and books.
ghost use Rattle.std.specs.Prelude.{◌≡◌, ◌<◌, ◌+◌, IfOk};
ghost use Rattle.dt_facts.specs.Facts.{nothing, Follows};
ghost use Rattle.dt_facts.specs.Handles.{holding, making};

use crate::handles::{Book, Both, Maker, Share};
use crate::rule::{Cells, Given, MakesName};
use std::alloc::{AllocError, Global};
use std::marker::Model;

/// The word that the facts are of. Threads share it by a `&`. Each call but `new` takes no memory, waits for nobody and always succeeds.
///
/// Contracts see which word it is.
#[derive(Drop)]
pub struct Facts {
    pub(crate) table: Cells,
    ghost wide: { 0 < table.shared.table_id.words },
}

impl Model for Facts {
    ghost use Rattle.atomic_table.specs.Seated.{TableId};

    ghost Value = { TableId };

    ghost view = { λ w. w.table.shared.table_id };
}

impl Facts {
    /// A word without names, and what makes them, from 0 on.
    ///
    /// `Err`: there was no memory.
    pub fn new(alloc: Global) -> Result<(Facts, Maker), AllocError>
        ensures { IfOk result (λ t. t.1 ≡ making t.0 0) }
    {
        let words = vec![in alloc; 0u64; 1]?;
        let (table, seat) = Cells::of_words(alloc, words.as_slice(), &())?;
        Ok((Facts { table }, Maker { seat }))
    }

    /// A new name: its share and its book, with no fact yet.
    pub fn make(&self, maker: &mut Maker) -> Both
        requires { maker.old.word ≡ self.now }
        ensures both { result ≡ holding self.now maker.old.name nothing }
        ensures maker { maker.new ≡ making self.now (maker.old.name + 1) }
    {
        let seat = self.table.shared.split_seat::<MakesName>(&mut maker.seat);
        Both { seat }
    }

    /// Puts a share and its book together. They agree.
    pub fn join(&self, book: Book, share: Share) -> Both
        requires book { book.word ≡ self.now }
        requires share { (share.word ≡ self.now) × (share.name ≡ book.name) }
        ensures agree { book.fact ≡ share.fact }
        ensures both { result ≡ holding self.now book.name book.fact }
    {
        let Book { mut seat } = book;
        let Share { seat: other } = share;
        self.put_in(&mut seat, other);
        Both { seat }
    }

    /// Lets both go on to the fact that the call picks, from what is handed over. Writes, items and lives may
    /// only be added.
    pub fn go_on<G: Given, T>(&self, both: &mut Both, _from: &T)
        requires word { both.old.word ≡ self.now }
        requires follows { Follows both.old.fact G.fact }
        ensures { both.new ≡ holding self.now both.old.name G.fact }
    {
        self.turn_to::<G>(&mut both.seat);
    }

    /// Cuts both into the book and the share.
    pub fn cut(&self, both: Both) -> (Book, Share)
        requires { both.word ≡ self.now }
        ensures book { result.0 ≡ holding self.now both.name both.fact }
        ensures share { result.1 ≡ holding self.now both.name both.fact }
    {
        let Both { mut seat } = both;
        let other = self.take_out(&mut seat);
        (Book { seat }, Share { seat: other })
    }

    /// A share and its book hold the same fact. Neither changes.
    pub fn agree(&self, book: &mut Book, share: &mut Share)
        requires book { book.old.word ≡ self.now }
        requires share { (share.old.word ≡ self.now) × (share.old.name ≡ book.old.name) }
        ensures agree { book.old.fact ≡ share.old.fact }
        ensures book { book.new ≡ book.old }
        ensures share { share.new ≡ share.old }
    {
        self.unite(&mut book.seat, &mut share.seat);
        share.seat = self.take_out(&mut book.seat);
    }

    /// A share and its book, which hold the same fact, go on to the one that the call picks, from what is handed over. Writes,
    /// items and lives may only be added.
    pub fn go_on_apart<G: Given, T>(&self, book: &mut Book, share: &mut Share, _from: &T)
        requires book { book.old.word ≡ self.now }
        requires share { (share.old.word ≡ self.now) × (share.old.name ≡ book.old.name) }
        requires follows { Follows share.old.fact G.fact }
        ensures agree { book.old.fact ≡ share.old.fact }
        ensures book { book.new ≡ holding self.now book.old.name G.fact }
        ensures share { share.new ≡ holding self.now book.old.name G.fact }
    {
        let seat = &mut book.seat;
        self.unite(seat, &mut share.seat);
        self.turn_to::<G>(seat);
        share.seat = self.take_out(seat);
    }
}
