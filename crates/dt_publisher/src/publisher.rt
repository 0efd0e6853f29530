//! The writer and the books, which stand under one lock.
ghost use Rattle.std.specs.Prelude.{◌≡◌, ◌+◌, ◌++◌, ◌∷◌, ◌⊎◌, ◌↔◌, ◌≤◌, [], length, IfOk, IsTrue, MatchBool, MatchResult, OnOk, OnErr};
ghost use mathlib.Core.List.{IsPrefix};
ghost use Rattle.dt_chain.specs.Limits.{seat_count};
ghost use Rattle.dt_facts.specs.Facts.{writes_fact};
ghost use Rattle.dt_facts.specs.Handles.{making};
ghost use Rattle.dt_publisher.specs.Publishers.{AreOwnWrites, own_writes_held, publisher_seen};

use crate::making::{fill, room};
use dt_chain::{ChainReader, ChainWriter, Front, Seat, Site, Write};
use dt_facts::{Book, Facts, Maker, Share};
use std::alloc::{AllocError, Global};
use std::marker::{Brand, Model};
use std::sync::Wait;

/// Who publishes: the one writer of the chains, with a book for each seat, which holds all that the seat wrote. Where threads share it, it stands behind a
/// lock, which no processor takes.
///
/// Contracts see it as a `Publishing` of `specs/Publishers.antt`. It is not `Drop`: end it by [`Publisher::end`].
pub struct Publisher<J: Site> {
    writer: ChainWriter<J>,
    books: Vec<Book>,
}

impl<J: Site> Model for Publisher<J> {
    ghost use Rattle.dt_publisher.specs.Publishers.{AreOwnWrites, Publishing, first_held, publisher_seen};

    ghost Value = { Publishing };

    ghost view = { λ p. publisher_seen (first_held p.books.items).word (first_held p.books.items).name p.writer.published p.writer.writes };

    ghost invariant = { λ p. AreOwnWrites (first_held p.books.items).word (first_held p.books.items).name p.writer.writes p.books.items };
}

impl<J: Site> Publisher<J> {
    ghost use Rattle.dt_chain.specs.Writes.{seat_of, withdrawn, writes_of};

    /// A writer that has no writes, with the books of seats that wrote nothing, and the share of each seat, in order. All memory is taken before
    /// a name is made.
    ///
    /// `Err`: there was no memory. The writer is ended, and no name was made.
    pub fn new<R: Wait>(
        rt: &R,
        alloc: Global,
        writer: ChainWriter<J>,
        facts: &Facts,
        maker: &mut Maker,
    ) -> Result<(Publisher<J>, Vec<Share>), AllocError>
        requires fresh { writer.writes ≡ [] }
        requires maker { maker.old.word ≡ facts.now }
        ensures publisher { IfOk result (λ t. t.0 ≡ publisher_seen facts.now maker.old.name writer.published []) }
        ensures shares { IfOk result (λ t. AreOwnWrites facts.now maker.old.name [] t.1.items) }
        ensures maker { MatchResult result (λ _. maker.new ≡ making facts.now (maker.old.name + seat_count)) (λ _. maker.new ≡ maker.old) }
    {
        let (mut books, mut shares) = match room(alloc) {
            Ok(both) => both,
            Err(fault) => {
                writer.end(rt);
                return Err(fault);
            }
        };
        fill(facts, maker, &mut books, &mut shares);
        Ok((Publisher { writer, books }, shares))
    }

    /// Adds a write to the list of all writes, and publishes these, as [`ChainWriter::publish`]. The share of the write's seat held what its book holds, and
    /// goes on with it. It waits for the readers that look at the copy that it changes, and for no others.
    ///
    /// `Err`: there was no memory, and what is published is as it was. The write may be in the list of all writes, and is then
    /// published with the next one. The book and the share have it where the list has it.
    pub fn publish<R: Wait>(
        &mut self,
        rt: &R,
        facts: &Facts,
        share: &mut Share,
        write: Write,
    ) -> Result<(), AllocError>
        requires facts { self.old.word ≡ facts.now }
        requires share { (share.old.word ≡ facts.now) × (share.old.name ≡ self.old.first + seat_of write) }
        ensures ok { OnOk result ((self.new.writes ≡ self.old.writes ++ write ∷ [])
            × (self.new.published ≡ self.new.writes)) }
        ensures err { OnErr result ((self.new.published ≡ self.old.published)
            × ((self.new.writes ≡ self.old.writes) ⊎ (self.new.writes ≡ self.old.writes ++ write ∷ []))) }
        ensures agree { share.old.fact ≡ writes_fact (writes_of self.old.writes (seat_of write)) }
        ensures share { share.new ≡ own_writes_held self.old.word self.old.first self.new.writes (seat_of write) }
        ensures same { (self.new.word ≡ self.old.word) × (self.new.first ≡ self.old.first) }
    {
        let seat = write.seat();
        self.agree(facts, share, seat);
        let result = self.writer.publish(rt, write);
        let book = &mut self.books[seat.number() as usize];
        facts.go_on_apart::<Brand, (Seat, &ChainWriter<J>)>(book, share, &(seat, &self.writer));
        result
    }

    /// A seat withdraws its publication, if it has one: a write like any other.
    ///
    /// `Err`: as of [`Publisher::publish`].
    pub fn withdraw<R: Wait>(
        &mut self,
        rt: &R,
        facts: &Facts,
        share: &mut Share,
        seat: Seat,
    ) -> Result<(), AllocError>
        requires facts { self.old.word ≡ facts.now }
        requires share { (share.old.word ≡ facts.now) × (share.old.name ≡ self.old.first + seat) }
        ensures ok { OnOk result ((self.new.writes ≡ self.old.writes ++ withdrawn seat ∷ [])
            × (self.new.published ≡ self.new.writes)) }
        ensures err { OnErr result ((self.new.published ≡ self.old.published)
            × ((self.new.writes ≡ self.old.writes)
            ⊎ (self.new.writes ≡ self.old.writes ++ withdrawn seat ∷ []))) }
        ensures agree { share.old.fact ≡ writes_fact (writes_of self.old.writes seat) }
        ensures share { share.new ≡ own_writes_held self.old.word self.old.first self.new.writes seat }
        ensures same { (self.new.word ≡ self.old.word) × (self.new.first ≡ self.old.first) }
    {
        self.publish(rt, facts, share, Write::withdrawal(seat))
    }

    /// The share of a seat holds all that the seat wrote. Nothing changes.
    pub fn agree(&mut self, facts: &Facts, share: &mut Share, seat: Seat)
        requires facts { self.old.word ≡ facts.now }
        requires share { (share.old.word ≡ facts.now) × (share.old.name ≡ self.old.first + seat) }
        ensures agree { share.old.fact ≡ writes_fact (writes_of self.old.writes seat) }
        ensures share { share.new ≡ share.old }
        ensures same { self.new ≡ self.old }
    {
        facts.agree(&mut self.books[seat.number() as usize], share);
    }

    /// The list that is published, for whoever is to know of it.
    pub fn published(&self) -> Front<J>
        ensures list { result ≡ self.now.published }
        ensures begins { IsPrefix result self.now.writes }
    {
        self.writer.published()
    }

    /// Any front of the site begins `writes`, whoever has it: so does what any reader has seen or was told. Nothing changes, and it takes no memory.
    pub fn whole(&mut self, front: &Front<J>)
        ensures whole { IsPrefix front.now self.new.writes }
        ensures same { self.new ≡ self.old }
    {
        self.writer.whole(front);
    }

    /// Whether all writes of a front are published. If not, the front goes on from those that are, by writes of which the last waits for memory.
    pub fn has(&self, front: &Front<J>) -> bool
        ensures order { MatchBool result (IsPrefix front.now self.now.published) (IsPrefix self.now.published front.now) }
        ensures when { IsTrue result ↔ (length front.now ≤ length self.now.published) }
    {
        front.begins(&self.writer.published())
    }

    /// A reader for one processor, which has seen and was told nothing yet. It takes no memory.
    ///
    /// `Err`: there are as many readers as the chains were made for.
    pub fn reader(&self) -> Result<ChainReader<J>, AllocError>
        ensures { IfOk result (λ reader. (reader.seen ≡ []) × (reader.told ≡ [])) }
    {
        self.writer.reader()
    }

    /// Ends the chains, and gives their memory back. It waits for the readers that are looking; later looks are refused. The shares then agree with no
    /// book.
    pub fn end<R: Wait>(self, rt: &R) {
        let Publisher { writer, books } = self;
        drop(books);
        writer.end(rt);
    }
}
