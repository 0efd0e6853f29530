//! The writer of both copies, by value: what waits for memory, what is pending, and what is published.
ghost use Rattle.std.specs.Prelude.{◌<◌, ◌^◌, ◌⊎◌, ◌≡◌, ◌++◌, ◌∷◌, [], false, IfOk, OnOk, OnErr};
ghost use mathlib.Core.List.{IsPrefix};

use crate::book::{Author, Ledger, Site};
use crate::chain_copy::{Addition, ChainCopy};
use crate::chain_reader::ChainReader;
use crate::chain_rule::{InnerWriter, SeesWrites};
use crate::front::Front;
use crate::write::Write;
use left_right::writer::Writer;
use std::alloc::{AllocError, Global};
use std::marker::Model;
use std::sync::Wait;

/// The list of all writes has those that are published, those that are pending, and one at most that waits for memory.
///
/// It is not `Drop`: end it by `end`.
pub(crate) struct Press<J: Site> {
    inner: InnerWriter<J>,
    author: Author,
    /// No write: what a new reader has seen.
    origin: Front<J>,
    waiting: Option<Addition>,
}

impl<J: Site> Model for Press<J> {
    ghost use Rattle.std.specs.Prelude.{◌≡◌, [], drop, is_some};
    ghost use Rattle.dt_chain.specs.Chains.{Pressed, IsPress};

    ghost Value = { Pressed };

    ghost view = { λ press. record {
      published = press.inner.desk.shown.value.mark.log;
      writes = press.author.log;
      waits = is_some press.waiting;
    } };

    ghost invariant = { λ press. (press.author.book ≡ J.book) × (press.origin ≡ [])
        × IsPress J.book press.inner.desk.shown.value (drop press.inner.behind press.inner.log.items)
        press.waiting press.author.log };
}

/// A book has fewer writes than this: at a write each nanosecond it is reached after a hundred years.
const WRITES_MAX: u64 = 1 << 62;

impl<J: Site> Press<J> {
    /// Both copies with no writes, and room for so many readers.
    ///
    /// `Err`: there was no memory.
    pub(crate) fn new(
        alloc: Global,
        ledger: Ledger,
        origin: Front<J>,
        readers: usize,
    ) -> Result<Press<J>, AllocError>
        requires readers { (0 < readers) × (readers < 2 ^ 32) }
        requires book { ledger ≡ J.book }
        requires origin { origin ≡ [] }
        ensures { IfOk result (λ press. (press.published ≡ []) × (press.writes ≡ [])) }
    {
        let author = match Author::new(ledger, origin.mark()) {
            Some(author) => author,
            None => return Err(AllocError),
        };
        let first = ChainCopy::new(alloc, origin.mark())?;
        let second = ChainCopy::new(alloc, origin.mark())?;
        let inner: InnerWriter<J> = Writer::new(alloc, first, second, readers)?;
        Ok(Press {
            inner,
            author,
            origin,
            waiting: None,
        })
    }

    /// Hands over the write that waits, if one does: it is pending then.
    ///
    /// `Err`: there was no memory, and it still waits.
    fn hand_over(self) -> (Press<J>, Result<(), AllocError>)
        ensures published { result.0.published ≡ self.published }
        ensures writes { result.0.writes ≡ self.writes }
        ensures done { OnOk result.1 (result.0.waits ≡ false) }
    {
        let Press {
            mut inner,
            author,
            origin,
            waiting,
        } = self;
        let (waiting, done) = match waiting {
            None => (None, Ok(())),
            Some(addition) => match inner.append(addition) {
                Ok(()) => (None, Ok(())),
                Err(addition) => (Some(addition), Err(AllocError)),
            },
        };
        let press = Press {
            inner,
            author,
            origin,
            waiting,
        };
        (press, done)
    }

    /// Adds a write to the list of all writes: it waits then.
    ///
    /// `Err`: the list is full, or has a write that is not this writer's. Neither ever comes, since there is one writer.
    fn grow(self, write: Write) -> (Press<J>, Result<(), AllocError>)
        requires { self.waits ≡ false }
        ensures published { result.0.published ≡ self.published }
        ensures ok { OnOk result.1 (result.0.writes ≡ self.writes ++ write ∷ []) }
        ensures err { OnErr result.1 (result.0.writes ≡ self.writes) }
    {
        let Press {
            inner,
            mut author,
            origin,
            waiting,
        } = self;
        if author.len() >= WRITES_MAX || !author.add(&write) {
            let press = Press {
                inner,
                author,
                origin,
                waiting,
            };
            return (press, Err(AllocError));
        }
        let after = author.mark();
        let press = Press {
            inner,
            author,
            origin,
            waiting: Some(Addition { write, after }),
        };
        (press, Ok(()))
    }

    /// Publishes all that is pending.
    fn show<R: Wait>(self, rt: &R) -> Press<J>
        requires { self.waits ≡ false }
        ensures writes { result.writes ≡ self.writes }
        ensures published { result.published ≡ self.writes }
    {
        let Press {
            inner,
            author,
            origin,
            waiting,
        } = self;
        // no write is refused: each copy has its room
        let (inner, _shown) = inner.publish_as::<SeesWrites<J>, R>(rt);
        Press {
            inner,
            author,
            origin,
            waiting,
        }
    }

    /// Adds a write to the list of all writes, and publishes these.
    ///
    /// `Err`: there was no memory. If the write is in the list it waits, and is published with the next one.
    pub(crate) fn publish<R: Wait>(self, rt: &R, write: Write) -> (Press<J>, Result<(), AllocError>)
        ensures ok { OnOk result.1 ((result.0.writes ≡ self.writes ++ write ∷ [])
            × (result.0.published ≡ result.0.writes)) }
        ensures err { OnErr result.1 ((result.0.published ≡ self.published)
            × ((result.0.writes ≡ self.writes) ⊎ (result.0.writes ≡ self.writes ++ write ∷ []))) }
    {
        let (press, handed) = self.hand_over();
        if handed.is_err() {
            return (press, handed);
        }
        let (press, grown) = press.grow(write);
        if grown.is_err() {
            return (press, grown);
        }
        let (press, handed) = press.hand_over();
        if handed.is_err() {
            return (press, handed);
        }
        (press.show(rt), Ok(()))
    }

    /// The list that is published.
    pub(crate) fn published(&self) -> Front<J>
        ensures list { result ≡ self.now.published }
        ensures begins { IsPrefix result self.now.writes }
    {
        Front::of(self.inner.published().mark())
    }

    /// Shows that the list of all writes begins with a front.
    pub(crate) fn whole(&mut self, front: &Front<J>)
        ensures same { self.new ≡ self.old }
        ensures whole { IsPrefix front.now self.new.writes }
    {
        self.author.whole(&front.mark());
    }

    /// A reader that has seen and was told nothing.
    ///
    /// `Err`: there was no place for it.
    pub(crate) fn reader(&self) -> Result<ChainReader<J>, AllocError>
        ensures { IfOk result (λ reader. (reader.seen ≡ []) × (reader.told ≡ [])) }
    {
        Ok(ChainReader::new(self.inner.factory().reader()?, &self.origin))
    }

    /// Gives back what the chains took. It waits for the readers that are looking.
    pub(crate) fn end<R: Wait>(self, rt: &R) {
        let Press {
            inner,
            author: _author,
            origin: _origin,
            waiting: _waiting,
        } = self;
        drop(inner.take(rt));
    }
}
