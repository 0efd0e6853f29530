//! The writer's end of the chains.
ghost use Rattle.std.specs.Prelude.{◌≡◌, ◌++◌, ◌∷◌, ◌⊎◌, [], IfOk, OnOk, OnErr};
ghost use mathlib.Core.List.{IsPrefix};

use crate::book::Site;
use crate::chain_reader::ChainReader;
use crate::front::Front;
use crate::press::Press;
use crate::seat::Seat;
use crate::write::Write;
use std::alloc::AllocError;
use std::marker::Model;
use std::mem;
use std::sync::Wait;

/// Who publishes: the one writer of the chains. Where threads share it, it stands behind a lock, which no processor takes.
///
/// Contracts see two lists of writes, the oldest first: `published`, and `writes`, all that there are. It is not `Drop`: end it
/// by [`ChainWriter::end`].
pub struct ChainWriter<J: Site> {
    press: Option<Press<J>>,
}

impl<J: Site> Model for ChainWriter<J> {
    ghost use Rattle.std.specs.Prelude.{IsSome};
    ghost use Rattle.dt_chain.specs.Chains.{Chained, chained_by};

    ghost Value = { Chained };

    ghost view = { λ writer. chained_by writer.press };

    ghost invariant = { λ writer. IsSome writer.press };
}

impl<J: Site> ChainWriter<J> {
    ghost use Rattle.dt_chain.specs.Writes.{withdrawn};

    /// The writer's end of a press.
    pub(crate) fn new(press: Press<J>) -> ChainWriter<J>
        ensures published { result.published ≡ press.published }
        ensures writes { result.writes ≡ press.writes }
    {
        ChainWriter { press: Some(press) }
    }

    /// Adds a write to the list of all writes, and publishes these: whoever looks afterwards finds them all. It waits for the
    /// readers that look at the copy that it changes, and for no others.
    ///
    /// `Err`: there was no memory, and what is published is as it was. The write may be in the list of all writes, and is then
    /// published with the next one.
    pub fn publish<R: Wait>(&mut self, rt: &R, write: Write) -> Result<(), AllocError>
        ensures ok { OnOk result ((self.new.writes ≡ self.old.writes ++ write ∷ [])
            × (self.new.published ≡ self.new.writes)) }
        ensures err { OnErr result ((self.new.published ≡ self.old.published)
            × ((self.new.writes ≡ self.old.writes) ⊎ (self.new.writes ≡ self.old.writes ++ write ∷ []))) }
    {
        let (press, result) = self.press.take().unwrap().publish(rt, write);
        if let Some(none) = mem::replace(&mut self.press, Some(press)) {
            none.end(rt);
        }
        result
    }

    /// A seat withdraws its publication, if it has one: a write like any other.
    ///
    /// `Err`: as of [`ChainWriter::publish`].
    pub fn withdraw<R: Wait>(&mut self, rt: &R, seat: Seat) -> Result<(), AllocError>
        ensures ok { OnOk result ((self.new.writes ≡ self.old.writes ++ withdrawn seat ∷ [])
            × (self.new.published ≡ self.new.writes)) }
        ensures err { OnErr result ((self.new.published ≡ self.old.published)
            × ((self.new.writes ≡ self.old.writes)
            ⊎ (self.new.writes ≡ self.old.writes ++ withdrawn seat ∷ []))) }
    {
        self.publish(rt, Write::withdrawal(seat))
    }

    /// The list that is published, for whoever is to know of it.
    pub fn published(&self) -> Front<J>
        ensures list { result ≡ self.now.published }
        ensures begins { IsPrefix result self.now.writes }
    {
        match &self.press {
            Some(press) => press.published(),
            None => unreachable!(),
        }
    }

    /// Any front of the site begins `writes`, whoever has it: this writer alone adds to the list. So while the writer is held, what
    /// any reader has seen or was told is a beginning of all writes. It takes no memory and can't fail.
    pub fn whole(&mut self, front: &Front<J>)
        ensures same { self.new ≡ self.old }
        ensures whole { IsPrefix front.now self.new.writes }
    {
        match &mut self.press {
            Some(press) => press.whole(front),
            None => unreachable!(),
        }
    }

    /// A reader for one processor, which has seen and was told nothing yet. It takes no memory.
    ///
    /// `Err`: there are as many readers as the chains were made for.
    pub fn reader(&self) -> Result<ChainReader<J>, AllocError>
        ensures { IfOk result (λ reader. (reader.seen ≡ []) × (reader.told ≡ [])) }
    {
        match &self.press {
            Some(press) => press.reader(),
            None => unreachable!(),
        }
    }

    /// Ends the chains, and gives their memory back. It waits for the readers that are looking; later looks are refused.
    pub fn end<R: Wait>(self, rt: &R) {
        let ChainWriter { press } = self;
        press.unwrap().end(rt);
    }
}
