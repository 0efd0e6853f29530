//! Who publishes for the hub that is meant.
ghost use Rattle.std.specs.Prelude.{◌≡◌, ◌+◌, ◌++◌, ◌∷◌, [], IfOk, IfSome, MatchResult, OnOk};
ghost use Rattle.dt_chain.specs.Limits.{seat_count};
ghost use Rattle.dt_chain.specs.Writes.{seat_of, writes_of};
ghost use Rattle.dt_facts.specs.Handles.{making};
ghost use mathlib.Core.List.{IsPrefix};
ghost use Rattle.dt_publisher.specs.Publishers.{AreOwnWrites};
ghost use Rattle.dt_seat.specs.Names.{first_book};
ghost use Rattle.dt_seat.specs.Publications.{EndsWith};
ghost use Rattle.dt_seat.specs.Written.{MayEndWith, SaysWrites, writes_in};

use crate::site::HubSite;
use dt_chain::{ChainReader, ChainWriter, Front, Seat, Write};
use dt_facts::{Facts, Maker, Share};
use dt_publisher::Publisher;
use std::alloc::{AllocError, Global};
use std::marker::Model;
use std::sync::{Mutex, MutexGuard, Wait};

/// Who publishes for the hub that is meant: its publisher, whose books are facts of the hub's word and have the first names. It lies under a lock of its own, of which
/// nothing is known but that.
///
/// Contracts see it as a `Publishing` of dt_publisher. It is not `Drop`: end it by [`HubPublisher::end`].
pub struct HubPublisher<J: HubSite> {
    publisher: Publisher<J>,
}

impl<J: HubSite> Model for HubPublisher<J> {
    ghost use Rattle.std.specs.Prelude.{◌≡◌};
    ghost use Rattle.dt_publisher.specs.Publishers.{Publishing};
    ghost use Rattle.dt_seat.specs.Names.{first_book};

    ghost Value = { Publishing };

    ghost view = { λ p. p.publisher };

    ghost invariant = { λ p. (p.publisher.word ≡ J.word) × (p.publisher.first ≡ first_book) };
}

impl<J: HubSite> HubPublisher<J> {
    /// The hub's publisher, of a writer that has no writes, and the share of what each seat wrote, in order. Its books have the first names.
    ///
    /// `Err`: there was no memory. The writer is ended, and no name was made.
    pub fn new<R: Wait>(
        rt: &R,
        alloc: Global,
        writer: ChainWriter<J>,
        facts: &Facts,
        maker: &mut Maker,
    ) -> Result<(HubPublisher<J>, Vec<Share>), AllocError>
        requires fresh { writer.writes ≡ [] }
        requires facts { facts.now ≡ J.word }
        requires maker { maker.old ≡ making J.word first_book }
        ensures shares { IfOk result (λ t. AreOwnWrites J.word first_book [] t.1.items) }
        ensures maker { MatchResult result (λ _. maker.new ≡ making J.word (first_book + seat_count)) (λ _. maker.new ≡ maker.old) }
    {
        let (publisher, shares) = Publisher::new(rt, alloc, writer, facts, maker)?;
        Ok((HubPublisher { publisher }, shares))
    }

    /// A reader for one processor, which has seen and was told nothing yet. It takes no memory.
    ///
    /// `Err`: there are as many readers as the chains were made for.
    pub fn reader(&self) -> Result<ChainReader<J>, AllocError>
        ensures { IfOk result (λ reader. (reader.seen ≡ []) × (reader.told ≡ [])) }
    {
        self.publisher.reader()
    }

    /// Ends the chains, and gives their memory back. It waits for the readers that are looking; later looks are refused.
    pub fn end<R: Wait>(self, rt: &R) {
        let HubPublisher { publisher } = self;
        publisher.end(rt);
    }

    /// Adds a write of a seat to the list of all writes, and publishes these. The seat's share goes on with it.
    ///
    /// `Err`: there was no memory. The write may be in the list, and is then published with the next one; the share says whether it is.
    fn publish<R: Wait>(
        &mut self,
        rt: &R,
        facts: &Facts,
        writes: &mut Share,
        write: Write,
    ) -> Result<Front<J>, AllocError>
        requires facts { facts.now ≡ J.word }
        requires writes { SaysWrites J.word (seat_of write) writes.old }
        ensures writes { SaysWrites J.word (seat_of write) writes.new }
        ensures front { IfOk result (EndsWith write) }
        ensures done { OnOk result (writes_in writes.new.fact ≡ writes_in writes.old.fact ++ write ∷ []) }
        ensures own { IfOk result (λ front. writes_of front (seat_of write) ≡ writes_in writes.new.fact) }
        ensures may { MayEndWith write (writes_in writes.old.fact) (writes_in writes.new.fact) }
    {
        self.publisher.publish(rt, facts, writes, write)?;
        Ok(self.publisher.published())
    }

    /// The writes of a front are among all writes, and the share of a seat holds those of the seat. Nothing changes.
    fn look_up(&mut self, facts: &Facts, writes: &mut Share, seat: Seat, front: &Front<J>)
        requires facts { facts.now ≡ J.word }
        requires writes { SaysWrites J.word seat writes.old }
        ensures begins { IsPrefix (writes_of front.now seat) (writes_in writes.old.fact) }
        ensures writes { writes.new ≡ writes.old }
    {
        self.publisher.whole(front);
        self.publisher.agree(facts, writes, seat);
    }
}

/// The writes of a seat in a front begin what its share says. Nothing changes.
pub(crate) fn among_own<J: HubSite, R: Wait>(
    rt: &R,
    facts: &Facts,
    chains: &Mutex<HubPublisher<J>>,
    writes: &mut Share,
    seat: Seat,
    front: &Front<J>,
)
    requires facts { facts.now ≡ J.word }
    requires writes { SaysWrites J.word seat writes.old }
    ensures begins { IsPrefix (writes_of front.now seat) (writes_in writes.old.fact) }
    ensures writes { writes.new ≡ writes.old }
{
    let mut publisher = chains.lock(rt);
    publisher.look_up(facts, writes, seat, front);
    MutexGuard::unlock(publisher);
}

/// A seat writes: a publication, or the withdrawal of the one that it has. Answers what is then published, of which the write is the last. Its share goes on with it.
///
/// `Err`: there was no memory. The write may come with the next one of any seat; the share says whether it will.
pub(crate) fn write_down<J: HubSite, R: Wait>(
    rt: &R,
    facts: &Facts,
    chains: &Mutex<HubPublisher<J>>,
    writes: &mut Share,
    write: Write,
) -> Result<Front<J>, AllocError>
    requires facts { facts.now ≡ J.word }
    requires writes { SaysWrites J.word (seat_of write) writes.old }
    ensures writes { SaysWrites J.word (seat_of write) writes.new }
    ensures front { IfOk result (EndsWith write) }
    ensures done { OnOk result (writes_in writes.new.fact ≡ writes_in writes.old.fact ++ write ∷ []) }
    ensures own { IfOk result (λ front. writes_of front (seat_of write) ≡ writes_in writes.new.fact) }
    ensures may { MayEndWith write (writes_in writes.old.fact) (writes_in writes.new.fact) }
{
    let mut publisher = chains.lock(rt);
    let result = publisher.publish(rt, facts, writes, write);
    MutexGuard::unlock(publisher);
    result
}
