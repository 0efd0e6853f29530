//! A processor's end of the chains.
ghost use Rattle.std.specs.Prelude.{◌≡◌, ◌<◌, ℕ, length, None, IfNone, IfOk, IfSome, IfErr, OnOk, OnErr};
ghost use mathlib.Core.List.{IsPrefix};
ghost use Rattle.left_right.specs.Sides.{view};
ghost use Rattle.dt_chain.specs.Chains.{IsMaskAfter};
ghost use Rattle.dt_chain.specs.Seats.{life_at};
ghost use Rattle.dt_machine.specs.Context.{IsContext};
ghost use Rattle.dt_chain.specs.declared.chain_reader.Missed.TheVariants as missed;

use crate::book::Site;
use crate::chain_rule::{InnerReader, SeesWrites};
use crate::front::Front;
use crate::seat_mask::SeatMask;
use dt_machine::{Context, Firing, Machine};
use std::marker::Model;
use thiserror::Error;

/// A look got no entry to the chains, and nothing has changed.
#[derive(Clone, Copy, Debug, Error, PartialEq, Eq)]
#[error("the chains gave no entry")]
pub struct LookRefused;

/// What one processor looks through. It takes no lock and waits for nobody, whatever the writer does meanwhile.
///
/// Contracts see two lists of writes, the oldest first: `seen`, which was published at its last look, and `told`, which are all that it knows of: it
/// begins with `seen`, and with all that the reader was told.
#[derive(Drop)]
pub struct ChainReader<J: Site> {
    inner: Option<InnerReader<J>>,
    seen: Front<J>,
    told: Front<J>,
}

impl<J: Site> Model for ChainReader<J> {
    ghost use Rattle.std.specs.Prelude.{IsSome, IfSome};
    ghost use mathlib.Core.List.{IsPrefix};
    ghost use Rattle.left_right.specs.Sides.{view as reached};
    ghost use Rattle.dt_chain.specs.Chains.{Watched};

    ghost Value = { Watched };

    ghost view = { λ reader. record { seen = reader.seen; told = reader.told } };

    ghost invariant = { λ reader. IsSome reader.inner
        × IfSome reader.inner (λ inner. IsPrefix reader.seen (reached inner.place))
        × IsPrefix reader.seen reader.told };
}

/// Why an entry finds nothing.
enum Missed {
    /// The chains have ended.
    Ended,
    /// What was told is longer than what is published.
    ToldMore,
}

/// What one entry finds: the list that is published, and what the firing names where the mask names a seat.
struct FoundWrites<'a, J: Site> {
    front: Front<J>,
    context: Option<Context<'a>>,
}

impl<J: Site> ChainReader<J> {
    /// A reader that has seen and was told these writes.
    pub(crate) fn new(inner: InnerReader<J>, known: &Front<J>) -> ChainReader<J>
        requires { IsPrefix known.now (view inner.place) }
        ensures { (result.seen ≡ known.now) × (result.told ≡ known.now) }
    {
        ChainReader {
            inner: Some(inner),
            seen: known.again(),
            told: known.again(),
        }
    }

    /// The seats that the published writes name for a firing, each with its life, into a mask that is lent. The published
    /// writes begin with all that were seen before, and with all that this reader was told of. They are all that it knows of then. It takes no
    /// memory.
    ///
    /// Where a seat is named, the firing is answered with the probe and the process that it names, as by
    /// [`Entries::look_into`](crate::Entries::look_into).
    ///
    /// `Err`: there was no entry, and nothing has changed. The mask names nobody.
    pub fn look_into<'a>(
        &mut self,
        machine: &'a Machine,
        firing: &'a Firing,
        mask: &mut SeatMask,
    ) -> Result<Option<Context<'a>>, LookRefused>
        ensures mask { OnOk result (IsMaskAfter machine.now.registry self.new.seen firing.now mask.new) }
        ensures seen { OnOk result (IsPrefix self.old.seen self.new.seen) }
        ensures told { OnOk result (IsPrefix self.old.told self.new.seen) }
        ensures all { OnOk result (self.new.told ≡ self.new.seen) }
        ensures context { IfOk result (λ found. IfSome found (λ context.
            IsContext machine.now.registry context × (context.firing.now ≡ firing.now))) }
        ensures none { IfOk result (λ found. IfNone found ((seat : ℕ) → life_at mask.new seat ≡ None)) }
        ensures refused { OnErr result (self.new ≡ self.old) }
        ensures nobody { OnErr result ((seat : ℕ) → life_at mask.new seat ≡ None) }
    {
        let (inner, found) = enter(
            self.inner.take().unwrap(),
            &self.told,
            machine,
            firing,
            mask,
        );
        self.inner = Some(inner);
        match found {
            Ok(FoundWrites { front, context }) => {
                self.told = front.again();
                self.seen = front;
                Ok(context)
            }
            Err(Missed::Ended | Missed::ToldMore) => Err(LookRefused),
        }
    }

    /// A look ([`ChainReader::look_into`]) into a new mask, which is of 2 KB.
    ///
    /// `None`: there was no entry, and nothing has changed.
    pub fn look(&mut self, machine: &Machine, firing: &Firing) -> Option<SeatMask>
        ensures mask { IfSome result (λ mask. IsMaskAfter machine.now.registry self.new.seen firing.now mask) }
        ensures seen { IfSome result (λ _. IsPrefix self.old.seen self.new.seen) }
        ensures told { IfSome result (λ _. IsPrefix self.old.told self.new.seen) }
        ensures all { IfSome result (λ _. self.new.told ≡ self.new.seen) }
        ensures none { IfNone result (self.new ≡ self.old) }
    {
        let mut mask = SeatMask::new();
        match self.look_into(machine, firing, &mut mask) {
            Ok(_context) => Some(mask),
            Err(LookRefused) => None,
        }
    }

    /// Takes in a beginning of the list: the writes of each later look begin with it.
    pub fn tell(&mut self, known: &Front<J>)
        ensures seen { self.new.seen ≡ self.old.seen }
        ensures old { IsPrefix self.old.told self.new.told }
        ensures known { IsPrefix known.now self.new.told }
    {
        self.told = self.told.longer(known);
    }

    /// The writes that were published at the last look.
    pub fn seen(&self) -> Front<J>
        ensures { result ≡ self.now.seen }
    {
        self.seen.again()
    }

    /// All writes that it knows of. Those that were published at the last look begin them.
    pub fn told(&self) -> Front<J>
        ensures told { result ≡ self.now.told }
        ensures seen { IsPrefix self.now.seen result }
    {
        self.told.again()
    }
}

/// Enters the chains, looks, and leaves them.
fn enter<'a, J: Site>(
    inner: InnerReader<J>,
    told: &Front<J>,
    machine: &'a Machine,
    firing: &'a Firing,
    mask: &mut SeatMask,
) -> (InnerReader<J>, Result<FoundWrites<'a, J>, Missed>)
    ensures grows { IsPrefix (view inner.place) (view result.0.place) }
    ensures front { IfOk result.1 (λ found. found.front ≡ view result.0.place) }
    ensures told { IfOk result.1 (λ found. IsPrefix told.now found.front) }
    ensures mask { IfOk result.1 (λ found. IsMaskAfter machine.now.registry found.front firing.now mask.new) }
    ensures context { IfOk result.1 (λ found. IfSome found.context (λ context.
        IsContext machine.now.registry context × (context.firing.now ≡ firing.now))) }
    ensures none { IfOk result.1 (λ found. IfNone found.context ((seat : ℕ) → life_at mask.new seat ≡ None)) }
    ensures nobody { OnErr result.1 ((seat : ℕ) → life_at mask.new seat ≡ None) }
    ensures told_more { IfErr result.1 (λ why. why ≡ missed.ToldMore → length (view result.0.place) < length told.now) }
{
    mask.clear();
    match inner.enter_as::<SeesWrites<J>>() {
        Ok(reading) => {
            let copy = reading.get();
            let front = Front::of(copy.mark());
            // no rule spans the book and the copies: what is told was published before, and so it is never longer
            if !told.begins(&front) {
                return (reading.leave(), Err(Missed::ToldMore));
            }
            let context = copy.look_into(machine, firing, mask);
            (reading.leave(), Ok(FoundWrites { front, context }))
        }
        Err(inner) => (inner, Err(Missed::Ended)),
    }
}
