//! The speculative buffers of one consumer.
ghost use Rattle.std.specs.Prelude.{◌≡◌, ◌+◌, ◌<◌, ◌≤◌, ◌⊎◌, ◌==◌, IfOk, MatchOption, true, length, vec_len, if◌then◌else◌};
ghost use Rattle.std.specs.List.{All};
ghost use Rattle.dt_speculation.specs.declared.limits.TheConstants.{NSPEC_MAX};

use crate::answer::SpecPut;
use crate::limits::{CPUS_MAX, FAILS_LIMIT, NSPEC_MAX, SPECSIZE_MAX, SPECSIZE_MIN};
use crate::speculation::Speculation;
use std::alloc::{AllocError, Global};

/// The speculative buffers of one consumer: identifiers from 1 on, each with a part on each processor. All their room is made by
/// `new`.
#[derive(Drop)]
pub struct Specs {
    pub(crate) all: Vec<Speculation>,
    pub(crate) cpus: usize,
    pub(crate) fails: u64,
    ghost few: { vec_len all ≤ NSPEC_MAX },
    ghost parts: { All (λ one. vec_len one.parts ≡ cpus) all.items },
}

impl Specs {
    ghost use Rattle.dt_speculation.specs.declared.limits.TheConstants.{CPUS_MAX, FAILS_LIMIT, SPECSIZE_MAX, SPECSIZE_MIN};
    ghost use Rattle.dt_speculation.specs.History.{SpecPast, draw, free, new_spec_past, put_under, spec_after};
    ghost use Rattle.dt_speculation.specs.Answers.{DrawAnswers, SpecPutAnswers, failed_draws};
    ghost use Rattle.dt_speculation.specs.Records.{HasPart};
    ghost use Rattle.dt_speculation.specs.IsAt.{IsFirstFree, SpecsAt, cpus_of, fails_of};

    /// Buffers of `nspec` identifiers, none in use, with a part of `specsize` bytes for each of them on each of `cpus` processors.
    /// `Err`: there was no memory for their room.
    pub fn new(
        alloc: Global,
        nspec: usize,
        specsize: usize,
        cpus: usize,
    ) -> Result<Specs, AllocError>
        requires some { 1 ≤ nspec }
        requires few { nspec ≤ NSPEC_MAX }
        requires size_min { SPECSIZE_MIN ≤ specsize }
        requires size_max { specsize ≤ SPECSIZE_MAX }
        requires cpus_max { cpus ≤ CPUS_MAX }
        ensures stands { IfOk result (SpecsAt (new_spec_past nspec specsize)) }
        ensures cpus { IfOk result (λ specs. cpus_of specs ≡ cpus) }
        ensures fails { IfOk result (λ specs. fails_of specs ≡ 0) }
    {
        let mut all = Vec::with_capacity(alloc, nspec)?;
        for _place in 0..nspec {
            all.push(Speculation::new(alloc, specsize, cpus)?)?;
        }
        Ok(Specs {
            all,
            cpus,
            fails: 0,
        })
    }

    /// Puts the least identifier in use that isn't, with nothing in its parts, and answers it; or answers 0 where all are in
    /// use, which is counted as a failure. It takes no memory.
    pub fn draw(&mut self) -> u64
        requires { fails_of self.old < FAILS_LIMIT }
        ensures answers { (past : SpecPast) → SpecsAt past self.old → DrawAnswers past.nspec past.events result }
        ensures stands { (past : SpecPast) → SpecsAt past self.old → SpecsAt (spec_after past (draw result)) self.new }
        ensures fails { fails_of self.new ≡ (if result == 0 then fails_of self.old + 1 else fails_of self.old) }
        ensures few { result ≤ NSPEC_MAX }
        ensures cpus { cpus_of self.new ≡ cpus_of self.old }
    {
        let Some(place) = self.first_free() else {
            self.fails += 1;
            return 0;
        };
        self.all[place].begin();
        place as u64 + 1
    }

    /// How many draws failed so far.
    pub fn fails(&self) -> u64
        ensures counted { result ≡ fails_of self.now }
        ensures shows { (past : SpecPast) → SpecsAt past self.now → result ≡ failed_draws past.events }
    {
        self.fails
    }

    /// Puts a record under an identifier into its part of a processor, which keeps it if it fits after those kept since the
    /// identifier was drawn. Under an identifier that isn't in use the record goes nowhere. It takes no memory, and costs the
    /// copy of the record.
    pub fn put(&mut self, id: u64, cpu: usize, bytes: &[u8]) -> SpecPut
        requires { cpu < cpus_of self.old }
        ensures answers { (past : SpecPast) → SpecsAt past self.old → SpecPutAnswers past id cpu bytes.now result }
        ensures stands { (past : SpecPast) → SpecsAt past self.old
            → SpecsAt (spec_after past (put_under id cpu bytes.now)) self.new }
        ensures fails { fails_of self.new ≡ fails_of self.old }
        ensures cpus { cpus_of self.new ≡ cpus_of self.old }
    {
        let Some(place) = self.place_of(id) else {
            return SpecPut::Unknown;
        };
        self.all[place].put(cpu, bytes)
    }

    /// The bytes that the part of an identifier on a processor keeps: those of the records kept since it was drawn, the oldest
    /// first. There are none where the identifier isn't in use, and none where there is no such processor.
    pub fn part(&self, id: u64, cpu: usize) -> &[u8]
        ensures { (past : SpecPast) → SpecsAt past self.now → HasPart past id cpu result.now }
    {
        let Some(place) = self.place_of(id) else {
            return &[];
        };
        self.all[place].part(cpu)
    }

    /// Ends the use of an identifier, and forgets what its parts keep. Nothing happens where it isn't in use. It takes no memory,
    /// and sets one length for each processor.
    pub fn free(&mut self, id: u64)
        ensures stands { (past : SpecPast) → SpecsAt past self.old → SpecsAt (spec_after past (free id)) self.new }
        ensures fails { fails_of self.new ≡ fails_of self.old }
        ensures cpus { cpus_of self.new ≡ cpus_of self.old }
    {
        if let Some(place) = self.place_of(id) {
            self.all[place].free();
        }
    }

    /// The first place of an identifier that isn't in use, if there is one.
    fn first_free(&self) -> Option<usize>
        ensures { MatchOption result (All (λ one. one.in_use ≡ true) self.now.all.items) (IsFirstFree self.now.all.items) }
    {
        self.all.iter().position(|one| !one.in_use)
    }

    /// The place of an identifier, if there is such a one.
    fn place_of(&self, id: u64) -> Option<usize>
        ensures { MatchOption result ((id ≡ 0) ⊎ (length self.now.all.items < id))
            (λ place. (id ≡ place + 1) × (place < length self.now.all.items)) }
    {
        if id == 0 || (self.all.len() as u64) < id {
            return None;
        }
        Some((id - 1) as usize)
    }
}
