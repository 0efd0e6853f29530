//! One identifier, and its parts.
ghost use Rattle.std.specs.Prelude.{◌≡◌, ◌<◌, ℕ, Bool, true, false, List, [], IfOk, vec_len, if◌then◌else◌};

use crate::answer::SpecPut;
use crate::part::SpecPart;
use std::alloc::{AllocError, Global};

/// Whether an identifier is in use, and its part of each processor.
#[derive(Drop)]
pub(crate) struct Speculation {
    pub(crate) in_use: bool,
    pub(crate) parts: Vec<SpecPart>,
}

impl Speculation {
    ghost use Rattle.dt_buffer.specs.Choice.{KeepsSwitch};
    ghost use Rattle.dt_speculation.specs.IsAt.{SpeculationIsAt};
    ghost use Rattle.dt_speculation.specs.Answers.{PutSays};
    ghost use Rattle.dt_speculation.specs.Records.{ShowsPart, put_to};

    /// One that isn't in use, with empty parts.
    pub(crate) fn new(alloc: Global, size: usize, cpus: usize) -> Result<Self, AllocError>
        ensures parts { IfOk result (λ one. vec_len one.parts ≡ cpus) }
        ensures stands { IfOk result (SpeculationIsAt size false (λ cpu. [])) }
    {
        let mut parts = Vec::with_capacity(alloc, cpus)?;
        for _cpu in 0..cpus {
            parts.push(SpecPart::new(alloc, size)?)?;
        }
        Ok(Speculation {
            in_use: false,
            parts,
        })
    }

    /// Begins to be in use.
    pub(crate) fn begin(&mut self)
        ensures parts { vec_len self.new.parts ≡ vec_len self.old.parts }
        ensures stands { (size : ℕ) (in_use : Bool) (records : ℕ → List (List ℕ)) → SpeculationIsAt size in_use records self.old
            → SpeculationIsAt size true records self.new }
    {
        self.in_use = true;
    }

    /// Puts a record into the part of a processor, if it is in use.
    pub(crate) fn put(&mut self, cpu: usize, bytes: &[u8]) -> SpecPut
        requires { cpu < vec_len self.old.parts }
        ensures parts { vec_len self.new.parts ≡ vec_len self.old.parts }
        ensures answers { (size : ℕ) (in_use : Bool) (records : ℕ → List (List ℕ)) → SpeculationIsAt size in_use records self.old
            → PutSays in_use (KeepsSwitch size (records cpu) bytes.now) result }
        ensures stands { (size : ℕ) (in_use : Bool) (records : ℕ → List (List ℕ)) → SpeculationIsAt size in_use records self.old
            → SpeculationIsAt size in_use (if in_use then put_to cpu bytes.now records else records) self.new }
    {
        if !self.in_use {
            return SpecPut::Unknown;
        }
        if self.parts[cpu].put(bytes) {
            SpecPut::Kept
        } else {
            SpecPut::Dropped
        }
    }

    /// What the part of a processor keeps, and nothing where there is no such processor.
    pub(crate) fn part(&self, cpu: usize) -> &[u8]
        ensures { (size : ℕ) (in_use : Bool) (records : ℕ → List (List ℕ)) → SpeculationIsAt size in_use records self.now
            → ShowsPart size (records cpu) result.now }
    {
        match self.parts.get(cpu) {
            Some(part) => &part.kept,
            None => &[],
        }
    }

    /// Ends to be in use: all its parts are empty.
    pub(crate) fn free(&mut self)
        ensures parts { vec_len self.new.parts ≡ vec_len self.old.parts }
        ensures stands { (size : ℕ) (in_use : Bool) (records : ℕ → List (List ℕ)) → SpeculationIsAt size in_use records self.old
            → SpeculationIsAt size false (λ cpu. []) self.new }
    {
        for cpu in 0..self.parts.len() {
            self.parts[cpu].clear();
        }
        self.in_use = false;
    }
}
