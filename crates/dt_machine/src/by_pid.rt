//! Where the process of each number lies.
ghost use Rattle.std.specs.Prelude.{◌≡◌, ◌==◌, ◌+◌, ◌<◌, ◌^◌, ℕ, None, Some, IsSome, OnOk, if◌then◌else◌};

use std::alloc::{AllocError, Global};

/// By the number of a process its place in the list of processes, in a table: a firing's process is found without a search.
/// The table has two bytes for each number up to the largest that is there, so 2 MB at most.
///
/// Contracts see it as `place_in by_pid pid`.
#[derive(Drop)]
pub(crate) struct ByPid {
    /// One more than the place; 0 where there is no such process.
    pub(crate) marks: Vec<u16>,
}

impl ByPid {
    ghost use Rattle.dt_machine.specs.ByPid.{place_in};

    /// No process. It takes no memory yet.
    pub(crate) fn new(alloc: Global) -> ByPid
        ensures { (pid : ℕ) → place_in result pid ≡ None }
    {
        ByPid {
            marks: Vec::new(alloc),
        }
    }

    /// The place of the process of a number, if there is one.
    pub(crate) fn place_of(&self, pid: u32) -> Option<usize>
        ensures { result ≡ place_in self.now pid }
    {
        match self.marks.get(pid as usize) {
            Some(mark) if *mark > 0 => Some(usize::from(*mark - 1)),
            _ => None,
        }
    }

    /// The place of a process that is there.
    pub(crate) fn known_place(&self, pid: u32) -> usize
        requires { IsSome (place_in self.now pid) }
        ensures { place_in self.now pid ≡ Some result }
    {
        usize::from(self.marks[pid as usize] - 1)
    }

    /// Puts a process at a place.
    ///
    /// `Err`: there was no memory.
    pub(crate) fn insert(&mut self, pid: u32, place: u16) -> Result<(), AllocError>
        requires { place + 1 < 2 ^ 16 }
        ensures { OnOk result ((other : ℕ)
            → place_in self.new other ≡ (if pid == other then Some place else place_in self.old other)) }
    {
        let at = pid as usize;
        if at >= self.marks.len() {
            self.marks.resize(at + 1, 0)?;
        }
        self.marks[at] = place + 1;
        Ok(())
    }
}
