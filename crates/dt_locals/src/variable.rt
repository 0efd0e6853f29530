//! Thread-local variables, and by which number one is found.
ghost use Rattle.std.specs.Prelude.{◌≡◌, ◌<◌};

use dt_names::Name;
use std::hash::{FoldHasher, Hasher};

/// A thread-local variable: that of a thread of a process, by its name.
#[derive(Clone, Copy)]
pub struct LocalVariable {
    pub pid: u32,
    pub tid: u32,
    pub name: Name,
}

impl LocalVariable {
    ghost use Rattle.dt_locals.specs.History.{same_local};
    ghost use Rattle.dt_locals.specs.Hash.{local_hash, home_in};

    /// Whether both are one variable.
    pub(crate) fn is(&self, other: &LocalVariable) -> bool
        ensures { result ≡ same_local self.now other.now }
    {
        self.pid == other.pid
            && self.tid == other.tid
            && self.name.as_bytes() == other.name.as_bytes()
    }

    /// Where its slots begin, of so many beginnings.
    pub(crate) fn home(&self, beginnings: usize) -> usize
        requires { 0 < beginnings }
        ensures { result ≡ home_in beginnings self.now }
    {
        (self.hash() % beginnings as u64) as usize
    }

    /// The number by which it is found.
    fn hash(&self) -> u64
        ensures { result ≡ local_hash self.now }
    {
        let mut hasher = FoldHasher::default();
        hasher.write_u32(self.pid);
        hasher.write_u32(self.tid);
        hasher.write(self.name.as_bytes());
        hasher.finish()
    }
}
