//! What a session reads from and writes to.
ghost use Rattle.std.specs.Prelude.{◌≡◌, ℕ, ◌+◌, ◌<◌, ◌^◌, List, Option, MatchResult, IfOk};
ghost use Rattle.std.specs.Io.{ReadsAtMost, WritesAtMost};
ghost use Rattle.std.specs.Io.KnownBytes.{ReadConsumes, WriteAppends};

use std::io::{ErrorKind, Read, Write};

/// A device failed: nothing was moved.
#[derive(Clone, Copy, Debug, PartialEq, Eq)]
pub struct Failure;

/// Gives bytes, as a connection does whose client writes.
///
/// `remaining` is what it will give, where that is known, as for a reader over memory; `failures` counts how often it failed.
pub trait Source {
    ghost remaining: { Self → Option (List ℕ) };

    ghost failures: { Self → ℕ };

    /// Moves bytes once into the beginning of `buf`, and answers how many: 0 at the end, where `buf` has room.
    fn pull(&mut self, buf: &mut [u8]) -> Result<usize, Failure>
        requires { failures self.old < 2 ^ 63 }
        ensures bound { ReadsAtMost result buf.new }
        ensures bytes { ReadConsumes (remaining self.old) (remaining self.new) result buf.new }
        ensures failures { MatchResult result (λ _. failures self.new ≡ failures self.old) (λ _. failures self.new ≡ failures self.old + 1) };
}

/// Takes bytes, as a connection does whose client reads.
///
/// `contents` is what it has taken, where that is known, as for a writer over memory; `failures` counts how often it failed.
pub trait Sink {
    ghost contents: { Self → Option (List ℕ) };

    ghost failures: { Self → ℕ };

    /// Moves some of the bytes once, from their beginning, and answers how many: at least one. Where there are none to move, that is a failure.
    fn push(&mut self, bytes: &[u8]) -> Result<usize, Failure>
        requires { failures self.old < 2 ^ 63 }
        ensures bound { WritesAtMost result bytes.now }
        ensures moves { IfOk result (λ n. 0 < n) }
        ensures bytes { WriteAppends (contents self.old) (contents self.new) result bytes.now }
        ensures failures { MatchResult result (λ _. failures self.new ≡ failures self.old) (λ _. failures self.new ≡ failures self.old + 1) };
}

/// Any reader or writer of std as a source or a sink, with how often it failed. A call that was interrupted is made again; a write that moves nothing is a
/// failure.
#[derive(Drop)]
pub struct Counted<D> {
    device: D,
    failures: u64,
}

impl<D> Counted<D> {
    /// The device, which hasn't failed yet.
    pub fn new(device: D) -> Counted<D>
        ensures device { result.device ≡ device }
        ensures failures { result.failures ≡ 0 }
    {
        Counted {
            device,
            failures: 0,
        }
    }
}

impl<R: Read> Source for Counted<R> {
    ghost remaining = { λ c. R.remaining c.device };

    ghost failures = { λ c. c.failures };

    fn pull(&mut self, buf: &mut [u8]) -> Result<usize, Failure> {
        for _ in 0..u64::MAX {
            match self.device.read(buf) {
                Ok(n) => return Ok(n),
                Err(error) => {
                    if error.kind() != ErrorKind::Interrupted {
                        break;
                    }
                }
            }
        }
        self.failures += 1;
        Err(Failure)
    }
}

impl<W: Write> Sink for Counted<W> {
    ghost contents = { λ c. W.contents c.device };

    ghost failures = { λ c. c.failures };

    fn push(&mut self, bytes: &[u8]) -> Result<usize, Failure> {
        for _ in 0..u64::MAX {
            match self.device.write(bytes) {
                Ok(0) => break,
                Ok(n) => return Ok(n),
                Err(error) => {
                    if error.kind() != ErrorKind::Interrupted {
                        break;
                    }
                }
            }
        }
        self.failures += 1;
        Err(Failure)
    }
}
