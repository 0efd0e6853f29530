//! A client that writes in pieces while a processor fires, and one that reads in pieces. Each fails at the call that it is told.
ghost use Rattle.std.specs.Prelude.{None};

use dt_hub::{CpuSeat, Fired, Hub, HubSite, NoGate};
use dt_server::{Failure, Sink, Source};
use std::sync::Wait;

/// Gives bytes in pieces of one size. Once it has given those up to a place, a processor makes all its firings before the next piece.
#[derive(Drop)]
pub(crate) struct Pieces<'a, J: HubSite, R: Wait> {
    pub(crate) rt: &'a R,
    pub(crate) hub: &'a Hub<J>,
    pub(crate) token: &'a mut CpuSeat<J>,
    pub(crate) rest: &'a [u8],
    pub(crate) size: usize,
    /// How many bytes are left where the processor fires.
    pub(crate) fires_at: usize,
    /// How many calls go well before one fails.
    pub(crate) good: u64,
    pub(crate) failures: u64,
}

impl<'a, J: HubSite, R: Wait> Source for Pieces<'a, J, R> {
    ghost remaining = { λ _. None };

    ghost failures = { λ p. p.failures };

    fn pull(&mut self, buf: &mut [u8]) -> Result<usize, Failure> {
        if self.good == 0 {
            self.failures += 1;
            return Err(Failure);
        }
        self.good -= 1;
        if self.rest.len() <= self.fires_at {
            fire_all(self.rt, self.hub, self.token);
        }
        let count = self.size.min(self.rest.len()).min(buf.len());
        buf[..count].copy_from_slice(&self.rest[..count]);
        self.rest = &self.rest[count..];
        Ok(count)
    }
}

/// A processor makes the firings that are left of its script.
fn fire_all<J: HubSite, R: Wait>(rt: &R, hub: &Hub<J>, token: &mut CpuSeat<J>) {
    for _ in 0..100 {
        if let Fired::End = hub.fire(rt, token, &NoGate) {
            return;
        }
    }
}

/// Takes bytes in pieces of at most one size.
#[derive(Drop)]
pub(crate) struct Taking {
    pub(crate) taken: Vec<u8>,
    pub(crate) size: usize,
    /// How many calls go well before one fails.
    pub(crate) good: u64,
    pub(crate) failures: u64,
}

impl Sink for Taking {
    ghost contents = { λ _. None };

    ghost failures = { λ t. t.failures };

    fn push(&mut self, bytes: &[u8]) -> Result<usize, Failure> {
        let count = self.size.min(bytes.len());
        if self.good == 0 || count == 0 || self.taken.extend_from_slice(&bytes[..count]).is_err() {
            self.failures += 1;
            return Err(Failure);
        }
        self.good -= 1;
        Ok(count)
    }
}
