//! What a consumer has of one processor from its `go` on.
use dt_buffer::Principal;
use dt_life::Options;
use std::alloc::{AllocError, Global};

/// What a consumer has of one processor from its `go` on: its principal buffer, how many clauses a division by zero ended there, how many
/// assignments to thread-local variables found no room there, and how many records speculations dropped there.
#[derive(Drop)]
pub(crate) struct Processor {
    pub(crate) buffer: Principal,
    pub(crate) errors: u64,
    pub(crate) dyndrops: u64,
    pub(crate) specdrops: u64,
}

impl Processor {
    ghost use Rattle.std.specs.Prelude.{◌≡◌, ◌+◌, ◌<◌, ◌≤◌, ◌==◌, [], ◌∷◌, length, if◌then◌else◌, IfOk};
    ghost use Rattle.dt_buffer.specs.History.{BufferPast, buffer_after, swap};
    ghost use Rattle.dt_buffer.specs.IsAt.{BufferIsAt, drops_of};
    ghost use Rattle.dt_buffer.specs.Shows.{EndLast};
    ghost use Rattle.dt_buffer.specs.declared.limits.TheConstants.{DROPS_LIMIT};
    ghost use Rattle.dt_consumer.specs.Counts.{AtMost, AtMostMore};
    ghost use Rattle.dt_consumer.specs.Tallies.{CountsTheSame, IsTallied, Tally, new_tally, with_records};

    /// A processor on which nothing was taken, with the room that the options ask for.
    pub(crate) fn new(alloc: Global, options: Options, reserve: usize) -> Result<Self, AllocError>
        requires { reserve ≤ options.bufsize }
        ensures empty { IfOk result (IsTallied (new_tally options.bufpolicy options.bufsize reserve)) }
        ensures counts { IfOk result (AtMost 0) }
    {
        Ok(Processor {
            buffer: Principal::new(alloc, options.bufpolicy, options.bufsize, reserve)?,
            errors: 0,
            dyndrops: 0,
            specdrops: 0,
        })
    }

    /// Puts the part that a commit takes out of a speculation, if it has bytes, as one record into the buffer. It takes no memory.
    pub(crate) fn put_part(&mut self, part: &[u8], in_end: bool)
        requires { drops_of self.old.buffer < DROPS_LIMIT }
        ensures put { (tally : Tally) → EndLast tally.came in_end → IsTallied tally self.old → IsTallied
            (with_records in_end (if length part.now == 0 then [] else part.now ∷ []) tally) self.new }
        ensures counts { AtMostMore 1 self.old self.new }
    {
        if !part.is_empty() {
            let _put = self.buffer.put(part, in_end);
        }
    }

    /// Counts assignments to thread-local variables that found no room. Few clauses have any: the others read and write no count.
    pub(crate) fn count_dropped(&mut self, count: u64)
        requires { self.old.dyndrops + count ≤ DROPS_LIMIT }
        ensures buffer { self.new.buffer ≡ self.old.buffer }
        ensures errors { self.new.errors ≡ self.old.errors }
        ensures dyndrops { self.new.dyndrops ≡ self.old.dyndrops + count }
        ensures specdrops { self.new.specdrops ≡ self.old.specdrops }
        ensures counts { AtMostMore count self.old self.new }
    {
        if count > 0 {
            self.dyndrops += count;
        }
    }

    /// Goes on after a `snap` of the buffer.
    pub(crate) fn snap(&mut self)
        ensures stands { (past : BufferPast) → BufferIsAt past self.old.buffer → BufferIsAt (buffer_after past swap) self.new.buffer }
        ensures same { CountsTheSame self.old self.new }
        ensures counts { AtMostMore 0 self.old self.new }
    {
        self.buffer.swap();
    }
}
