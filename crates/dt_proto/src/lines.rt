//! The lines of an input that comes in pieces.
ghost use Rattle.std.specs.Prelude.{◌≡◌, ◌+◌, ◌<◌, ◌≤◌, ◌↔◌, ℕ, List, [], ◌++◌, false, IsTrue, IfOk, IfSome, IfNone, take, drop, length, vec_len, vec_capacity};
ghost use Rattle.std.specs.List.{position};
ghost use Rattle.dt_proto.specs.Lines.{is_newline, HasNewline, line_form, lines_of, taken_bytes};
ghost use Rattle.dt_proto.specs.Splits.{HasNoNewline, IsCut};
ghost use Rattle.dt_proto.specs.declared.limits.TheConstants.{LINE_MAX};

use crate::asked::WholeLine;
use crate::limits::LINE_MAX;
use std::alloc::{AllocError, Global};

/// Finds the lines of an input that comes as pieces of bytes, cut anywhere. All its room is made by `new`.
///
/// A piece is fed until all of it was taken, and each line is asked for when it is whole:
///
/// ```text
/// while !piece.is_empty() {
///     let fed = lines.feed(piece);
///     if fed.whole {
///         answer(lines.line());
///     }
///     piece = &piece[fed.used..];
/// }
/// ```
#[derive(Drop)]
pub struct Lines {
    kept: Vec<u8>,
    long: bool,
    whole: bool,
    ghost room: { LINE_MAX ≤ vec_capacity kept },
    ghost within: { vec_len kept ≤ LINE_MAX },
}

/// What [`Lines::feed`] took of a piece.
#[derive(Clone, Copy, Debug, PartialEq, Eq)]
pub struct Fed {
    /// How many of the piece's bytes were taken. The others are to be fed next.
    pub used: usize,
    /// Whether a line is whole now.
    pub whole: bool,
}

impl Lines {
    ghost use Rattle.dt_proto.specs.HasRead.{HasRead, EndsWithLine, is_whole, form_held, line_given};
    ghost use Rattle.dt_proto.specs.Asked.{form_lent};

    /// No byte was fed yet. `Err`: there was no memory for a line of [`LINE_MAX`] bytes.
    pub fn new(alloc: Global) -> Result<Lines, AllocError>
        ensures { IfOk result (HasRead []) }
    {
        Ok(Lines {
            kept: Vec::with_capacity(alloc, LINE_MAX)?,
            long: false,
            whole: false,
        })
    }

    /// Takes the next bytes of the input: of the piece those up to and including its first newline, or all where it has
    /// none. After a whole line they begin the next one. It takes no memory.
    pub fn feed(&mut self, piece: &[u8]) -> Fed
        ensures used { result.used ≡ taken_bytes piece.now }
        ensures whole { IsTrue result.whole ↔ HasNewline piece.now }
        ensures is_whole { is_whole self.new ≡ result.whole }
        ensures stands { (input : List ℕ) → HasRead input self.old
            → HasRead (input ++ take result.used piece.now) self.new }

        // The bytes that were taken add one line to the input's where a line is whole now, the one that is held; and
        // none where no line is.
        ensures lines { (input : List ℕ) → HasRead input self.old
            → lines_of (input ++ take result.used piece.now)
            ≡ lines_of input ++ line_given result.whole (form_held self.new) }
    {
        if self.whole {
            self.begin_line();
        }
        match newline_in(piece) {
            Some(at) => {
                self.keep(&piece[..at]);
                self.whole = true;
                Fed {
                    used: at + 1,
                    whole: true,
                }
            }
            None => {
                self.keep(piece);
                Fed {
                    used: piece.len(),
                    whole: false,
                }
            }
        }
    }

    /// The line that has become whole. Ask for it when [`Fed::whole`] says so. It takes no memory.
    pub fn line(&self) -> WholeLine<'_>
        requires { IsTrue (is_whole self.now) }
        ensures held { form_lent result ≡ form_held self.now }
        // It is the last of the lines.
        ensures last { (input : List ℕ) → HasRead input self.now → EndsWithLine input (form_lent result) }
    {
        if self.long {
            WholeLine::Long
        } else {
            WholeLine::Bytes(&self.kept)
        }
    }

    /// Lets go of the line.
    fn begin_line(&mut self)
        ensures held { form_held self.new ≡ line_form [] }
        ensures whole { is_whole self.new ≡ false }
    {
        self.kept.clear();
        self.long = false;
        self.whole = false;
    }

    /// The line goes on with these bytes. A long line's bytes are let go.
    fn keep(&mut self, bytes: &[u8])
        ensures held { (line : List ℕ) → form_held self.old ≡ line_form line
            → form_held self.new ≡ line_form (line ++ bytes.now) }
        ensures whole { is_whole self.new ≡ is_whole self.old }
    {
        if self.long || LINE_MAX - self.kept.len() < bytes.len() {
            self.long = true;
            self.kept.clear();
        } else {
            self.kept.extend_from_slice(bytes).unwrap();
        }
    }
}

/// Where the first newline stands.
fn newline_in(piece: &[u8]) -> Option<usize>
    ensures within { IfSome result (λ at. at < length piece.now) }
    ensures found { IfSome result (λ at. IsCut piece.now (take at piece.now) (drop (at + 1) piece.now)) }
    ensures none { IfNone result (HasNoNewline piece.now) }
    ensures place { result ≡ position is_newline piece.now }
{
    piece.iter().position(|byte| *byte == b'\n')
}
