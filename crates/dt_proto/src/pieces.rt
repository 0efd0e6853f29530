//! All lines of an input whose pieces are at hand.
ghost use Rattle.std.specs.Prelude.{◌≡◌, ℕ, List, ◌++◌, map, IfOk, OnOk};
ghost use Rattle.std.specs.List.{flat_map};
ghost use Rattle.dt_proto.specs.Asked.{form_asked};
ghost use Rattle.dt_proto.specs.HasRead.{HasRead};
ghost use Rattle.dt_proto.specs.Lines.{lines_of};

use crate::asked::Asked;
use crate::lines::Lines;
use std::alloc::{AllocError, Global};

/// What is asked by the lines of an input that comes in these pieces, in order. `Err`: there was no memory for it.
pub fn asked_in(alloc: Global, pieces: &[&[u8]]) -> Result<Vec<Asked>, AllocError>
    // These are the lines of all the bytes, so it doesn't matter how the input was cut into pieces.
    ensures { IfOk result (λ asked. map form_asked asked.items ≡ lines_of (flat_map (λ piece. piece.now) pieces.now)) }
{
    let mut lines = Lines::new(alloc)?;
    let mut asked = Vec::new(alloc);
    for piece in pieces {
        take_piece(alloc, &mut lines, piece, &mut asked)?;
    }
    Ok(asked)
}

/// Feeds all of a piece, and adds what is asked by each line that becomes whole.
fn take_piece(
    alloc: Global,
    lines: &mut Lines,
    piece: &[u8],
    asked: &mut Vec<Asked>,
) -> Result<(), AllocError>
    ensures { OnOk result ((input : List ℕ) → HasRead input lines.old → map form_asked asked.old.items ≡ lines_of input
        → HasRead (input ++ piece.now) lines.new × (map form_asked asked.new.items ≡ lines_of (input ++ piece.now))) }
{
    let mut rest = piece;
    while !rest.is_empty() {
        let fed = lines.feed(rest);
        if fed.whole {
            asked.push(lines.line().to_asked(alloc)?)?;
        }
        rest = &rest[fed.used..];
    }
    Ok(())
}
