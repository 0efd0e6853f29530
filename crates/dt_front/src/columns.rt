//! Texts and numbers in columns.
ghost use Rattle.std.specs.Prelude.{◌≡◌, ◌++◌, OnOk, decimal, replicate};
ghost use Rattle.dt_front.specs.Columns.{at_left, at_right, blanks};

use itoa::Buffer;
use std::alloc::AllocError;

/// Adds so many blanks.
pub(crate) fn push_blanks(out: &mut Vec<u8>, count: usize) -> Result<(), AllocError>
    ensures { OnOk result (out.new.items ≡ out.old.items ++ blanks count) }
{
    push_repeated(out, b' ', count)
}

/// Adds a byte so many times.
pub(crate) fn push_repeated(out: &mut Vec<u8>, byte: u8, count: usize) -> Result<(), AllocError>
    ensures { OnOk result (out.new.items ≡ out.old.items ++ replicate count byte) }
{
    for _ in 0..count {
        out.push(byte)?;
    }
    Ok(())
}

/// Adds a text at the left of a column of this width.
pub(crate) fn push_left(out: &mut Vec<u8>, width: usize, text: &[u8]) -> Result<(), AllocError>
    ensures { OnOk result (out.new.items ≡ out.old.items ++ at_left width text.now) }
{
    out.extend_from_slice(text)?;
    push_blanks(out, width.saturating_sub(text.len()))
}

/// Adds a text at the right of a column of this width.
pub(crate) fn push_right(out: &mut Vec<u8>, width: usize, text: &[u8]) -> Result<(), AllocError>
    ensures { OnOk result (out.new.items ≡ out.old.items ++ at_right width text.now) }
{
    push_blanks(out, width.saturating_sub(text.len()))?;
    out.extend_from_slice(text)
}

/// Adds a number's decimal digits.
pub fn push_number(out: &mut Vec<u8>, number: u64) -> Result<(), AllocError>
    ensures { OnOk result (out.new.items ≡ out.old.items ++ decimal number) }
{
    out.extend_from_slice(Buffer::new().format(number).as_bytes())
}
