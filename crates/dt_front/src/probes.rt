//! The table of probes.
ghost use Rattle.std.specs.Prelude.{◌≡◌, ◌++◌, OnOk};
ghost use Rattle.dt_front.specs.Columns.{at_right};
ghost use Rattle.dt_front.specs.Escaping.{shown};
ghost use Rattle.dt_front.specs.Probes.{narrow_line, probe_columns, probe_line, probe_names, table_head, table_line};

use crate::columns::push_right;
use crate::escaping::push_shown;
use crate::limits::TABLE_WIDTH;
use crate::parts::{after_byte, before_byte};
use itoa::Buffer;
use std::alloc::{AllocError, Global};

/// Adds the head of the table of probes on a page of this width.
pub fn push_probes_head(out: &mut Vec<u8>, page: usize) -> Result<(), AllocError>
    ensures { OnOk result (out.new.items ≡ out.old.items ++ table_head page) }
{
    if page < TABLE_WIDTH {
        return out.extend_from_slice(b"   ID PROBE\n");
    }
    out.extend_from_slice(
        b"   ID   PROVIDER            MODULE                          FUNCTION NAME\n",
    )
}

/// Adds a probe's line on a page of this width: its identifier, and its four names, which a text gives with `:` between them.
pub fn push_probe(
    alloc: Global,
    out: &mut Vec<u8>,
    page: usize,
    id: u64,
    name: &[u8],
) -> Result<(), AllocError>
    ensures { OnOk result (out.new.items ≡ out.old.items ++ table_line page id name.now) }
{
    if page < TABLE_WIDTH {
        push_narrow(out, id, name)
    } else {
        push_in_columns(alloc, out, id, name)
    }
}

/// Adds a probe's line with its names as they are given.
fn push_narrow(out: &mut Vec<u8>, id: u64, name: &[u8]) -> Result<(), AllocError>
    ensures { OnOk result (out.new.items ≡ out.old.items ++ narrow_line id name.now) }
{
    push_right(out, 5, Buffer::new().format(id).as_bytes())?;
    out.push(b' ')?;
    push_shown(out, name)?;
    out.push(b'\n')?;
    Ok(())
}

/// Adds a probe's line with a column for each of its names.
fn push_in_columns(alloc: Global, out: &mut Vec<u8>, id: u64, name: &[u8]) -> Result<(), AllocError>
    ensures { OnOk result (out.new.items ≡ out.old.items ++ probe_line id name.now) }
{
    push_probe_columns(alloc, out, id, name)?;
    push_probe_names(alloc, out, after_byte(b':', after_byte(b':', name)))
}

/// Adds the last columns of a probe's line, its function and its name, by what stands after its module.
fn push_probe_names(alloc: Global, out: &mut Vec<u8>, after: &[u8]) -> Result<(), AllocError>
    ensures { OnOk result (out.new.items ≡ out.old.items ++ probe_names after.now) }
{
    out.push(b' ')?;
    push_shown_right(alloc, out, 33, before_byte(b':', after))?;
    out.push(b' ')?;
    push_shown(out, after_byte(b':', after))?;
    out.push(b'\n')?;
    Ok(())
}

/// Adds the first columns of a probe's line: its identifier, its provider and its module.
fn push_probe_columns(
    alloc: Global,
    out: &mut Vec<u8>,
    id: u64,
    name: &[u8],
) -> Result<(), AllocError>
    ensures { OnOk result (out.new.items ≡ out.old.items ++ probe_columns id name.now) }
{
    push_right(out, 5, Buffer::new().format(id).as_bytes())?;
    out.push(b' ')?;
    push_shown_right(alloc, out, 10, before_byte(b':', name))?;
    out.push(b' ')?;
    push_shown_right(alloc, out, 17, before_byte(b':', after_byte(b':', name)))
}

/// Adds what a terminal is shown for a text, at the right of a column of this width.
pub(crate) fn push_shown_right(
    alloc: Global,
    out: &mut Vec<u8>,
    width: usize,
    text: &[u8],
) -> Result<(), AllocError>
    ensures { OnOk result (out.new.items ≡ out.old.items ++ at_right width (shown text.now)) }
{
    let mut escaped = Vec::new(alloc);
    push_shown(&mut escaped, text)?;
    push_right(out, width, &escaped)
}
