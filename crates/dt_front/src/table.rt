//! The tables of aggregations.
ghost use Rattle.std.specs.Prelude.{◌≡◌, ◌++◌, OnOk, map};
ghost use Rattle.dt_front.specs.Tables.{key_column, key_columns, number_line, table_title};
ghost use Rattle.dt_front.specs.TableForms.{form_of_key_part};

use crate::columns::{push_left, push_right};
use crate::escaping::push_shown;
use itoa::Buffer;
use std::alloc::{AllocError, Global};

/// A part of a key.
#[derive(Drop)]
pub enum KeyColumn {
    Number(i64),
    Text(Vec<u8>),
}

/// Adds an aggregation's title.
pub fn push_title(out: &mut Vec<u8>, name: &[u8], function: &[u8]) -> Result<(), AllocError>
    ensures { OnOk result (out.new.items ≡ out.old.items ++ table_title name.now function.now) }
{
    out.extend_from_slice(b"\n@")?;
    push_shown(out, name)?;
    out.extend_from_slice(b" = ")?;
    push_shown(out, function)?;
    out.extend_from_slice(b"()\n")
}

/// Adds the line of a row whose value is a number.
pub fn push_number_line(
    alloc: Global,
    out: &mut Vec<u8>,
    key: &[KeyColumn],
    value: i64,
) -> Result<(), AllocError>
    ensures { OnOk result (out.new.items ≡ out.old.items ++ number_line (map form_of_key_part key.now) value) }
{
    push_key(alloc, out, key)?;
    out.extend_from_slice(b"  ")?;
    push_right(out, 16, Buffer::new().format(value).as_bytes())?;
    out.push(b'\n')?;
    Ok(())
}

/// Adds a key's columns.
pub fn push_key(alloc: Global, out: &mut Vec<u8>, key: &[KeyColumn]) -> Result<(), AllocError>
    ensures { OnOk result (out.new.items ≡ out.old.items ++ key_columns (map form_of_key_part key.now)) }
{
    for part in key {
        push_part(alloc, out, part)?;
    }
    Ok(())
}

/// Adds the column of a part of a key.
fn push_part(alloc: Global, out: &mut Vec<u8>, part: &KeyColumn) -> Result<(), AllocError>
    ensures { OnOk result (out.new.items ≡ out.old.items ++ key_column (form_of_key_part part.now)) }
{
    out.extend_from_slice(b"  ")?;
    match part {
        KeyColumn::Number(number) => push_right(out, 10, Buffer::new().format(*number).as_bytes()),
        KeyColumn::Text(bytes) => {
            let mut escaped = Vec::new(alloc);
            push_shown(&mut escaped, bytes)?;
            push_left(out, 20, &escaped)
        }
    }
}
