//! Texts of bytes.
ghost use Rattle.std.specs.Prelude.{◌≡◌, ◌++◌, IfOk, OnOk};
ghost use Rattle.std.specs.String.{string_bytes};
ghost use Rattle.serde_json.specs.Data.{string};
ghost use Rattle.serde_json.specs.Written.{compact_text};
ghost use Rattle.dt_proto.specs.Rows.{unfilled};
ghost use Rattle.dt_proto.specs.Scalars.{characters};

use serde_json::Value;
use std::alloc::{AllocError, Global};

/// The text whose characters are these bytes.
pub(crate) fn text_of(alloc: Global, bytes: &[u8]) -> Result<String, AllocError>
    ensures { IfOk result (λ text. string_bytes text ≡ characters bytes.now) }
{
    let mut text = String::new(alloc);
    for byte in bytes {
        text.push(char::from(*byte))?;
    }
    Ok(text)
}

/// Adds a text as JSON quotes it.
pub(crate) fn push_string(alloc: Global, line: &mut Vec<u8>, text: String) -> Result<(), AllocError>
    ensures { OnOk result (line.new.items ≡ line.old.items ++ compact_text (string (string_bytes text))) }
{
    let quoted = Value::String(text).to_vec(alloc)?;
    line.extend_from_slice(&quoted)
}

/// What stands before the first zero of a text that is filled with zeros.
pub(crate) fn before_zeros(bytes: &[u8]) -> &[u8]
    ensures { result.now ≡ unfilled bytes.now }
{
    match bytes.iter().position(|byte| *byte == 0) {
        Some(end) => &bytes[..end],
        None => bytes,
    }
}
