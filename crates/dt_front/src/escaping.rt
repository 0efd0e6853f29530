//! Bytes as a terminal is shown them.
ghost use Rattle.std.specs.Prelude.{◌≡◌, ◌++◌, ◌<◌, OnOk};
ghost use Rattle.dt_front.specs.Escaping as spec;
ghost use Rattle.dt_front.specs.Escaping.{shown, shown_byte};

use std::alloc::AllocError;

/// Adds what a terminal is shown for these bytes: a plain byte as itself, any other as an escape.
pub fn push_shown(out: &mut Vec<u8>, bytes: &[u8]) -> Result<(), AllocError>
    ensures { OnOk result (out.new.items ≡ out.old.items ++ shown bytes.now) }
{
    for byte in bytes {
        push_shown_byte(out, *byte)?;
    }
    Ok(())
}

/// Adds what a terminal is shown for a byte.
fn push_shown_byte(out: &mut Vec<u8>, byte: u8) -> Result<(), AllocError>
    ensures { OnOk result (out.new.items ≡ out.old.items ++ shown_byte byte) }
{
    if byte == b'\\' {
        return out.extend_from_slice(b"\\\\");
    }
    if (b' '..=b'~').contains(&byte) {
        out.push(byte)?;
        return Ok(());
    }
    let high = hex_digit(byte / 16);
    let low = hex_digit(byte % 16);
    out.extend_from_slice(&[b'\\', b'x', high, low])
}

/// A digit to the base of sixteen.
pub(crate) fn hex_digit(digit: u8) -> u8
    requires { digit < 16 }
    ensures { result ≡ spec.hex_digit digit }
{
    if digit <= 9 {
        b'0' + digit
    } else {
        b'a' - 10 + digit
    }
}
