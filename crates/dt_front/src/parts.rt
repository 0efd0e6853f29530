//! Parts of texts.
ghost use Rattle.std.specs.Prelude.{◌≡◌, ◌≤◌, ◌==◌, length};
ghost use Rattle.std.specs.List.{position_or_len};
ghost use Rattle.dt_front.specs.Parts as spec;

/// What stands before the first such byte; all, where there is none.
pub fn before_byte(byte: u8, bytes: &[u8]) -> &[u8]
    ensures { result.now ≡ spec.before_byte byte bytes.now }
{
    &bytes[..place_of(byte, bytes)]
}

/// What stands after the first such byte; nothing, where there is none.
pub fn after_byte(byte: u8, bytes: &[u8]) -> &[u8]
    ensures { result.now ≡ spec.after_byte byte bytes.now }
{
    let place = place_of(byte, bytes);
    if place < bytes.len() {
        &bytes[place + 1..]
    } else {
        &[]
    }
}

/// The place of the first such byte, or how many bytes there are.
fn place_of(byte: u8, bytes: &[u8]) -> usize
    ensures place { result ≡ position_or_len (λ b. b == byte) bytes.now }
    ensures within { result ≤ length bytes.now }
{
    match bytes.iter().position(|b| *b == byte) {
        Some(place) => place,
        None => bytes.len(),
    }
}
