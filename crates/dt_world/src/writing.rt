//! Writing a whole text.
ghost use Rattle.std.specs.Prelude.{ℕ, OnErr, OnOk, take};
ghost use Rattle.std.specs.Io.KnownBytes.{Appends};

use std::io::{self, ErrorKind, Write};

/// Writes all bytes, and flushes.
///
/// `Err`: a write or the flush failed, or the writer took none of what was left. A beginning of the bytes may have been written.
pub fn write_whole<W: Write>(writer: &mut W, bytes: &[u8]) -> io::Result<()>
    ensures ok { OnOk result (Appends (W.contents writer.old) (W.contents writer.new) bytes.now) }
    ensures err { OnErr result ((count : ℕ) × Appends (W.contents writer.old) (W.contents writer.new) (take count bytes.now)) }
{
    let mut rest = bytes;
    for _write in 0..u64::MAX {
        // all bytes were given, and they count as written once they are flushed
        if rest.is_empty() {
            return writer.flush();
        }
        match writer.write(rest) {
            // a writer that takes none of what is left has failed: to ask it again might never end
            Ok(0) => break,
            Ok(count) => rest = &rest[count..],
            Err(fault) if fault.kind() == ErrorKind::Interrupted => {}
            // only an interrupted write is tried again: after any other a beginning is all that is written
            Err(fault) => return Err(fault),
        }
    }
    Err(io::Error::from(ErrorKind::WriteZero))
}
