//! Where the program writes: standard output, or the file of `-o`; and what it says on standard error.

use crate::fault::Trouble;
use dt_front::push_shown;
use std::alloc::Global;
use std::io::{ErrorKind, Write};
use std::rt::Files;
use std::{fs, io};

/// Makes the file of `-o` anew, where one is asked for. Where it can't be made, that is told.
pub(crate) fn create_output<R: Files + Eprint + AllocGlobal>(
    rt: &R,
    path: Option<&str>,
) -> Result<Option<R::File>, Trouble> {
    let Some(path) = path else {
        return Ok(None);
    };
    match fs::create(rt, path) {
        Ok(file) => Ok(Some(file)),
        Err(fault) => Err(tell_path(rt, "can't write", path, reason_of(fault.kind()))),
    }
}

/// Writes bytes to the file, where there is one, and else to standard output, and lets them go.
pub(crate) fn write_out<R: Print, F: Write>(
    rt: &R,
    file: &mut Option<F>,
    bytes: &mut Vec<u8>,
) -> Result<(), Trouble> {
    let written = match file {
        Some(file) => write_to(file, bytes),
        None => write_answer(rt, bytes),
    };
    bytes.clear();
    written
}

/// Writes bytes at once.
fn write_to<W: Write>(out: &mut W, bytes: &[u8]) -> Result<(), Trouble> {
    out.write_all(bytes)
        .and_then(|()| out.flush())
        .map_err(|_| Trouble::Output)
}

/// Writes bytes, which are text, to standard error. Where that fails too, the status is all that tells.
pub(crate) fn tell<R: Eprint>(rt: &R, bytes: &[u8]) {
    if let Ok(text) = str::from_utf8(bytes) {
        let _told = eprint!(rt; "{text}");
    }
}

/// Tells of a path what isn't so, with what is added: `dtr: can't read reads.d: no such file or folder`. Gives the trouble that this is.
pub(crate) fn tell_path<R: Eprint + AllocGlobal>(
    rt: &R,
    what: &str,
    path: &str,
    more: &str,
) -> Trouble {
    match path_line(rt.alloc(), what, path, more) {
        Ok(line) => {
            tell(rt, &line);
            Trouble::Told
        }
        Err(fault) => fault,
    }
}

/// The line that tells of a path, whose bytes a terminal can show.
fn path_line(alloc: Global, what: &str, path: &str, more: &str) -> Result<Vec<u8>, Trouble> {
    let mut line = Vec::from_slice(alloc, b"dtr: ")?;
    push_path(&mut line, what, path, more)?;
    Ok(line)
}

/// Adds what isn't so of a path, the path, and what is added, and ends the line.
fn push_path(line: &mut Vec<u8>, what: &str, path: &str, more: &str) -> Result<(), Trouble> {
    line.extend_from_slice(what.as_bytes())?;
    line.push(b' ')?;
    push_shown(line, path.as_bytes())?;
    line.extend_from_slice(more.as_bytes())?;
    line.push(b'\n')?;
    Ok(())
}

/// Why something can't be done with a file, as it stands after the file's path.
pub(crate) fn reason_of(kind: ErrorKind) -> &'static str {
    match kind {
        ErrorKind::NotFound => ": no such file or folder",
        ErrorKind::PermissionDenied => ": permission denied",
        ErrorKind::IsADirectory => ": it is a folder",
        ErrorKind::NotADirectory => ": a file stands where a folder is meant",
        ErrorKind::InvalidData => ": it isn't UTF-8",
        ErrorKind::StorageFull => ": no room is left",
        ErrorKind::OutOfMemory => ": memory ran out",
        _ => "",
    }
}

/// Writes bytes to standard output.
pub(crate) fn write_answer<R: Print>(rt: &R, bytes: &[u8]) -> Result<(), Trouble> {
    write_to(&mut io::writer(rt), bytes)
}
