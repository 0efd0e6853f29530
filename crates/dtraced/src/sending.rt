//! A client of a service.

use crate::fault::Fault;
use dt_world::write_whole;
use std::io;
use std::io::{BufRead, BufReader, Write};
use std::net::{Net, Shutdown};
use std::os::unix::net::UnixStream;

/// For each line of standard input sends the line over the socket at this path, and writes the one reply to it. What stands after the last newline is no line.
///
/// [`Fault::Device`]: there is nobody at the path, the connection ended before a reply, or a stream failed.
pub(crate) fn send<R: Net + Input + Print + AllocGlobal>(rt: &R, path: &str) -> Result<(), Fault> {
    let Ok(stream) = UnixStream::connect(rt, path) else {
        return Err(Fault::Device);
    };
    let Ok(mut replies) = BufReader::new(rt.alloc(), &stream) else {
        return Err(Fault::Device);
    };
    let Ok(mut input) = BufReader::new(rt.alloc(), rt.reader()) else {
        return Err(Fault::Device);
    };
    let mut out = io::writer(rt);
    let mut line = Vec::new(rt.alloc());
    let mut reply = Vec::new(rt.alloc());
    for _ in 0..u64::MAX {
        if !read_line(&mut input, &mut line)? {
            return Ok(());
        }
        let mut to = &stream;
        // A service that has no seat says so and ends, maybe before the line was sent: its reply is read all the same, and a line that got none is a fault.
        if to.write_all(&line).is_err() {
            // the service may still wait for the rest of the line, and nobody is to wait for its reply
            let _ended = stream.shutdown(Shutdown::Write);
        }
        if !read_line(&mut replies, &mut reply)? {
            return Err(Fault::Device);
        }
        write_whole(&mut out, &reply).map_err(|_| Fault::Device)?;
    }
    Ok(())
}

/// Reads the next line with its newline, in place of what `line` held, and says whether there was one.
fn read_line<B: BufRead>(input: &mut B, line: &mut Vec<u8>) -> Result<bool, Fault> {
    line.clear();
    match input.read_until(b'\n', line) {
        Ok(_) => Ok(line.last() == Some(&b'\n')),
        Err(_) => Err(Fault::Device),
    }
}
