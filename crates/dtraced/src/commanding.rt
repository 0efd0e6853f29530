//! The lines of standard input that command a service.

use crate::command::ServiceCommand;
use crate::fault::Fault;
use dt_proto::{Lines, WholeLine};
use dt_server::{Counted, Shared, Source};
use dt_world::write_whole;
use itoa::Buffer;
use std::io::{self, Write};
use std::sync::Wait;

/// How many bytes are read at once.
const CHUNK: usize = 4096;

/// Obeys the lines of standard input, to a `quit` or to its end. What stands after the last newline is no line.
pub(crate) fn obey_input<R: Input, T: Wait, W: Write>(
    rt: &R,
    threads: &T,
    shared: &Shared,
    lines: &mut Lines,
    out: &mut W,
) -> Result<(), Fault> {
    let mut input = Counted::new(rt.reader());
    let mut piece = [0u8; CHUNK];
    for _ in 0..u64::MAX {
        match input.pull(&mut piece) {
            Ok(0) => return Ok(()),
            Ok(count) => {
                if obey_piece(threads, shared, lines, &piece[..count], out)? {
                    return Ok(());
                }
            }
            Err(_) => return Err(Fault::Device),
        }
    }
    Ok(())
}

/// Obeys each line that becomes whole in a piece, and says whether one of them was a `quit`.
fn obey_piece<T: Wait, W: Write>(
    threads: &T,
    shared: &Shared,
    lines: &mut Lines,
    piece: &[u8],
    out: &mut W,
) -> Result<bool, Fault> {
    let mut rest = piece;
    while !rest.is_empty() {
        let fed = lines.feed(rest);
        if fed.whole && obey(threads, shared, lines.line(), out)? {
            return Ok(true);
        }
        rest = &rest[fed.used..];
    }
    Ok(false)
}

/// Obeys a line, and says whether it was a `quit`.
fn obey<T: Wait, W: Write>(
    threads: &T,
    shared: &Shared,
    line: WholeLine<'_>,
    out: &mut W,
) -> Result<bool, Fault> {
    let WholeLine::Bytes(text) = line else {
        refuse(out)?;
        return Ok(false);
    };
    match ServiceCommand::parse(text) {
        Some(ServiceCommand::Quit) => return Ok(true),
        Some(ServiceCommand::Step { cpu, count }) => step(threads, shared, cpu, count, out)?,
        None => refuse(out)?,
    }
    Ok(false)
}

/// Lets a processor make so many firings, and writes how many it made. No memory is needed for that, so no firing is made that isn't told.
fn step<T: Wait, W: Write>(
    threads: &T,
    shared: &Shared,
    cpu: u32,
    count: u32,
    out: &mut W,
) -> Result<(), Fault> {
    let Some(desk) = shared.desks.get(cpu as usize) else {
        return refuse(out);
    };
    let made = desk.step(threads, count);
    write_fired(out, cpu, made).map_err(|_| Fault::Device)
}

/// Writes that a processor made so many firings.
fn write_fired<W: Write>(out: &mut W, cpu: u32, made: u32) -> io::Result<()> {
    let mut digits = Buffer::new();
    out.write_all(b"fired ")?;
    out.write_all(digits.format(cpu).as_bytes())?;
    out.write_all(b" ")?;
    out.write_all(digits.format(made).as_bytes())?;
    write_whole(out, b"\n")
}

/// Answers a line that is no command, or names no processor.
fn refuse<W: Write>(out: &mut W) -> Result<(), Fault> {
    write_whole(out, b"refused\n").map_err(|_| Fault::Device)
}
