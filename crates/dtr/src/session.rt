//! One session with a service: a line is asked, and its reply is read.

use crate::fault::Trouble;
use dt_front::number_field;
use dt_life::{LINES_MAX, Refusal};
use serde_json::Value;
use std::alloc::Global;
use std::io::{BufRead, BufReader, Write};
use std::net::Shutdown;
use std::os::unix::net::UnixStream;

/// A session.
#[derive(Drop)]
pub(crate) struct Session<'a> {
    stream: &'a UnixStream,
    replies: BufReader<&'a UnixStream>,
    /// How many lines may still be asked.
    pub(crate) left: u64,
    /// How many of them are kept for the end: its words, and the aggregations.
    pub(crate) kept: u64,
}

impl<'a> Session<'a> {
    /// A session over a connection.
    pub(crate) fn new(alloc: Global, stream: &'a UnixStream) -> Result<Self, Trouble> {
        match BufReader::new(alloc, stream) {
            Ok(replies) => Ok(Session {
                stream,
                replies,
                left: u64::from(LINES_MAX),
                kept: 0,
            }),
            Err(_) => Err(Trouble::Memory),
        }
    }

    /// Whether no lines are left but those that are kept for the end.
    pub(crate) fn is_short(&self) -> bool {
        self.left <= self.kept
    }

    /// Asks a line, which is given without its newline, and reads the reply. A line that is refused for memory isn't counted, and is asked once more.
    pub(crate) fn ask(&mut self, alloc: Global, line: &str) -> Result<Value, Trouble> {
        let whole = with_newline(alloc, line)?;
        self.left = self.left.saturating_sub(1);
        let reply = self.exchange(alloc, &whole)?;
        if number_field(&reply, "error") != Some(u64::from(Refusal::Memory.number())) {
            return Ok(reply);
        }
        self.exchange_again(alloc, &whole)
    }

    /// Asks a line that was made for it, if there was memory to make it.
    pub(crate) fn ask_made(
        &mut self,
        alloc: Global,
        line: Result<String, Trouble>,
    ) -> Result<Value, Trouble> {
        let line = line?;
        self.ask(alloc, &line)
    }

    /// Sends a line once more that was refused for memory, and reads the reply.
    fn exchange_again(&mut self, alloc: Global, whole: &[u8]) -> Result<Value, Trouble> {
        match self.exchange(alloc, whole) {
            // a service without memory for a session says so, and ends the connection
            Err(Trouble::Gone) => Err(Trouble::Unserved),
            answered => answered,
        }
    }

    /// Sends a line with its newline, and reads the reply.
    fn exchange(&mut self, alloc: Global, whole: &[u8]) -> Result<Value, Trouble> {
        let mut to = self.stream;
        // a service without a seat says so and ends, maybe before the line was sent: its reply is read all the same
        if to.write_all(whole).is_err() {
            let _ended = self.stream.shutdown(Shutdown::Write);
        }
        self.reply(alloc)
    }

    /// Reads a reply.
    fn reply(&mut self, alloc: Global) -> Result<Value, Trouble> {
        let mut line = Vec::new(alloc);
        if self.replies.read_until(b'\n', &mut line).is_err() || line.last() != Some(&b'\n') {
            return Err(Trouble::Gone);
        }
        value_in(alloc, &line)
    }
}

/// A line with its newline.
fn with_newline(alloc: Global, line: &str) -> Result<Vec<u8>, Trouble> {
    let mut whole = Vec::from_slice(alloc, line.as_bytes())?;
    whole.push(b'\n')?;
    Ok(whole)
}

/// The value that a line has as JSON.
fn value_in(alloc: Global, line: &[u8]) -> Result<Value, Trouble> {
    match Value::from_slice(alloc, line) {
        Ok(reply) => Ok(reply),
        Err(fault) if fault.is_memory() => Err(Trouble::Memory),
        Err(_) => Err(Trouble::Strange),
    }
}
