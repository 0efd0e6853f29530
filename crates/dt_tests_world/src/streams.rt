//! Streams that are slow, and streams that fail.
use crate::calls::{MACHINE, replayed};
use dt_world::ReplayFault;
use std::alloc::Global;
use std::io::{self, ErrorKind, Read, Write};
use std::test::Fail;

/// An input: how many bytes it gives at once, how often it is interrupted before each read, and after how many bytes one
/// read fails. Who reads on after that gets the rest.
#[derive(Drop)]
struct Input<'a> {
    bytes: &'a [u8],
    at_once: usize,
    interruptions: u32,
    interrupted: u32,
    until_failure: usize,
}

impl<'a> Input<'a> {
    fn new(text: &'a str) -> Self {
        Input {
            bytes: text.as_bytes(),
            at_once: usize::MAX,
            interruptions: 0,
            interrupted: 0,
            until_failure: usize::MAX,
        }
    }
}

impl Read for Input<'_> {
    fn read(&mut self, buf: &mut [u8]) -> io::Result<usize> {
        if self.interrupted < self.interruptions {
            self.interrupted = self.interrupted.saturating_add(1);
            return Err(io::Error::from(ErrorKind::Interrupted));
        }
        self.interrupted = 0;
        if self.until_failure == 0 {
            self.until_failure = usize::MAX;
            return Err(io::Error::from(ErrorKind::BrokenPipe));
        }
        let most = self.at_once.min(self.until_failure);
        let count = self.bytes.len().min(buf.len()).min(most);
        buf[..count].copy_from_slice(&self.bytes[..count]);
        self.bytes = &self.bytes[count..];
        self.until_failure = self.until_failure.saturating_sub(count);
        Ok(count)
    }
}

/// How a write fails: by an error, or by taking none of the bytes.
#[derive(Clone, Copy)]
enum Failure {
    Error,
    TakesNone,
}

/// An output: how many bytes it takes at once, how often it is interrupted before each write, after how many bytes one
/// write fails and how, and whether it can be flushed. Who writes on after a failure is taken all.
#[derive(Drop)]
struct Output {
    bytes: Vec<u8>,
    at_once: usize,
    interruptions: u32,
    interrupted: u32,
    until_failure: usize,
    failure: Failure,
    flushes: bool,
}

impl Output {
    fn new(alloc: Global) -> Self {
        Output {
            bytes: Vec::new(alloc),
            at_once: usize::MAX,
            interruptions: 0,
            interrupted: 0,
            until_failure: usize::MAX,
            failure: Failure::Error,
            flushes: true,
        }
    }
}

impl Write for Output {
    fn write(&mut self, buf: &[u8]) -> io::Result<usize> {
        if self.interrupted < self.interruptions {
            self.interrupted = self.interrupted.saturating_add(1);
            return Err(io::Error::from(ErrorKind::Interrupted));
        }
        self.interrupted = 0;
        if self.until_failure == 0 {
            self.until_failure = usize::MAX;
            return match self.failure {
                Failure::Error => Err(io::Error::from(ErrorKind::StorageFull)),
                Failure::TakesNone => Ok(0),
            };
        }
        let most = self.at_once.min(self.until_failure);
        let count = buf.len().min(most);
        if self.bytes.extend_from_slice(&buf[..count]).is_err() {
            return Err(io::Error::from(ErrorKind::OutOfMemory));
        }
        self.until_failure = self.until_failure.saturating_sub(count);
        Ok(count)
    }

    fn flush(&mut self) -> io::Result<()> {
        if self.flushes {
            Ok(())
        } else {
            Err(io::Error::from(ErrorKind::StorageFull))
        }
    }
}

/// What is written for an input, and the fault, if there is one.
fn told(mut input: Input<'_>, mut output: Output, alloc: Global) -> (Vec<u8>, Option<ReplayFault>) {
    let fault = replayed(alloc, MACHINE, &mut input, &mut output);
    let Output { bytes, .. } = output;
    (bytes, fault)
}

/// So many `status` lines, asked by one session, and what is answered: after 1,024 of them its quota is used up.
fn long_session(alloc: Global, lines: usize) -> Result<(String, String), Fail> {
    let mut asked = String::from_str(alloc, "open 0 root\n")?;
    let mut answered = String::new(alloc);
    for line in 0..lines {
        asked.push_str("call 0 {\"cmd\":\"status\"}\n")?;
        answered.push_str(if line < 1024 {
            "0 {\"aggdrops\":[0,0],\"cause\":null,\"dyndrops\":[0,0],\"errors\":[0,0],\"exit\":null,\"ok\":true,\"phase\":\"inactive\",\"seen\":0,\"specdrops\":[0,0],\"specfails\":0}\n"
        } else {
            "0 {\"error\":15,\"name\":\"Quota\"}\n"
        })?;
    }
    Ok((asked, answered))
}

/// An input that comes at once or by few bytes, interrupted or not, and an output that takes as many: the longest, of 1.2
/// megabytes, by one byte.
#[test]
fn slow_streams_are_read_and_written_to_their_end(rt: HostRuntime) -> Result<(), Fail> {
    let alloc = rt.alloc();
    for (lines, at_once, interruptions) in [
        (50_000usize, 1, 0u32),
        (5_000, usize::MAX, 0),
        (5_000, 1, 1),
        (5_000, 1000, 1),
        (5_000, 100_000, 10_000),
    ] {
        let (asked, answered) = long_session(alloc, lines)?;
        let mut input = Input::new(asked.as_str());
        input.at_once = at_once;
        input.interruptions = interruptions;
        let mut output = Output::new(alloc);
        output.at_once = at_once;
        output.interruptions = interruptions;
        let (bytes, fault) = told(input, output, alloc);
        assert_eq!(rt; fault, None);
        assert!(rt;
            bytes.as_slice() == answered.as_bytes(),
            "{at_once} {interruptions}"
        );
    }
    Ok(())
}

const ASKED: &str = "open 0 root\ncall 0 []\n";

const ANSWERED: &str = "0 {\"error\":2,\"name\":\"Request\"}\n";

#[test]
fn a_read_that_fails_is_told_and_nothing_is_written(rt: HostRuntime) -> Result<(), Fail> {
    let alloc = rt.alloc();
    for at in 0..=ASKED.len() {
        let mut input = Input::new(ASKED);
        input.until_failure = at;
        let (bytes, fault) = told(input, Output::new(alloc), alloc);
        assert_eq!(rt; fault, Some(ReplayFault::Read), "{at}");
        assert!(rt; bytes.is_empty());
    }
    // the input is read whole before its first line is looked at
    let text = "no step\n";
    let mut input = Input::new(text);
    input.until_failure = text.len();
    let (_bytes, fault) = told(input, Output::new(alloc), alloc);
    assert_eq!(rt; fault, Some(ReplayFault::Read));
    let (_bytes, fault) = told(Input::new(text), Output::new(alloc), alloc);
    assert_eq!(rt; fault, Some(ReplayFault::Line(1)));
    Ok(())
}

#[test]
fn a_write_that_fails_is_told_after_what_was_written(rt: HostRuntime) -> Result<(), Fail> {
    let alloc = rt.alloc();
    for at in 0..ANSWERED.len() {
        for failure in [Failure::Error, Failure::TakesNone] {
            let mut output = Output::new(alloc);
            output.until_failure = at;
            output.failure = failure;
            let (bytes, fault) = told(Input::new(ASKED), output, alloc);
            assert_eq!(rt; fault, Some(ReplayFault::Write), "{at}");
            assert!(rt;
                Some(bytes.as_slice()) == ANSWERED.as_bytes().get(..at),
                "{at}"
            );
        }
    }
    let mut output = Output::new(alloc);
    output.flushes = false;
    let (bytes, fault) = told(Input::new(ASKED), output, alloc);
    assert_eq!(rt; fault, Some(ReplayFault::Write));
    assert_eq!(rt; bytes.as_slice(), ANSWERED.as_bytes());
    Ok(())
}

/// Failures in the middle of long streams, and where the end would be.
#[test]
fn a_failure_in_the_middle_is_the_same(rt: HostRuntime) -> Result<(), Fail> {
    let alloc = rt.alloc();
    let (asked, answered) = long_session(alloc, 5_000)?;
    for at in [8_191, 8_192, 8_193, 100_000, asked.as_str().len()] {
        let mut input = Input::new(asked.as_str());
        input.until_failure = at;
        let (bytes, fault) = told(input, Output::new(alloc), alloc);
        assert_eq!(rt; fault, Some(ReplayFault::Read), "{at}");
        assert!(rt; bytes.is_empty());
    }
    for at in [8_192usize, 65_536, 100_000] {
        let mut output = Output::new(alloc);
        output.at_once = 4_096;
        output.until_failure = at;
        let (bytes, fault) = told(Input::new(asked.as_str()), output, alloc);
        assert_eq!(rt; fault, Some(ReplayFault::Write), "{at}");
        assert!(rt;
            Some(bytes.as_slice()) == answered.as_bytes().get(..at),
            "{at}"
        );
    }
    Ok(())
}
