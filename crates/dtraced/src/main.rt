//! `dtraced`, the tracing service. Its word `serve` serves a machine: a Unix socket for each account, a thread for each session and for each
//! processor. Its word `send` is a client of it. Its word `replay` takes a machine file, reads step lines from standard input, and
//! writes the replies of all sessions to standard output, or the trail of one seat. Its word `check` tells whether a trail
//! says what its session was to be answered.
//!
//! What stands here are words, files and streams. What is written is what [`writing::write_replay`] is proved to write; what a session is served is what
//! `dt_server::serve_session` is proved to serve.
#![tactic(auto)]

mod account_sockets;
pub mod command;
mod commanding;
pub mod fault;
pub mod laws;
pub mod seat;
mod sending;
mod starting;
mod streams;
mod words;
pub mod writing;

use dt_chain::Seat;
use dt_machine::Machine;
use fault::{Fault, status_found};
use sending::send;
use starting::serve;
use std::net::Net;
use std::process::ExitCode;
use std::rt::{Clock, Env, Files};
use std::sync::Wait;
use std::thread::Threads;
use std::{env, fs, io};
use streams::hold_streams;
use words::{Words, WordsFault};
use writing::{write_check, write_replay};

fn main(rt: HostRuntime) -> ExitCode {
    let done = match hold_streams(&rt) {
        Ok(()) => execute(&rt, rt),
        Err(fault) => Err(fault),
    };
    match done {
        Ok(status) => status,
        Err(fault) => {
            // Where standard error fails too, the status is all that tells.
            let _told = eprintln!(rt; "{fault}");
            ExitCode::from(fault.status())
        }
    }
}

/// Does what the program's words ask for, on the real files and streams, and gives the status where nothing failed. A service's threads are started
/// through `threads`.
fn execute<
    R: Files + Net + Env + Input + Print + AllocGlobal,
    T: Threads + Wait + Clock + Send + Sync + Copy + Drop + 'static,
>(rt: &R, threads: T) -> Result<ExitCode, Fault> {
    let args = env::args(rt).map_err(|error| Fault::of_words(&error))?;
    // a lack of memory for the words, here and below, is told as a device that failed
    let Ok(args) = args.collect::<Vec<String>>(rt.alloc()) else {
        return Err(Fault::Device);
    };
    let Ok(words) = args
        .iter()
        .map(|word| word.as_str())
        .collect::<Vec<&str>>(rt.alloc())
    else {
        return Err(Fault::Device);
    };
    match Words::read(rt.alloc(), &words) {
        Ok(Words::Replay { machine, trail }) => replay_file(rt, machine, trail),
        Ok(Words::Check { machine, trail }) => check_file(rt, machine, trail),
        Ok(Words::Serve { machine, folder }) => {
            serve(rt, threads, machine, folder)?;
            Ok(ExitCode::SUCCESS)
        }
        Ok(Words::Send { path }) => {
            send(rt, path)?;
            Ok(ExitCode::SUCCESS)
        }
        Err(WordsFault::Usage) => Err(Fault::Usage),
        Err(WordsFault::Memory) => Err(Fault::Device),
    }
}

/// Replays the input on a machine file, and writes the replies, or the trail of a seat.
fn replay_file<R: Files + Input + Print + AllocGlobal>(
    rt: &R,
    machine: &str,
    trail: Option<Seat>,
) -> Result<ExitCode, Fault> {
    let machine = fs::read(rt, machine).map_err(|_| Fault::Device)?;
    let mut reader = rt.reader();
    let mut writer = io::writer(rt);
    write_replay(rt.alloc(), &machine, trail, &mut reader, &mut writer).map_err(Fault::Replay)?;
    Ok(ExitCode::SUCCESS)
}

/// Checks a trail file on a machine file, and tells what it found. Where the trail doesn't agree the status is 1.
fn check_file<R: Files + Print + AllocGlobal>(
    rt: &R,
    machine: &str,
    trail: &str,
) -> Result<ExitCode, Fault> {
    let machine = fs::read(rt, machine).map_err(|_| Fault::Device)?;
    let machine = Machine::read(rt.alloc(), &machine).map_err(Fault::Machine)?;
    let trail = fs::read(rt, trail).map_err(|_| Fault::Device)?;
    let mut writer = io::writer(rt);
    let verdict = write_check(rt.alloc(), &machine, &trail, &mut writer)?;
    Ok(ExitCode::from(status_found(verdict)))
}
