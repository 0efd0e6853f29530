//! The words that the program is called with.
ghost use Rattle.std.specs.Prelude.{◌≡◌, ◌↔◌, ℕ, List, [], IfOk, IfErr, false, map, option_map, Option};
ghost use Rattle.std.specs.Borrow.{Bor};
ghost use Rattle.clap.specs.Words.{app_of, fault_of, first_of, found_of, kind_of, rows_of, rule_of, subcommand_of, subcommand_rows_of};
ghost use Rattle.clap.specs.declared.builder.command.Command.TheViews.{out-Command};
ghost use Rattle.dtraced.specs.Words.{Asks, HasValues, IsSeatOf, file, subcommand_name, program, replay_command, check_command, serve_command, send_command};

use crate::seat::seat_of;
use clap::error::ErrorKind;
use clap::{Arg, ArgAction, ArgMatches, Command};
use dt_chain::Seat;
use std::alloc::{AllocError, Global};

/// What the program is asked for.
#[derive(Clone, Copy, PartialEq, Eq)]
pub(crate) enum Words<'a> {
    /// `dtraced replay <machine> [--trail <seat>]`: a replay on this machine file. Its replies are written, or the trail
    /// of the session on the seat.
    Replay {
        machine: &'a str,
        trail: Option<Seat>,
    },
    /// `dtraced check <machine> <trail>`: whether a trail file says what its session was to be answered on this machine
    /// file.
    Check {
        machine: &'a str,
        trail: &'a str,
    },
    /// `dtraced serve <machine> <folder>`: a service of this machine file, with a socket for each account in the folder.
    Serve {
        machine: &'a str,
        folder: &'a str,
    },
    /// `dtraced send <path>`: a client of the service whose socket is at the path.
    Send {
        path: &'a str,
    },
}

/// Why the words ask for nothing.
#[derive(Clone, Copy, Debug, PartialEq, Eq)]
pub(crate) enum WordsFault {
    /// They are none of the program's forms. A call for help is none either.
    Usage,
    /// Memory ran out.
    Memory,
}

impl WordsFault {
    fn of(error: &clap::Error) -> Self
        ensures { result ≡ WordsFault.Memory ↔ kind_of error.now ≡ ErrorKind.OutOfMemory }
    {
        if error.kind() == ErrorKind::OutOfMemory {
            WordsFault::Memory
        } else {
            WordsFault::Usage
        }
    }
}

impl<'a> Words<'a> {
    /// Reads the program's words, of which the first is its own name.
    pub(crate) fn read(alloc: Global, words: &'a [&'a str]) -> Result<Self, WordsFault>
        ensures ok { IfOk result (λ asked. Asks (map (λ word. word.now) words.now) asked) }
        // Where they ask for anything, only memory can have run out.
        ensures err { IfErr result (λ fault. (asked : Words)
            → Asks (map (λ word. word.now) words.now) asked → fault ≡ WordsFault.Memory) }
    {
        let matches = matches_of(alloc, words)?;
        let Some((name, given)) = matches.subcommand() else {
            return Err(WordsFault::Usage);
        };
        Words::of_subcommand(name, given)
    }

    /// What the subcommand of this name asks for with these values.
    fn of_subcommand(name: &str, given: &ArgMatches<'a>) -> Result<Self, WordsFault>
        ensures ok { IfOk result (λ asked. (subcommand_name asked ≡ name.now) × HasValues (rows_of (found_of given.now)) asked) }
        ensures err { IfErr result (λ _. (asked : Words)
            → subcommand_name asked ≡ name.now → HasValues (rows_of (found_of given.now)) asked → ⊥) }
    {
        if name == "replay" {
            return Words::of_replay(given);
        }
        if name == "check" {
            return Words::of_check(given);
        }
        if name == "serve" {
            return Words::of_serve(given);
        }
        if name == "send" {
            return Words::of_send(given);
        }
        // clap answers a call for help itself, and knows no other word
        Err(WordsFault::Usage)
    }

    /// What `replay` asks for with these values.
    fn of_replay(given: &ArgMatches<'a>) -> Result<Self, WordsFault>
        ensures ok { IfOk result (λ asked. (machine : Bor (List ℕ)) × (trail : Option ℕ)
            × (asked ≡ Words.Replay machine trail) × HasValues (rows_of (found_of given.now)) asked) }
        ensures err { IfErr result (λ _. (machine : Bor (List ℕ)) (trail : Option ℕ)
            → HasValues (rows_of (found_of given.now)) (Words.Replay machine trail) → ⊥) }
    {
        let Some(machine) = value_in(given, "machine") else {
            return Err(WordsFault::Usage);
        };
        match seat_in(value_in(given, "trail")) {
            Ok(trail) => Ok(Words::Replay { machine, trail }),
            Err(fault) => Err(fault),
        }
    }

    /// What `check` asks for with these values.
    fn of_check(given: &ArgMatches<'a>) -> Result<Self, WordsFault>
        ensures ok { IfOk result (λ asked. (machine trail : Bor (List ℕ))
            × (asked ≡ Words.Check machine trail) × HasValues (rows_of (found_of given.now)) asked) }
        ensures err { IfErr result (λ _. (machine trail : Bor (List ℕ))
            → HasValues (rows_of (found_of given.now)) (Words.Check machine trail) → ⊥) }
    {
        let Some(machine) = value_in(given, "machine") else {
            return Err(WordsFault::Usage);
        };
        let Some(trail) = value_in(given, "trail") else {
            return Err(WordsFault::Usage);
        };
        Ok(Words::Check { machine, trail })
    }

    /// What `serve` asks for with these values.
    fn of_serve(given: &ArgMatches<'a>) -> Result<Self, WordsFault>
        ensures ok { IfOk result (λ asked. (machine folder : Bor (List ℕ))
            × (asked ≡ Words.Serve machine folder) × HasValues (rows_of (found_of given.now)) asked) }
        ensures err { IfErr result (λ _. (machine folder : Bor (List ℕ))
            → HasValues (rows_of (found_of given.now)) (Words.Serve machine folder) → ⊥) }
    {
        let Some(machine) = value_in(given, "machine") else {
            return Err(WordsFault::Usage);
        };
        let Some(folder) = value_in(given, "folder") else {
            return Err(WordsFault::Usage);
        };
        Ok(Words::Serve { machine, folder })
    }

    /// What `send` asks for with these values.
    fn of_send(given: &ArgMatches<'a>) -> Result<Self, WordsFault>
        ensures ok { IfOk result (λ asked. (path : Bor (List ℕ))
            × (asked ≡ Words.Send path) × HasValues (rows_of (found_of given.now)) asked) }
        ensures err { IfErr result (λ _. (path : Bor (List ℕ))
            → HasValues (rows_of (found_of given.now)) (Words.Send path) → ⊥) }
    {
        match value_in(given, "path") {
            Some(path) => Ok(Words::Send { path }),
            None => Err(WordsFault::Usage),
        }
    }
}

/// The first value that is given to this argument.
fn value_in<'a>(given: &ArgMatches<'a>, id: &str) -> Option<&'a str>
    ensures { option_map (λ s. s.now) result ≡ first_of id.now (rows_of (found_of given.now)) }
{
    given.get_str(id)
}

/// The seat that the word spells, where there is one.
fn seat_in(word: Option<&str>) -> Result<Option<Seat>, WordsFault>
    ensures ok { IfOk result (λ seat. IsSeatOf (option_map (λ w. w.now) word.entry) seat) }
    ensures err { IfErr result (λ _. (seat : Option ℕ) → IsSeatOf (option_map (λ w. w.now) word.entry) seat → ⊥) }
{
    match word {
        Some(word) => match seat_of(word) {
            Some(seat) => Ok(Some(seat)),
            None => Err(WordsFault::Usage),
        },
        None => Ok(None),
    }
}

/// What clap finds in the program's words.
fn matches_of<'a>(alloc: Global, words: &'a [&'a str]) -> Result<ArgMatches<'a>, WordsFault>
    ensures ok { IfOk result (λ matches. (fault_of program (map (λ word. word.now) words.now) ≡ [])
        × (subcommand_rows_of matches ≡ subcommand_of program (map (λ word. word.now) words.now))) }
    ensures err { IfErr result (λ fault. fault_of program (map (λ word. word.now) words.now) ≡ []
        → fault ≡ WordsFault.Memory) }
{
    let Ok(command) = program(alloc) else {
        return Err(WordsFault::Memory);
    };
    match command.try_get_matches_from(words) {
        Ok(matches) => Ok(matches),
        Err(error) => Err(WordsFault::of(&error)),
    }
}

/// The forms of the program's words.
fn program<'a>(alloc: Global) -> Result<Command<'a>, AllocError>
    ensures { IfOk result (λ command. app_of command ≡ program) }
{
    let replay = replay_command(alloc)?;
    let check = check_command(alloc)?;
    let serve = serve_command(alloc)?;
    let send = send_command(alloc)?;
    Command::new(alloc, "dtraced")
        .subcommand(replay)?
        .subcommand(check)?
        .subcommand(serve)?
        .subcommand(send)
}

/// `replay <machine> [--trail <seat>]`.
fn replay_command<'a>(alloc: Global) -> Result<Command<'a>, AllocError>
    ensures form { IfOk result (λ command. app_of command ≡ replay_command) }
    ensures local { IfOk result (λ command. (out-Command command).has_globals ≡ false) }
{
    Command::new(alloc, "replay")
        .arg(file(alloc, "machine"))?
        .arg(
            Arg::new(alloc, "trail")
                .long("trail")
                .action(ArgAction::Set),
        )
}

/// `check <machine> <trail>`.
fn check_command<'a>(alloc: Global) -> Result<Command<'a>, AllocError>
    ensures form { IfOk result (λ command. app_of command ≡ check_command) }
    ensures local { IfOk result (λ command. (out-Command command).has_globals ≡ false) }
{
    Command::new(alloc, "check")
        .arg(file(alloc, "machine"))?
        .arg(file(alloc, "trail"))
}

/// `serve <machine> <folder>`.
fn serve_command<'a>(alloc: Global) -> Result<Command<'a>, AllocError>
    ensures form { IfOk result (λ command. app_of command ≡ serve_command) }
    ensures local { IfOk result (λ command. (out-Command command).has_globals ≡ false) }
{
    Command::new(alloc, "serve")
        .arg(file(alloc, "machine"))?
        .arg(file(alloc, "folder"))
}

/// `send <path>`.
fn send_command<'a>(alloc: Global) -> Result<Command<'a>, AllocError>
    ensures form { IfOk result (λ command. app_of command ≡ send_command) }
    ensures local { IfOk result (λ command. (out-Command command).has_globals ≡ false) }
{
    Command::new(alloc, "send").arg(file(alloc, "path"))
}

/// The word of a file or a folder, which must be there.
fn file<'a>(alloc: Global, id: &'a str) -> Arg<'a>
    ensures rule { rule_of result ≡ file id.entry.now }
    ensures local { result.global ≡ false }
{
    Arg::new(alloc, id).required(true).action(ArgAction::Set)
}
