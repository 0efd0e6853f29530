//! What of the file is wrong, where a fault tells it.
use std::fmt;

/// A key of the machine file. A probe is a text and has no keys: of it are told its text or its provider.
#[derive(Clone, Copy, Debug, PartialEq, Eq)]
pub enum FileKey {
    /// The number of processors.
    Cpus,
    /// The list of accounts.
    Accounts,
    /// The list of processes.
    Processes,
    /// The list of probes.
    Probes,
    /// The list of scripts, and one script of it.
    Scripts,
    /// An account's name.
    Name,
    /// The uid of an account or a process.
    Uid,
    /// An account's privileges.
    Privs,
    /// The number of a process, also as a firing names it.
    Pid,
    /// A process's execname.
    Execname,
    /// A probe's text: it is no probe, or an earlier one's.
    Text,
    /// A probe's provider: it is `dtrace`, or names no process of the file.
    Provider,
    /// The identifier of a firing's probe.
    Probe,
    /// A firing's thread.
    Tid,
    /// A firing's mode.
    Mode,
    /// A firing's timestamp.
    Timestamp,
    /// A firing's arguments.
    Args,
    /// The frames of a firing's stack in the kernel.
    Kstack,
    /// The frames of a firing's stack in the process.
    Ustack,
}

impl FileKey {
    ghost use Rattle.std.specs.Prelude.{◌≡◌};
    ghost use Rattle.dt_machine.specs.Found.{key_word};

    /// The key's word, as the file has it.
    pub fn word(self) -> &'static str
        ensures { result.now ≡ key_word self }
    {
        match self {
            FileKey::Cpus => "cpus",
            FileKey::Accounts => "accounts",
            FileKey::Processes => "processes",
            FileKey::Probes => "probes",
            FileKey::Scripts => "scripts",
            FileKey::Name => "name",
            FileKey::Uid => "uid",
            FileKey::Privs => "privs",
            FileKey::Pid => "pid",
            FileKey::Execname => "execname",
            FileKey::Text => "text",
            FileKey::Provider => "provider",
            FileKey::Probe => "probe",
            FileKey::Tid => "tid",
            FileKey::Mode => "mode",
            FileKey::Timestamp => "timestamp",
            FileKey::Args => "args",
            FileKey::Kstack => "kstack",
            FileKey::Ustack => "ustack",
        }
    }
}

impl fmt::Display for FileKey {
    ghost use Rattle.std.specs.Prelude.{Some};
    ghost use Rattle.dt_machine.specs.Found.{key_word};

    ghost output = { λ key. Some (key_word key) };

    fn fmt<W: fmt::Write>(&self, f: &mut fmt::Formatter<W>) -> fmt::Result {
        f.write_str(self.word())
    }
}

/// A part of the machine file that has keys. Rows and processors are numbered from 0 on.
#[derive(Clone, Copy, Debug, PartialEq, Eq)]
pub enum Part {
    /// The whole file.
    File,
    /// The account of this row.
    Account(usize),
    /// The process of this row.
    Process(usize),
    /// The probe of this row.
    Probe(usize),
    /// The script of this processor.
    Script(usize),
    /// The firing of this row of the processor's script.
    Firing { cpu: usize, row: usize },
}

impl Part {
    ghost use Rattle.std.specs.Prelude.{◌≡◌};
    ghost use Rattle.dt_machine.specs.Found.{of};

    /// What is found where a key of this part is wrong.
    pub(crate) fn has(self, key: FileKey) -> Found
        ensures { result ≡ of self key }
    {
        Found { key, part: self }
    }
}

impl fmt::Display for Part {
    ghost use Rattle.std.specs.Prelude.{Some};
    ghost use Rattle.dt_machine.specs.Found.{words_of_part};

    ghost output = { λ part. Some (words_of_part part) };

    fn fmt<W: fmt::Write>(&self, f: &mut fmt::Formatter<W>) -> fmt::Result {
        match self {
            Part::File => f.write_str("the file"),
            Part::Account(row) => write!(f, "account {row}"),
            Part::Process(row) => write!(f, "process {row}"),
            Part::Probe(row) => write!(f, "probe {row}"),
            Part::Script(cpu) => write!(f, "processor {cpu}"),
            Part::Firing { cpu, row } => write!(f, "firing {row} of processor {cpu}"),
        }
    }
}

/// What is wrong in a refused file: a key, and the part that has it. It prints as `uid of account 3`.
#[derive(Clone, Copy, Debug, PartialEq, Eq)]
pub struct Found {
    /// The key that is missing, or whose value is wrong.
    pub key: FileKey,
    /// The part that has the key.
    pub part: Part,
}

impl fmt::Display for Found {
    ghost use Rattle.std.specs.Prelude.{Some, ◌++◌, codes};
    ghost use Rattle.dt_machine.specs.Found.{key_word, words_of_part};

    ghost output = { λ found. Some (key_word found.key ++ (codes " of " ++ words_of_part found.part)) };

    fn fmt<W: fmt::Write>(&self, f: &mut fmt::Formatter<W>) -> fmt::Result {
        write!(f, "{} of {}", self.key, self.part)
    }
}
