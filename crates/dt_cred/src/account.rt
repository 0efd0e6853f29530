//! Accounts with their privileges, and processes.
ghost use Rattle.std.specs.Prelude.{◌↔◌, IsTrue};
ghost use Rattle.dt_cred.specs.Rights.{HasDtrace};

use dt_names::{Name, ShortText};

/// The privileges of an account, each held or not.
#[derive(Clone, Copy, Debug, Default, PartialEq, Eq)]
pub struct Privs {
    /// System calls and profile probes of processes under its permission.
    pub dtrace_user: bool,
    /// `pid` probes of processes under its permission.
    pub dtrace_proc: bool,
    /// Every probe but those of other users' processes by `pid`, and every firing.
    pub dtrace_kernel: bool,
    /// Permission over every process.
    pub proc_owner: bool,
}

impl Privs {
    /// Whether one of the three dtrace privileges is held, without which an account can open no session.
    pub fn has_dtrace(self) -> bool
        ensures { IsTrue result ↔ HasDtrace self }
    {
        self.dtrace_user || self.dtrace_proc || self.dtrace_kernel
    }
}

/// An account of the machine, on whose behalf a consumer traces.
#[derive(Clone, Copy, Debug, PartialEq, Eq)]
pub struct Account {
    pub name: Name,
    pub uid: u32,
    pub privs: Privs,
}

/// A process of the machine.
#[derive(Clone, Copy, PartialEq, Eq)]
pub struct Process {
    pub pid: u32,
    pub uid: u32,
    /// The name of what it runs: a text of visible ASCII characters and spaces.
    pub execname: ShortText,
}
