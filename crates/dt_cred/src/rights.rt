//! What an account may enable, and which firings it is shown.
ghost use Rattle.std.specs.Prelude.{◌≡◌, ◌↔◌, IsTrue, Option};
ghost use Rattle.std.specs.Option.{option_copied};
ghost use Rattle.dt_cred.specs.Rights as spec;
ghost use Rattle.dt_cred.specs.declared.account.Account.{Account};
ghost use Rattle.dt_cred.specs.declared.account.Privs.{Privs};
ghost use Rattle.dt_cred.specs.declared.account.Process.{Process};
ghost use Rattle.dt_cred.specs.declared.class.Class.{Class};
ghost use Rattle.dt_cred.specs.declared.rights.Mode.{Mode};
ghost use Rattle.dt_cred.specs.Rights.{HasDtrace, Permits, MayTrace, MayEnable, Admits};

use crate::account::{Account, Process};
use crate::class::Class;
use crate::probe::Probe;

/// The mode of the processor when a probe fired.
#[derive(Clone, Copy, Debug, Default, PartialEq, Eq)]
pub enum Mode {
    #[default]
    User,
    Kernel,
}

/// Whether an account has permission over a process: its uid is the account's, or the account has proc_owner.
pub fn permits(account: &Account, process: &Process) -> bool
    ensures table { IsTrue result ↔ Permits account.now process.now }
    ensures test { result ≡ spec.permits account.now process.now }
{
    account.uid == process.uid || account.privs.proc_owner
}

/// Whether an account may enable a probe. A probe that it may not enable doesn't match for it.
///
/// `process` is the one that a `pid` provider names, if the machine has it; it is looked at for such a probe alone,
/// and with none, or another process than the named one, the answer is no.
pub fn may_enable(account: &Account, probe: &Probe, process: Option<&Process>) -> bool
    ensures table { IsTrue result ↔ MayEnable account.now probe.now.class (option_copied process.entry) }
    ensures test { result ≡ spec.may_enable account.now probe.now.class (option_copied process.entry) }
{
    let privs = account.privs;
    match probe.class {
        Class::Dtrace => privs.has_dtrace(),
        Class::Syscall | Class::Profile => privs.dtrace_user || privs.dtrace_kernel,
        Class::Pid(pid) => match process {
            Some(process) => u128::from(process.pid) == pid && may_trace(account, process),
            None => false,
        },
        Class::Other => privs.dtrace_kernel,
    }
}

/// Whether an account may enable the probes of a process by its `pid` provider.
fn may_trace(account: &Account, process: &Process) -> bool
    ensures table { IsTrue result ↔ MayTrace account.now process.now }
    ensures test { result ≡ spec.may_trace account.now process.now }
{
    let privs = account.privs;
    (privs.dtrace_proc && permits(account, process))
        || (privs.dtrace_kernel && process.uid == account.uid)
}

/// Whether an account is shown a firing of a probe that it has enabled, made in this mode by this process.
pub fn admits(account: &Account, probe: &Probe, mode: Mode, process: &Process) -> bool
    ensures table { IsTrue result ↔ Admits account.now probe.now.class mode process.now }
    ensures test { result ≡ spec.admits account.now probe.now.class mode process.now }
{
    // whoever holds dtrace_kernel is shown every firing
    account.privs.dtrace_kernel
        || match probe.class {
            Class::Syscall => permits(account, process),
            Class::Profile => permits(account, process) && mode == Mode::User,
            Class::Dtrace | Class::Pid(_) | Class::Other => true,
        }
}

/// Law: the table and its tests say the same.
pub fn tests_agree()
    ensures opens { (privs : Privs) → IsTrue (spec.has_dtrace privs) ↔ HasDtrace privs }
    ensures permits { (account : Account) (process : Process) → IsTrue (spec.permits account process)
        ↔ Permits account process }
    ensures traces { (account : Account) (process : Process) → IsTrue (spec.may_trace account process)
        ↔ MayTrace account process }
    ensures enables { (account : Account) (class : Class) (process : Option Process)
        → IsTrue (spec.may_enable account class process) ↔ MayEnable account class process }
    ensures admits { (account : Account) (class : Class) (mode : Mode) (process : Process)
        → IsTrue (spec.admits account class mode process) ↔ Admits account class mode process }
{}
