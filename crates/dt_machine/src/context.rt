//! A firing with what it names.
ghost use Rattle.std.specs.Prelude.{◌≡◌};
ghost use Rattle.dt_machine.specs.Registry.{Registry};
ghost use Rattle.dt_machine.specs.Tests.{is_shown as is_shown_in};

use dt_cred::{Account, Firing, Probe, Process, admits};

/// A probe that fires in a process: a firing, with the probe and the process that it names.
///
/// [`Machine::context`](crate::Machine::context), and [`Machine::context_of`](crate::Machine::context_of) for a firing that is known to belong, look both up once, and lend them
/// to all that the firing is offered to.
#[derive(Clone, Copy)]
pub struct Context<'a> {
    pub probe: &'a Probe,
    pub process: &'a Process,
    pub firing: &'a Firing,
}

impl Context<'_> {
    ghost use Rattle.dt_machine.specs.Context.{IsContext};

    /// Whether an account is shown the firing: an enabled probe also fires where its account may not look, in the processes of
    /// others and in kernel mode.
    pub fn is_shown(&self, account: &Account) -> bool
        ensures { (registry : Registry) → IsContext registry self.now
            → result ≡ is_shown_in account.now registry self.now.firing.now }
    {
        admits(account, self.probe, self.firing.mode, self.process)
    }
}
