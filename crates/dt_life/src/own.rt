//! The firings of BEGIN and END, a consumer's own.
ghost use Rattle.std.specs.Prelude.{◌≡◌};
ghost use Rattle.dt_life.specs.Takings as spec;

use dt_cred::{Account, Mode, Process};
use dt_machine::{ARGS, FRAMES, Firing};
use dt_names::ShortText;

/// The firing of BEGIN or END: on processor 0 at time 0, with arguments that are all 0 and no frames.
pub fn own_firing(probe: u32) -> Firing
    ensures { result ≡ spec.own_firing probe }
{
    Firing {
        cpu: 0,
        place: 0,
        probe,
        pid: 0,
        tid: 0,
        mode: Mode::User,
        timestamp: 0,
        args: [0; ARGS],
        kstack: [0; FRAMES],
        ustack: [0; FRAMES],
    }
}

/// The process in which they fire: of number 0, with the account's uid and no name.
pub fn own_process(account: &Account) -> Process
    ensures { result ≡ spec.own_process account.now }
{
    Process {
        pid: 0,
        uid: account.uid,
        execname: ShortText::new(b"").unwrap(),
    }
}
