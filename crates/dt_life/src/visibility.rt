//! Which firings an account is shown.
ghost use Rattle.std.specs.Prelude.{◌≡◌, Some, IfSome, MatchOption};
ghost use Rattle.dt_machine.specs.Registry.{Belongs};
ghost use Rattle.dt_machine.specs.Shown.{IsShown};
ghost use Rattle.dt_machine.specs.Context.{form_of_context, context_of};

use dt_cred::Account;
use dt_machine::{Context, Firing, Machine};

/// The firing with its probe and its process, where it belongs to the machine and the account is shown it.
pub fn shown<'a>(account: &Account, machine: &'a Machine, firing: &'a Firing) -> Option<Context<'a>>
    ensures of_firing { IfSome result (λ context. context.firing.now ≡ firing.now) }
    ensures shown { MatchOption result
        (Belongs machine.now.registry firing.now → IsShown account.now machine.now.registry firing.now → ⊥)
        (λ context. Belongs machine.now.registry firing.now × IsShown account.now machine.now.registry firing.now
        × (context_of machine.now.registry firing.now ≡ Some (form_of_context context))) }
{
    let context = machine.context(firing)?;
    // an enabled probe also fires where its account may not look: in others' processes, in kernel mode
    if context.is_shown(account) {
        Some(context)
    } else {
        None
    }
}
