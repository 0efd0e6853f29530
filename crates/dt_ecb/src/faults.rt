//! The first clauses for which a program is refused.
ghost use Rattle.std.specs.Prelude.{◌≡◌, ◌||◌, true, false, not, MatchOption};
ghost use Rattle.std.specs.List.{list_any};
ghost use Rattle.dt_program.specs.Program.{form_of_program, form_of_statement};
ghost use Rattle.dt_ecb.specs.Enable.{IsFirstSuch};
ghost use Rattle.dt_ecb.specs.Enable as spec;

use dt_cred::Account;
use dt_program::{Clause, Program, Statement};

/// The number of the first clause that does what the account has no right to, counted from 1.
pub(crate) fn first_unallowed(account: &Account, program: &Program) -> Option<u32>
    ensures { MatchOption result
        ((account.now.privs.dtrace_kernel || not (list_any spec.has_stack (form_of_program program.now))) ≡ true)
        (λ number. (account.now.privs.dtrace_kernel ≡ false)
        × IsFirstSuch spec.has_stack (form_of_program program.now) number) }
{
    // only `stack` wants a privilege of its own
    if account.privs.dtrace_kernel {
        return None;
    }
    first_with_stack(program)
}

/// The number of the first clause that records the kernel's stack, counted from 1.
fn first_with_stack(program: &Program) -> Option<u32>
    ensures { MatchOption result (list_any spec.has_stack (form_of_program program.now) ≡ false)
        (IsFirstSuch spec.has_stack (form_of_program program.now)) }
{
    for (place, clause) in program.clauses.iter().enumerate() {
        // the refusal names the first such clause, and no later one
        if has_stack(clause) {
            return Some(place as u32 + 1);
        }
    }
    None
}

/// Whether a clause records the kernel's stack.
fn has_stack(clause: &Clause) -> bool
    ensures { result ≡ list_any (λ statement. spec.is_stack (form_of_statement statement))
        clause.now.statements.items }
{
    clause
        .statements
        .iter()
        .any(|statement| is_stack(statement))
}

/// Whether a statement records the kernel's stack.
fn is_stack(statement: &Statement) -> bool
    ensures { result ≡ spec.is_stack (form_of_statement statement.now) }
{
    matches!(statement, Statement::Stack(_))
}
