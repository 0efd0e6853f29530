//! The room that END's records take of a buffer.
ghost use Rattle.std.specs.Prelude.{◌≡◌, ◌+◌, ◌≤◌, ◌<◌, List, true, false, length, map, sum, All, IfSome, MatchOption};
ghost use Rattle.dt_cred.specs.declared.account.Account.{Account};
ghost use Rattle.dt_machine.specs.Registry.{Registry};
ghost use Rattle.std.specs.List.{list_any};
ghost use Rattle.dt_program.specs.Program.{ClauseForm, form_of_clause};
ghost use Rattle.dt_program.specs.Clause.{form_of_statement};
ghost use Rattle.dt_record.specs.Taking as spec;
ghost use Rattle.dt_ecb.specs.Ecbs.{of_probe};
ghost use Rattle.dt_ecb.specs.Forms.{form_of_ecb};
ghost use Rattle.dt_life.specs.Buffers.{reserve_on};
ghost use Rattle.dt_life.specs.Forms.{form_of_options};
ghost use Rattle.dt_life.specs.Life.{SetUp, attempt_size, ecbs_in, has_room};
ghost use Rattle.dt_life.specs.Placed.{AreEcbs};
ghost use Rattle.dt_life.specs.declared.limits.TheConstants.{END};

use crate::limits::END;
use crate::options::Options;
use dt_buffer::Policy;
use dt_ecb::Ecb;
use dt_program::{Clause, Statement};
use dt_record::Layout;

/// How many bytes of the first processor's buffer are kept for END's records, or `None` where it hasn't as many. Under fill it
/// is one record of each of END's ECBs whose clause doesn't speculate, whatever their predicates; else none.
pub fn end_reserve(options: Options, clauses: &[Clause], ecbs: &[Ecb]) -> Option<usize>
    ensures within { IfSome result (λ reserve. reserve ≤ options.bufsize) }
    // for each set-up with these options, clauses and ECBs
    ensures reserve { (account : Account) (registry : Registry) (s : SetUp) → form_of_options options ≡ s.options
        → map form_of_clause clauses.now ≡ s.clauses → AreEcbs s.clauses (ecbs_in account registry s) ecbs.now
        → MatchOption result (has_room account registry s ≡ false)
        (λ reserve. (has_room account registry s ≡ true) × (reserve ≡ reserve_on account registry s 0)) }
{
    let size = options.bufsize;
    match options.bufpolicy {
        Policy::Fill => Some(size - left_by_end(clauses, ecbs, size)?),
        Policy::Switch | Policy::Ring => Some(0),
    }
}

/// What is left of so many bytes after one record of each of END's ECBs whose clause doesn't speculate, or `None` where they
/// don't suffice. Each ECB has the place of its clause among these.
fn left_by_end(clauses: &[Clause], ecbs: &[Ecb], size: usize) -> Option<usize>
    ensures within { IfSome result (λ left. left ≤ size) }
    // none where these records don't fit the size, else what they leave of it
    ensures left { (forms : List ClauseForm) → map form_of_clause clauses.now ≡ forms
        → All (λ ecb. ecb.clause < length forms) ecbs.now
        → (let sizes = sum (map (λ ecb. attempt_size ecb.clause)
        (of_probe END (map (form_of_ecb forms) ecbs.now))) in
        MatchOption result (size < sizes) (λ left. left + sizes ≡ size)) }
{
    let mut left = size;
    for ecb in ecbs {
        if ecb.probe == END {
            let clause = clauses.get(ecb.clause)?;
            left = left.checked_sub(size_attempted(clause))?;
        }
    }
    Some(left)
}

/// How many bytes the record of a clause takes that it attempts to put into its processor's buffer: none where the clause
/// speculates.
fn size_attempted(clause: &Clause) -> usize
    ensures { result ≡ attempt_size (form_of_clause clause.now) }
{
    if speculate(&clause.statements) {
        0
    } else {
        Layout::of(clause).size()
    }
}

/// Whether one of the statements directs the record to a speculation.
fn speculate(statements: &[Statement]) -> bool
    ensures { result ≡ list_any (λ statement. spec.is_speculating (form_of_statement statement)) statements.now }
{
    statements.iter().any(|statement| is_speculating(statement))
}

/// Whether a statement directs the record to a speculation.
fn is_speculating(statement: &Statement) -> bool
    ensures { result ≡ spec.is_speculating (form_of_statement statement.now) }
{
    matches!(statement, Statement::Speculate(_))
}
