//! Which clauses leave a record.
ghost use Rattle.std.specs.Prelude.{◌≡◌, map};
ghost use Rattle.std.specs.List.{list_all, list_any};
ghost use Rattle.dt_program.specs.Clause.{form_of_clause, form_of_statement};
ghost use Rattle.dt_record.specs.Taking as spec;

use dt_program::{Clause, Statement};

/// Whether a statement puts something into the record, or directs the record to a speculation.
fn asks_for_record(statement: &Statement) -> bool
    ensures { result ≡ spec.asks_for_record (form_of_statement statement.now) }
{
    matches!(
        statement,
        Statement::Trace(_) | Statement::Stack(_) | Statement::Ustack(_) | Statement::Speculate(_)
    )
}

/// Whether one of the statements does so.
fn any_asks(statements: &[Statement]) -> bool
    ensures { result ≡ list_any (λ statement. spec.asks_for_record (form_of_statement statement)) statements.now }
{
    statements
        .iter()
        .any(|statement| asks_for_record(statement))
}

/// Whether statements leave a record: one of them records something or directs the record to a speculation, or there is none.
fn leave_record(statements: &[Statement]) -> bool
    ensures { result ≡ spec.leaves_record (map form_of_statement statements.now) }
{
    statements.is_empty() || any_asks(statements)
}

/// Whether a clause leaves a record where it is taken: one of its statements records something or directs the record to a
/// speculation, or it has none.
pub fn leaves_record(clause: &Clause) -> bool
    ensures { result ≡ spec.leaves_record (form_of_clause clause.now).statements }
{
    leave_record(&clause.statements)
}

/// Whether a statement puts something into the record.
fn records(statement: &Statement) -> bool
    ensures { result ≡ spec.is_recording (form_of_statement statement.now) }
{
    matches!(
        statement,
        Statement::Trace(_) | Statement::Stack(_) | Statement::Ustack(_)
    )
}

/// Whether each of the statements does so.
fn all_record(statements: &[Statement]) -> bool
    ensures { result ≡ list_all (λ statement. spec.is_recording (form_of_statement statement)) statements.now }
{
    statements.iter().all(|statement| records(statement))
}

/// Whether all that a clause does where it is taken is to record: each of its statements records something, or there is none. Such a
/// clause can be taken by [`record_only`](crate::record_only).
pub fn only_records(clause: &Clause) -> bool
    ensures { result ≡ spec.only_records (form_of_clause clause.now).statements }
{
    all_record(&clause.statements)
}

/// Whether a statement gives to an aggregation.
fn gives(statement: &Statement) -> bool
    ensures { result ≡ spec.is_giving (form_of_statement statement.now) }
{
    matches!(statement, Statement::Aggregate(_))
}

/// Whether each of the statements does so.
fn all_give(statements: &[Statement]) -> bool
    ensures { result ≡ list_all (λ statement. spec.is_giving (form_of_statement statement)) statements.now }
{
    statements.iter().all(|statement| gives(statement))
}

/// Whether there are statements, and each does so.
fn only_give(statements: &[Statement]) -> bool
    ensures { result ≡ spec.only_gives (map form_of_statement statements.now) }
{
    !statements.is_empty() && all_give(statements)
}

/// Whether all that a clause does where it is taken is to give to aggregations: it has statements, and each of them does so. Such a
/// clause leaves no record, and can be taken by [`give_only`](crate::give_only).
pub fn only_gives(clause: &Clause) -> bool
    ensures { result ≡ spec.only_gives (form_of_clause clause.now).statements }
{
    only_give(&clause.statements)
}
