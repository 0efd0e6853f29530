//! Clauses that record one number, which a variable names.
ghost use Rattle.std.specs.Prelude.{◌≡◌, ◌++◌};
ghost use Rattle.dt_expr.specs.Scene.{number_named, scene_of};
ghost use Rattle.dt_program.specs.Clause.{form_of_clause, form_of_statement};
ghost use Rattle.dt_record.specs.Taking.{epid_bytes, number_bytes};
ghost use Rattle.dt_record.specs.Traced as spec;

use crate::building::NUMBER_SIZE;
use crate::limits::EPID_SIZE;
use byteorder::{BigEndian, ByteOrder};
use dt_expr::{Expr, NumberVariable, Scene};
use dt_program::{Argument, Clause, Statement};

/// The length of the record of a clause that records one number.
pub const TRACED_SIZE: usize = EPID_SIZE + NUMBER_SIZE;

/// The variable that a statement traces, where it traces one that names a number.
fn variable_of(statement: &Statement) -> Option<NumberVariable>
    ensures { result ≡ spec.variable_of (form_of_statement statement.now) }
{
    match statement {
        Statement::Trace(Argument::Number(Expr::Variable(variable))) => Some(*variable),
        _ => None,
    }
}

/// The variable whose number a clause records whenever its probe fires, where the clause is one `trace` of a variable that names a number, as `trace(arg0)`,
/// without a predicate. Such a clause can be taken by [`traced_record`].
pub fn traced_variable(clause: &Clause) -> Option<NumberVariable>
    ensures { result ≡ spec.traced_variable (form_of_clause clause.now) }
{
    if clause.predicate.is_some() || clause.statements.len() != 1 {
        return None;
    }
    variable_of(&clause.statements[0])
}

/// The record of a clause that traces a variable ([`traced_variable`]), and all that it leaves: the EPID in four bytes, and then the number that the variable
/// names in the scene, in eight, the highest byte first. It takes no memory.
#[inline(always)]
pub fn traced_record(epid: u32, variable: NumberVariable, scene: &Scene) -> [u8; TRACED_SIZE]
    ensures { result ≡ epid_bytes epid ++ number_bytes (number_named (scene_of scene.now) variable) }
{
    let mut bytes = [0; TRACED_SIZE];
    BigEndian::write_u32(&mut bytes, epid);
    BigEndian::write_i64(&mut bytes[EPID_SIZE..], scene.number(variable));
    bytes
}
