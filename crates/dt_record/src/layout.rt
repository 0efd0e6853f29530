//! Of what a clause's record is made.
ghost use Rattle.std.specs.Prelude.{◌≡◌, ◌≤◌, ◌*◌, Some, None, length, map, sum};
ghost use Rattle.std.specs.Option.{option_map};
ghost use Rattle.dt_program.specs.Clause.{form_of_clause, form_of_statement};
ghost use Rattle.dt_program.specs.declared.clause.TheConstants.{STATEMENTS_MAX};
ghost use Rattle.dt_cred.specs.declared.firing.TheConstants.{FRAMES};
ghost use Rattle.dt_record.specs.Fields.{form_of_field, form_of_layout};
ghost use Rattle.dt_record.specs.Layout as spec;
ghost use Rattle.dt_record.specs.Layout.{layout_of, fields_of, field_size, layout_size};

use crate::limits::EPID_SIZE;
use crate::recording::leaves_record;
use arrayvec::ArrayVec;
use dt_names::PADDED_SIZE;
use dt_program::{Argument, Clause, Frames, STATEMENTS_MAX, Statement};

/// A value of a record.
#[derive(Clone, Copy, Debug, Default, PartialEq, Eq)]
pub enum Field {
    /// A number, in 8 bytes.
    #[default]
    Number,
    /// A text, and zeros up to 32 bytes.
    Text,
    /// The first frames of the kernel's stack, in 8 bytes each.
    Stack(Frames),
    /// The first frames of the process's stack, in 8 bytes each.
    Ustack(Frames),
}

/// The values of a clause's record, in order, after the EPID.
#[derive(Drop)]
pub struct Layout {
    /// `None` where the clause leaves no record.
    pub fields: Option<ArrayVec<Field, STATEMENTS_MAX>>,
}

impl Layout {
    /// The layout of a clause's record.
    pub fn of(clause: &Clause) -> Self
        ensures { form_of_layout result ≡ layout_of (form_of_clause clause.now) }
    {
        let fields = if leaves_record(clause) {
            Some(fields(&clause.statements))
        } else {
            None
        };
        Layout { fields }
    }

    /// The length of the record in bytes: the EPID's four, and those of the values; 0 where there is none.
    pub fn size(&self) -> usize
        ensures { result ≡ layout_size (form_of_layout self.now) }
    {
        match &self.fields {
            Some(fields) => EPID_SIZE + total(fields),
            None => 0,
        }
    }
}

impl Field {
    /// How many bytes the value takes: 8, 32, or 8 for each frame.
    pub fn size(self) -> usize
        ensures size { result ≡ field_size (form_of_field self) }
        ensures small { result ≤ 8 * FRAMES }
    {
        match self {
            Field::Number => 8,
            Field::Text => PADDED_SIZE,
            Field::Stack(frames) | Field::Ustack(frames) => 8 * usize::from(frames.count),
        }
    }
}

/// What a statement puts into the record.
fn field_of(statement: &Statement) -> Option<Field>
    ensures { option_map form_of_field result ≡ spec.field_of (form_of_statement statement.now) }
{
    match statement {
        Statement::Trace(Argument::Number(_)) => Some(Field::Number),
        Statement::Trace(Argument::Text(_)) => Some(Field::Text),
        Statement::Stack(frames) => Some(Field::Stack(*frames)),
        Statement::Ustack(frames) => Some(Field::Ustack(*frames)),
        _ => None,
    }
}

/// What the statements put into the record, in order.
fn fields(statements: &[Statement]) -> ArrayVec<Field, STATEMENTS_MAX>
    requires { length statements.now ≤ STATEMENTS_MAX }
    ensures { map form_of_field result.items ≡ fields_of (map form_of_statement statements.now) }
{
    let mut fields = ArrayVec::new();
    for statement in statements {
        if let Some(field) = field_of(statement) {
            fields.push(field);
        }
    }
    fields
}

/// How many bytes the values take.
pub(crate) fn total(fields: &[Field]) -> usize
    requires { length fields.now ≤ STATEMENTS_MAX }
    ensures total { result ≡ sum (map field_size (map form_of_field fields.now)) }
    ensures small { result ≤ 8 * FRAMES * length fields.now }
{
    let mut total = 0;
    for field in fields {
        total += field.size();
    }
    total
}
