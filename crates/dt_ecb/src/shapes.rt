//! The aggregations of a consumer's accepted programs.
ghost use Rattle.std.specs.Prelude.{◌≡◌, ◌++◌, [], map, option_map, OnOk, IfOk};
ghost use Rattle.std.specs.List.{flat_map};
ghost use Rattle.dt_program.specs.Program.{form_of_program, form_of_statement};
ghost use Rattle.dt_ecb.specs.Forms.{form_of_named, form_of_shape, shapes_of};
ghost use Rattle.dt_ecb.specs.Shapes.{named, used_by, uses_of};

use crate::shape::Shape;
use dt_aggfn::AggFn;
use dt_names::ShortText;
use dt_program::{Program, Statement};
use std::alloc::{AllocError, Global};

/// An aggregation of the accepted programs: its number, its name, and by which function it is kept.
#[derive(Clone, Copy, PartialEq, Eq)]
pub struct NumberedAggregation {
    /// Its number: the place of its name's first use among all uses of the accepted programs, from 0 on. It stays the
    /// same whatever is accepted later. Numbers have gaps: further uses of a name take places, and no numbers.
    pub number: usize,
    /// Its name, without the `@`. It is empty where the aggregation has none.
    pub name: ShortText,
    /// By which function it is kept.
    pub function: AggFn,
}

/// The aggregations that accepted programs use, each use with its name, function, bounds and kinds of keys. (illumos
/// Dynamic Tracing Guide, "Aggregations".)
#[derive(Drop)]
pub struct Shapes {
    pub(crate) uses: Vec<Shape>,
}

impl Shapes {
    /// None yet. It takes no memory.
    pub fn new(alloc: Global) -> Self
        ensures { shapes_of result ≡ [] }
    {
        Shapes {
            uses: Vec::new(alloc),
        }
    }

    /// Those of a program alone.
    pub(crate) fn of(alloc: Global, program: &Program) -> Result<Self, AllocError>
        ensures { IfOk result (λ shapes. shapes_of shapes ≡ uses_of (form_of_program program.now)) }
    {
        Shapes::new(alloc).after(alloc, program)
    }

    /// These, and after them those of a further program.
    pub fn after(&self, alloc: Global, program: &Program) -> Result<Self, AllocError>
        ensures { IfOk result (λ shapes.
            shapes_of shapes ≡ shapes_of self.now ++ uses_of (form_of_program program.now)) }
    {
        let mut uses = copied(alloc, &self.uses)?;
        for clause in &program.clauses {
            push_uses(alloc, &mut uses, &clause.statements)?;
        }
        Ok(Shapes { uses })
    }

    /// The aggregation of this name, or `None` where no accepted program uses the name. It takes no memory.
    pub fn named(&self, name: &[u8]) -> Option<NumberedAggregation>
        ensures { option_map form_of_named result ≡ option_map (λ one. (one.0, (one.1.name, one.1.function)))
            (named (shapes_of self.now) name.now) }
    {
        for (number, one) in self.uses.iter().enumerate() {
            // the first use gives number and function: they stay the same whatever is accepted later
            if one.name.as_bytes() == name {
                return Some(NumberedAggregation {
                    number,
                    name: one.name,
                    function: one.function,
                });
            }
        }
        None
    }
}

/// The same uses once more.
fn copied(alloc: Global, uses: &[Shape]) -> Result<Vec<Shape>, AllocError>
    ensures { IfOk result (λ copies. map form_of_shape copies.items ≡ map form_of_shape uses.now) }
{
    let mut copies = Vec::new(alloc);
    for one in uses {
        copies.push(one.copied(alloc)?)?;
    }
    Ok(copies)
}

/// Adds the uses of a clause's statements.
fn push_uses(
    alloc: Global,
    uses: &mut Vec<Shape>,
    statements: &[Statement],
) -> Result<(), AllocError>
    ensures { OnOk result (map form_of_shape uses.new.items
        ≡ map form_of_shape uses.old.items ++ flat_map used_by (map form_of_statement statements.now)) }
{
    for statement in statements {
        match statement {
            Statement::Aggregate(aggregation) => uses.push(Shape::of(alloc, aggregation)?)?,
            _ => {}
        }
    }
    Ok(())
}
