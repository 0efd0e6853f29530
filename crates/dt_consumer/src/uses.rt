//! What the clauses of a consumer give to its aggregations.
ghost use Rattle.std.specs.Prelude.{◌≤◌, vec_len};
ghost use Rattle.dt_program.specs.declared.clause.TheConstants.{KEYS_MAX, STATEMENTS_MAX};

use dt_aggstore::{AggStore, Aggregation, Key};
use dt_ecb::Shapes;
use dt_expr::Value;
use dt_lang::{Clause, KEYS_MAX, STATEMENTS_MAX, Statement};
use dt_life::{NamedAggregation, number_in, put_parts};
use std::alloc::{AllocError, Global};

/// A use of an aggregation by a statement: which one, and with how many keys.
#[derive(Clone, Copy)]
pub(crate) struct Use {
    pub(crate) aggregation: Option<Aggregation>,
    pub(crate) keys: usize,
    ghost few: { keys ≤ KEYS_MAX },
}

/// The uses of aggregations by a clause's statements, in order.
#[derive(Drop)]
pub(crate) struct Uses {
    pub(crate) all: Vec<Use>,
    ghost few: { vec_len all ≤ STATEMENTS_MAX },
}

impl Uses {
    ghost use Rattle.std.specs.Prelude.{◌≡◌, ◌+◌, map, IfOk};
    ghost use Rattle.dt_ecb.specs.Forms.{shapes_of};
    ghost use Rattle.dt_lang.specs.Program.{form_of_clause};
    ghost use Rattle.dt_aggstore.specs.History.{Past};
    ghost use Rattle.dt_aggstore.specs.IsAt.{IsAt, added_of};
    ghost use Rattle.dt_aggstore.specs.declared.limits.TheConstants.{ADDED_LIMIT};
    ghost use Rattle.dt_consumer.specs.Uses.{AreUses, form_of_uses};
    ghost use Rattle.dt_life.specs.Uses.{given_then};
    ghost use Rattle.dt_life.specs.Aggregations.{split_by, uses_by};

    /// Those of each of some clauses.
    pub(crate) fn of_each(
        alloc: Global,
        shapes: &Shapes,
        clauses: &[Clause],
    ) -> Result<Vec<Self>, AllocError>
        ensures { IfOk result (λ uses. AreUses (shapes_of shapes.now) (map form_of_clause clauses.now) uses.items) }
    {
        let mut uses = Vec::with_capacity(alloc, clauses.len())?;
        for clause in clauses {
            uses.push(Uses::of(alloc, shapes, clause)?)?;
        }
        Ok(uses)
    }

    /// Those of a clause.
    fn of(alloc: Global, shapes: &Shapes, clause: &Clause) -> Result<Self, AllocError>
        ensures { IfOk result (λ uses.
            form_of_uses uses ≡ uses_by (shapes_of shapes.now) (form_of_clause clause.now).statements) }
    {
        let mut all = Vec::new(alloc);
        for statement in &clause.statements {
            match statement {
                Statement::Aggregate(aggregation) => all.push(Use {
                    aggregation: NamedAggregation::of(shapes, aggregation.name.as_bytes()).map(
                        |named| named.aggregation,
                    ),
                    keys: aggregation.keys.len(),
                })?,
                _ => {}
            }
        }
        Ok(Uses { all })
    }

    /// Gives the values that the clause left to the store of their processor. The room for a key serves again, use after use. It takes
    /// no memory.
    #[inline(always)]
    pub(crate) fn give(&self, store: &mut AggStore, key: &mut Key, values: &[Value])
        requires { added_of store.old + STATEMENTS_MAX ≤ ADDED_LIMIT }
        ensures stands { (past : Past) → IsAt past store.old
            → IsAt (given_then past (split_by (form_of_uses self.now) values.now)) store.new }
        ensures counts { added_of store.new ≤ added_of store.old + STATEMENTS_MAX }
    {
        let mut place = 0;
        for one in &self.all {
            one.give(store, key, values, place);
            place += one.keys + 1;
        }
    }
}

impl Use {
    ghost use Rattle.std.specs.Prelude.{◌+◌, ◌*◌, ◌<◌, drop};
    ghost use Rattle.dt_aggstore.specs.History.{Past};
    ghost use Rattle.dt_aggstore.specs.IsAt.{IsAt, added_of};
    ghost use Rattle.dt_aggstore.specs.declared.limits.TheConstants.{ADDED_LIMIT};
    ghost use Rattle.dt_life.specs.Uses.{given_then};
    ghost use Rattle.dt_life.specs.Aggregations.{contribution_at};
    ghost use Rattle.dt_consumer.specs.Uses.{form_of_use};

    /// Gives what lies from a place on among the values: the keys, and then the number.
    #[inline(always)]
    fn give(&self, store: &mut AggStore, key: &mut Key, values: &[Value], place: usize)
        requires room { added_of store.old < ADDED_LIMIT }
        requires near { place ≤ STATEMENTS_MAX * (KEYS_MAX + 1) }
        ensures stands { (past : Past) → IsAt past store.old
            → IsAt (given_then past (contribution_at (form_of_use self.now) (drop place values.now))) store.new }
        ensures counts { added_of store.new ≤ added_of store.old + 1 }
    {
        // Never met where the uses are those of a consumer's clauses (`AreUses`): the shapes by which they were found have a
        // shape for each name of these clauses, with bounds that were read. It gives nothing, as `contribution_at` says.
        let Some(aggregation) = self.aggregation else {
            return;
        };
        put_parts(&mut key.parts, values, place, self.keys);
        let _kept = store.add(aggregation, key, number_in(values, place + self.keys));
    }
}
