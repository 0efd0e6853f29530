//! What happened in a life, as far as a reply can tell.
ghost use Rattle.std.specs.Prelude.{◌≡◌, ◌≤◌, ◌-◌, ℕ, All, length, vec_len};
ghost use Rattle.dt_aggstore.specs.History.{Past, after, truncated};
ghost use Rattle.dt_aggstore.specs.declared.limits.TheConstants.{ADDED_LIMIT};
ghost use Rattle.dt_life.specs.Uses.{GivenAtMost};
ghost use Rattle.dt_life.specs.Uses.{AreGiven};
ghost use Rattle.dt_program.specs.declared.clause.TheConstants.{STATEMENTS_MAX};

use dt_aggstore::{AggStore, Aggregation, Key};
use dt_ecb::Shapes;
use dt_expr::Value;
use dt_lang::{STATEMENTS_MAX, Statement};
use dt_life::{NamedAggregation, number_in, parts_at};
use std::alloc::{AllocError, Global};

/// One thing that happened.
#[derive(Drop)]
pub(crate) enum Happened {
    /// A division by zero ended a clause on a processor.
    Failed {
        cpu: u32,
    },
    /// A clause left something on a processor; `in_end` says that it was taken as END fired.
    Left {
        cpu: u32,
        in_end: bool,
        left: Left,
    },
    /// A part of a speculation was committed into the buffer of a processor.
    Committed {
        cpu: u32,
        in_end: bool,
        part: Vec<u8>,
    },
    /// An assignment to a thread-local variable found no room, on a processor.
    VariableDropped {
        cpu: u32,
    },
    /// A speculation dropped a record, on a processor.
    RecordDropped {
        cpu: u32,
    },
    /// A draw found all identifiers in use.
    DrawFailed,
    /// A `snap` of a processor's buffer was answered.
    Snapped {
        cpu: u32,
    },
    /// An aggregation was truncated.
    Truncated {
        aggregation: Aggregation,
    },
}

/// What `status` counts on each processor.
#[derive(Clone, Copy)]
pub(crate) enum StatusCount {
    Failed,
    VariableDropped,
    RecordDropped,
}

/// What a clause left: the bytes of the record that it attempts to put into its processor's buffer, where it attempts one, and what it gave to aggregations, in order.
#[derive(Drop)]
pub(crate) struct Left {
    pub(crate) bytes: Option<Vec<u8>>,
    pub(crate) given: Vec<Contribution>,
    ghost few: { vec_len given ≤ STATEMENTS_MAX },
}

/// A number that is given to a key of an aggregation.
#[derive(Drop)]
pub(crate) struct Contribution {
    pub(crate) aggregation: Aggregation,
    pub(crate) key: Key,
    pub(crate) number: i64,
}

impl Contribution {
    ghost use Rattle.std.specs.Prelude.{◌≡◌, ◌*◌, ◌+◌, map, length, IfOk};
    ghost use Rattle.dt_alone.specs.Happened.{given_as};
    ghost use Rattle.dt_life.specs.Aggregations.{split_by, uses_by};
    ghost use Rattle.dt_ecb.specs.Forms.{shapes_of};
    ghost use Rattle.dt_lang.specs.Program.{form_of_statement};

    /// What a clause's statements give of the values that it left: keys and numbers, one after another.
    pub(crate) fn all(
        alloc: Global,
        shapes: &Shapes,
        statements: &[Statement],
        values: &[Value],
    ) -> Result<Vec<Self>, AllocError>
        requires { length statements.now ≤ STATEMENTS_MAX }
        ensures given { IfOk result (λ given. map given_as given.items
            ≡ split_by (uses_by (shapes_of shapes.now) (map form_of_statement statements.now)) values.now) }
        ensures few { IfOk result (λ given. vec_len given ≤ STATEMENTS_MAX) }
    {
        let mut given = Vec::new(alloc);
        let mut place = 0;
        for statement in statements {
            if let Statement::Aggregate(aggregation) = statement {
                let keys = aggregation.keys.len();
                if let Some(named) = NamedAggregation::of(shapes, aggregation.name.as_bytes()) {
                    given.push(Contribution {
                        aggregation: named.aggregation,
                        key: Key {
                            parts: parts_at(values, place, keys),
                        },
                        number: number_in(values, place + keys),
                    })?;
                }
                place += keys + 1;
            }
        }
        Ok(given)
    }
}

impl Happened {
    ghost use Rattle.std.specs.Prelude.{◌≡◌, ◌+◌, ◌<◌, ◌^◌, ◌==◌, ℕ, true, false, MatchOption, length, slice_index, if◌then◌else◌};
    ghost use Rattle.dt_aggstore.specs.History.{Past};
    ghost use Rattle.dt_aggstore.specs.IsAt.{IsAt, added_of};
    ghost use Rattle.dt_aggstore.specs.declared.limits.TheConstants.{ADDED_LIMIT};
    ghost use Rattle.dt_alone.specs.Happened.{gives_to, is_counted_on, is_draw_failed, is_left};
    ghost use Rattle.dt_life.specs.Uses.{given_then};

    /// On which processor it is one of those that are counted, if it is.
    fn counted_at(&self, what: StatusCount) -> Option<u32>
        ensures { MatchOption result ((cpu : ℕ) → is_counted_on what cpu self.now ≡ false)
            (λ there. (cpu : ℕ) → is_counted_on what cpu self.now ≡ (there == cpu)) }
    {
        match (what, self) {
            (StatusCount::Failed, Happened::Failed { cpu })
            | (StatusCount::VariableDropped, Happened::VariableDropped { cpu })
            | (StatusCount::RecordDropped, Happened::RecordDropped { cpu }) => Some(*cpu),
            _ => None,
        }
    }

    /// Whether it is a draw that failed.
    pub(crate) fn is_draw_failed(&self) -> bool
        ensures { result ≡ is_draw_failed self.now }
    {
        matches!(self, Happened::DrawFailed)
    }

    /// Counts it for its processor, where it is one of those that are counted.
    pub(crate) fn count(&self, what: StatusCount, counts: &mut [u64])
        requires { (cpu : ℕ) → cpu < length counts.old → slice_index counts.old cpu + 1 < 2 ^ 64 }
        ensures counts { (cpu : ℕ) → cpu < length counts.old → slice_index counts.new cpu
            ≡ slice_index counts.old cpu + (if is_counted_on what cpu self.now then 1 else 0) }
        ensures len { length counts.new ≡ length counts.old }
    {
        if let Some(cpu) = self.counted_at(what) {
            let cpu = cpu as usize;
            if cpu < counts.len() {
                counts[cpu] += 1;
            }
        }
    }

    /// Gives what it gives to the store of each processor.
    pub(crate) fn give(&self, stores: &mut [AggStore])
        requires { is_left self.now ≡ true → All (GivenAtMost (ADDED_LIMIT - STATEMENTS_MAX)) stores.old }
        ensures stands { (pasts : ℕ → Past) → AreGiven pasts stores.old
            → AreGiven (λ cpu. given_then (pasts cpu) (gives_to cpu self.now)) stores.new }
        ensures counts { (n : ℕ) → All (GivenAtMost n) stores.old
            → All (GivenAtMost (n + (if is_left self.now then STATEMENTS_MAX else 0))) stores.new }
        ensures len { length stores.new ≡ length stores.old }
    {
        match self {
            Happened::Left { cpu, left, .. } => {
                let cpu = *cpu as usize;
                if cpu < stores.len() {
                    left.give(&mut stores[cpu]);
                }
            }
            Happened::Truncated { aggregation } => truncate(stores, *aggregation),
            _ => {}
        }
    }
}

/// Truncates an aggregation in each store.
fn truncate(stores: &mut [AggStore], aggregation: Aggregation)
    ensures stands { (pasts : ℕ → Past) → AreGiven pasts stores.old
        → AreGiven (λ cpu. after (pasts cpu) (truncated aggregation)) stores.new }
    ensures counts { (n : ℕ) → All (GivenAtMost n) stores.old → All (GivenAtMost n) stores.new }
    ensures len { length stores.new ≡ length stores.old }
{
    for cpu in 0..stores.len() {
        stores[cpu].trunc(aggregation);
    }
}

impl Left {
    ghost use Rattle.std.specs.Prelude.{◌+◌, map};
    ghost use Rattle.dt_aggstore.specs.History.{Past};
    ghost use Rattle.dt_aggstore.specs.IsAt.{IsAt, added_of};
    ghost use Rattle.dt_aggstore.specs.declared.limits.TheConstants.{ADDED_LIMIT};
    ghost use Rattle.dt_alone.specs.Happened.{given_as};
    ghost use Rattle.dt_life.specs.Uses.{given_then};

    /// Gives the contributions to a store, in order.
    fn give(&self, store: &mut AggStore)
        requires { added_of store.old + STATEMENTS_MAX ≤ ADDED_LIMIT }
        ensures stands { (past : Past) → IsAt past store.old
            → IsAt (given_then past (map given_as self.now.given.items)) store.new }
        ensures counts { added_of store.new ≤ added_of store.old + STATEMENTS_MAX }
    {
        for one in &self.given {
            let _kept = store.add(one.aggregation, &one.key, one.number);
        }
    }
}
