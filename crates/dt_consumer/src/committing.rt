//! The ends of speculations.
ghost use Rattle.std.specs.Prelude.{◌≡◌, ◌+◌, ◌-◌, ◌≤◌, ℕ, [], ◌∷◌, All, length, map, vec_len};
ghost use Rattle.dt_buffer.specs.Shows.{EndLast};
ghost use Rattle.dt_buffer.specs.declared.limits.TheConstants.{DROPS_LIMIT};
ghost use Rattle.dt_consumer.specs.Counts.{AtMost};
ghost use Rattle.dt_consumer.specs.Tallies.{AreTallied, Tally, with_records};
ghost use Rattle.dt_life.specs.Takings.{freed_by, part_out, parts_out};
ghost use Rattle.dt_program.specs.declared.clause.TheConstants.{STATEMENTS_MAX};
ghost use Rattle.dt_record.specs.Forms.{form_of_end};
ghost use Rattle.dt_record.specs.Taking.{committed};
ghost use Rattle.dt_speculation.specs.History.{SpecPast, free, spec_after, specs_then};
ghost use Rattle.dt_speculation.specs.IsAt.{SpecsAt, cpus_of, fails_of};

use crate::processor::Processor;
use dt_record::SpecEnd;
use dt_speculation::{Specs, one_part};

/// Ends the speculations that a clause left to end, in order.
pub(crate) fn end_speculations(
    specs: &mut Specs,
    all: &mut Vec<Processor>,
    ends: &[SpecEnd],
    in_end: bool,
)
    requires few { length ends.now ≤ STATEMENTS_MAX }
    requires counts { All (AtMost (DROPS_LIMIT - STATEMENTS_MAX)) all.old.items }
    ensures len { vec_len all.new ≡ vec_len all.old }
    ensures counts { (n : ℕ) → All (AtMost n) all.old.items → All (AtMost (n + STATEMENTS_MAX)) all.new.items }
    ensures fails { fails_of specs.new ≡ fails_of specs.old }
    ensures cpus { cpus_of specs.new ≡ cpus_of specs.old }
    ensures freed { (past : SpecPast) → SpecsAt past specs.old
        → SpecsAt (specs_then past (freed_by (map form_of_end ends.now))) specs.new }
    ensures ended { (past : SpecPast) (tallies : ℕ → Tally) → SpecsAt past specs.old
        → ((cpu : ℕ) → EndLast (tallies cpu).came in_end) → AreTallied tallies all.old.items
        → AreTallied (λ cpu. with_records in_end (parts_out cpu past (map form_of_end ends.now)) (tallies cpu)) all.new.items }
{
    for end in ends {
        end_speculation(specs, all, *end, in_end);
    }
}

/// Ends a speculation: a commit takes its parts out, and the identifier is free. Few clauses end one: it stands apart, so that the
/// others don't have it in their way.
#[inline(never)]
fn end_speculation(specs: &mut Specs, all: &mut Vec<Processor>, end: SpecEnd, in_end: bool)
    requires counts { All (AtMost (DROPS_LIMIT - 1)) all.old.items }
    ensures len { vec_len all.new ≡ vec_len all.old }
    ensures counts { (n : ℕ) → All (AtMost n) all.old.items → All (AtMost (n + 1)) all.new.items }
    ensures fails { fails_of specs.new ≡ fails_of specs.old }
    ensures cpus { cpus_of specs.new ≡ cpus_of specs.old }
    ensures freed { (past : SpecPast) → SpecsAt past specs.old
        → SpecsAt (specs_then past (freed_by (form_of_end end ∷ []))) specs.new }
    ensures ended { (past : SpecPast) (tallies : ℕ → Tally) → SpecsAt past specs.old
        → ((cpu : ℕ) → EndLast (tallies cpu).came in_end) → AreTallied tallies all.old.items
        → AreTallied (λ cpu. with_records in_end (part_out cpu past (form_of_end end)) (tallies cpu)) all.new.items }
{
    match end {
        SpecEnd::Commit(id) => commit(specs, all, id, in_end),
        SpecEnd::Discard(id) => specs.free(id),
    }
}

/// Commits a speculation: each processor's part, if it has bytes, is one attempt into its buffer, and then the identifier is free.
fn commit(specs: &mut Specs, all: &mut Vec<Processor>, id: u64, in_end: bool)
    requires counts { All (AtMost (DROPS_LIMIT - 1)) all.old.items }
    ensures len { vec_len all.new ≡ vec_len all.old }
    ensures counts { (n : ℕ) → All (AtMost n) all.old.items → All (AtMost (n + 1)) all.new.items }
    ensures fails { fails_of specs.new ≡ fails_of specs.old }
    ensures cpus { cpus_of specs.new ≡ cpus_of specs.old }
    ensures freed { (past : SpecPast) → SpecsAt past specs.old → SpecsAt (spec_after past (free id)) specs.new }
    ensures committed { (past : SpecPast) (tallies : ℕ → Tally) → SpecsAt past specs.old
        → ((cpu : ℕ) → EndLast (tallies cpu).came in_end) → AreTallied tallies all.old.items
        → AreTallied (λ cpu. with_records in_end (part_out cpu past (committed id)) (tallies cpu)) all.new.items }
{
    one_part();
    for cpu in 0..all.len() {
        all[cpu].put_part(specs.part(id, cpu), in_end);
    }
    specs.free(id);
}
