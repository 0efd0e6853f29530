//! What holds of the definitions alone.
ghost use Rattle.std.specs.Prelude.{◌≡◌, ◌≢◌, ◌+◌, ℕ, pos, Bool, List, [], ◌∷◌, ◌++◌, cond, length};
ghost use Rattle.std.specs.List.{IsDistinct, list_any};
ghost use Rattle.dt_locals.specs.History.{Assignment, LocalsPast, new_locals_past, locals_after, locals_then, local_of, same_local};
ghost use Rattle.dt_locals.specs.Values.{assigned_locals, assigns, is_set, set_count};
ghost use Rattle.dt_locals.specs.Kept.{IsLocalsChoice};
ghost use Rattle.dt_locals.specs.Chosen.{is_kept_assignment, locals_choice, value_after, local_drops};
ghost use Rattle.dt_locals.specs.declared.variable.LocalVariable.{LocalVariable};

/// Each past has exactly one choice, which is `locals_choice`. What comes later changes none of it.
pub fn one_locals_choice()
    ensures value { (past : LocalsPast) → IsLocalsChoice past (locals_choice past) }
    ensures one { (past : LocalsPast) (a b : List Bool) → IsLocalsChoice past a → IsLocalsChoice past b → a ≡ b }
    ensures begins { (assignments : List Assignment) (past : LocalsPast) → (more : List Bool)
        × (length more ≡ length assignments)
        × (locals_choice (locals_then past assignments) ≡ locals_choice past ++ more) }
{}

/// What one assignment does: the choice gets one place more, chosen where it is kept; its variable has its value if it is kept, and else is 0; every other keeps its own; as many more or
/// fewer aren't 0 as that makes; and it is a drop where it isn't kept.
pub fn one_assignment()
    ensures chosen { (past : LocalsPast) (assignment : Assignment) → locals_choice (locals_after past assignment)
        ≡ locals_choice past
        ++ is_kept_assignment past.dynvarsize past.assignments (locals_choice past) assignment ∷ [] }
    ensures own { (past : LocalsPast) (assignment : Assignment)
        → value_after (locals_after past assignment) assignment.variable
        ≡ cond (is_kept_assignment past.dynvarsize past.assignments (locals_choice past) assignment)
        assignment.value (pos 0) }
    ensures others { (past : LocalsPast) (assignment : Assignment) (other : LocalVariable) → assignment.variable ≢ other
        → value_after (locals_after past assignment) other ≡ value_after past other }
    ensures count { (past : LocalsPast) (assignment : Assignment)
        → set_count (locals_after past assignment).assignments (locals_choice (locals_after past assignment))
        + cond (is_set (value_after past assignment.variable)) 1 0
        ≡ set_count past.assignments (locals_choice past)
        + cond (is_set (value_after (locals_after past assignment) assignment.variable)) 1 0 }
    ensures dropped { (past : LocalsPast) (assignment : Assignment) → local_drops (locals_after past assignment)
        ≡ local_drops past
        + cond (is_kept_assignment past.dynvarsize past.assignments (locals_choice past) assignment) 0 1 }
{}

/// Of the variables whose values are counted, each that was assigned is one, and only once.
pub fn assigned_once()
    ensures apart { (assignments : List Assignment) → IsDistinct same_local (assigned_locals assignments) }
    ensures among { (assignments : List Assignment) (variable : LocalVariable)
        → list_any (λ other. same_local other variable) (assigned_locals assignments)
        ≡ list_any (assigns variable) assignments }
{}

/// Before any assignment each variable is 0, and nothing was dropped.
pub fn all_zero_at_first()
    ensures values { (dynvarsize : ℕ) (variable : LocalVariable)
        → value_after (new_locals_past dynvarsize) variable ≡ pos 0 }
    ensures drops { (dynvarsize : ℕ) → local_drops (new_locals_past dynvarsize) ≡ 0 }
{}

/// The variables of one name of two threads are two.
pub fn threads_apart()
    ensures processes { (pid tid other thread : ℕ) (name : List ℕ) → pid ≢ other
        → local_of pid tid name ≢ local_of other thread name }
    ensures threads { (pid tid other : ℕ) (name : List ℕ) → tid ≢ other
        → local_of pid tid name ≢ local_of pid other name }
{}
