//! What holds of the definitions alone.
ghost use Rattle.std.specs.Prelude.{◌≡◌, ◌↔◌, ℕ, Bool, List, Contains};
ghost use Rattle.dt_aggstore.specs.History.{Event, truncated, Past, new_past, after};
ghost use Rattle.dt_aggstore.specs.Keys.{Entry};
ghost use Rattle.dt_aggstore.specs.Held.{held_after, IsHeldBy};
ghost use Rattle.dt_aggstore.specs.Choice.{IsChoice};
ghost use Rattle.dt_aggstore.specs.Chosen.{choice_of, drops};
ghost use Rattle.dt_aggstore.specs.Table.{IsTable, RowForm};
ghost use Rattle.dt_aggstore.specs.TableOf.{table_of};
ghost use Rattle.dt_aggstore.specs.declared.key.Aggregation.{Aggregation};

/// Each past has exactly one choice, which is `choice_of`.
pub fn one_choice()
    ensures some { (past : Past) → (chosen : List Bool) × IsChoice past chosen }
    ensures one { (past : Past) (a b : List Bool) → IsChoice past a → IsChoice past b → a ≡ b }
    ensures value { (past : Past) → IsChoice past (choice_of past) }
{}

/// An entry is held exactly where a kept contribution has its aggregation and key and its aggregation wasn't
/// truncated since.
pub fn held_entries()
    ensures { (events : List Event) (chosen : List Bool) (entry : Entry)
        → Contains (held_after events chosen) entry ↔ IsHeldBy events chosen entry }
{}

/// The pasts of stores give an aggregation exactly one table, which is `table_of`.
pub fn one_table()
    ensures some { (pasts : List Past) (aggregation : Aggregation)
        → (rows : List RowForm) × IsTable pasts aggregation rows }
    ensures one { (pasts : List Past) (aggregation : Aggregation) (rows other : List RowForm)
        → IsTable pasts aggregation rows → IsTable pasts aggregation other → rows ≡ other }
    ensures value { (pasts : List Past) (aggregation : Aggregation)
        → IsTable pasts aggregation (table_of pasts aggregation) }
{}

/// A new store dropped nothing, and a truncation changes no drops. What a contribution does to the drops is told by
/// [`AggStore::add`](crate::AggStore::add).
pub fn drops_go_on()
    ensures fresh { (size : ℕ) → drops (new_past size) ≡ 0 }
    ensures truncated { (past : Past) (aggregation : Aggregation)
        → drops (after past (truncated aggregation)) ≡ drops past }
{}
