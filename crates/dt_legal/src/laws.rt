//! What holds of legal rows: what they may go on with, and how long they can be.
ghost use Rattle.std.specs.Prelude.{◌≡◌, ◌<◌, ◌≤◌, ◌+◌, ◌++◌, ◌∷◌, ℕ, false, List, [], Some, length};
ghost use Rattle.dt_cred.specs.declared.account.Account.{Account};
ghost use Rattle.dt_cred.specs.declared.firing.Firing.{Firing};
ghost use Rattle.dt_legal.specs.Rows.{AreBelowPlace, IsLegalRow, Suffice, line_form_of, life_of_row, set_up_of};
ghost use Rattle.dt_life.specs.Acceptance.{after_line};
ghost use Rattle.dt_life.specs.Life.{is_over};
ghost use Rattle.dt_life.specs.Life.{fired as fired_item};
ghost use Rattle.dt_life.specs.Limits.{history_max, lines_max};
ghost use Rattle.dt_life.specs.Sees.{Sees};
ghost use Rattle.dt_machine.specs.Limits.{cpus_max};
ghost use Rattle.dt_machine.specs.Registry.{Contents, firing_at};
ghost use Rattle.dt_proto.specs.Line.{ask_in};
ghost use Rattle.dt_trail.specs.Items.{TrailItem, fired, whose};
ghost use Rattle.dt_trail.specs.Limits.{longest, trail_cpus_max};

/// Law: the empty row is legal, and so is each beginning of a legal row. A legal row may go on with a line within the quota, and with
/// a firing of a script that is seen there, at a higher place than those of its processor before it; its life then goes on with just that.
pub fn rows_go_on()
    ensures empty { (account : Account) (contents : Contents) → IsLegalRow account contents [] }
    ensures begins { (account : Account) (contents : Contents) (row later : List TrailItem)
        → IsLegalRow account contents (row ++ later) → IsLegalRow account contents row }
    ensures line { (account : Account) (contents : Contents) (row : List TrailItem) (item : TrailItem) → whose item ≡ 0
        → IsLegalRow account contents row → is_over (life_of_row account contents row) ≡ false
        → IsLegalRow account contents (row ++ item ∷ [])
        × (life_of_row account contents (row ++ item ∷ [])
        ≡ after_line (life_of_row account contents row) (ask_in (line_form_of item))) }
    ensures firing { (account : Account) (contents : Contents) (row : List TrailItem) (cpu place : ℕ) (firing : Firing)
        → IsLegalRow account contents row → firing_at contents.scripts cpu place ≡ Some firing
        → Sees account contents.registry (life_of_row account contents row) firing → AreBelowPlace cpu place row
        → IsLegalRow account contents (row ++ fired cpu place ∷ [])
        × (life_of_row account contents (row ++ fired cpu place ∷ []) ≡ fired_item firing ∷ life_of_row account contents row) }
{}

/// Law: a legal row has at most the quota of lines and the history of firings. Where cells suffice for what was set up, there is one for a
/// line within the quota, and for a firing that is seen.
pub fn rows_fit()
    ensures most { (account : Account) (contents : Contents) (row : List TrailItem) → IsLegalRow account contents row
        → length row ≤ lines_max + (set_up_of account contents row).options.histsize }
    ensures line { (account : Account) (contents : Contents) (row : List TrailItem) (cells : ℕ)
        → IsLegalRow account contents row → Suffice cells (set_up_of account contents row)
        → is_over (life_of_row account contents row) ≡ false → length row < cells }
    ensures firing { (account : Account) (contents : Contents) (row : List TrailItem) (firing : Firing) (cells : ℕ)
        → IsLegalRow account contents row → Suffice cells (set_up_of account contents row)
        → Sees account contents.registry (life_of_row account contents row) firing → length row < cells }
{}

/// Law: the items of a trail can name each processor that a machine may have, and a session's longest trail holds the longest history with all
/// lines within the quota. Whoever raises a limit of one crate is stopped here until the other's is raised too.
pub fn limits_meet()
    ensures cpus { cpus_max ≡ trail_cpus_max }
    ensures longest { longest ≡ history_max + lines_max }
{}
