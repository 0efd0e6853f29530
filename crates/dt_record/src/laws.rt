//! Laws over the definitions.
ghost use Rattle.std.specs.Prelude.{◌≡◌, ◌≤◌, ℕ, List, [], ◌∷◌, Option, Some, FitsSigned, length, map};
ghost use Rattle.std.specs.Int.{w64};
ghost use Rattle.std.specs.List.{AllByRecursion, flat_map};
ghost use Rattle.dt_expr.specs.Scene.{SceneForm};
ghost use Rattle.dt_locals.specs.History.{Assignment};
ghost use Rattle.dt_program.specs.Clause.{ClauseForm, StatementForm};
ghost use Rattle.dt_program.specs.Written.{IsWrittenClause};
ghost use Rattle.dt_record.specs.Layout as layout;
ghost use Rattle.dt_record.specs.Layout.{FieldForm, layout_of, layout_size};
ghost use Rattle.dt_record.specs.Pasts.{TracingPast};
ghost use Rattle.dt_record.specs.Performance.{IsPerformance};
ghost use Rattle.dt_record.specs.Limits.{record_max, values_max};
ghost use Rattle.dt_record.specs.Showing.{AreLocalsInBounds, CanBeTaken, FitLayout, HasLengths, IsLeftBy, IsOfLength};
ghost use Rattle.dt_record.specs.Split.{IsSplit, RecordForm};
ghost use Rattle.dt_record.specs.Taking.{Effect, TakenForm, assigned_by, leaves, past_with, perform, taking};
ghost use Rattle.dt_record.specs.Within.{IsWithinLimits};

/// Law: bytes are the records of these layouts in one way at most.
pub fn one_split()
    ensures { (layouts : List (Option (List FieldForm))) (bytes : List ℕ) (a b : List RecordForm)
        → IsSplit layouts bytes a → IsSplit layouts bytes b → a ≡ b }
{}

/// Law: `perform` gives the one list of effects in which each is what its statement does after what those before it assigned and
/// drew, and which ends with the statements or before one in which a division by zero is evaluated.
pub fn one_performance()
    ensures value { (scene : SceneForm) (past : TracingPast) (statements : List StatementForm)
        → IsPerformance scene past statements (perform scene past statements) }
    ensures one { (scene : SceneForm) (past : TracingPast) (statements : List StatementForm) (a b : List Effect)
        → IsPerformance scene past statements a → IsPerformance scene past statements b → a ≡ b }
{}

/// Law: what a clause leaves of a scene is a record of the clause's layout. It has the EPID and, for each statement that
/// records something, in order, the value that the statement shows of the scene, after what the statements before it assigned and
/// drew; its bytes are as many as the layout says. Where the clause has no layout, it leaves no record. The premises are met by a
/// clause with each kind of field, which assigns to a variable, draws an identifier and directs its record to it.
pub fn records_fit()
    ensures fit { (epid : ℕ) (scene : SceneForm) (past : TracingPast) (clause : ClauseForm) (left : TakenForm)
        → CanBeTaken scene past clause → (taking epid scene past clause).outcome ≡ leaves left
        → FitLayout epid scene past clause (layout_of clause) left.record_bytes }
    ensures met { (scene : SceneForm) × (past : TracingPast) × (clause : ClauseForm) × (left : TakenForm)
        × CanBeTaken scene past clause × ((taking 1 scene past clause).outcome ≡ leaves left) × (left.spec ≡ Some 1)
        × (layout_of clause ≡ Some (layout.number ∷ layout.text ∷ layout.stack 2 ∷ layout.ustack 1 ∷ [])) }
{}

/// Law: what a clause assigns has 64 bits with a sign, also where a division by zero abandons it later, so the variables stay
/// within bounds.
pub fn assignments_fit()
    ensures fit { (epid : ℕ) (scene : SceneForm) (past : TracingPast) (clause : ClauseForm) → CanBeTaken scene past clause
        → AllByRecursion (λ (one : Assignment). FitsSigned w64 one.value)
        (flat_map assigned_by (taking epid scene past clause).effects) }
    ensures kept { (epid : ℕ) (scene : SceneForm) (past : TracingPast) (clause : ClauseForm) → CanBeTaken scene past clause
        → AreLocalsInBounds (past_with past (taking epid scene past clause).effects).locals }
{}

/// Law: the record that a clause leaves is as long as its layout says, whatever numbers are in it.
pub fn records_have_lengths()
    ensures { (epid : ℕ) (scene : SceneForm) (past : TracingPast) (clause : ClauseForm) (left : TakenForm) (bytes : List ℕ)
        → HasLengths scene → AllByRecursion IsOfLength clause.statements
        → (taking epid scene past clause).outcome ≡ leaves left → left.record_bytes ≡ Some bytes
        → length bytes ≡ layout_size (layout_of clause) }
{}

/// Law: records that clauses left, one after the other, are split into records of the clauses' layouts.
pub fn left_is_split()
    ensures { (clauses : List ClauseForm) (pieces : List (List ℕ)) → AllByRecursion (IsLeftBy clauses) pieces
        → (records : List RecordForm) × IsSplit (map layout_of clauses) (flat_map (λ piece. piece) pieces) records }
{}

/// Law: a clause within the limits of a program leaves at most `RECORD_MAX` bytes, and gives at most `VALUES_MAX` values.
/// Each clause that is written as a text is within these limits. One leaves so many bytes, and one gives so many values.
pub fn left_is_limited()
    ensures record { (clause : ClauseForm) → IsWithinLimits clause → layout_size (layout_of clause) ≤ record_max }
    ensures values { (epid : ℕ) (scene : SceneForm) (past : TracingPast) (clause : ClauseForm) (left : TakenForm)
        → IsWithinLimits clause → (taking epid scene past clause).outcome ≡ leaves left → length left.values ≤ values_max }
    ensures written { (clause : ClauseForm) → IsWrittenClause clause → IsWithinLimits clause }
    ensures greatest_record { (scene : SceneForm) × (past : TracingPast) × (clause : ClauseForm) × (left : TakenForm)
        × (bytes : List ℕ) × IsWithinLimits clause × ((taking 1 scene past clause).outcome ≡ leaves left) × (left.record_bytes ≡ Some bytes)
        × (length bytes ≡ record_max) }
    ensures most_values { (scene : SceneForm) × (past : TracingPast) × (clause : ClauseForm) × (left : TakenForm)
        × IsWithinLimits clause × ((taking 1 scene past clause).outcome ≡ leaves left) × (length left.values ≡ values_max) }
{}
