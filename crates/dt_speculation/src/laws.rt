//! What holds of the definitions alone: a past gives one answer, and what one event does to every identifier.
ghost use Rattle.std.specs.Prelude.{◌≡◌, ◌≢◌, ◌+◌, ◌≤◌, ◌⊎◌, ◌↔◌, ℕ, Bool, true, false, cond, List, [], ◌∷◌, ◌++◌};
ghost use Rattle.dt_buffer.specs.Choice.{chosen_bytes};
ghost use Rattle.dt_speculation.specs.Answers.{AreAnswered, DrawAnswers, IsLeastFree, SpecPutAnswers};
ghost use Rattle.dt_speculation.specs.History.{SpecEvent, SpecPast, draw, free, put_under, spec_after};
ghost use Rattle.dt_speculation.specs.Parts.{draw_answer, is_dropped, part_bytes, spec_drops};
ghost use Rattle.dt_speculation.specs.Records.{HasPart, records_of, records_under};
ghost use Rattle.dt_speculation.specs.Uses.{is_freed, is_in_use, until_freed};
ghost use Rattle.dt_speculation.specs.declared.answer.SpecPut.{SpecPut};
ghost use Rattle.dt_speculation.specs.declared.answer.SpecPut.TheVariants.{Dropped};

use dt_buffer::one_choice;

/// A draw has exactly one answer.
pub fn one_answer()
    ensures some { (nspec : ℕ) (events : List SpecEvent) → (answer : ℕ) × DrawAnswers nspec events answer }
    ensures one { (nspec : ℕ) (events : List SpecEvent) (a b : ℕ) → DrawAnswers nspec events a → DrawAnswers nspec events b → a ≡ b }
{}

/// A part has exactly one content, and none where the identifier isn't in use.
pub fn one_part()
    ensures some { (past : SpecPast) (id cpu : ℕ) → (bytes : List ℕ) × HasPart past id cpu bytes }
    ensures one { (past : SpecPast) (id cpu : ℕ) (bytes other : List ℕ) → HasPart past id cpu bytes → HasPart past id cpu other
        → bytes ≡ other }
    ensures unused { (past : SpecPast) (id cpu : ℕ) (bytes : List ℕ) → is_in_use id past.events ≡ false → HasPart past id cpu bytes
        → bytes ≡ [] }
{
    one_choice();
}

/// A draw puts in use the identifier that it answers, which wasn't, without records; each other stays as it was, and all do where it fails.
pub fn draws_begin()
    ensures before { (nspec : ℕ) (events : List SpecEvent) (id : ℕ) → 1 ≤ id → DrawAnswers nspec events id
        → is_in_use id events ≡ false }
    ensures given { (events : List SpecEvent) (id : ℕ) → 1 ≤ id → (is_in_use id (events ++ draw id ∷ []) ≡ true)
        × ((cpu : ℕ) → records_of id cpu (events ++ draw id ∷ []) ≡ []) }
    ensures others { (events : List SpecEvent) (answer id : ℕ) → id ≢ answer
        → (is_in_use id (events ++ draw answer ∷ []) ≡ is_in_use id events)
        × ((cpu : ℕ) → records_of id cpu (events ++ draw answer ∷ []) ≡ records_of id cpu events) }
    ensures nothing { (events : List SpecEvent) → is_in_use 0 events ≡ false }
{}

/// A put under an identifier that is in use makes its records on one processor one longer, and changes nothing else; under
/// another it changes nothing.
pub fn puts_add()
    ensures uses { (events : List SpecEvent) (other at : ℕ) (bytes : List ℕ) (id : ℕ)
        → is_in_use id (events ++ put_under other at bytes ∷ []) ≡ is_in_use id events }
    ensures there { (events : List SpecEvent) (id cpu : ℕ) (bytes : List ℕ) → is_in_use id events ≡ true
        → records_of id cpu (events ++ put_under id cpu bytes ∷ []) ≡ records_of id cpu events ++ bytes ∷ [] }
    ensures elsewhere { (events : List SpecEvent) (other at : ℕ) (bytes : List ℕ) (id cpu : ℕ) → (id ≢ other) ⊎ (cpu ≢ at)
        → records_of id cpu (events ++ put_under other at bytes ∷ []) ≡ records_of id cpu events }
    ensures unused { (events : List SpecEvent) (other at : ℕ) (bytes : List ℕ) (id cpu : ℕ) → is_in_use other events ≡ false
        → records_of id cpu (events ++ put_under other at bytes ∷ []) ≡ records_of id cpu events }
{}

/// A free ends the use of its identifier, which has then no records on any processor; each other stays as it was.
pub fn frees_end()
    ensures ended { (events : List SpecEvent) (id : ℕ) → (is_in_use id (events ++ free id ∷ []) ≡ false)
        × ((cpu : ℕ) → records_of id cpu (events ++ free id ∷ []) ≡ []) }
    ensures others { (events : List SpecEvent) (other id : ℕ) → id ≢ other
        → (is_in_use id (events ++ free other ∷ []) ≡ is_in_use id events)
        × ((cpu : ℕ) → records_of id cpu (events ++ free other ∷ []) ≡ records_of id cpu events) }
{}

/// From a draw on until its identifier is freed, that is in use, and its records are those put under it since.
pub fn draws_last()
    ensures lasts { (past : SpecPast) (earlier later : List SpecEvent) (id : ℕ) → AreAnswered past
        → past.events ≡ earlier ++ draw id ∷ later → 1 ≤ id → is_freed id later ≡ false
        → (is_in_use id past.events ≡ true) × ((cpu : ℕ) → records_of id cpu past.events ≡ records_under id cpu later) }
    ensures until { (id : ℕ) (later rest : List SpecEvent) → is_freed id later ≡ false → until_freed id (later ++ free id ∷ rest) ≡ later }
{}

/// The functions read off a past what the relations say of it: the answer of a draw, and the bytes of a part.
pub fn read_off_pasts()
    ensures answer { (past : SpecPast) → DrawAnswers past.nspec past.events (draw_answer past) }
    ensures part { (past : SpecPast) (id cpu : ℕ) → HasPart past id cpu (part_bytes past id cpu) }
{}

/// What a part keeps is some of the records put under its identifier on its processor since that was drawn, whole and one after
/// another.
pub fn parts_of_records()
    ensures { (past : SpecPast) (id cpu : ℕ)
        → (chosen : List Bool) × (part_bytes past id cpu ≡ chosen_bytes (records_of id cpu past.events) chosen) }
{}

/// A put answers that the record was dropped exactly where its part drops it; and one event more is one drop more of a processor
/// exactly where a part of it drops a record by it.
pub fn drops_told()
    ensures told { (past : SpecPast) (id cpu : ℕ) (bytes : List ℕ) (answer : SpecPut) → SpecPutAnswers past id cpu bytes answer
        → (answer ≡ Dropped) ↔ (is_dropped cpu past (put_under id cpu bytes) ≡ true) }
    ensures counted { (past : SpecPast) (event : SpecEvent) (cpu : ℕ) → spec_drops (spec_after past event) cpu
        ≡ spec_drops past cpu + cond (is_dropped cpu past event) 1 0 }
{
    one_choice();
}
