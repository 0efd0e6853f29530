//! What holds of the definitions alone: a past shows one thing.
ghost use Rattle.std.specs.Prelude.{◌≡◌, ℕ, Bool, List};
ghost use Rattle.dt_buffer.specs.History.{BufferPast};
ghost use Rattle.dt_buffer.specs.Choice.{IsFittingChoice};
ghost use Rattle.dt_buffer.specs.Beginning.{IsLongestBeginning};
ghost use Rattle.dt_buffer.specs.Ending.{IsLongestEnd};
ghost use Rattle.dt_buffer.specs.Shows.{Shows};

/// Attempts under switch have exactly one choice.
pub fn one_choice()
    ensures some { (size : ℕ) (attempts : List (List ℕ)) → (chosen : List Bool) × IsFittingChoice size attempts chosen }
    ensures one { (size : ℕ) (attempts : List (List ℕ)) (a b : List Bool)
        → IsFittingChoice size attempts a → IsFittingChoice size attempts b → a ≡ b }
{}

/// Records have exactly one longest beginning that fits.
pub fn one_beginning()
    ensures some { (room : ℕ) (records : List (List ℕ)) → (count : ℕ) × IsLongestBeginning room records count }
    ensures one { (room : ℕ) (records : List (List ℕ)) (a b : ℕ)
        → IsLongestBeginning room records a → IsLongestBeginning room records b → a ≡ b }
{}

/// Records have exactly one longest end that fits.
pub fn one_end()
    ensures some { (room : ℕ) (records : List (List ℕ)) → (passed : ℕ) × IsLongestEnd room records passed }
    ensures one { (room : ℕ) (records : List (List ℕ)) (a b : ℕ)
        → IsLongestEnd room records a → IsLongestEnd room records b → a ≡ b }
{}

/// A past shows one content, one number of drops and whether it is filled, at most.
pub fn one_shown()
    ensures { (past : BufferPast) (bytes other : List ℕ) (drops count : ℕ) (filled full : Bool)
        → Shows past bytes drops filled → Shows past other count full
        → (bytes ≡ other) × (drops ≡ count) × (filled ≡ full) }
{}

/// Each past shows something.
pub fn some_shown()
    ensures { (past : BufferPast) → (bytes : List ℕ) × (drops : ℕ) × (filled : Bool) × Shows past bytes drops filled }
{}
