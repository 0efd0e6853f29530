//! Laws of the reading: a text has one answer, and what it describes is sound.
ghost use Rattle.std.specs.Prelude.{◌≡◌, ℕ, List};
ghost use Rattle.dt_machine.specs.Bounds.{IsInBounds};
ghost use Rattle.dt_machine.specs.Registry.{Contents, IsSound};
ghost use Rattle.dt_machine.specs.Reading.{IsDescribed, IsFaultOf};
ghost use Rattle.dt_machine.specs.declared.fault.MachineFault.{MachineFault};

/// Law: a text describes one machine at most, has one first fault at most, and never both.
pub fn one_answer()
    ensures one_machine { (text : List ℕ) (a b : Contents) → IsDescribed text a → IsDescribed text b → a ≡ b }
    ensures one_fault { (text : List ℕ) (a b : MachineFault) → IsFaultOf text a → IsFaultOf text b → a ≡ b }
    ensures never_both { (text : List ℕ) (a : Contents) (b : MachineFault) → IsDescribed text a → IsFaultOf text b → ⊥ }
{}

/// Law: a machine that a text describes is sound.
pub fn described_is_sound()
    ensures { (text : List ℕ) (contents : Contents) → IsDescribed text contents → IsSound contents }
{}

/// Law: the numbers, texts and lists of a machine that a text describes lie within their bounds.
pub fn described_is_in_bounds()
    ensures { (text : List ℕ) (contents : Contents) → IsDescribed text contents → IsInBounds contents }
{}
