//! The limits that the code keeps are those of the definitions.
ghost use Rattle.std.specs.Prelude.{◌≡◌};
ghost use Rattle.dt_program.specs.Limits.{descriptions_max, statements_max, keys_max, frames_max, clauses_max, tokens_max};

use crate::clause::{DESCRIPTIONS_MAX, FRAMES_MAX, KEYS_MAX, STATEMENTS_MAX};
use crate::program::{CLAUSES_MAX, TOKENS_MAX};

/// Law: the limits that the code keeps are the numbers of the definitions (`specs/Limits.antt`).
pub fn limits_agree()
    ensures descriptions { DESCRIPTIONS_MAX ≡ descriptions_max }
    ensures statements { STATEMENTS_MAX ≡ statements_max }
    ensures keys { KEYS_MAX ≡ keys_max }
    ensures frames { FRAMES_MAX ≡ frames_max }
    ensures clauses { CLAUSES_MAX ≡ clauses_max }
    ensures tokens { TOKENS_MAX ≡ tokens_max }
{}
