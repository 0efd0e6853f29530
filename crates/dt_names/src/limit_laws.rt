//! The limits that the code keeps are those of the definitions.
ghost use Rattle.std.specs.Prelude.{◌≡◌};
ghost use Rattle.dt_names.specs.Limits.{field_max, fields_max, short_text_max, padded_size, name_max};

use crate::desc::{FIELD_MAX, FIELDS_MAX};
use crate::name::NAME_MAX;
use crate::short_text::{PADDED_SIZE, SHORT_TEXT_MAX};

/// Law: the limits that the code keeps are the numbers of the definitions (`specs/Limits.antt`).
pub fn limits_agree()
    ensures field { FIELD_MAX ≡ field_max }
    ensures fields { FIELDS_MAX ≡ fields_max }
    ensures short_text { SHORT_TEXT_MAX ≡ short_text_max }
    ensures padded { PADDED_SIZE ≡ padded_size }
    ensures name { NAME_MAX ≡ name_max }
{}
