//! The limits that the code keeps are those of the definitions.
ghost use Rattle.std.specs.Prelude.{◌≡◌};
ghost use Rattle.dt_record.specs.Limits.{epid_size, record_max, values_max};

use crate::limits::{EPID_SIZE, RECORD_MAX, VALUES_MAX};

/// Law: the limits that the code keeps are the numbers of the definitions (`specs/Limits.antt`).
pub fn limits_agree()
    ensures epid { EPID_SIZE ≡ epid_size }
    ensures record { RECORD_MAX ≡ record_max }
    ensures values { VALUES_MAX ≡ values_max }
{}
