//! The limits that the code keeps are those of the definitions.
ghost use Rattle.std.specs.Prelude.{◌≡◌};
ghost use Rattle.dt_locals.specs.Limits.{dynvarsize_max, dynvarsize_min, local_drops_limit, local_size};

use crate::limits::{DYNVARSIZE_MAX, DYNVARSIZE_MIN, LOCAL_DROPS_LIMIT, LOCAL_SIZE};

/// Law: the limits that the code keeps are the numbers of the definitions (`specs/Limits.antt`).
pub fn limits_agree()
    ensures least { DYNVARSIZE_MIN ≡ dynvarsize_min }
    ensures most { DYNVARSIZE_MAX ≡ dynvarsize_max }
    ensures size { LOCAL_SIZE ≡ local_size }
    ensures drops { LOCAL_DROPS_LIMIT ≡ local_drops_limit }
{}
