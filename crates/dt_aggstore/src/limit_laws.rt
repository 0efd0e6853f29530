//! The limits that the code keeps are those of the definitions.
ghost use Rattle.std.specs.Prelude.{◌≡◌};
ghost use Rattle.dt_aggstore.specs.Limits.{added_limit, aggsize_max, keys_max, stores_max};

use crate::limits::{ADDED_LIMIT, AGGSIZE_MAX, KEYS_MAX, STORES_MAX};

/// Law: the limits that the code keeps are the numbers of the definitions (`specs/Limits.antt`).
pub fn limits_agree()
    ensures size { AGGSIZE_MAX ≡ aggsize_max }
    ensures keys { KEYS_MAX ≡ keys_max }
    ensures stores { STORES_MAX ≡ stores_max }
    ensures added { ADDED_LIMIT ≡ added_limit }
{}
