//! The limits that the code keeps are those of the definitions.
ghost use Rattle.std.specs.Prelude.{◌≡◌};
ghost use Rattle.dt_speculation.specs.Limits.{nspec_max, specsize_min, specsize_max, parts_max, failed_limit};

use crate::limits::{CPUS_MAX, FAILS_LIMIT, NSPEC_MAX, SPECSIZE_MAX, SPECSIZE_MIN};

/// Law: the limits that the code keeps are the numbers of the definitions (`specs/Limits.antt`).
pub fn limits_agree()
    ensures nspec { NSPEC_MAX ≡ nspec_max }
    ensures least_size { SPECSIZE_MIN ≡ specsize_min }
    ensures size { SPECSIZE_MAX ≡ specsize_max }
    ensures cpus { CPUS_MAX ≡ parts_max }
    ensures failed { FAILS_LIMIT ≡ failed_limit }
{}
