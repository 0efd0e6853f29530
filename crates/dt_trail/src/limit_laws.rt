//! The limits that the code keeps are those of the definitions.
ghost use Rattle.std.specs.Prelude.{◌≡◌, ◌+◌, ◌*◌, ◌<◌};
ghost use Rattle.dt_trail.specs.Limits.{trail_cpus_max, block_bound, widenings, opening_cells, block_cells, longest, longest_widenings};

use crate::limits::{
    BLOCK_CELLS, BLOCK_CELLS_MAX, TRAIL_CELLS, TRAIL_CELLS_MAX, TRAIL_CPUS_MAX, WIDENINGS_MAX,
};

/// Law: the limits that the code keeps are the numbers of the definitions (`specs/Limits.antt`), and a session's longest trail is
/// reached by fewer widenings than there may be.
pub fn limits_agree()
    ensures cpus { TRAIL_CPUS_MAX ≡ trail_cpus_max }
    ensures block { BLOCK_CELLS_MAX ≡ block_bound }
    ensures widenings { WIDENINGS_MAX ≡ widenings }
    ensures opening { TRAIL_CELLS ≡ opening_cells }
    ensures wider { BLOCK_CELLS ≡ block_cells }
    ensures longest { TRAIL_CELLS_MAX ≡ longest }
    ensures enough { longest ≡ opening_cells + longest_widenings * block_cells }
    ensures fewer { longest_widenings < widenings }
{}
