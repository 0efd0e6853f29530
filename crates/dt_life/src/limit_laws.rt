//! The limits that the code keeps are those of the definitions.
ghost use Rattle.std.specs.Prelude.{◌≡◌};
ghost use Rattle.dt_life.specs.Limits.{lines_max, buffer_size_default, buffer_size_min, aggsize_default, aggsize_min, history_default, history_max, history_min, dynvarsize_default, nspec_default, nspec_min, specsize_default, begin_id, end_id};

use crate::limits::{
    AGGSIZE, AGGSIZE_MIN, BEGIN, BUFFER_SIZE, BUFFER_SIZE_MIN, DYNVARSIZE, END, HISTORY,
    HISTORY_MAX, HISTORY_MIN, LINES_MAX, NSPEC, NSPEC_MIN, SPECSIZE,
};

/// Law: the limits that the code keeps are the numbers of the definitions (`specs/Limits.antt`).
pub fn limits_agree()
    ensures lines { LINES_MAX ≡ lines_max }
    ensures buffer_size { BUFFER_SIZE ≡ buffer_size_default }
    ensures least_buffer_size { BUFFER_SIZE_MIN ≡ buffer_size_min }
    ensures aggsize { AGGSIZE ≡ aggsize_default }
    ensures least_aggsize { AGGSIZE_MIN ≡ aggsize_min }
    ensures history { HISTORY ≡ history_default }
    ensures shortest_history { HISTORY_MIN ≡ history_min }
    ensures longest_history { HISTORY_MAX ≡ history_max }
    ensures dynvarsize { DYNVARSIZE ≡ dynvarsize_default }
    ensures nspec { NSPEC ≡ nspec_default }
    ensures least_nspec { NSPEC_MIN ≡ nspec_min }
    ensures specsize { SPECSIZE ≡ specsize_default }
    ensures begin_probe { BEGIN ≡ begin_id }
    ensures end_probe { END ≡ end_id }
{}
