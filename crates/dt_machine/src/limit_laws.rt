//! The limits that the code keeps are those of the definitions.
ghost use Rattle.std.specs.Prelude.{◌≡◌};
ghost use Rattle.dt_machine.specs.Limits.{cpus_max, accounts_max, processes_max, pid_max, probes_max, first_probe_id, probe_id_max, script_max, word_bits, interest_words};

use crate::bit_word::WORD_BITS;
use crate::interest::INTEREST_WORDS;
use crate::limits::{
    ACCOUNTS_MAX, CPUS_MAX, FIRST_PROBE_ID, PID_MAX, PROBE_ID_MAX, PROBES_MAX, PROCESSES_MAX,
    SCRIPT_MAX,
};

/// Law: the limits that the code keeps are the numbers of the definitions (`specs/Limits.antt`).
pub fn limits_agree()
    ensures cpus { CPUS_MAX ≡ cpus_max }
    ensures accounts { ACCOUNTS_MAX ≡ accounts_max }
    ensures processes { PROCESSES_MAX ≡ processes_max }
    ensures pid { PID_MAX ≡ pid_max }
    ensures probes { PROBES_MAX ≡ probes_max }
    ensures first_probe { FIRST_PROBE_ID ≡ first_probe_id }
    ensures last_probe { PROBE_ID_MAX ≡ probe_id_max }
    ensures script { SCRIPT_MAX ≡ script_max }
    ensures word { WORD_BITS ≡ word_bits }
    ensures words { INTEREST_WORDS ≡ interest_words }
{}
