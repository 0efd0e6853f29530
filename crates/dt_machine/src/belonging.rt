//! The first firing of the scripts that does not belong to the machine.
ghost use Rattle.std.specs.Prelude.{◌<◌, ◌≤◌, MatchOption, map, length};
ghost use Rattle.dt_machine.specs.Registry.{Belongs};
ghost use Rattle.dt_machine.specs.Reading.{AllRight, AllRightIn, IsFirstWrong, IsFirstWrongIn};
ghost use Rattle.dt_machine.specs.Sections.{registry_of, IsReady};

use crate::limits::{CPUS_MAX, SCRIPT_MAX};
use crate::sections::Sections;
use dt_cred::Firing;

/// The processor and the row of the first firing that is foreign to the machine.
pub(crate) fn first_foreign(sections: &Sections, scripts: &[Vec<Firing>]) -> Option<(u32, u32)>
    requires few { length scripts.now ≤ CPUS_MAX }
    requires short { AllRightIn (λ before _. length before < SCRIPT_MAX) (map (λ s. s.items) scripts.now) }
    requires ready { IsReady sections.now }
    ensures { MatchOption result
        (AllRightIn (λ _ firing. Belongs (registry_of sections.now) firing) (map (λ s. s.items) scripts.now))
        (λ at. IsFirstWrongIn (λ _ firing. Belongs (registry_of sections.now) firing)
        (map (λ s. s.items) scripts.now) at.0 at.1) }
{
    for (cpu, script) in scripts.iter().enumerate() {
        // the fault names the least processor with a foreign firing, and there the first row
        if let Some(row) = first_foreign_in(sections, script.as_slice()) {
            return Some((cpu as u32, row));
        }
    }
    None
}

fn first_foreign_in(sections: &Sections, script: &[Firing]) -> Option<u32>
    requires short { AllRight (λ before _. length before < SCRIPT_MAX) script.now }
    requires ready { IsReady sections.now }
    ensures { MatchOption result (AllRight (λ _ firing. Belongs (registry_of sections.now) firing) script.now)
        (λ row. IsFirstWrong (λ _ firing. Belongs (registry_of sections.now) firing) script.now row) }
{
    for (place, firing) in script.iter().enumerate() {
        // the first foreign firing of a script is the one that is told
        if sections.context(firing).is_none() {
            return Some(place as u32);
        }
    }
    None
}
