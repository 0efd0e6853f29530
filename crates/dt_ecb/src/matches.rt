//! The probes that match a clause, and those that are listed for a description.
ghost use Rattle.std.specs.Prelude.{◌≡◌, IfOk};
ghost use Rattle.std.specs.List.{list_any};
ghost use Rattle.std.specs.Option.{option_copied};
ghost use Rattle.dt_program.specs.Description.{form_of_description};
ghost use Rattle.dt_program.specs.Program.{ClauseForm};
ghost use Rattle.dt_ecb.specs.Matching as spec;

use crate::description_matcher::DescriptionMatcher;
use dt_cred::{Account, Class, Probe, Process, may_enable};
use dt_machine::{Machine, PID_MAX};
use dt_names::ProbeTuple;
use dt_program::Description;
use std::alloc::{AllocError, Global};

/// Whether a probe matches a clause of these descriptions: the account may enable it, and one of them asks for it.
pub(crate) fn is_matched(
    account: &Account,
    machine: &Machine,
    descriptions: &[DescriptionMatcher],
    probe: &Probe,
) -> bool
    ensures { (clause : ClauseForm) → clause.descriptions ≡ descriptions.now
        → result ≡ spec.is_matched account.now machine.now.registry clause probe.now }
{
    is_allowed(account, machine, probe) && is_described(descriptions, &probe.tuple)
}

/// The probes that a description asks for and the account may enable, by rising identifier.
pub fn listed(
    alloc: Global,
    account: &Account,
    machine: &Machine,
    description: &Description,
) -> Result<Vec<Probe>, AllocError>
    ensures { IfOk result (λ probes.
        probes.items ≡ spec.listed account.now machine.now.registry (form_of_description description.now)) }
{
    let matcher = DescriptionMatcher::of(description);
    let mut probes = Vec::new(alloc);
    for probe in machine.probes() {
        if is_listed(account, machine, &matcher, probe) {
            probes.push(*probe)?;
        }
    }
    Ok(probes)
}

/// Whether a probe is listed for a description: the account may enable it, and the description asks for it.
fn is_listed(
    account: &Account,
    machine: &Machine,
    description: &DescriptionMatcher,
    probe: &Probe,
) -> bool
    ensures { result ≡ spec.is_listed account.now machine.now.registry description.now probe.now }
{
    is_allowed(account, machine, probe) && description.asks_for(&probe.tuple)
}

/// Whether the account may enable a probe.
fn is_allowed(account: &Account, machine: &Machine, probe: &Probe) -> bool
    ensures { result ≡ spec.is_allowed account.now machine.now.registry probe.now }
{
    may_enable(account, probe, traced_process(machine, probe.class))
}

/// The process that a `pid` provider traces.
fn traced_process(machine: &Machine, class: Class) -> Option<&Process>
    ensures { option_copied result ≡ spec.traced_process machine.now.registry class }
{
    match class {
        // a number past all process numbers finds no process, and neither does the greatest of 32 bits
        Class::Pid(pid) => {
            let pid = if pid <= u128::from(PID_MAX) {
                pid as u32
            } else {
                u32::MAX
            };
            machine.process(pid)
        }
        _ => None,
    }
}

/// Whether one of the descriptions asks for the probe.
fn is_described(descriptions: &[DescriptionMatcher], tuple: &ProbeTuple) -> bool
    ensures { result ≡ list_any (λ description. spec.asks_for description tuple.now) descriptions.now }
{
    descriptions
        .iter()
        .any(|description| description.asks_for(tuple))
}
