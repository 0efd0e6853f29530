//! What the texts of the programs say to this program itself, which reads them as the service does.

use crate::fault::Trouble;
use crate::learning::Enablings;
use crate::summing::{ListedAggregation, add_of_clause};
use dt_front::{after_byte, before_byte, number_field, text_field};
use dt_lang::{Clause, Description, ParseProgram, Program};
use dt_record::{Layout, leaves_record};
use serde_json::Value;
use std::alloc::Global;

/// The programs that are enabled, in order.
#[derive(Drop)]
pub(crate) struct Readings {
    programs: Vec<Program>,
    /// Whether each text is read.
    whole: bool,
}

impl Readings {
    /// Reads texts of programs. Those that are none are left out.
    pub(crate) fn of(alloc: Global, texts: &[String]) -> Result<Self, Trouble> {
        let mut programs = Vec::new(alloc);
        for text in texts {
            if let Ok(program) = Program::parse(alloc, text.as_bytes()) {
                programs.push(program)?;
            }
        }
        let whole = programs.len() == texts.len();
        Ok(Readings { programs, whole })
    }

    /// The aggregations of the programs, each once, in order.
    pub(crate) fn aggregations(&self, alloc: Global) -> Result<Vec<ListedAggregation>, Trouble> {
        let mut found = Vec::new(alloc);
        for program in &self.programs {
            for clause in &program.clauses {
                add_of_clause(alloc, &mut found, clause)?;
            }
        }
        Ok(found)
    }

    /// Whether a clause may leave records: one of those that are read does, or a text isn't read.
    pub(crate) fn may_record(&self) -> bool {
        if !self.whole {
            return true;
        }
        for program in &self.programs {
            for clause in &program.clauses {
                if leaves_record(clause) {
                    return true;
                }
            }
        }
        false
    }

    /// The enablings of the programs, where these are the probes that the account may enable, by rising identifier.
    pub(crate) fn enablings(&self, alloc: Global, probes: &[Value]) -> Result<Enablings, Trouble> {
        let mut found = Enablings::new(alloc);
        for program in &self.programs {
            for clause in &program.clauses {
                add_enablings(alloc, &mut found, clause, probes)?;
            }
        }
        Ok(found)
    }
}

/// Adds the enablings of a clause.
fn add_enablings(
    alloc: Global,
    found: &mut Enablings,
    clause: &Clause,
    probes: &[Value],
) -> Result<(), Trouble> {
    for probe in probes {
        let (Some(id), Some(name)) = (number_field(probe, "id"), text_field(probe, "name")) else {
            return Err(Trouble::Strange);
        };
        if is_described(clause, name.as_bytes()) {
            found.push(alloc, Layout::of(clause), id, name)?;
        }
    }
    Ok(())
}

/// Whether one of a clause's descriptions asks for a probe of these four names.
fn is_described(clause: &Clause, names: &[u8]) -> bool {
    for description in &clause.descriptions {
        if asks_for(description, names) {
            return true;
        }
    }
    false
}

/// Whether a description asks for a probe of these four names: an empty field asks for nothing.
fn asks_for(description: &Description, names: &[u8]) -> bool {
    asks_for_module(description, names)
        && asks_for_function(description, after_byte(b':', after_byte(b':', names)))
}

/// Whether a description asks for the first two of these names, a provider and a module.
fn asks_for_module(description: &Description, names: &[u8]) -> bool {
    let module = before_byte(b':', after_byte(b':', names));
    (description.provider.is_empty() || description.provider.matches(before_byte(b':', names)))
        && (description.module.is_empty() || description.module.matches(module))
}

/// Whether a description asks for these last two names, a function and a name.
fn asks_for_function(description: &Description, names: &[u8]) -> bool {
    (description.function.is_empty() || description.function.matches(before_byte(b':', names)))
        && (description.name.is_empty() || description.name.matches(after_byte(b':', names)))
}
