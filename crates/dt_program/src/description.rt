//! Descriptions whose fields are patterns.
ghost use Rattle.std.specs.Prelude.{◌≡◌, ℕ, ◌≤◌, List, Result, length, IfErr, IfOk};
ghost use Rattle.dt_glob.specs.Spells.{Spells};
ghost use Rattle.dt_program.specs.Description.{DescForm, form_of_description, DescribesPatterns, IsDescriptionFault, IsPatternFault, ReadsDescription};
ghost use Rattle.dt_program.specs.declared.description.DescriptionFault.{DescriptionFault};

use dt_glob::{GlobFault, PATTERN_MAX, Pattern};
use dt_names::{NameFault, ProbeDesc};
use thiserror::Error;

/// Which probes are meant: the patterns of four fields. The pattern of an empty field asks for nothing. (illumos Dynamic
/// Tracing Guide, "Program Structure".)
#[derive(Drop)]
pub struct Description {
    pub provider: Pattern,
    pub module: Pattern,
    pub function: Pattern,
    pub name: Pattern,
}

/// Why a text is no description of patterns.
#[derive(Clone, Copy, Debug, PartialEq, Eq, Error)]
pub enum DescriptionFault {
    /// It isn't one to four fields of name bytes: its first fault.
    #[error("{0}")]
    Fields(NameFault),
    /// A field is no pattern: the fault of the first such field from the left.
    #[error("{0}")]
    Pattern(GlobFault),
}

impl Description {
    /// Reads a description: one to four fields with `:` between them, aligned from the right, each of them a pattern. Any
    /// other text is refused for its first fault: of its fields, or of the first field that is no pattern. It takes no
    /// memory.
    pub fn parse(text: &[u8]) -> Result<Self, DescriptionFault>
        ensures found { IfOk result (λ description. DescribesPatterns text.now (form_of_description description)) }
        ensures fault { IfErr result (IsDescriptionFault text.now) }
    {
        let fields = match ProbeDesc::parse(text) {
            Ok(fields) => fields,
            Err(fault) => return Err(DescriptionFault::Fields(fault)),
        };
        let provider = pattern_of(fields.provider)?;
        let module = pattern_of(fields.module)?;
        let function = pattern_of(fields.function)?;
        let name = pattern_of(fields.name)?;
        Ok(Description {
            provider,
            module,
            function,
            name,
        })
    }
}

/// The pattern of a field, or why it is none.
fn pattern_of(field: &[u8]) -> Result<Pattern, DescriptionFault>
    requires { length field.now ≤ PATTERN_MAX }
    ensures found { IfOk result (Spells field.now) }
    ensures fault { IfErr result (IsPatternFault field.now) }
{
    match Pattern::parse(field) {
        Ok(pattern) => Ok(pattern),
        Err(fault) => Err(DescriptionFault::Pattern(fault)),
    }
}

/// Law: a text is read as a description in one way at most, and has one first fault at most, never both.
pub fn one_description()
    ensures { (text : List ℕ) (a b : Result DescForm DescriptionFault) → ReadsDescription text a
        → ReadsDescription text b → a ≡ b }
{}

/// Law: each text is read as a description, or refused for its first fault.
pub fn some_description()
    ensures { (text : List ℕ) → (reading : Result DescForm DescriptionFault) × ReadsDescription text reading }
{}
