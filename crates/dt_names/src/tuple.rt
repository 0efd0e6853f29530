//! The four names of a probe, and the text that spells them.
ghost use Rattle.std.specs.Prelude.{◌≡◌, IfSome, IfNone, count_by};
ghost use Rattle.dt_names.specs.Desc.{is_colon};

use crate::desc::ProbeDesc;
use crate::name::Name;
use std::fmt;

/// The four names of a probe, as `syscall::read:entry`.
#[derive(Clone, Copy, PartialEq, Eq)]
pub struct ProbeTuple {
    pub provider: Name,
    pub module: Name,
    pub function: Name,
    pub name: Name,
}

impl ProbeTuple {
    ghost use Rattle.dt_names.specs.Tuple.{SpellsTuple};
    ghost use Rattle.dt_names.specs.declared.tuple.ProbeTuple.{ProbeTuple};

    /// Reads the text of a probe: four names with exactly three `:` between them, of which the provider and the name
    /// are not empty. Any other text gives `None`.
    pub fn parse(text: &[u8]) -> Option<Self>
        ensures found { IfSome result (SpellsTuple text.now) }
        ensures none { IfNone result ((tuple : ProbeTuple) → SpellsTuple text.now tuple → ⊥) }
    {
        let fields = ProbeDesc::aligned(text);
        // a description may leave fields out, a probe may not, and only its module and function may be empty
        if count_of_colons(text) != 3 || fields.provider.is_empty() || fields.name.is_empty() {
            return None;
        }
        Some(ProbeTuple {
            provider: Name::new(fields.provider)?,
            module: Name::new(fields.module)?,
            function: Name::new(fields.function)?,
            name: Name::new(fields.name)?,
        })
    }
}

fn count_of_colons(text: &[u8]) -> usize
    ensures { result ≡ count_by is_colon text.now }
{
    text.iter().filter(|byte| **byte == b':').count()
}

impl fmt::Display for ProbeTuple {
    ghost use Rattle.std.specs.Prelude.{Some, [], ◌∷◌};
    ghost use Rattle.std.specs.List.{join_with_byte};
    ghost use Rattle.dt_names.specs.Bytes.{colon};

    ghost output = { λ tuple. Some (join_with_byte colon (tuple.provider ∷ tuple.module ∷ tuple.function ∷ tuple.name ∷ [])) };

    fn fmt<W: fmt::Write>(&self, f: &mut fmt::Formatter<W>) -> fmt::Result {
        let ProbeTuple {
            provider,
            module,
            function,
            name,
        } = self;
        write!(f, "{provider}:{module}:{function}:{name}")
    }
}

impl fmt::Debug for ProbeTuple {
    fn fmt<W: fmt::Write>(&self, f: &mut fmt::Formatter<W>) -> fmt::Result {
        write!(f, "{self}")
    }
}
