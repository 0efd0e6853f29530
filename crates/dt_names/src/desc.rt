//! Probe descriptions: the text of one to four fields, and the first fault of a text that is none.
ghost use Rattle.std.specs.Prelude.{◌≡◌, ℕ, ◌≤◌, ◌⊎◌, [], ◌∷◌, ◌++◌, length, drop, replicate, List, IfOk, IfErr, IfSome, IfNone};
ghost use Rattle.std.specs.List.{AllByRecursion};
ghost use Rattle.dt_names.specs.Desc.{Desc, desc_of, fields, IsField, Describes, IsFirstFault};
ghost use Rattle.dt_names.specs.declared.desc.NameFault.{NameFault};

use crate::name::is_name_byte;
use thiserror::Error;

/// The most bytes of a description's field: more than a name has, since a field may be a pattern.
pub const FIELD_MAX: usize = 63;

/// The most fields of a description.
pub const FIELDS_MAX: usize = 4;

/// Why a text is no description: the fault of the first byte from the left that shows one.
#[derive(Clone, Copy, Debug, PartialEq, Eq, Error)]
pub enum NameFault {
    /// A byte that is neither a name byte nor `:`. It goes before the other faults of that byte.
    #[error("a byte that no name has")]
    BadByte,
    /// The 64th byte of a field.
    #[error("a field of more than 63 bytes")]
    TooLong,
    /// The fourth `:`.
    #[error("more than four fields")]
    TooManyFields,
}

/// What a consumer writes for the probes that it means: `provider:module:function:name`, of which fields may be left
/// out from the left, so that `read:entry` is function `read`, name `entry`.
///
/// A field that is empty or left out asks for nothing; any other is the text of a pattern. (illumos Dynamic Tracing
/// Guide, "Probe Descriptions".)
#[derive(Clone, Copy, Debug)]
pub struct ProbeDesc<'a> {
    pub provider: &'a [u8],
    pub module: &'a [u8],
    pub function: &'a [u8],
    pub name: &'a [u8],
}

impl<'a> ProbeDesc<'a> {
    /// Reads a description: one to four fields of at most 63 name bytes, with `:` between them.
    ///
    /// The fields are parts of `text`. Any other text is refused with the fault of its first byte from the left that
    /// shows one.
    pub fn parse(text: &'a [u8]) -> Result<Self, NameFault>
        ensures found { IfOk result (λ desc. Describes text.now (desc_of desc)) }
        ensures fault { IfErr result (IsFirstFault text.now) }
    {
        match first_fault(text) {
            Some(fault) => Err(fault),
            None => Ok(Self::aligned(text)),
        }
    }

    /// The last four fields of a text, as a description has them: the ones that it lacks are empty.
    pub(crate) fn aligned(text: &'a [u8]) -> Self
        ensures { result.provider.now ∷ result.module.now ∷ result.function.now ∷ result.name.now ∷ []
            ≡ drop (length (fields text.now)) (replicate FIELDS_MAX [] ++ fields text.now) }
    {
        let mut desc = ProbeDesc {
            provider: &[],
            module: &[],
            function: &[],
            name: &[],
        };
        for field in text.split(|byte| *byte == b':') {
            desc = ProbeDesc {
                provider: desc.module,
                module: desc.function,
                function: desc.name,
                name: field,
            };
        }
        desc
    }
}

/// The fault of the first byte from the left that shows one.
fn first_fault(text: &[u8]) -> Option<NameFault>
    ensures found { IfSome result (IsFirstFault text.now) }
    ensures few { IfNone result (length (fields text.now) ≤ FIELDS_MAX) }
    ensures each { IfNone result (AllByRecursion IsField (fields text.now)) }
{
    let mut colons = 0;
    let mut field_len = 0;
    for byte in text {
        // the first byte from the left that shows a fault decides: what comes after it isn't looked at
        if *byte == b':' {
            if colons == FIELDS_MAX - 1 {
                return Some(NameFault::TooManyFields);
            }
            colons += 1;
            field_len = 0;
        } else if !is_name_byte(*byte) {
            // asked before the length: a byte that no name has goes before the other faults of that byte
            return Some(NameFault::BadByte);
        } else if field_len == FIELD_MAX {
            return Some(NameFault::TooLong);
        } else {
            field_len += 1;
        }
    }
    None
}

/// Law: each text is a description or has a first fault, never both; it is a description in one way at most, and has
/// one first fault at most.
pub fn one_answer()
    ensures some_answer { (text : List ℕ) → ((desc : Desc) × Describes text desc)
        ⊎ ((fault : NameFault) × IsFirstFault text fault) }
    ensures one_description { (text : List ℕ) (a b : Desc) → Describes text a → Describes text b → a ≡ b }
    ensures one_fault { (text : List ℕ) (a b : NameFault) → IsFirstFault text a → IsFirstFault text b → a ≡ b }
    ensures never_both { (text : List ℕ) (a : Desc) (b : NameFault) → Describes text a → IsFirstFault text b → ⊥ }
{}
