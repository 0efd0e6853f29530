//! The names of tracing: short texts, names, the four-part names of probes, and the descriptions that ask for them.
//!
//! A description is read exactly when its text is one to four fields of name bytes joined by `:`, aligned from the
//! right; any other text is refused with the fault that the first byte from the left shows (`ProbeDesc::parse`).
//! Where the definitions stand: `specs/Name.antt`, `specs/Tuple.antt` and `specs/Desc.antt`.
//! No call takes memory.
#![tactic(auto)]

mod desc;
mod limit_laws;
mod name;
mod short_text;
mod tuple;

pub use desc::{FIELD_MAX, FIELDS_MAX, NameFault, ProbeDesc, one_answer};
pub use limit_laws::limits_agree;
pub use name::{NAME_MAX, Name, is_name_byte};
pub use short_text::{PADDED_SIZE, SHORT_TEXT_MAX, ShortText};
pub use tuple::ProbeTuple;
