//! Records: what a clause leaves where it is taken, and records back from their bytes.
//!
//! `Taken::take` leaves what the definition `taking` in `specs/Taking.antt` gives a clause in a scene: its record's
//! bytes and the speculation that they are directed to, what its aggregating statements give, the speculations that it ends, and the
//! status of its first exit; or nothing where the predicate is 0; or the fault that abandons the clause. On the way it assigns to
//! thread-local variables and draws identifiers, which later statements see. `taken` does so for one clause alone. Neither takes
//! memory. `Layout`
//! says of what a clause's record is made, and `split` gives the records that bytes are, one after the other
//! (`IsSplit` in `specs/Split.antt`), of which there is one list at most (`one_split`). What a clause leaves is a record
//! of its layout (`records_fit`, over the definitions of `specs/Showing.antt`), and so is split again (`left_is_split`).
//! How much a clause leaves at most is said by `left_is_limited`.
#![tactic(auto)]

mod bare_record;
mod bare_values;
mod building;
mod effects;
mod laws;
mod layout;
mod limit_laws;
mod limits;
mod parts;
mod recorded;
mod recording;
mod splitting;
mod taking;
mod traced;
mod values;

pub use bare_record::record_only;
pub use bare_values::give_only;
pub use laws::{
    assignments_fit, left_is_limited, left_is_split, one_performance, one_split, records_fit,
    records_have_lengths,
};
pub use layout::{Field, Layout};
pub use limit_laws::limits_agree;
pub use limits::{EPID_SIZE, RECORD_MAX, VALUES_MAX};
pub use parts::{SpecEnd, Taken};
pub use recorded::{Record, Recorded};
pub use recording::{leaves_record, only_gives, only_records};
pub use splitting::split;
pub use taking::taken;
pub use traced::{TRACED_SIZE, traced_record, traced_variable};
