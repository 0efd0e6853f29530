//! What `dtr` prints: what a service answered, as a person at a terminal reads it.
//!
//! Each function that prints adds bytes to a list, and its contract says which: a function of the values, which stands in `specs/`. Bytes that the machine or the
//! service gave go through `push_shown`, so that nothing of them reaches a terminal but plain bytes (`specs/Escaping.antt`).
#![tactic(auto)]

mod columns;
mod distribution;
mod escaping;
mod fields;
mod laws;
mod limit_laws;
mod limits;
mod parts;
mod picture;
mod probes;
mod reading;
mod records;
mod refusal;
mod row;
mod table;

pub use columns::push_number;
pub use distribution::{RowCount, counts_total, level_rows, power_rows, rows_total};
pub use escaping::push_shown;
pub use fields::{number_field, text_field};
pub use laws::{
    pictures_are_plain, refusals_are_plain, rows_are_plain, shown_is_plain, tables_are_plain,
};
pub use limit_laws::limits_agree;
pub use parts::{after_byte, before_byte};
pub use picture::{PictureRow, push_picture};
pub use probes::{push_probe, push_probes_head};
pub use reading::{counts_in, key_in, layout_in, signed_in};
pub use records::{push_rows, unknown_epid};
pub use refusal::{ToldRefusal, push_caret};
pub use row::{RowProbe, push_rows_head};
pub use table::{KeyColumn, push_key, push_number_line, push_title};
