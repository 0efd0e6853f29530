//! Lines and replies as bytes.
//!
//! A session's input comes as pieces of bytes, cut anywhere. [`Lines`] finds the lines in it: a line is what stands
//! before a newline, and one of more than [`LINE_MAX`] bytes is long, whatever they are. Which lines an input has is
//! defined over all its bytes (`specs/Lines.antt`), and not over how it is read; `one_cutting` says how the lines of
//! two pieces are those of the whole, and `one_splitting` that an input is its lines and a rest in one way.
//!
//! [`read_line`] gives what a line's bytes ask of a consumer, or for what they are refused (`specs/Line.antt`), and
//! [`reply_bytes`] writes a reply as its JSON (`specs/Reply.antt`), whose text the law `reply_texts` gives letter by
//! letter. `specs/Alone.antt` says what a consumer is answered that traces alone.
//!
//! A session's trail is legal where each item may stand after those before it, and agrees where each reply is the one that
//! is due (`specs/Legal.antt`). `legal_lives` says that a legal trail tells the life of its view, `agreement` that it agrees
//! exactly where its replies are those of a consumer alone, and `trails_agree` that the trail of a view agrees that a machine
//! can bring. The life of such a view is a life on the machine (`lives_on_machines`).
#![tactic(auto)]

mod asked;
mod decimal;
mod laws;
mod limit_laws;
mod limits;
mod line;
mod lines;
mod pieces;
mod probes;
mod reply;
mod rows;
mod text;
mod written;

pub use asked::{Asked, WholeLine};
pub use decimal::number_of;
pub use laws::{
    agreement, equal_rights, first_replies, legal_lives, lives_on_machines, one_cutting, one_line,
    one_splitting, seen_alike, tests_agree, trails_agree, trails_are_seen,
};
pub use limit_laws::limits_agree;
pub use limits::LINE_MAX;
pub use line::{command_of, read_line};
pub use lines::{Fed, Lines};
pub use pieces::asked_in;
pub use reply::{memory_line, reply_bytes, reply_texts};
