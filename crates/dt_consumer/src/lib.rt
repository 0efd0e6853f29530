//! One consumer: what it has enabled, and what it has of each processor from its `go` on.
//!
//! A consumer *stands for* its life, which is the list of its lines and of the firings that it saw
//! (`specs/StandsFor.antt`): `draft` replies to a line as the definition says and changes nothing, `apply` and
//! `offer` leave a consumer that stands for the life one item longer. What a life is and which reply a line has after it is
//! defined in `dt_life`. `Draft::publishes` says whether tracing begins by the line.
#![tactic(auto)]

mod committing;
mod consumer;
mod course;
mod draft;
mod drafts;
mod ecb_lists;
mod enabled;
mod outline;
mod processor;
mod processors;
mod programs;
mod room;
mod scratch;
mod traced_ecb;
mod tracing;
mod uses;

pub use consumer::Consumer;
pub use draft::Draft;
pub use dt_life::{
    AGGSIZE, AGGSIZE_MIN, BUFFER_SIZE, Command, End, HISTORY, HISTORY_MAX, LINES_MAX, OptionValue,
    Phase, Refusal, Reply, one_reply, some_reply,
};
pub use scratch::Scratch;
