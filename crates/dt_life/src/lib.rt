//! The life of one consumer: what its lines ask for, what a list of lines and seen firings has made of it, and what it
//! answers to the next line.
//!
//! Nothing here keeps a consumer: `dt_consumer` does, step by step, and `dt_alone` computes the same anew from whole
//! lists. What both mean is defined here, over a life (`specs/Life.antt`): the reply to a line stands in
//! `specs/Reply.antt`, and a line has just one (`one_reply`, `some_reply`). The small parts that have one way to be
//! written (options, the contexts of BEGIN and END, keys out of values) are here too, for both.
#![tactic(auto)]

mod command;
mod laws;
mod limit_laws;
mod limits;
mod named_aggregation;
mod options;
mod own;
mod phase;
mod placing;
mod refusal;
mod reply;
mod reserve;
mod scene;
mod stores;
mod told;
mod values;
mod visibility;

pub use command::{Command, OptionValue};
pub use dt_machine::Context;
pub use laws::{
    ecbs_stay, one_reply, one_row_of_takings, phases, records_are_of_layouts, seen_by_interest,
    seen_within_history, some_reply, tests_agree,
};
pub use limit_laws::limits_agree;
pub use limits::{
    AGGSIZE, AGGSIZE_MIN, BEGIN, BUFFER_SIZE, BUFFER_SIZE_MIN, DYNVARSIZE, END, HISTORY,
    HISTORY_MAX, HISTORY_MIN, LINES_MAX, NSPEC, NSPEC_MIN, SPECSIZE,
};
pub use named_aggregation::NamedAggregation;
pub use options::Options;
pub use own::{own_firing, own_process};
pub use phase::{End, Phase};
pub use placing::placed_after;
pub use refusal::Refusal;
pub use reply::Reply;
pub use reserve::end_reserve;
pub use scene::scene_at;
pub use stores::empty_stores;
pub use told::{reply_to_describe, reply_to_list};
pub use values::{number_in, parts_at, put_parts};
pub use visibility::shown;
