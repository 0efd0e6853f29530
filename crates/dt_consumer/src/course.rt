//! How the tracing of a consumer goes, once it has begun.
use dt_life::End;

/// How the tracing of a consumer goes, once it has begun.
#[derive(Clone, Copy)]
pub(crate) enum Course {
    /// It goes on.
    Running,
    /// It is over, by this cause, or by none where the session was closed.
    Over(Option<End>),
}
