//! What reaches a consumer.
use dt_machine::Firing;
use dt_proto::Asked;

/// What reaches a consumer that traces alone.
#[derive(Debug, Drop)]
pub enum Item {
    /// A line of its own, without the newline.
    Line(Asked),
    /// A firing of the machine, whether the consumer sees it or not.
    Firing(Firing),
}
