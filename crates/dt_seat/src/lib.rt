//! What lies under the lock of a seat.
#![tactic(auto)]

mod after_line;
mod asking;
mod follower;
mod held;
mod hub_publisher;
mod idle;
mod keep;
mod knowledge;
mod known_item;
mod line_kept;
mod lines;
mod locked;
mod making;
mod meeting;
mod notebook;
mod notes;
mod opening;
mod prepared;
mod present;
mod receipt;
mod replied;
mod session;
mod site;
mod telling;
mod told_of;
mod trailed;

pub use after_line::AfterLine;
pub use follower::Follower;
pub use held::Held;
pub use hub_publisher::HubPublisher;
pub use known_item::KnownItem;
pub use locked::LockedSeat;
pub use receipt::Receipt;
pub use replied::Replied;
pub use session::Session;
pub use site::HubSite;
pub use trailed::{Note, Owner};
