//! Who publishes, with a book of all that each seat wrote.
//!
//! The chains' one writer (`ChainWriter` of dt_chain) and the books lie under one lock ([`Publisher`]). The book of a seat says, as a fact (dt_facts), all that the seat
//! wrote, the oldest first, a write that waits for memory too. Its share is with whoever keeps the seat, and must be there when the seat publishes or withdraws: book
//! and share then go on together, by the write, where the list of all writes does. So who has the share knows all that the seat wrote, with no lock in hand.
//!
//! What a contract sees is defined in `specs/Publishers.antt`, by dt_chain's `writes_of`, and what holds of a seat's own writes as all go on is the law
//! [`own_writes_go_on`].
#![tactic(auto)]

mod laws;
mod making;
mod publisher;

pub use laws::own_writes_go_on;
pub use publisher::Publisher;
