//! Facts that cross locks: what one thread knows of a value that lies under another's lock.
//!
//! A fact has a name, and is held twice: by a [`Share`] in one place and by a [`Book`] in another, each with whom it concerns. The
//! two always agree. Who brings both together learns so ([`Facts::agree`]), and can let both go on to another fact
//! ([`Facts::go_on_apart`]); neither goes on without the other. So a thread that has the share knows what the book will say when it
//! comes to the lock that the book is under. Of a list that grows, a seat's writes, its lives or what its sessions knew, a [`Beginning`]
//! may be cut, which stays one.
//!
//! Facts exist in proofs alone. What is kept when a program runs is one word, which is always 0, and handles of no bytes. Its rule
//! (`specs/Rule.antt`) speaks of names and facts, and not of the word. Which facts there are is in `src/fact.rt` and
//! `specs/Facts.antt`, what of lives such a list says in `specs/Lives.antt`, and what contracts see of the handles in
//! `specs/Handles.antt`.
#![tactic(auto)]

mod beginnings;
mod fact;
mod handles;
mod laws;
mod rule;
mod steps;
mod word;

pub use fact::{Fact, GrowingLists, Knew, LastNote, LifeItem, LifeStep, Log, Processor};
pub use handles::{Beginning, Book, Both, Maker, Share};
pub use laws::{items_go_on, lives_go_on};
pub use rule::Given;
pub use word::Facts;
