//! Which facts there are. Contracts speak of them; no value of these types is made.

use dt_chain::Write;
use dt_cred::Account;
use dt_trail::{Item, Named};
use std::collections::LinkedList;

/// What a name's share and its book hold.
pub enum Fact {
    /// Of a name that was just made.
    Nothing,
    /// Of a seat: how its lives opened and closed, the oldest first.
    Life(LinkedList<LifeStep>),
    /// Of a processor at a seat: what it took there.
    Processor(Processor),
    /// Of a processor: what it knew as it fired.
    Log(Log),
    /// Of a seat: what it published and withdrew, the oldest first.
    Writes(LinkedList<Write>),
    /// Of a seat: the items that its sessions knew, the oldest first.
    Items(LinkedList<LifeItem>),
}

/// What of a fact only grows. A fact of writes has no items and no lives, one of items or of lives that alone, and any other nothing.
pub struct GrowingLists {
    pub writes: LinkedList<Write>,
    pub items: LinkedList<LifeItem>,
    pub lives: LinkedList<LifeStep>,
}

/// What became of the lives of a seat, which has one at a time. The first is number 0.
pub enum LifeStep {
    /// The next life opened, with this trail, whose it is said beside it.
    Opened(Named<Account>),
    /// The life that was open closed.
    Closed,
}

/// An item of the trail of one of a seat's lives.
pub struct LifeItem {
    pub life: u64,
    pub item: Item,
}

/// What a processor took at a seat.
pub struct Processor {
    /// The last life whose note it took, if it took any.
    pub took: Option<LastNote>,
}

/// A life whose note a processor took.
pub struct LastNote {
    pub life: u64,
    /// The note's trail, and whose it is.
    pub row: Named<Account>,
}

/// What a processor knew at each place of its script so far: of which life at each seat, in the order of seats, how many items.
pub struct Log {
    pub places: LinkedList<LinkedList<Knew>>,
}

/// Of a life, how many items were known.
pub struct Knew {
    pub life: u64,
    pub items: u64,
}
