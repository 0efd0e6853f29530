//! The row that a session and a processor share, computed from what the processor was answered and from the session's trail.
use crate::calls::{HubCalls, SessionCalls, TokenCalls};
use dt_chain::Seat;
use dt_hub::{KnownItem, Offered};
use std::alloc::{AllocError, Global};
use std::sync::Wait;

/// What a processor was answered at one place of its script.
#[derive(Clone, Copy)]
struct PlaceAnswer {
    /// What its firing came to at the life.
    came: Offered,
    /// How many items of the trail it was answered to know before.
    knew: u64,
    /// Whether the session sees this firing as long as it traces.
    is_wanted: bool,
}

/// What a processor was answered of the life of a session, at each place of its script so far.
#[derive(Drop)]
pub struct LifeHeard {
    seat: Seat,
    life: u64,
    knows: u64,
    places: Vec<PlaceAnswer>,
}

impl LifeHeard {
    /// Before anything was answered of the life.
    pub fn new<S: SessionCalls>(alloc: Global, session: &S) -> LifeHeard {
        LifeHeard {
            seat: session.seat(),
            life: session.life(),
            knows: 0,
            places: Vec::new(alloc),
        }
    }

    /// Before anything was answered of a later life of the seat, by a processor that has fired as often.
    pub fn next<S: SessionCalls>(
        &self,
        alloc: Global,
        session: &S,
    ) -> Result<LifeHeard, AllocError> {
        let mut heard = LifeHeard::new(alloc, session);
        for answer in &self.places {
            heard.places.push(PlaceAnswer {
                came: Offered::NotNamed,
                knew: 0,
                is_wanted: answer.is_wanted,
            })?;
        }
        Ok(heard)
    }

    /// The processor was told so many items, or met the session as it knew them.
    pub fn learns(&mut self, count: u64) {
        self.knows = self.knows.max(count);
    }

    /// The processor has fired: what this came to at the life.
    pub fn fired<T: TokenCalls>(
        &mut self,
        token: &T,
        is_wanted: bool,
    ) -> Result<Offered, AllocError> {
        let came = if token.named().life_of(self.seat) == Some(self.life) {
            token.offered(self.seat)
        } else {
            Offered::NotNamed
        };
        let knew = self.knows;
        self.places.push(PlaceAnswer {
            came,
            knew,
            is_wanted,
        })?;
        if let Offered::Unseen { known } = came {
            self.learns(known);
        }
        Ok(came)
    }
}

/// Which firings a session sees: after its line by which it goes, before that by which it stops, and so many.
#[derive(Clone, Copy)]
pub struct Sight {
    /// The number of the line by which it goes.
    pub go: usize,
    /// The number of the line by which it stops, if it does.
    pub stop: Option<usize>,
    /// How many firings it sees at most.
    pub history: u64,
}

/// Goes over the items of a row, and says which are seen where they stand.
#[derive(Clone, Copy)]
struct Walk {
    sight: Sight,
    traces: bool,
    firings: u64,
}

impl Walk {
    fn new(sight: Sight) -> Walk {
        Walk {
            sight,
            traces: false,
            firings: 0,
        }
    }

    /// Whether the next item is seen.
    fn sees(&mut self, item: KnownItem, is_wanted: bool) -> bool {
        if let KnownItem::Line(number) = item {
            if number == self.sight.go {
                self.traces = true;
            }
            if Some(number) == self.sight.stop {
                self.traces = false;
            }
            return true;
        }
        if !self.traces || !is_wanted {
            return false;
        }
        self.firings = self.firings.wrapping_add(1);
        self.traces = self.firings < self.sight.history;
        true
    }
}

/// A row that is made of a trail, from its first item on.
#[derive(Drop)]
struct SharedRow<'t> {
    trail: &'t [KnownItem],
    /// How many items of the trail it has.
    taken: usize,
    walk: Walk,
    items: Vec<KnownItem>,
}

impl SharedRow<'_> {
    /// Takes the next item of the trail, if there is one.
    fn takes_next(&mut self) -> Result<Option<KnownItem>, AllocError> {
        let Some(item) = self.trail.get(self.taken) else {
            return Ok(None);
        };
        self.walk.sees(*item, true);
        self.items.push(*item)?;
        self.taken = self.taken.wrapping_add(1);
        Ok(Some(*item))
    }

    /// Takes items of the trail until it has so many.
    fn takes_up_to(&mut self, count: u64) -> Result<(), AllocError> {
        for _ in self.taken..self.trail.len() {
            if self.taken as u64 >= count {
                break;
            }
            self.takes_next()?;
        }
        Ok(())
    }

    /// Takes items of the trail up to this one.
    fn takes_with(&mut self, last: KnownItem) -> Result<(), AllocError> {
        for _ in self.taken..self.trail.len() {
            if self.takes_next()? == Some(last) {
                break;
            }
        }
        Ok(())
    }

    /// Has a firing of the processor: where the trail has it; after what was known as it wasn't seen; or as early as it isn't seen, which may be at the end alone.
    fn has(&mut self, firing: KnownItem, answer: PlaceAnswer) -> Result<(), AllocError> {
        match answer.came {
            Offered::Kept => return self.takes_with(firing),
            Offered::Unseen { known } => self.takes_up_to(known)?,
            Offered::NotNamed | Offered::Gone => {
                self.takes_up_to(answer.knew)?;
                if answer.is_wanted && self.walk.traces {
                    self.takes_up_to(u64::MAX)?;
                }
            }
        }
        self.items.push(firing)?;
        Ok(())
    }
}

/// The row of a trail and of the firings of a processor.
fn row_of(
    alloc: Global,
    cpu: u32,
    heard: &LifeHeard,
    sight: Sight,
    trail: &[KnownItem],
) -> Result<Vec<KnownItem>, AllocError> {
    let mut row = SharedRow {
        trail,
        taken: 0,
        walk: Walk::new(sight),
        items: Vec::new(alloc),
    };
    let mut place = 0u32;
    for answer in &heard.places {
        row.has(KnownItem::Fired { cpu, place }, *answer)?;
        place = place.wrapping_add(1);
    }
    row.takes_up_to(u64::MAX)?;
    Ok(row.items)
}

/// Why a row is none that a session and a processor share.
#[derive(Clone, Copy, Debug, PartialEq, Eq)]
pub enum RowFault {
    /// The life was gone where a firing came, though the session is open.
    Gone,
    /// A firing stands before an item that the processor knew as it fired.
    BeforeKnown,
    /// A firing was kept that isn't seen where it stands, or it is seen there and wasn't kept.
    NotAsKept,
    /// An unseen firing stands after more or fewer items than the processor was told to know.
    NotAsTold,
    /// A firing stands out of the order of its script.
    OutOfOrder,
    /// A firing is missing.
    Missing,
    /// What is seen of the row isn't the trail.
    OtherTrail,
    /// The session knows more or fewer items than the trail has.
    NotAll,
}

/// What of a row is seen, what the processor knew, how many places it has fired, and the first thing that is wrong.
#[derive(Drop)]
struct RowJudge {
    walk: Walk,
    items: Vec<KnownItem>,
    knows: u64,
    places: u32,
    fault: Option<RowFault>,
}

impl RowJudge {
    /// Where this doesn't hold, that is wrong, unless something was before.
    fn wants(&mut self, holds: bool, fault: RowFault) {
        if !holds && self.fault.is_none() {
            self.fault = Some(fault);
        }
    }

    /// An item that isn't the processor's.
    fn has_other(&mut self, item: KnownItem) -> Result<(), AllocError> {
        if self.walk.sees(item, true) {
            self.items.push(item)?;
        }
        Ok(())
    }

    /// A firing of the processor: it stands after all that was known, and is seen there just where it was kept.
    fn has_own(&mut self, item: KnownItem, answer: PlaceAnswer) -> Result<(), AllocError> {
        self.places = self.places.wrapping_add(1);
        self.wants(answer.came != Offered::Gone, RowFault::Gone);
        self.knows = self.knows.max(answer.knew);
        let count = self.items.len() as u64;
        let is_after_known = count >= self.knows;
        self.wants(is_after_known, RowFault::BeforeKnown);
        let is_seen = self.walk.sees(item, answer.is_wanted);
        let is_kept = answer.came == Offered::Kept;
        self.wants(is_seen == is_kept, RowFault::NotAsKept);
        if is_seen {
            self.items.push(item)?;
            self.knows = self.items.len() as u64;
        }
        if let Offered::Unseen { known } = answer.came {
            let count = self.items.len() as u64;
            self.wants(count == known, RowFault::NotAsTold);
            self.knows = known;
        }
        Ok(())
    }
}

/// What is wrong with a row, if anything is. It has the processor's firings, each once and in order, after all that the processor knew as it fired; and without those
/// that aren't seen it is the trail.
fn fault_of(
    alloc: Global,
    cpu: u32,
    heard: &LifeHeard,
    sight: Sight,
    trail: &[KnownItem],
    row: &[KnownItem],
) -> Result<Option<RowFault>, AllocError> {
    let mut judge = RowJudge {
        walk: Walk::new(sight),
        items: Vec::new(alloc),
        knows: 0,
        places: 0,
        fault: None,
    };
    for item in row {
        match (*item, heard.places.get(judge.places as usize)) {
            (KnownItem::Fired { cpu: of, place }, Some(answer)) if of == cpu => {
                let is_next = place == judge.places;
                judge.wants(is_next, RowFault::OutOfOrder);
                judge.has_own(*item, *answer)?;
            }
            _ => judge.has_other(*item)?,
        }
    }
    let has_all = judge.places as usize == heard.places.len();
    judge.wants(has_all, RowFault::Missing);
    let is_trail = judge.items.as_slice() == trail;
    judge.wants(is_trail, RowFault::OtherTrail);
    Ok(judge.fault)
}

/// The items that a session knows.
fn known_items<S: SessionCalls>(
    alloc: Global,
    session: &mut S,
) -> Result<Vec<KnownItem>, AllocError> {
    let mut items = Vec::new(alloc);
    for k in 0..u64::MAX {
        let Some(item) = session.known(k) else {
            break;
        };
        items.push(item)?;
    }
    Ok(items)
}

/// The trail that a session knows and the firings of a processor stand in one row: how many items the session knows, or what is wrong with that row.
fn shares<S: SessionCalls, T: TokenCalls>(
    alloc: Global,
    session: &mut S,
    token: &T,
    heard: &LifeHeard,
    sight: Sight,
) -> Result<Result<u64, RowFault>, AllocError> {
    let trail = known_items(alloc, session)?;
    let row = row_of(alloc, token.cpu(), heard, sight, &trail)?;
    let fault = fault_of(alloc, token.cpu(), heard, sight, &trail, &row)?;
    Ok(match fault {
        Some(fault) => Err(fault),
        None => Ok(trail.len() as u64),
    })
}

/// A session and a processor meet. The session then knows so many items, which are all, and the processor's firings stand with these in one row; or something is wrong
/// with that.
pub fn meet_heard<H: HubCalls, R: Wait>(
    rt: &R,
    alloc: Global,
    hub: &H,
    session: &mut H::Session,
    token: &mut H::Token,
    heard: &mut LifeHeard,
    sight: Sight,
) -> Result<Result<u64, RowFault>, AllocError> {
    hub.meet(rt, session, token);
    let shared = shares(alloc, session, token, heard, sight)?;
    let Ok(count) = shared else {
        return Ok(shared);
    };
    if hub.seen(session) != count {
        return Ok(Err(RowFault::NotAll));
    }
    heard.learns(count);
    Ok(Ok(count))
}
