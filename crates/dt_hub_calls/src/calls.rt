//! The calls that are tested, as traits that promise nothing.
//!
//! A test is written for any [`HubCalls`], and run with a [`Hub`]. So it is proved to be safe without what a hub promises and without what lies in it, which takes a
//! fraction of the time.
use dt_chain::{Seat, SeatMask};
use dt_hub::{
    CpuSeat, Fired, Gate, Hub, HubSite, KnownItem, LineAnswer, Looked, Offered, OpenFault, Receipt,
    Session,
};
use dt_proto::Asked;
use dt_trail::ItemKind;
use std::alloc::Global;
use std::sync::Wait;

/// The calls of a session's token.
pub trait SessionCalls {
    /// Which seat it is on.
    fn seat(&self) -> Seat;

    /// How many sessions were on that seat before.
    fn life(&self) -> u64;

    /// What it knows at a place of its trail.
    fn known(&mut self, k: u64) -> Option<KnownItem>;

    /// A line of its own, by its number among these.
    fn line(&self, number: usize) -> Option<ItemKind<'_>>;
}

/// The calls of a processor's token.
pub trait TokenCalls {
    /// Which processor it is.
    fn cpu(&self) -> u32;

    /// The seats and lives that its last firing named.
    fn named(&self) -> &SeatMask;

    /// What its last firing came to at a seat.
    fn offered(&self, seat: Seat) -> Offered;

    /// How many writes of the chains it has seen.
    fn count_writes(&self) -> u64;

    /// Whether the writes that it has seen begin those that another has.
    fn begins(&self, other: &Self) -> bool;
}

/// The calls of a hub.
pub trait HubCalls {
    /// A session's token. It ends by [`HubCalls::close`].
    type Session: SessionCalls;

    /// A processor's token.
    type Token: TokenCalls + Drop;

    /// What a session knew, for a processor.
    type Receipt: Drop;

    /// Opens a session for the account of this name.
    fn open<R: Wait>(&self, rt: &R, alloc: Global, name: &str) -> Result<Self::Session, OpenFault>;

    /// What a session is answered to a line.
    fn ask<R: Wait>(
        &self,
        rt: &R,
        alloc: Global,
        session: &mut Self::Session,
        asked: &Asked,
    ) -> LineAnswer;

    /// A session catches up with its trail: how many items it knows then.
    fn seen(&self, session: &mut Self::Session) -> u64;

    /// What a session knows, to be told.
    fn receipt(&self, session: &mut Self::Session) -> Self::Receipt;

    /// Closes a session.
    fn close<R: Wait>(&self, rt: &R, session: Self::Session);

    /// Tells a processor what a session knew.
    fn tell(&self, token: &mut Self::Token, receipt: Self::Receipt);

    /// Which seats a processor's next firing would be offered to.
    fn look(&self, token: &mut Self::Token) -> Looked;

    /// A processor's next firing.
    fn fire<R: Wait, G: Gate>(&self, rt: &R, token: &mut Self::Token, gate: &G) -> Fired;

    /// A session and a processor meet.
    fn meet<R: Wait>(&self, rt: &R, session: &mut Self::Session, token: &mut Self::Token);
}

impl<J: HubSite> SessionCalls for Session<J> {
    fn seat(&self) -> Seat {
        Session::seat(self)
    }

    fn life(&self) -> u64 {
        Session::life(self)
    }

    fn known(&mut self, k: u64) -> Option<KnownItem> {
        Session::known(self, k)
    }

    fn line(&self, number: usize) -> Option<ItemKind<'_>> {
        Session::line(self, number)
    }
}

impl<J: HubSite> TokenCalls for CpuSeat<J> {
    fn cpu(&self) -> u32 {
        CpuSeat::cpu(self)
    }

    fn named(&self) -> &SeatMask {
        CpuSeat::named(self)
    }

    fn offered(&self, seat: Seat) -> Offered {
        CpuSeat::offered(self, seat)
    }

    fn count_writes(&self) -> u64 {
        self.writes().len()
    }

    fn begins(&self, other: &CpuSeat<J>) -> bool {
        self.writes().begins(&other.writes())
    }
}

impl<J: HubSite> HubCalls for Hub<J> {
    type Session = Session<J>;

    type Token = CpuSeat<J>;

    type Receipt = Receipt<J>;

    fn open<R: Wait>(&self, rt: &R, alloc: Global, name: &str) -> Result<Session<J>, OpenFault> {
        Hub::open(self, rt, alloc, name.as_bytes())
    }

    fn ask<R: Wait>(
        &self,
        rt: &R,
        alloc: Global,
        session: &mut Session<J>,
        asked: &Asked,
    ) -> LineAnswer {
        Hub::ask(self, rt, alloc, session, asked)
    }

    fn seen(&self, session: &mut Session<J>) -> u64 {
        Hub::seen(self, session)
    }

    fn receipt(&self, session: &mut Session<J>) -> Receipt<J> {
        Hub::receipt(self, session)
    }

    fn close<R: Wait>(&self, rt: &R, session: Session<J>) {
        Hub::close(self, rt, session)
    }

    fn tell(&self, token: &mut CpuSeat<J>, receipt: Receipt<J>) {
        Hub::tell(self, token, receipt)
    }

    fn look(&self, token: &mut CpuSeat<J>) -> Looked {
        Hub::look(self, token)
    }

    fn fire<R: Wait, G: Gate>(&self, rt: &R, token: &mut CpuSeat<J>, gate: &G) -> Fired {
        Hub::fire(self, rt, token, gate)
    }

    fn meet<R: Wait>(&self, rt: &R, session: &mut Session<J>, token: &mut CpuSeat<J>) {
        Hub::meet(self, rt, session, token)
    }
}

/// What a session is answered to a line of text. Where there is no memory for a copy of it, that is told.
pub fn answered<H: HubCalls, R: Wait>(
    rt: &R,
    alloc: Global,
    hub: &H,
    session: &mut H::Session,
    line: &str,
) -> LineAnswer {
    match line.as_bytes().to_vec(alloc) {
        Ok(bytes) => hub.ask(rt, alloc, session, &Asked::Line(bytes)),
        Err(_) => LineAnswer::Memory,
    }
}

/// What the last firing came to at a seat.
pub fn at_seat<T: TokenCalls>(token: &T, number: u32) -> Offered {
    match Seat::new(number) {
        Some(seat) => token.offered(seat),
        None => Offered::NotNamed,
    }
}

/// The tokens of a machine's processors, if these are two.
pub fn two_of<T: Drop>(tokens: Vec<T>) -> Option<(T, T)> {
    let mut tokens = tokens;
    let other = tokens.pop()?;
    let one = tokens.pop()?;
    if tokens.is_empty() {
        Some((one, other))
    } else {
        None
    }
}
