//! What is written while the steps are taken: the replies of all sessions, or the trail of one.
ghost use Rattle.std.specs.Prelude.{◌≡◌, true, OnOk};

use dt_chain::Seat;
use dt_cred::Account;
use dt_proto::{LINE_MAX, WholeLine};
use dt_steps::ScriptPlace;
use std::alloc::{AllocError, Global};

/// What is wanted of a replay.
#[derive(Clone, Copy)]
pub(crate) enum Wanted {
    /// The replies of all sessions.
    Replies,
    /// The trail of the first session on this seat.
    Trail(Seat),
}

impl Wanted {
    ghost use Rattle.dt_world.specs.Told as told;

    /// Whether the trail of a session is wanted: it is on this seat, and the first there or not.
    pub(crate) fn follows(self, seat: Seat, is_first: bool) -> bool
        ensures { result ≡ told.follows self seat is_first }
    {
        match self {
            Wanted::Replies => false,
            Wanted::Trail(own) => seat.number() == own.number() && is_first,
        }
    }
}

/// What is to be written.
#[derive(Drop)]
pub(crate) struct Output {
    pub(crate) wanted: Wanted,
    pub(crate) text: Vec<u8>,
}

impl Output {
    ghost use Rattle.dt_proto.specs.Asked.{form_lent};
    ghost use Rattle.dt_proto.specs.Trail.{fired_at, item_text};
    ghost use Rattle.dt_world.specs.Told.{Tells, opening_text, reply_told, line_told};

    /// The first session on a seat begins.
    pub(crate) fn open(&mut self, seat: Seat, account: &Account) -> Result<(), AllocError>
        ensures { OnOk result (Tells self.old self.new (opening_text self.old.wanted seat account.now)) }
    {
        // that a session begins is told only at the head of the trail that is wanted
        if !self.wanted.follows(seat, true) {
            return Ok(());
        }
        self.text.extend_from_slice(b"account ")?;
        self.text.extend_from_slice(account.name.as_bytes())?;
        self.text.push(b'\n')?;
        Ok(())
    }

    /// The session on a seat, which is the first there or not, was answered to a line. A trail says only that a line was
    /// long, and has no line over the quota.
    pub(crate) fn reply(
        &mut self,
        alloc: Global,
        seat: Seat,
        is_first: bool,
        line: WholeLine<'_>,
        text: &[u8],
        is_over: bool,
    ) -> Result<(), AllocError>
        ensures { OnOk result (Tells self.old self.new
            (reply_told self.old.wanted seat is_first (form_lent line.entry) text.now is_over)) }
    {
        match self.wanted {
            Wanted::Replies => {
                let front = format!(in alloc; "{} ", seat.number())?;
                self.text.extend_from_slice(front.as_bytes())?;
            }
            Wanted::Trail(_) => {
                // a trail has the lines of its own session within the quota, and no others
                if is_over || !self.wanted.follows(seat, is_first) {
                    return Ok(());
                }
                self.line(line)?;
                self.text.extend_from_slice(b"reply ")?;
            }
        }
        self.text.extend_from_slice(text)
    }

    /// The line of a trail that tells of a line.
    fn line(&mut self, line: WholeLine<'_>) -> Result<(), AllocError>
        ensures { OnOk result (Tells self.old self.new (line_told (form_lent line.entry))) }
    {
        match line {
            WholeLine::Bytes(bytes) if bytes.len() <= LINE_MAX => {
                self.text.extend_from_slice(b"line ")?;
                self.text.extend_from_slice(bytes)?;
            }
            WholeLine::Bytes(_) | WholeLine::Long => self.text.extend_from_slice(b"long")?,
        }
        self.text.push(b'\n')?;
        Ok(())
    }

    /// The session whose trail is wanted saw the firing at a place.
    pub(crate) fn fire(&mut self, alloc: Global, at: ScriptPlace) -> Result<(), AllocError>
        ensures { OnOk result (Tells self.old self.new (item_text (fired_at at.cpu at.place))) }
    {
        let line = format!(in alloc; "fired {} {}\n", at.cpu, at.place)?;
        self.text.extend_from_slice(line.as_bytes())
    }
}
