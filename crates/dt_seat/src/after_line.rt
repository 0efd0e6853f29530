//! Whether a session goes on after a line.
ghost use Rattle.std.specs.Prelude.{◌≡◌, List};
ghost use Rattle.dt_consumer.specs.Draft.{IsDraftOf};
ghost use Rattle.dt_cred.specs.declared.account.Account.{Account};
ghost use Rattle.dt_legal.specs.Rows.{line_form_of, life_of_row};
ghost use Rattle.dt_machine.specs.Registry.{Contents};
ghost use Rattle.dt_proto.specs.Line.{ask_in};
ghost use Rattle.dt_seat.specs.Seats.{after_line_of};
ghost use Rattle.dt_trail.specs.Items.{TrailItem};

use dt_consumer::Draft;

/// Whether a session goes on after a line.
#[derive(Clone, Copy, Debug, PartialEq, Eq)]
pub enum AfterLine {
    /// It goes on.
    GoesOn,
    /// The line was a `close` that was accepted: the session is to be closed.
    Closes,
    /// The line was over the quota, and is no part of the session's life. Each later line will be so, too.
    OverQuota,
}

impl AfterLine {
    /// Whether the session goes on after the line of this draft.
    pub(crate) fn of(draft: &Draft) -> AfterLine
        ensures { (account : Account) (contents : Contents) (trail : List TrailItem) (item : TrailItem)
            → IsDraftOf account contents.registry (life_of_row account contents trail) (ask_in (line_form_of item)) draft.now
            → result ≡ after_line_of account contents trail item }
    {
        if draft.is_over_quota() {
            return AfterLine::OverQuota;
        }
        if draft.closes() {
            return AfterLine::Closes;
        }
        AfterLine::GoesOn
    }
}
