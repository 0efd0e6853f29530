//! How far a consumer has come.
/// How far a consumer has come.
#[derive(Clone, Copy, Debug, PartialEq, Eq)]
pub enum Phase {
    /// It may set options and enable, and traces nothing yet.
    Inactive,
    /// It traces.
    Active,
    /// It traces no more, for good: by this cause, or by none where the session was closed first.
    Stopped(Option<End>),
}

/// Why tracing ended: the first cause that came.
#[derive(Clone, Copy, Debug, PartialEq, Eq)]
pub enum End {
    /// A `stop` was accepted.
    Stop,
    /// A clause exited, with this status.
    Exit(i64),
    /// As many firings were seen as `histsize` says.
    History,
}

impl Phase {
    ghost use Rattle.std.specs.Prelude.{◌≡◌};
    ghost use Rattle.dt_life.specs.Phase.{phase_word};

    /// The word for the phase, as replies carry it.
    pub fn word(self) -> &'static str
        ensures { result.now ≡ phase_word self }
    {
        match self {
            Phase::Inactive => "inactive",
            Phase::Active => "active",
            Phase::Stopped(_) => "stopped",
        }
    }
}

impl End {
    ghost use Rattle.std.specs.Prelude.{◌≡◌, ◌==◌, None, Some, if◌then◌else◌};
    ghost use Rattle.std.specs.Option.{option_map, option_or};
    ghost use Rattle.dt_life.specs.Phase.{cause_word};

    /// Why tracing ends after a firing, if it does: one of its clauses exited, or it is the last of the history.
    pub fn after(exit: Option<i64>, seen: u32, history: u32) -> Option<Self>
        ensures { result ≡ option_or (option_map End.Exit exit) (if seen == history then Some End.History else None) }
    {
        match exit {
            Some(status) => Some(End::Exit(status)),
            None if seen == history => Some(End::History),
            None => None,
        }
    }

    /// The word for the cause, as replies carry it.
    pub fn word(self) -> &'static str
        ensures { result.now ≡ cause_word self }
    {
        match self {
            End::Stop => "stop",
            End::Exit(_) => "exit",
            End::History => "history",
        }
    }
}
