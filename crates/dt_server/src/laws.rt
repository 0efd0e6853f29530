//! What holds of what a session was served.
ghost use Rattle.std.specs.Prelude.{◌≡◌, ℕ, Bool, List, length, map};
ghost use Rattle.dt_cred.specs.declared.account.Account.{Account};
ghost use Rattle.dt_legal.specs.Rows.{told_as};
ghost use Rattle.dt_life.specs.Answer.{Answer};
ghost use Rattle.dt_machine.specs.Registry.{Contents};
ghost use Rattle.dt_proto.specs.Alone.{Alone};
ghost use Rattle.dt_proto.specs.Lines.{LineForm};
ghost use Rattle.dt_proto.specs.Reply.{reply_text};
ghost use Rattle.dt_proto.specs.Told.{view_by};
ghost use Rattle.dt_server.specs.Served.{IsClosed, lines_in, taken_lines, woven};
ghost use Rattle.dt_trail.specs.Items.{TrailItem};

/// Law: where a `close` ended a service, all its lines are woven as those of one that goes on are, the `close` too. Those that were taken are the lines of the
/// trail, and what was written is what is answered alone, each reply at its line's place, and the refusals for memory at the places of the others.
pub fn closed_is_woven()
    ensures { (account : Account) (contents : Contents) (lines : List LineForm) (items : List TrailItem) (text : List ℕ)
        → IsClosed account contents lines items text
        → (taken : List Bool) × (length taken ≡ length lines) × (lines_in items ≡ taken_lines taken lines)
        × (answers : List Answer) × Alone account contents.registry (view_by contents (map told_as items)) answers
        × (text ≡ woven taken (map reply_text answers)) }
{}
