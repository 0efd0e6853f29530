//! What holds of what a session is answered, and what may be done with the types: threads may share a hub, and a session, a processor and a receipt may go to
//! another thread.
ghost use Rattle.std.specs.Prelude.{◌≡◌, ◌≢◌, ◌≤◌, ◌+◌, ◌++◌, ◌∷◌, ◌↔◌, ℕ, List, [], Some, length, slice_get};
ghost use Rattle.dt_cred.specs.declared.firing.Firing.{Firing};
ghost use Rattle.dt_ecb.specs.Ecbs.{of_probe};
ghost use Rattle.dt_hub.specs.Asking.{IsLineAnswered};
ghost use Rattle.dt_hub.specs.declared.answered.LineAnswer.{LineAnswer};
ghost use Rattle.dt_hub.specs.declared.answered.LineAnswer.TheVariants as answers;
ghost use Rattle.dt_hub.specs.Meetings.{HaveMet};
ghost use Rattle.dt_hub.specs.Processors.{Processing, counts_at};
ghost use Rattle.dt_legal.specs.Rows.{IsGoAfter, life_of_row, past_of};
ghost use Rattle.dt_life.specs.Answer.{Answer};
ghost use Rattle.dt_life.specs.Life.{ecbs, phase};
ghost use Rattle.dt_life.specs.declared.phase.Phase.TheVariants.{Active};
ghost use Rattle.dt_machine.specs.Registry.{Belongs, Contents, firing_at};
ghost use Rattle.dt_machine.specs.Shown.{IsShown};
ghost use Rattle.dt_proto.specs.Alone.{Alone};
ghost use Rattle.dt_proto.specs.Told.{view_told};
ghost use Rattle.dt_seat.specs.Sessions.{Sat};
ghost use Rattle.dt_trail.specs.Items.{StartsWith, TrailItem, fired, whose};

use crate::cpu_seat::CpuSeat;
use crate::hub::Hub;
use dt_seat::{HubSite, Receipt, Session};

/// Takes what threads may share.
fn takes_shared<T: Sync>(_one: &T) {}

/// Takes what may go to another thread.
fn takes_sent<T: Send>(_one: &T) {}

/// Law: a line that was refused for memory is as one that never came. What the session is answered next, to the same line or another, is what may be
/// answered to it where the session knew what it had known before the refusal.
pub fn refused_is_forgotten()
    ensures { (contents : Contents) (before between after : Sat) (refused item : TrailItem) (answer : LineAnswer)
        → between.account ≡ before.account
        → IsLineAnswered contents before refused answers.Memory between
        → IsLineAnswered contents between item answer after
        → IsLineAnswered contents before item answer after }
{}

/// Law: of a session and a processor that met, the replies that are due on the row that they have in common are those that are due on the session's trail. And where
/// the session traces, a firing that the processor made once it knew of the session's `go` is on the trail, if the session is to see it: its probe is enabled, it belongs
/// to the machine, and the session's account is shown it. So none was skipped, whatever the processor's calls answered.
pub fn meeting_is_complete()
    ensures replies { (contents : Contents) (old new : Sat) (before after : Processing) (answers : List Answer) → (met : HaveMet contents old new before after)
        → Alone new.account contents.registry (view_told contents (past_of met.row)) answers
        ↔ Alone new.account contents.registry (view_told contents (past_of new.knows)) answers }
    ensures complete { (contents : Contents) (old new : Sat) (before after : Processing) (place count : ℕ) (earlier : List TrailItem) (item : TrailItem) (firing : Firing)
        → HaveMet contents old new before after
        → phase new.account contents.registry (life_of_row new.account contents new.knows) ≡ Active
        → StartsWith new.knows (earlier ++ item ∷ []) → whose item ≡ 0 → IsGoAfter new.account contents earlier item
        → slice_get (counts_at new.seat after.log new.life) place ≡ Some count → length earlier + 1 ≤ count
        → firing_at contents.scripts after.cpu place ≡ Some firing → Belongs contents.registry firing → IsShown new.account contents.registry firing
        → of_probe firing.probe (ecbs new.account contents.registry (life_of_row new.account contents new.knows)) ≢ []
        → (front : List TrailItem) × StartsWith new.knows (front ++ fired after.cpu place ∷ []) }
{}

/// Threads may share a hub whose site may itself be sent and shared, `Send` and `Sync`: each may have a `&` to it.
pub fn threads_share<J: HubSite + Send + Sync>(hub: &Hub<J>) {
    takes_shared(hub);
}

/// A session may go to another thread.
pub fn sessions_move<J: HubSite + Send + Sync>(session: &Session<J>) {
    takes_sent(session);
}

/// A processor may go to another thread.
pub fn processors_move<J: HubSite + Send + Sync>(cpu_seat: &CpuSeat<J>) {
    takes_sent(cpu_seat);
}

/// A receipt may go to another thread, to be told to a processor there.
pub fn receipts_move<J: HubSite + Send + Sync>(receipt: &Receipt<J>) {
    takes_sent(receipt);
}
