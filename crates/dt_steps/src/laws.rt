//! What holds of the definitions alone: the headline's second half, and that the definitions say what they are to say.
ghost use Rattle.std.specs.Prelude.{◌≡◌, ℕ, List, Some, map, reverse};
ghost use Rattle.dt_cred.specs.Rights.{HasDtrace};
ghost use Rattle.dt_cred.specs.declared.account.Account.{Account};
ghost use Rattle.dt_machine.specs.Registry.{Registry, Contents, account_of};
ghost use Rattle.dt_cred.specs.declared.firing.Firing.{Firing};
ghost use Rattle.dt_chain.specs.Look.{NamesFiring};
ghost use Rattle.dt_life.specs.Answer.{Answer};
ghost use Rattle.dt_life.specs.Life.{Item};
ghost use Rattle.dt_life.specs.Sees.{Sees};
ghost use Rattle.dt_proto.specs.Alone.{Reached, Alone};
ghost use Rattle.dt_proto.specs.Legal.{IsLegal, Agrees};
ghost use Rattle.dt_proto.specs.Reply.{reply_text};
ghost use Rattle.dt_proto.specs.Told.{view_told, view_by};
ghost use Rattle.dt_proto.specs.Trail.{WrittenItem, replies_of};
ghost use Rattle.dt_steps.specs.Ran.{SeatReply, AreReplies, told_to, IsAnsweredAlone};
ghost use Rattle.dt_steps.specs.Sound.{IsSoundWorld, publication_of};
ghost use Rattle.dt_steps.specs.Steps.{StepForm, world_after};
ghost use Rattle.dt_steps.specs.Trails.{EndsAtClose, HasSeen};
ghost use Rattle.dt_proto.specs.Views.{seen_view};
ghost use Rattle.dt_steps.specs.World.{Session, session_of};

use dt_life::one_reply;

/// Law: two sessions of two worlds on equal registries, whose accounts have equal uids and equal privileges, and whose seen
/// views are equal, are answered alike, whatever else happened in the two worlds: on other seats, with other numbers,
/// other scripts and other consumers.
pub fn agree_alike()
    // two sessions of any two worlds on one registry: equal uids, privileges and seen views have equal answers
    ensures { (registry : Registry) (steps others : List StepForm) (seat n other_seat other_n : ℕ) (a b : Session)
        → session_of (world_after registry steps) seat n ≡ Some a
        → session_of (world_after registry others) other_seat other_n ≡ Some b
        → a.account.uid ≡ b.account.uid → a.account.privs ≡ b.account.privs
        → seen_view a.account registry a.view ≡ seen_view b.account registry b.view
        → (answers other_answers : List Answer)
        → Alone a.account registry a.view answers → Alone b.account registry b.view other_answers
        → answers ≡ other_answers }
{
    one_reply();
}

/// Law: the questions of a session are the lines of its view, so replies that answer the questions of a world are,
/// session by session, those that the session's view is answered alone: none missing and none more.
pub fn told_alone()
    ensures { (registry : Registry) (steps : List StepForm) (told : List SeatReply)
        → AreReplies registry (world_after registry steps).questions told → (seat n : ℕ)
        → IsAnsweredAlone registry (session_of (world_after registry steps) seat n)
        (told_to seat n (world_after registry steps).questions told) }
{}

/// Law: a life that sees a firing is named by its own publication, the one that its interest makes at its `go`.
pub fn named_by_own()
    ensures { (account : Account) (registry : Registry) (life : List Item) (n : ℕ) (firing : Firing)
        → Sees account registry life firing
        → NamesFiring registry (publication_of registry account life n) firing }
{}

/// Law: every world is sound. A session that traces is published with exactly its own interest, so one that a look
/// doesn't name doesn't see the firing.
pub fn worlds_are_sound()
    ensures { (registry : Registry) (steps : List StepForm) → IsSoundWorld registry (world_after registry steps) }
{}

/// Law: a legal trail is the seen view of a session in some list of steps: the trail of an account of the machine that has a
/// dtrace privilege, in which no line stands after an accepted `close`.
pub fn trail_is_view()
    ensures { (contents : Contents) (name : List ℕ) (account : Account) (past : List WrittenItem)
        → account_of contents.registry name ≡ Some account → HasDtrace account.privs
        → IsLegal account contents past → EndsAtClose account contents past
        → (steps : List StepForm) × (seat : ℕ) × (n : ℕ)
        × HasSeen contents.registry steps seat n account (view_told contents past) }
{}

/// Law: what `trail_is_view` asks of a trail can't be spared. What a session has seen has no firing that isn't seen at its place;
/// and where a legal trail tells it, no line stands there after an accepted `close`.
pub fn no_other_view()
    ensures seen { (registry : Registry) (steps : List StepForm) (seat n : ℕ) (account : Account) (view : List Reached)
        → HasSeen registry steps seat n account view → seen_view account registry view ≡ view }
    ensures ends { (contents : Contents) (steps : List StepForm) (seat n : ℕ) (account : Account)
        (past : List WrittenItem)
        → HasSeen contents.registry steps seat n account (view_told contents past) → IsLegal account contents past
        → EndsAtClose account contents past }
{}

/// Law: a session is told what its seen view is answered alone. So where that is what a trail tells, and the trail is right,
/// it is told the trail's replies, letter by letter.
pub fn trail_is_told()
    ensures alone { (registry : Registry) (steps : List StepForm) (seat n : ℕ) (account : Account) (view : List Reached)
        (told : List SeatReply)
        → HasSeen registry steps seat n account view → AreReplies registry (world_after registry steps).questions told
        → (answers : List Answer) × Alone account registry view answers
        × (told_to seat n (world_after registry steps).questions told ≡ map reply_text answers) }
    ensures trailed { (contents : Contents) (steps : List StepForm) (seat n : ℕ) (account : Account)
        (items : List WrittenItem) (told : List SeatReply)
        → HasSeen contents.registry steps seat n account (view_by contents items)
        → Agrees account contents (reverse items)
        → AreReplies contents.registry (world_after contents.registry steps).questions told
        → told_to seat n (world_after contents.registry steps).questions told ≡ replies_of items }
{
    one_reply();
}
