//! The session on a seat, as long as it is open.
ghost use Rattle.std.specs.Prelude.{◌≡◌, ◌<◌, ◌+◌, ◌++◌, Some};
ghost use Rattle.dt_facts.specs.Facts.{last_note};
ghost use Rattle.dt_legal.specs.Rows.{AreBelowPlace};
ghost use Rattle.dt_machine.specs.Context.{IsContext};
ghost use Rattle.dt_machine.specs.Registry.{firing_at};
ghost use Rattle.dt_seat.specs.Keeps.{Carries, known_by, known_of, noted_of};
ghost use Rattle.dt_seat.specs.Knowledge.{steps_in};
ghost use Rattle.dt_seat.specs.Seats.{ComesOfFiring, TrailGoesOn, IsTaken, kept_items};
ghost use Rattle.dt_trail.specs.Items.{StartsWith, own};
ghost use Rattle.dt_trail.specs.Known.{Meets, noted};

use crate::follower::Follower;
use crate::held::Held;
use crate::keep::Keep;
use crate::site::HubSite;
use crate::trailed::{Note, Owner, offer};
use dt_chain::Front;
use dt_consumer::{Consumer, Scratch};
use dt_cred::Account;
use dt_facts::{Book, Facts};
use dt_machine::{Context, Machine};

/// The session on a seat: its account, its consumer, and the trail that this stands for.
#[derive(Drop)]
pub(crate) struct Present<J: HubSite> {
    pub(crate) owner: Owner<J>,
    pub(crate) consumer: Consumer,
    /// The writes that were published as its `go` was accepted, once it was.
    pub(crate) front: Option<Front<J>>,
    pub(crate) account: Account,
    /// Whether its interest may stand in the chains.
    pub(crate) is_published: bool,
}

/// A processor offers a firing to the session, having taken its note of the trail.
#[inline(always)]
pub(crate) fn hold_at<J: HubSite>(
    machine: &Machine,
    facts: &Facts,
    life: u64,
    lives: &mut Book,
    present: &mut Present<J>,
    keeps: &mut Vec<Keep<J>>,
    context: &Context,
    scratch: &mut Scratch,
    follower: &mut Follower<J>,
) -> Held
    requires machine { machine.now ≡ J.contents }
    requires facts { facts.now ≡ J.word }
    requires taken { IsTaken J.word J.contents follower.old.seat life lives.old present.old keeps.old.items }
    requires context { IsContext J.contents.registry context.now }
    requires script { firing_at J.contents.scripts context.now.firing.now.cpu context.now.firing.now.place
        ≡ Some context.now.firing.now }
    requires follower { follower.old.cpu ≡ context.now.firing.now.cpu }
    requires below { AreBelowPlace context.now.firing.now.cpu context.now.firing.now.place (known_by follower.old.note) }
    ensures taken { IsTaken J.word J.contents follower.old.seat life lives.new present.new keeps.new.items }
    ensures held { ComesOfFiring J.contents life context.now.firing.now result follower.old follower.new }
    ensures own { own (context.now.firing.now.cpu + 1) (noted_of life follower.new)
        ≡ own (context.now.firing.now.cpu + 1) (noted_of life follower.old) ++ kept_items result context.now.firing.now }
    ensures trail { TrailGoesOn present.old.owner present.new.owner }
    ensures kept { present.new.owner.knows ≡ present.old.owner.knows ++ kept_items result context.now.firing.now }
    ensures whole { known_by follower.new.note ≡ present.new.owner.knows }
    ensures took { follower.new.took ≡ Some (last_note life present.old.owner.row) }
    ensures same { (present.new.account ≡ present.old.account) × (present.new.front ≡ present.old.front) }
{
    let keep = &mut keeps[context.firing.cpu as usize];
    keep.lend(facts, lives, life, &present.owner, follower);
    let Some(note) = &mut follower.note else {
        unreachable!()
    };
    let is_seen = offer(
        machine,
        &mut present.owner,
        &mut present.consumer,
        note,
        context,
        scratch,
    );
    if is_seen {
        Held::Kept
    } else {
        Held::Unseen {
            known: note.count(),
        }
    }
}

/// A processor, having taken its note of the trail, and the session meet: both notes then know the whole trail.
pub(crate) fn meet_at<J: HubSite>(
    facts: &Facts,
    life: u64,
    lives: &mut Book,
    present: &mut Present<J>,
    keeps: &mut Vec<Keep<J>>,
    note: &mut Note<J>,
    follower: &mut Follower<J>,
)
    requires facts { facts.now ≡ J.word }
    requires taken { IsTaken J.word J.contents follower.old.seat life lives.old present.old keeps.old.items }
    requires there { follower.old.cpu < J.contents.registry.cpus }
    requires note { note.old.row ≡ present.old.owner.row }
    ensures taken { IsTaken J.word J.contents follower.old.seat life lives.new present.new keeps.new.items }
    ensures same { (present.new.account ≡ present.old.account) × (present.new.owner ≡ present.old.owner) × (present.new.front ≡ present.old.front) }
    ensures session { note.new ≡ noted note.old.row note.old.number present.old.owner.knows }
    ensures met { Meets present.old.owner.knows note.old }
    ensures took { follower.new.took ≡ Some (last_note life present.old.owner.row) }
    ensures known { known_by follower.new.note ≡ present.old.owner.knows }
    ensures lives_known { follower.new.lives ≡ steps_in lives.old.fact }
    ensures begins { StartsWith present.old.owner.knows (known_of life follower.old) }
    ensures own { own (follower.old.cpu + 1) present.old.owner.knows ≡ own (follower.old.cpu + 1) (noted_of life follower.old) }
    ensures carried { Carries follower.old follower.new life }
{
    let keep = &mut keeps[follower.cpu as usize];
    keep.lend(facts, lives, life, &present.owner, follower);
    follower.meet(&mut present.owner);
    present.owner.meet(note);
}
