//! How a session asks a line of the consumer on its seat.
ghost use Rattle.std.specs.Prelude.{◌≡◌, ◌≤◌, ◌++◌, ◌∷◌, true, false, List, [], None, IfOk, MatchOption, OnOk, OnErr, Contains};
ghost use mathlib.Core.List.{IsPrefix};
ghost use Rattle.dt_chain.specs.Writes.{Write as ChainWrite, withdrawn, writes_of};
ghost use Rattle.dt_consumer.specs.StandsFor.{StandsFor};
ghost use Rattle.dt_cred.specs.declared.account.Account.{Account};
ghost use Rattle.dt_legal.specs.Rows.{life_of_row};
ghost use Rattle.dt_life.specs.Life.{Item, is_stopped, phase};
ghost use Rattle.dt_machine.specs.Registry.{Registry};
ghost use Rattle.dt_seat.specs.Publications.{EndsWith, IsPublicationAfter, writes_seen};
ghost use Rattle.dt_seat.specs.Seats.{TrailGoesOn, IsRepliedTo};
ghost use Rattle.dt_seat.specs.Sessions.{IsNotebook};
ghost use Rattle.dt_seat.specs.Trailed.{IsWideEnough, IsTrailed, item_of_line, row_after};
ghost use Rattle.dt_seat.specs.Written.{HasPublished, HasWritten, MayEndWith, SaysWrites, writes_in};
ghost use Rattle.dt_trail.specs.Items.{StartsWith};
ghost use Rattle.dt_trail.specs.Known.{Grows};

use crate::after_line::AfterLine;
use crate::hub_publisher::{HubPublisher, write_down};
use crate::notebook::{Notebook, again, take_down};
use crate::present::Present;
use crate::replied::Replied;
use crate::site::HubSite;
use crate::trailed::{Note, finish, make_room, prepare};
use dt_chain::{Front, Seat, Write};
use dt_consumer::Consumer;
use dt_facts::{Facts, Share};
use dt_life::Phase;
use dt_machine::Machine;
use dt_proto::Asked;
use std::alloc::{AllocError, Global};
use std::sync::{Mutex, Wait};

/// Publishes the interest of a consumer for a life of its seat, and answers what is then published.
///
/// `Err`: there was no memory. The publication may come with the next write of any seat.
fn publish<J: HubSite, R: Wait>(
    rt: &R,
    alloc: Global,
    facts: &Facts,
    chains: &Mutex<HubPublisher<J>>,
    number: Seat,
    life: u64,
    present: &Present<J>,
    writes: &mut Share,
) -> Result<Front<J>, AllocError>
    requires facts { facts.now ≡ J.word }
    requires trailed { IsTrailed J.contents present.now.account present.now.owner present.now.consumer }
    requires going { is_stopped (phase present.now.account J.contents.registry (life_of_row present.now.account J.contents present.now.owner.knows)) ≡ false }
    requires written { HasWritten J.word J.contents number life present.now.account present.now.owner.knows writes.old }
    ensures written { HasWritten J.word J.contents number life present.now.account present.now.owner.knows writes.new }
    ensures published { IfOk result (λ front. (write : ChainWrite) × Contains front write
        × IsPublicationAfter J.contents number life present.now.account present.now.owner.knows write) }
    ensures own { IfOk result (λ front. writes_of front number ≡ writes_in writes.new.fact) }
    ensures more { IsPrefix (writes_in writes.old.fact) (writes_in writes.new.fact) }
{
    let interest = present.consumer.interest()?;
    let write = Write::publication(alloc, number, life, &present.account, &interest)?;
    write_down(rt, facts, chains, writes, write)
}

/// Whether a consumer traces no more, for good.
fn has_stopped(consumer: &Consumer) -> bool
    ensures { (account : Account) (registry : Registry) (life : List Item) → StandsFor account registry consumer.now life
        → result ≡ is_stopped (phase account registry life) }
{
    match consumer.phase() {
        Phase::Stopped(_) => true,
        Phase::Inactive | Phase::Active => false,
    }
}

/// Makes the room that a `go` takes in the trail, and publishes the session's interest: what is published then is answered. Where the line is
/// none, nothing is to be done.
///
/// `Err`: there was no memory. The trail may be wider.
fn make_ready<J: HubSite, R: Wait>(
    rt: &R,
    alloc: Global,
    facts: &Facts,
    chains: &Mutex<HubPublisher<J>>,
    number: Seat,
    life: u64,
    present: &mut Present<J>,
    writes: &mut Share,
    note: &mut Note<J>,
    is_go: bool,
) -> Result<Option<Front<J>>, AllocError>
    requires facts { facts.now ≡ J.word }
    requires written { HasWritten J.word J.contents number life present.old.account present.old.owner.knows writes.old }
    requires going { is_go ≡ true → is_stopped (phase present.old.account J.contents.registry (life_of_row present.old.account J.contents present.old.owner.knows)) ≡ false }
    requires trailed { IsTrailed J.contents present.old.account present.old.owner present.old.consumer }
    requires note { note.old.row ≡ present.old.owner.row }
    ensures trailed { IsTrailed J.contents present.new.account present.new.owner present.new.consumer }
    ensures written { HasWritten J.word J.contents number life present.old.account present.old.owner.knows writes.new }
    ensures room { OnOk result (is_go ≡ true → IsWideEnough J.contents present.new.account present.new.owner) }
    ensures published { IfOk result (λ front. is_go ≡ true → (write : ChainWrite) × Contains (writes_seen front) write
        × IsPublicationAfter J.contents number life present.old.account present.old.owner.knows write) }
    ensures own { IfOk result (λ front. IsPrefix (writes_of (writes_seen front) number) (writes_in writes.new.fact)) }
    ensures more { IsPrefix (writes_in writes.old.fact) (writes_in writes.new.fact) }
    ensures same { (present.new.account ≡ present.old.account) × (present.new.consumer ≡ present.old.consumer)
        × (present.new.front ≡ present.old.front) }
    ensures row { (present.new.owner.row ≡ present.old.owner.row) × (present.new.owner.knows ≡ present.old.owner.knows)
        × (present.old.owner.cells ≤ present.new.owner.cells) }
    ensures note { Grows note.old note.new }
{
    if !is_go {
        return Ok(None);
    }
    make_room(&mut present.owner, &present.consumer, note)?;
    // a publication that is refused may come with the next write of any seat
    present.is_published = true;
    let front = publish(rt, alloc, facts, chains, number, life, present, writes)?;
    Ok(Some(front))
}

/// Withdraws what the session published, once its consumer has stopped, and answers what is then published. It takes its interest for withdrawn
/// only then. What a `go` published that was refused for memory stays until then, or until the next `go` is published.
fn retire<J: HubSite, R: Wait>(
    rt: &R,
    facts: &Facts,
    chains: &Mutex<HubPublisher<J>>,
    number: Seat,
    life: u64,
    present: &mut Present<J>,
    writes: &mut Share,
) -> Option<Front<J>>
    requires facts { facts.now ≡ J.word }
    requires trailed { IsTrailed J.contents present.old.account present.old.owner present.old.consumer }
    requires written { HasWritten J.word J.contents number life present.old.account present.old.owner.knows writes.old }
    ensures written { HasWritten J.word J.contents number life present.old.account present.old.owner.knows writes.new }
    ensures same { (present.new.account ≡ present.old.account) × (present.new.owner ≡ present.old.owner)
        × (present.new.consumer ≡ present.old.consumer) × (present.new.front ≡ present.old.front) }
    ensures withdrawn { MatchOption result (present.new.is_published ≡ present.old.is_published)
        (λ front. EndsWith (withdrawn number) front × (present.old.is_published ≡ true) × (present.new.is_published ≡ false)) }
    ensures own { MatchOption result (MayEndWith (withdrawn number) (writes_in writes.old.fact) (writes_in writes.new.fact))
        (λ _. writes_in writes.new.fact ≡ writes_in writes.old.fact ++ withdrawn number ∷ []) }
    ensures stopped { is_stopped (phase present.old.account J.contents.registry (life_of_row present.old.account J.contents present.old.owner.knows)) ≡ false
        → (result ≡ None) × (writes.new ≡ writes.old) }
{
    if !present.is_published || !has_stopped(&present.consumer) {
        return None;
    }
    match write_down(rt, facts, chains, writes, Write::withdrawal(number)) {
        Ok(front) => {
            present.is_published = false;
            Some(front)
        }
        Err(AllocError) => None,
    }
}

/// Withdraws what a session published that closes, if that may stand in the chains.
pub(crate) fn withdraw<J: HubSite, R: Wait>(
    rt: &R,
    facts: &Facts,
    chains: &Mutex<HubPublisher<J>>,
    number: Seat,
    is_published: bool,
    writes: &mut Share,
)
    requires facts { facts.now ≡ J.word }
    requires says { SaysWrites J.word number writes.old }
    ensures says { SaysWrites J.word number writes.new }
    ensures may { MayEndWith (withdrawn number) (writes_in writes.old.fact) (writes_in writes.new.fact) }
{
    if is_published {
        let _withdrawn = write_down(rt, facts, chains, writes, Write::withdrawal(number));
    }
}

/// Answers a line of the session on a seat: the text of its reply, and whether the session goes on.
///
/// `Err`: there was no memory, and the trail has the items that it had. It may have more cells.
pub(crate) fn ask_at<J: HubSite, R: Wait>(
    rt: &R,
    alloc: Global,
    machine: &Machine,
    facts: &Facts,
    chains: &Mutex<HubPublisher<J>>,
    number: Seat,
    life: u64,
    present: &mut Present<J>,
    writes: &mut Share,
    notebook: &mut Notebook<J>,
    asked: &Asked,
) -> Result<Replied, AllocError>
    requires facts { facts.now ≡ J.word }
    requires written { HasWritten J.word J.contents number life present.old.account present.old.owner.knows writes.old }
    requires machine { machine.now ≡ J.contents }
    requires trailed { IsTrailed J.contents present.old.account present.old.owner present.old.consumer }
    requires row { notebook.old.note.row ≡ present.old.owner.row }
    requires notebook { IsNotebook J.contents number life notebook.old.note notebook.old.lines.items notebook.old.front }
    requires published { HasPublished J.contents number life present.old.account present.old.owner.knows (writes_seen present.old.front)
        (writes_in writes.old.fact) }
    ensures published { HasPublished J.contents number life present.new.account present.new.owner.knows (writes_seen present.new.front)
        (writes_in writes.new.fact) }
    ensures trailed { IsTrailed J.contents present.new.account present.new.owner present.new.consumer }
    ensures written { HasWritten J.word J.contents number life present.new.account present.new.owner.knows writes.new }
    ensures notebook { IsNotebook J.contents number life notebook.new.note notebook.new.lines.items notebook.new.front }
    ensures trail { TrailGoesOn present.old.owner present.new.owner }
    ensures appended { OnOk result (present.new.owner.knows
        ≡ row_after present.old.account J.contents present.old.owner.knows (item_of_line asked.now)) }
    ensures answered { IfOk result (λ replied. IsRepliedTo J.contents notebook.old.note.row.account notebook.old.note.knows
        (item_of_line asked.now) replied.text.items replied.ending notebook.new.note.knows) }
    ensures note { (notebook.new.note.row ≡ notebook.old.note.row) × StartsWith notebook.new.note.knows notebook.old.note.knows }
    ensures refused { OnErr result (Grows notebook.old.note notebook.new.note) }
    ensures unchanged { OnErr result (present.new.owner.knows ≡ present.old.owner.knows) }
    ensures front { IsPrefix (writes_seen notebook.old.front) (writes_seen notebook.new.front) }
{
    let prepared = prepare(alloc, machine, &present.consumer, asked)?;
    notebook.lines.reserve(1)?;
    let ending = AfterLine::of(&prepared.draft);
    let is_go = prepared.draft.publishes();
    let note = &mut notebook.note;
    let published = make_ready(
        rt, alloc, facts, chains, number, life, present, writes, note, is_go,
    )?;
    let text = finish(
        machine,
        &mut present.owner,
        &mut present.consumer,
        &mut notebook.note,
        &mut notebook.lines,
        prepared,
    );
    take_down(&mut present.front, again(&published));
    take_down(&mut notebook.front, published);
    let withdrawn = retire(rt, facts, chains, number, life, present, writes);
    take_down(&mut notebook.front, withdrawn);
    Ok(Replied { text, ending })
}
