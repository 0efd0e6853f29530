//! A consumer with its session's trail.
ghost use Rattle.std.specs.Prelude.{◌≡◌, ◌≤◌, ◌<◌, ◌↔◌, ◌+◌, List, [], IsTrue, IfOk, OnOk, Some, vec_len, vec_capacity};
ghost use Rattle.dt_consumer.specs.StandsFor.{StandsFor};
ghost use Rattle.dt_cred.specs.declared.account.Account.{Account};
ghost use Rattle.dt_legal.specs.Rows.{AreBelowPlace, IsGoAfter, life_of_row};
ghost use Rattle.dt_life.specs.Sees.{Sees};
ghost use Rattle.dt_machine.specs.Context.{IsContext};
ghost use Rattle.dt_machine.specs.Registry.{firing_at};
ghost use Rattle.dt_seat.specs.Sessions.{lines_from};
ghost use Rattle.dt_seat.specs.Trailed.{IsWideEnough, IsPrepared, IsTrailed, item_of_line, row_after, row_offered, with_items};
ghost use Rattle.dt_trail.specs.Items.{TrailItem};
ghost use Rattle.dt_trail.specs.Known.{known_row, noted, AreNew, Meets};
ghost use Rattle.dt_trail.specs.Limits.{trail_cpus_max, opening_cells};

use crate::line_kept::LineKept;
use crate::prepared::Prepared;
use dt_consumer::{Consumer, Scratch};
use dt_cred::Account;
use dt_legal::{LegalIn, Traced};
use dt_life::LINES_MAX;
use dt_machine::{Context, Machine};
use dt_proto::{Asked, read_line, reply_bytes};
use dt_trail::{BLOCK_CELLS, Item, TRAIL_CELLS, Trail, TrailNote, TrailOwner};
use std::alloc::{AllocError, Global};

/// Who appends to a session's trail.
pub type Owner<J> = TrailOwner<Account, LegalIn<J>>;

/// Who follows a session's trail.
pub type Note<J> = TrailNote<Account, LegalIn<J>>;

/// An empty trail of an account, with its notes: the session's, and then those of the processors.
///
/// `Err`: there was no memory.
pub(crate) fn new_trail<J: Traced>(
    alloc: Global,
    account: Account,
    notes: u64,
) -> Result<(Owner<J>, Vec<Note<J>>), AllocError>
    ensures owner { IfOk result (λ t. t.0 ≡ known_row t.0.row [] opening_cells 0) }
    ensures account { IfOk result (λ t. t.0.row.account ≡ account) }
    ensures notes { IfOk result (λ t. AreNew t.0.row notes t.1.items) }
{
    let (owner, made) = Trail::new::<Account, LegalIn<J>>(alloc, account, TRAIL_CELLS, notes)?;
    Ok((owner, made))
}

/// The item of a line that was asked, with bytes of its own. `Err`: there was no memory for them.
fn item_of(alloc: Global, asked: &Asked) -> Result<Item, AllocError>
    ensures { IfOk result (λ item. item ≡ item_of_line asked.now) }
{
    match asked {
        Asked::Line(bytes) => Ok(Item::line(bytes.as_slice().to_vec(alloc)?)),
        Asked::Long => Ok(Item::long_line()),
    }
}

/// Makes all that a line takes. Nothing is changed.
///
/// `Err`: there was no memory.
pub(crate) fn prepare(
    alloc: Global,
    machine: &Machine,
    consumer: &Consumer,
    asked: &Asked,
) -> Result<Prepared, AllocError>
    ensures prepared { IfOk result (λ made. (account : Account) (knows : List TrailItem)
        → StandsFor account machine.now.registry consumer.now (life_of_row account machine.now knows)
        → IsPrepared machine.now account knows consumer.now made.draft made.item made.text.items) }
    ensures line { IfOk result (λ made. made.item ≡ item_of_line asked.now) }
{
    let item = item_of(alloc, asked)?;
    let command = read_line(alloc, asked.lent())?;
    let draft = consumer.draft(alloc, machine, &command)?;
    let text = reply_bytes(alloc, draft.reply())?;
    Ok(Prepared { draft, item, text })
}

/// Widens the trail until it has room for the history. The session's note then knows the whole trail.
///
/// `Err`: there was no memory. The blocks that were added stay.
pub(crate) fn make_room<J: Traced>(
    owner: &mut Owner<J>,
    consumer: &Consumer,
    note: &mut Note<J>,
) -> Result<(), AllocError>
    requires kept { IsTrailed J.contents owner.old.row.account owner.old consumer.now }
    requires note { note.old.row ≡ owner.old.row }
    ensures room { OnOk result (IsWideEnough J.contents owner.old.row.account owner.new) }
    ensures kept { IsTrailed J.contents owner.old.row.account owner.new consumer.now }
    ensures same { (owner.new.row ≡ owner.old.row) × (owner.new.knows ≡ owner.old.knows) × (owner.old.cells ≤ owner.new.cells) }
    ensures note { note.new ≡ noted note.old.row note.old.number owner.old.knows }
    ensures met { Meets owner.old.knows note.old }
{
    owner.meet(note);
    let wanted = u64::from(LINES_MAX) + consumer.histsize();
    'blocks: while owner.cells() < wanted {
        owner.widen(note, BLOCK_CELLS)?;
    }
    Ok(())
}

/// Makes the change of a line that was prepared, and appends its item; answers the text of its reply. The session's note
/// then knows the whole trail, and the line is kept among its own. A `go` that is accepted needs the room for the history. It takes no memory.
pub(crate) fn finish<J: Traced>(
    machine: &Machine,
    owner: &mut Owner<J>,
    consumer: &mut Consumer,
    note: &mut Note<J>,
    lines: &mut Vec<LineKept>,
    prepared: Prepared,
) -> Vec<u8>
    requires machine { machine.now ≡ J.contents }
    requires kept { IsTrailed J.contents owner.old.row.account owner.old consumer.old }
    requires prepared { IsPrepared J.contents owner.old.row.account owner.old.knows consumer.old prepared.draft prepared.item
        prepared.text.items }
    requires note { (note.old.row ≡ owner.old.row) × (note.old.number ≡ 0) }
    requires lines { lines.old.items ≡ lines_from 0 note.old.knows }
    requires line_room { vec_len lines.old < vec_capacity lines.old }
    requires room { IsGoAfter owner.old.row.account J.contents owner.old.knows prepared.item
        → IsWideEnough J.contents owner.old.row.account owner.old }
    ensures kept { IsTrailed J.contents owner.old.row.account owner.new consumer.new }
    ensures trail { owner.new ≡ with_items owner.old (row_after owner.old.row.account J.contents owner.old.knows prepared.item) }
    ensures note { note.new ≡ noted note.old.row 0 (row_after owner.old.row.account J.contents owner.old.knows prepared.item) }
    ensures met { Meets owner.old.knows note.old }
    ensures lines { lines.new.items ≡ lines_from 0 note.new.knows }
    ensures text { result.items ≡ prepared.text.items }
{
    let Prepared { draft, item, text } = prepared;
    let is_over = draft.is_over_quota();
    consumer.apply(machine, draft);
    if is_over {
        owner.meet(note);
    } else {
        owner.append(note, &item);
        let place = note.count() - 1;
        lines.push_reserved(LineKept { place, item });
    }
    text
}

/// Offers a firing of a processor's script, on behalf of that processor's note, which then knows the whole trail. Answers whether
/// the consumer saw it. It takes no memory.
#[inline(always)]
pub(crate) fn offer<J: Traced>(
    machine: &Machine,
    owner: &mut Owner<J>,
    consumer: &mut Consumer,
    note: &mut Note<J>,
    context: &Context,
    scratch: &mut Scratch,
) -> bool
    requires machine { machine.now ≡ J.contents }
    requires kept { IsTrailed J.contents owner.old.row.account owner.old consumer.old }
    requires context { IsContext J.contents.registry context.now }
    requires script { firing_at J.contents.scripts context.now.firing.now.cpu context.now.firing.now.place
        ≡ Some context.now.firing.now }
    requires note { (note.old.row ≡ owner.old.row) × (note.old.number ≡ context.now.firing.now.cpu + 1) }
    requires few { J.contents.registry.cpus ≤ trail_cpus_max }
    requires below { AreBelowPlace context.now.firing.now.cpu context.now.firing.now.place note.old.knows }
    ensures kept { IsTrailed J.contents owner.old.row.account owner.new consumer.new }
    ensures seen { IsTrue result ↔ Sees owner.old.row.account J.contents.registry
        (life_of_row owner.old.row.account J.contents owner.old.knows) context.now.firing.now }
    ensures trail { owner.new ≡ with_items owner.old (row_offered owner.old.knows context.now.firing.now result) }
    ensures note { note.new ≡ noted note.old.row note.old.number (row_offered owner.old.knows context.now.firing.now result) }
    ensures met { Meets owner.old.knows note.old }
{
    let is_seen = consumer.offer_context(machine, context, scratch);
    if is_seen {
        // an append shows the note the whole row
        let item = Item::fired(context.firing.cpu, context.firing.place);
        owner.append(note, &item);
    } else {
        owner.meet(note); // no append shows it the row
    }
    is_seen
}
