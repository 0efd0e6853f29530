//! What a seat does at the row.
ghost use Rattle.std.specs.Prelude.{◌≡◌, ◌<◌, ◌≤◌, ◌+◌, ◌++◌, ◌==◌, [], ◌∷◌, length, true, false, Some, None, MatchBool, MatchOption};
ghost use denote.RawPtr.{null_ptr, InBlock};
ghost use Rattle.atomic_blocks.specs.Cells.{me, AllHome};
ghost use Rattle.dt_trail.specs.Blocks.{Blank};
ghost use Rattle.dt_trail.specs.Limits.{block_bound, cells_bound, widenings};
ghost use Rattle.dt_trail.specs.Items.{whose, own, StartsWith};
ghost use Rattle.dt_trail.specs.Rule.{note, owner, appender, FindsItem, extent_of, through, reviewed, claim_of, learnt, informed, wider, HadAll};
ghost use Rattle.dt_trail.specs.Insides.{OfRow, SameSeat, IsDoor, IsDoorAt, Owner, Note, Appender, Claim};

use crate::door::Door;
use crate::inner::{Inner, ROOT, RowSeat};
use crate::item::Item;
use crate::law::Law;
use crate::limits::{AHEAD_CELLS, AHEAD_LINES, LINE_CELLS};
use crate::rule::{
    ComparesItems, Lays, Learns, Lends, Peeks, Picked, Plans, ReadsCell, SeesItems, Sets,
    TellsItems, Turns,
};
use atomic_blocks::rows::{Link, Loose};
use std::alloc::Global;
use std::mem;

/// The door to the next block, if there is one.
pub fn turn<K, L: Law<K>>(inner: &Inner<K, L>, seat: &mut RowSeat<K>, door: Door) -> Option<Door>
    requires seat { OfRow inner.now seat.old × (seat.old.me.view.account ≡ Some inner.now.about.account) }
    requires door { (seat.old.me.view.door ≡ door) × IsDoor door }
    ensures same { SameSeat seat.old seat.new }
    ensures lawful { L.lawful inner.now.about.account seat.new.me.view.knows }
    ensures next { MatchOption result ((seat.new.me ≡ seat.old.me) × (seat.old.me.view.owns ≡ true → seat.old.me.view.extent.cells ≡ door.from + door.len) × (length seat.old.me.view.knows ≤ door.from + door.len)) (λ d. (seat.new.me ≡ reviewed seat.old.me (through seat.old.me.view d)) × IsDoor d × (d.from ≡ door.from + door.len)) }
{
    let next = door.block + 1;
    let root = inner.about.root;
    let len = inner.rows.load::<Turns<L>>(seat, ROOT, root, next as usize);
    if len == 0 {
        return None;
    }
    let link = inner
        .rows
        .load_link::<SeesItems>(seat, ROOT, root, next as usize);
    Some(Door {
        block: next,
        from: door.from + door.len,
        len,
        link,
    })
}

/// The word of the first item that the seat doesn't know, or 0 where there is none yet.
pub fn look<K, L: Law<K>>(inner: &Inner<K, L>, seat: &mut RowSeat<K>, door: Door, count: u64) -> u64
    requires seat { OfRow inner.now seat.old × (seat.old.me.view.account ≡ Some inner.now.about.account) }
    requires door { (seat.old.me.view.door ≡ door) × IsDoor door }
    requires at { (count ≡ length seat.old.me.view.knows) × (door.from ≤ count) × (count < door.from + door.len) }
    ensures same { SameSeat seat.old seat.new }
    ensures next { MatchBool (result == 0) (seat.new.me ≡ seat.old.me) (FindsItem seat.old.me result seat.new.me) }
    ensures lawful { L.lawful inner.now.about.account seat.new.me.view.knows }
{
    let next = (count - door.from) as usize;
    inner
        .rows
        .load::<ReadsCell<L>>(seat, door.block + 1, door.link, next)
}

// The owner's right goes into a note's seat. A claim stays where it was.
fn lend<K, L: Law<K>>(
    inner: &Inner<K, L>,
    root: Link<()>,
    seat: &mut RowSeat<K>,
    right: &mut RowSeat<K>,
)
    requires root { root ≡ inner.now.about.root }
    requires seat { OfRow inner.now seat.old × Note seat.old }
    requires right { OfRow inner.now right.old × Owner right.old × (right.old.me.view.account ≡ seat.old.me.view.account) }
    ensures same { SameSeat seat.old seat.new }
    ensures seat { seat.new.me ≡ me (appender seat.old.me.view.account seat.old.me.view.note seat.old.me.view.knows right.old.me.view.knows right.old.me.view.door right.old.me.view.extent) None None }
{
    let claim = tell(inner, root, right);
    inner
        .rows
        .join_seat::<Lends>(seat, mem::replace(right, claim), ROOT, root);
}

// And comes out again.
fn hand_back<K, L: Law<K>>(
    inner: &Inner<K, L>,
    root: Link<()>,
    seat: &mut RowSeat<K>,
    right: &mut RowSeat<K>,
)
    requires root { root ≡ inner.now.about.root }
    requires seat { OfRow inner.now seat.old × Appender seat.old }
    ensures seat { SameSeat seat.old seat.new × (seat.new.me ≡ me (note seat.old.me.view.account seat.old.me.view.note seat.old.me.view.knows seat.old.me.view.door) None None) }
    ensures right { (right.new.rows ≡ seat.old.rows) × (right.new.heap ≡ seat.old.heap) × (right.new.me ≡ me (owner seat.old.me.view.account seat.old.me.view.knows seat.old.me.view.door seat.old.me.view.extent) None None) }
{
    *right = inner.rows.split_seat::<Lends>(seat, ROOT, root);
}

/// Sets the first empty cell, in the note's seat. The owner's right goes in, and comes out again. Who appends knows where the root lies: so nothing of what the
/// handles share is read here but cells.
pub fn set_next<P: Picked, K, L: Law<K>>(
    inner: &Inner<K, L>,
    root: Link<()>,
    seat: &mut RowSeat<K>,
    right: &mut RowSeat<K>,
    door: Door,
    count: u64,
    item: &Item,
)
    requires picked { P.item ≡ item.now }
    requires root { root ≡ inner.now.about.root }
    requires seat { OfRow inner.now seat.old × Note seat.old }
    requires right { OfRow inner.now right.old × Owner right.old × (right.old.me.view.account ≡ seat.old.me.view.account) }
    requires door { (right.old.me.view.door ≡ door) × IsDoor door }
    requires at { (count ≡ length right.old.me.view.knows) × (door.from ≤ count) × (count < door.from + door.len) }
    requires item { whose item.now ≡ seat.old.me.view.note }
    requires account { seat.old.me.view.account ≡ Some inner.now.about.account }
    requires lawful { StartsWith right.old.me.view.knows seat.old.me.view.knows
        → own seat.old.me.view.note right.old.me.view.knows ≡ own seat.old.me.view.note seat.old.me.view.knows
        → L.lawful inner.now.about.account (right.old.me.view.knows ++ item.now ∷ []) }
    ensures seat { (seat.new.rows ≡ seat.old.rows) × (seat.new.heap ≡ seat.old.heap) × (seat.new.me ≡ me (note seat.old.me.view.account seat.old.me.view.note (right.old.me.view.knows ++ item.now ∷ []) door) None None) }
    ensures right { (right.new.rows ≡ seat.old.rows) × (right.new.heap ≡ seat.old.heap) × (right.new.me ≡ me (owner seat.old.me.view.account (right.old.me.view.knows ++ item.now ∷ []) door right.old.me.view.extent) None None) }
    ensures met { StartsWith right.old.me.view.knows seat.old.me.view.knows × (own seat.old.me.view.note right.old.me.view.knows ≡ own seat.old.me.view.note seat.old.me.view.knows) }
{
    lend(inner, root, seat, right);
    let empty = (count - door.from) as usize;
    let word = item.code();
    inner
        .rows
        .store::<Sets<P>>(seat, door.block + 1, door.link, empty, word);
    hand_back(inner, root, seat, right);
}

/// The note's seat then knows the whole row.
pub fn show_all<K, L: Law<K>>(inner: &Inner<K, L>, seat: &mut RowSeat<K>, right: &mut RowSeat<K>)
    requires seat { OfRow inner.now seat.old × Note seat.old }
    requires right { OfRow inner.now right.old × Owner right.old × (right.old.me.view.account ≡ seat.old.me.view.account) }
    ensures seat { (seat.new.rows ≡ seat.old.rows) × (seat.new.heap ≡ seat.old.heap) × (seat.new.me ≡ me (note seat.old.me.view.account seat.old.me.view.note right.old.me.view.knows right.old.me.view.door) None None) }
    ensures right { (right.new.rows ≡ seat.old.rows) × (right.new.heap ≡ seat.old.heap) × (right.new.me ≡ me (owner seat.old.me.view.account right.old.me.view.knows right.old.me.view.door right.old.me.view.extent) None None) }
    ensures met { StartsWith right.old.me.view.knows seat.old.me.view.knows × (own seat.old.me.view.note right.old.me.view.knows ≡ own seat.old.me.view.note seat.old.me.view.knows) }
{
    let root = inner.about.root;
    lend(inner, root, seat, right);
    inner.rows.load::<ComparesItems>(seat, ROOT, root, 0);
    hand_back(inner, root, seat, right);
}

// Reads a cell of the door's block, whatever it has.
fn peek<K, L: Law<K>>(inner: &Inner<K, L>, seat: &mut RowSeat<K>, door: Door, place: u64)
    requires seat { OfRow inner.now seat.old }
    requires door { (seat.old.me.view.door ≡ door) × IsDoor door × (place < door.len) }
    ensures same { SameSeat seat.old seat.new }
    ensures view { seat.new.me ≡ seat.old.me }
{
    inner
        .rows
        .load::<Peeks>(seat, door.block + 1, door.link, place as usize);
}

// Reads a cell of each line that the next cells of the door's block lie on.
#[inline(never)]
fn read_lines<K, L: Law<K>>(inner: &Inner<K, L>, seat: &mut RowSeat<K>, door: &Door, first: u64)
    requires seat { OfRow inner.now seat.old }
    requires door { (seat.old.me.view.door ≡ door.now) × IsDoor door.now × (first < door.now.len) }
    ensures same { SameSeat seat.old seat.new }
    ensures view { seat.new.me ≡ seat.old.me }
{
    'lines: for line in 0..AHEAD_LINES {
        let place = first + line * LINE_CELLS;
        if place < door.len {
            peek(inner, seat, *door, place);
        }
    }
}

/// Reads the cells that are set next, once for each [`AHEAD_CELLS`] of them. Nothing is made of them: but a cell is set by an exchange, which waits for its line to come,
/// and those of many rows don't stay near a processor. Here many lines are asked for at once, and come in the time of one.
#[inline(always)]
pub fn read_ahead<K, L: Law<K>>(inner: &Inner<K, L>, seat: &mut RowSeat<K>, door: &Door, count: u64)
    requires seat { OfRow inner.now seat.old }
    requires door { (seat.old.me.view.door ≡ door.now) × IsDoor door.now }
    requires at { (door.now.from ≤ count) × (count < door.now.from + door.now.len) }
    ensures same { SameSeat seat.old seat.new }
    ensures view { seat.new.me ≡ seat.old.me }
{
    if count % AHEAD_CELLS == 0 {
        read_lines(inner, seat, door, count - door.from);
    }
}

/// Moves the owner's door to the block of the first empty cell.
pub fn arrive<K, L: Law<K>>(inner: &Inner<K, L>, seat: &mut RowSeat<K>, door: &mut Door, count: u64)
    requires seat { OfRow inner.now seat.old × (seat.old.me.view.account ≡ Some inner.now.about.account) × (seat.old.me.view.owns ≡ true) }
    requires door { (seat.old.me.view.door ≡ door.old) × IsDoorAt door.old count }
    requires room { count < seat.old.me.view.extent.cells }
    ensures same { SameSeat seat.old seat.new }
    ensures view { seat.new.me ≡ reviewed seat.old.me (through seat.old.me.view door.new) }
    ensures door { IsDoor door.new × (door.new.from ≤ count) × (count < door.new.from + door.new.len) }
{
    // nearly all items lie in the block of the one before, and the door stays as it is
    if count >= door.from + door.len {
        let Some(next) = turn(inner, seat, *door) else {
            unreachable!()
        };
        *door = next;
    }
}

/// The block joins the row, by a seat that has the owner's right.
pub fn lay<K, L: Law<K>>(
    inner: &Inner<K, L>,
    seat: &mut RowSeat<K>,
    blocks: u64,
    cells: u64,
    link: Link<()>,
    block: Loose<(), Global>,
)
    requires seat { OfRow inner.now seat.old × (seat.old.me.view.owns ≡ true) × (seat.old.me.spare ≡ None) }
    requires extent { seat.old.me.view.extent ≡ extent_of blocks seat.old.me.view.extent.cells false null_ptr }
    requires room { (blocks < widenings + 1) × (seat.old.me.view.extent.cells + cells < cells_bound) }
    requires block { (block.heap ≡ inner.now.rows.heap) × (block.at ≡ link.ptr) × InBlock link.ptr × (block.left ≡ 0) × AllHome block.cells × (length block.cells ≡ cells) × Blank block.cells }
    requires wide { (0 < cells) × (cells < block_bound) }
    ensures same { SameSeat seat.old seat.new }
    ensures view { seat.new.me ≡ me (wider seat.old.me.view cells) seat.old.me.hand None }
    ensures had { seat.old.me.view.live ≡ true → HadAll seat.old.me.view }
{
    let root = inner.about.root;
    inner
        .rows
        .store_link::<Plans>(seat, ROOT, root, blocks as usize, link);
    seat.hold(block);
    inner
        .rows
        .store::<Lays>(seat, ROOT, root, blocks as usize, cells);
}

/// The block joins the row, in the note's seat. The owner's right goes in, and comes out again.
pub fn lay_in<K, L: Law<K>>(
    inner: &Inner<K, L>,
    seat: &mut RowSeat<K>,
    right: &mut RowSeat<K>,
    blocks: u64,
    cells: u64,
    link: Link<()>,
    block: Loose<(), Global>,
)
    requires seat { OfRow inner.now seat.old × Note seat.old }
    requires right { OfRow inner.now right.old × Owner right.old × (right.old.me.view.account ≡ seat.old.me.view.account) }
    requires extent { right.old.me.view.extent ≡ extent_of blocks right.old.me.view.extent.cells false null_ptr }
    requires room { (blocks < widenings + 1) × (right.old.me.view.extent.cells + cells < cells_bound) }
    requires block { (block.heap ≡ inner.now.rows.heap) × (block.at ≡ link.ptr) × InBlock link.ptr × (block.left ≡ 0) × AllHome block.cells × (length block.cells ≡ cells) × Blank block.cells }
    requires wide { (0 < cells) × (cells < block_bound) }
    ensures seat { (seat.new.rows ≡ seat.old.rows) × (seat.new.heap ≡ seat.old.heap) × (seat.new.me ≡ me (note seat.old.me.view.account seat.old.me.view.note right.old.me.view.knows right.old.me.view.door) None None) }
    ensures right { (right.new.rows ≡ seat.old.rows) × (right.new.heap ≡ seat.old.heap) × (right.new.me ≡ me (owner seat.old.me.view.account right.old.me.view.knows right.old.me.view.door (extent_of (blocks + 1) (right.old.me.view.extent.cells + cells) false null_ptr)) None None) }
    ensures met { StartsWith right.old.me.view.knows seat.old.me.view.knows × (own seat.old.me.view.note right.old.me.view.knows ≡ own seat.old.me.view.note seat.old.me.view.knows) }
{
    let root = inner.about.root;
    lend(inner, root, seat, right);
    lay(inner, seat, blocks, cells, link, block);
    hand_back(inner, root, seat, right);
}

/// What the seat knows, for another.
pub fn tell<K, L: Law<K>>(inner: &Inner<K, L>, root: Link<()>, seat: &mut RowSeat<K>) -> RowSeat<K>
    requires root { root ≡ inner.now.about.root }
    requires seat { OfRow inner.now seat.old }
    ensures seat { SameSeat seat.old seat.new × (seat.new.me ≡ seat.old.me) }
    ensures told { (result.rows ≡ seat.old.rows) × (result.heap ≡ seat.old.heap) × (result.me ≡ me (claim_of seat.old.me.view) None None) }
{
    inner.rows.split_seat::<TellsItems>(seat, ROOT, root)
}

/// Takes in what was told: the seat then knows the longer of the two lists.
pub fn take_in<K, L: Law<K>>(inner: &Inner<K, L>, seat: &mut RowSeat<K>, told: RowSeat<K>)
    requires seat { OfRow inner.now seat.old × (seat.old.me.view.account ≡ Some inner.now.about.account) × (seat.old.me.view.owns ≡ false) }
    requires told { OfRow inner.now told × Claim told }
    ensures same { SameSeat seat.old seat.new }
    ensures view { seat.new.me ≡ reviewed seat.old.me (learnt (informed seat.old.me.view told.me.view)) }
    ensures begins { StartsWith seat.new.me.view.knows seat.old.me.view.knows × StartsWith seat.new.me.view.knows told.me.view.knows }
    ensures mine { seat.old.me.view.live ≡ true → own seat.old.me.view.note seat.new.me.view.knows ≡ own seat.old.me.view.note seat.old.me.view.knows }
    ensures lawful { L.lawful inner.now.about.account seat.new.me.view.knows }
{
    let root = inner.about.root;
    inner.rows.join_seat::<TellsItems>(seat, told, ROOT, root);
    inner.rows.load::<Learns<L>>(seat, ROOT, root, 0);
}
