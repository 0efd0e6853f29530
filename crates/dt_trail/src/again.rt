//! How a seat reads an item again that it knows.
ghost use Rattle.std.specs.Prelude.{◌≡◌, ◌<◌, ◌≤◌, ◌+◌, length, Some};
ghost use Rattle.dt_trail.specs.Items.{IsWordAt};
ghost use Rattle.dt_trail.specs.Rule.{reviewed, through};
ghost use Rattle.dt_trail.specs.Insides.{OfRow, SameSeat, IsDoor};

use crate::door::Door;
use crate::inner::{Inner, ROOT, RowSeat};
use crate::law::Law;
use crate::moves::turn;
use crate::rule::{GoesBack, ReadsAgain, SeesItems};

// Moves the seat's door back to the first block.
fn go_back<K, L: Law<K>>(inner: &Inner<K, L>, seat: &mut RowSeat<K>) -> Door
    requires { OfRow inner.now seat.old }
    ensures same { SameSeat seat.old seat.new }
    ensures door { IsDoor result × (result.from ≡ 0) }
    ensures view { seat.new.me ≡ reviewed seat.old.me (through seat.old.me.view result) }
{
    let root = inner.about.root;
    let len = inner.rows.load::<GoesBack>(seat, ROOT, root, 0);
    let link = inner.rows.load_link::<SeesItems>(seat, ROOT, root, 0);
    Door {
        block: 0,
        from: 0,
        len,
        link,
    }
}

// Moves the seat's door on to the block of a cell whose item the seat knows.
fn reach<K, L: Law<K>>(inner: &Inner<K, L>, seat: &mut RowSeat<K>, mut door: Door, k: u64) -> Door
    requires seat { OfRow inner.now seat.old × (seat.old.me.view.account ≡ Some inner.now.about.account) }
    requires door { (seat.old.me.view.door ≡ door) × IsDoor door × (door.from ≤ k) }
    requires known { k < length seat.old.me.view.knows }
    ensures same { SameSeat seat.old seat.new }
    ensures view { seat.new.me ≡ reviewed seat.old.me (through seat.old.me.view result) }
    ensures door { IsDoor result × (result.from ≤ k) × (k < result.from + result.len) }
{
    'doors: while k >= door.from + door.len {
        let Some(next) = turn(inner, seat, door) else {
            unreachable!()
        };
        door = next;
    }
    door
}

// The word of a cell of the door's block whose item the seat knows.
fn look_again<K, L: Law<K>>(inner: &Inner<K, L>, seat: &mut RowSeat<K>, door: Door, k: u64) -> u64
    requires seat { OfRow inner.now seat.old }
    requires door { (seat.old.me.view.door ≡ door) × IsDoor door × (door.from ≤ k) × (k < door.from + door.len) }
    requires known { k < length seat.old.me.view.knows }
    ensures { IsWordAt seat.old.me.view.knows k result }
{
    let place = (k - door.from) as usize;
    inner
        .rows
        .load::<ReadsAgain>(seat, door.block + 1, door.link, place)
}

/// The word of an item that the seat knows, by its place in the row.
pub fn word_again<K, L: Law<K>>(
    inner: &Inner<K, L>,
    seat: &mut RowSeat<K>,
    door: Door,
    k: u64,
) -> u64
    requires seat { OfRow inner.now seat.old × (seat.old.me.view.account ≡ Some inner.now.about.account) }
    requires door { (seat.old.me.view.door ≡ door) × IsDoor door }
    requires known { k < length seat.old.me.view.knows }
    ensures { IsWordAt seat.old.me.view.knows k result }
{
    let near = if k < door.from {
        go_back(inner, seat)
    } else {
        door
    };
    let there = reach(inner, seat, near, k);
    look_again(inner, seat, there, k)
}
