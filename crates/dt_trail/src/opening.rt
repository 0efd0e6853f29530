//! A new row.
ghost use Rattle.std.specs.Prelude.{◌≡◌, ◌<◌, ◌+◌, [], IfOk, OnOk, Some, None};
ghost use Rattle.std.specs.Arc.{arc_value};
ghost use Rattle.atomic_blocks.specs.Cells.{me};
ghost use Rattle.dt_trail.specs.Rule.{maker as maker_view, owner, first_extent};
ghost use Rattle.dt_trail.specs.Insides.{OfRow, IsDoor, row_of as name_of};
ghost use Rattle.dt_trail.specs.Known.{noted};
ghost use Rattle.dt_trail.specs.Limits.{block_bound};

use crate::door::Door;
use crate::inner::{Inner, ROOT, RowSeat};
use crate::law::Law;
use crate::note::TrailNote;
use crate::owner::{OwnerPlace, TrailOwner};
use crate::rule::{About, MakesNote, Opens};
use crate::storage;
use atomic_blocks::rows::Rows;
use std::alloc::{AllocError, Global};
use std::sync::Arc;

/// A row of cells, each written once. It lives as long as its owner or one of its notes does.
pub struct Trail;

impl Trail {
    ghost use Rattle.dt_trail.specs.Known.{known_row, AreNew};

    /// A row of empty cells for an account, with its owner and its notes, which are numbered from 0: the session's, and then those of
    /// the processors. The empty row has to be lawful for the account. It takes 16 bytes a cell, some for each note, and some for what all of them share.
    ///
    /// `Err`: there was no memory.
    pub fn new<K: Drop, L: Law<K>>(
        alloc: Global,
        account: K,
        cells: u64,
        notes: u64,
    ) -> Result<(TrailOwner<K, L>, Vec<TrailNote<K, L>>), AllocError>
        requires wide { (0 < cells) × (cells < block_bound) }
        requires lawful { L.lawful account [] }
        ensures { IfOk result (λ t. (t.0.row.account ≡ account) × (t.0 ≡ known_row t.0.row [] cells 0) × AreNew t.0.row notes t.1.items) }
    {
        let (inner, mut maker, door) = row_of::<K, L>(alloc, account, cells)?;
        let mut made = Vec::with_capacity(alloc, notes as usize)?;
        for i in 0..notes {
            let note = next_note(&inner, &mut maker, door)?;
            made.push(note)?;
        }
        let right = end_maker(&inner, &mut maker);
        let root = inner.about.root;
        let place = OwnerPlace {
            cells: inner,
            root,
            door,
            widened: 0,
            width: cells,
        };
        Ok((TrailOwner::of(place, right), made))
    }
}

// The cells, the seat that makes notes, and the door to the first block.
fn row_of<K: Drop, L: Law<K>>(
    alloc: Global,
    account: K,
    cells: u64,
) -> Result<(Arc<Inner<K, L>, Global>, RowSeat<K>, Door), AllocError>
    requires wide { (0 < cells) × (cells < block_bound) }
    requires lawful { L.lawful account [] }
    ensures inner { IfOk result (λ t. ((arc_value t.0).about.account ≡ account) × OfRow (arc_value t.0) t.1) }
    ensures maker { IfOk result (λ t. IsDoor t.2 × (t.2.from ≡ 0) × (t.2.len ≡ cells) × (t.1.me ≡ me (maker_view (Some account) 0 t.2 (first_extent cells)) None None)) }
{
    let (first, block) = storage::block(&alloc, cells)?;
    let Ok((root, base)) = storage::root(&alloc, first, cells) else {
        block.free(&alloc, first, cells as usize);
        return Err(AllocError);
    };
    let about = About {
        root,
        first,
        size: cells,
        account,
    };
    let (rows, maker) = Rows::open(&about, base, block);
    let inner = Inner { rows, about, alloc };
    let door = Door {
        block: 0,
        from: 0,
        len: cells,
        link: first,
    };
    Ok((Arc::new(alloc, inner)?, maker, door))
}

// The maker's next note.
fn next_note<K: Drop, L: Law<K>>(
    inner: &Arc<Inner<K, L>, Global>,
    maker: &mut RowSeat<K>,
    door: Door,
) -> Result<TrailNote<K, L>, AllocError>
    requires row { OfRow (arc_value inner.now) maker.old }
    requires view { maker.old.me ≡ me (maker_view (Some (arc_value inner.now).about.account) maker.old.me.view.note door maker.old.me.view.extent) None None }
    requires door { IsDoor door × (door.from ≡ 0) }
    ensures maker { (maker.new.rows ≡ maker.old.rows) × (maker.new.heap ≡ maker.old.heap) × OnOk result (maker.new.me ≡ me (maker_view (Some (arc_value inner.now).about.account) (maker.old.me.view.note + 1) door maker.old.me.view.extent) None None) }
    ensures note { IfOk result (λ n. n ≡ noted (name_of (arc_value inner.now)) maker.old.me.view.note []) }
{
    let mine = Arc::try_clone(inner)?;
    let shared: &Inner<K, L> = inner;
    let root = shared.about.root;
    let seat = shared.rows.split_seat::<MakesNote>(maker, ROOT, root);
    Ok(TrailNote::of(mine, seat, door))
}

// The maker ends, and the owner begins.
fn end_maker<K, L: Law<K>>(inner: &Inner<K, L>, maker: &mut RowSeat<K>) -> RowSeat<K>
    requires row { OfRow inner.now maker.old }
    requires view { maker.old.me ≡ me (maker_view (Some inner.now.about.account) maker.old.me.view.note maker.old.me.view.door maker.old.me.view.extent) None None }
    ensures row { (result.rows ≡ maker.old.rows) × (result.heap ≡ maker.old.heap) }
    ensures view { result.me ≡ me (owner (Some inner.now.about.account) [] maker.old.me.view.door maker.old.me.view.extent) None None }
{
    let root = inner.about.root;
    inner.rows.split_seat::<Opens>(maker, ROOT, root)
}
