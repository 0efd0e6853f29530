//! Rows while a table is made.
ghost use Rattle.std.specs.Prelude.{◌≡◌, ◌<◌, ℤ, List, [], ◌∷◌, length, ◌++◌, map, IfOk, All};
ghost use Rattle.std.specs.List.Sorted.{IsSortedByKey};
ghost use Rattle.dt_aggstore.specs.Joining.{cell_shared, keys_of, joined_at, joined_told, shared_key, AreShares, AreUnderWay, IsAnswerRow, AreRowsOf, NoneAfter};
ghost use Rattle.dt_aggstore.specs.Keys.{key_cmp};
ghost use Rattle.dt_aggfn.specs.Cells.{cell_words, cell_of, IsBag};
ghost use Rattle.dt_aggfn.specs.declared.limits.TheConstants.{BAG_LIMIT};
ghost use Rattle.dt_aggstore.specs.declared.key.KeyPart.{KeyPart};

use crate::places::{are_same, row_key};
use crate::row::Row;
use crate::share::KeyShare;
use dt_aggfn::AggFn;
use std::alloc::{AllocError, Global};

/// The first share of a key, with the shares that were joined to it.
#[derive(Drop)]
pub(crate) struct Joined<'s, S> {
    share: &'s S,
    /// The cell of all values that were joined so far. Where there is one share, it is that one's, and no copy is made.
    more: Option<Vec<u64>>,
}

impl<'s, S: KeyShare> Joined<'s, S> {
    /// The cell of all values that were joined so far.
    fn cell(&self) -> &[u64]
        ensures { result.now ≡ (joined_told S.told self.now).cell }
    {
        match &self.more {
            Some(cell) => cell,
            None => self.share.cell(),
        }
    }

    /// The same with the cell of a share. `Err`: there was no memory for it.
    #[inline(never)]
    fn merged(
        self,
        alloc: Global,
        function: AggFn,
        other: &[u64],
    ) -> Result<Joined<'s, S>, AllocError>
        requires own { length (joined_told S.told self).cell ≡ cell_words function }
        requires others { length other.now ≡ cell_words function }
        ensures share { IfOk result (λ joined. joined.share ≡ self.entry.share) }
        ensures words { IfOk result (λ joined. length (joined_told S.told joined).cell ≡ cell_words function) }
        ensures cell { (bag other_bag : List ℤ) → IsBag bag → IsBag other_bag
            → (joined_told S.told self.entry).cell ≡ cell_of function bag → other.now ≡ cell_of function other_bag
            → IfOk result (λ joined. (joined_told S.told joined).cell ≡ cell_of function (bag ++ other_bag)) }
    {
        let share = self.share;
        let mut cell = match self.more {
            Some(cell) => cell,
            None => Vec::from_slice(alloc, share.cell())?,
        };
        function.merge(&mut cell, other);
        Ok(Joined {
            share,
            more: Some(cell),
        })
    }

    /// Its row, with what the function answers. `Err`: there was no memory for it.
    #[inline(always)]
    fn row(&self, alloc: Global, function: AggFn) -> Result<Row, AllocError>
        requires { length (joined_told S.told self.now).cell ≡ cell_words function }
        ensures { IfOk result (IsAnswerRow function (joined_told S.told self.now)) }
    {
        Ok(Row {
            key: row_key(alloc, self.share.parts())?,
            value: function.answer(alloc, self.cell())?,
        })
    }
}

/// The rows of shares that are in order of key. `Err`: there was no memory for them.
pub(crate) fn rows_of<'s, S: KeyShare>(
    alloc: Global,
    function: AggFn,
    shares: &'s [S],
) -> Result<Vec<Row>, AllocError>
    requires words { All (λ share. length (cell_shared share) ≡ cell_words function) (map S.told shares.now) }
    requires sorted { IsSortedByKey shared_key key_cmp (map S.told shares.now) }
    // where shares are of bags, the rows are joined from those
    ensures { (bags : List KeyPart → List ℤ) → AreShares function bags (map S.told shares.now)
        → ((key : List KeyPart) → length (bags key) < BAG_LIMIT)
        → IfOk result (λ rows. AreRowsOf function bags rows.items) }
{
    // at most one row for each share
    let rows = Vec::with_capacity(alloc, shares.len())?;
    match shares {
        [] => Ok(rows),
        [first, later @ ..] => rows_from(alloc, function, rows, first, later),
    }
}

/// The rows of a first share and of later ones. `Err`: there was no memory for them.
fn rows_from<'s, S: KeyShare>(
    alloc: Global,
    function: AggFn,
    mut rows: Vec<Row>,
    first: &'s S,
    later: &'s [S],
) -> Result<Vec<Row>, AllocError>
    requires empty { rows.items ≡ [] }
    requires first_words { length (S.told first.now).cell ≡ cell_words function }
    requires words { All (λ share. length (cell_shared share) ≡ cell_words function) (map S.told later.now) }
    requires sorted { IsSortedByKey shared_key key_cmp (S.told first.now ∷ map S.told later.now) }
    ensures { (bags : List KeyPart → List ℤ) → AreShares function bags (S.told first.now ∷ map S.told later.now)
        → ((key : List KeyPart) → length (bags key) < BAG_LIMIT)
        → IfOk result (λ rows. AreRowsOf function bags rows.items) }
{
    let mut last = Joined {
        share: first,
        more: None,
    };
    for share in later {
        last = join(alloc, function, &mut rows, last, share)?;
    }
    rows.push(last.row(alloc, function)?)?;
    Ok(rows)
}

/// Joins a share to the last that was joined, if it is of the same key. Otherwise the last one's row is made, and this share is
/// the last. `Err`: there was no memory for it.
#[inline(always)]
fn join<'s, S: KeyShare>(
    alloc: Global,
    function: AggFn,
    rows: &mut Vec<Row>,
    last: Joined<'s, S>,
    share: &'s S,
) -> Result<Joined<'s, S>, AllocError>
    requires own { length (joined_told S.told last).cell ≡ cell_words function }
    requires others { length (S.told share.now).cell ≡ cell_words function }
    ensures words { IfOk result (λ joined. length (joined_told S.told joined).cell ≡ cell_words function) }
    // Rows joined from bags, of which none comes after the share's key, are those of the same bags with the share's added at
    // its key.
    ensures joins { (bags : List KeyPart → List ℤ) (bag : List ℤ)
        → (so_far : AreUnderWay function bags (joined_told S.told last.entry) rows.old.items)
        → NoneAfter (S.told share.now).key (keys_of (so_far.done ++ joined_told S.told last.entry ∷ []))
        → length (bags (S.told share.now).key) < BAG_LIMIT
        → IsBag bag → (S.told share.now).cell ≡ cell_of function bag
        → IfOk result (λ joined. AreUnderWay function (joined_at (S.told share.now).key bag bags)
        (joined_told S.told joined) rows.new.items) }
{
    if are_same(last.share.parts(), share.parts()) {
        return last.merged(alloc, function, share.cell());
    }
    rows.push(last.row(alloc, function)?)?;
    Ok(Joined { share, more: None })
}
