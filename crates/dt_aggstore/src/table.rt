//! The table of an aggregation over the stores of all processors.
ghost use Rattle.std.specs.Prelude.{◌≡◌, ◌≤◌, ℤ, List, ◌++◌, map, length, All, IfOk, IfSome, IsSome, IsTrue};
ghost use Rattle.std.specs.List.{AllZip};
ghost use Rattle.dt_aggstore.specs.EntryNames.{form_of_row};
ghost use Rattle.dt_aggstore.specs.History.{Past};
ghost use Rattle.dt_aggstore.specs.Held.{bag};
ghost use Rattle.dt_aggstore.specs.IsAt.{IsAt};
ghost use Rattle.dt_aggstore.specs.Joining.{cell_shared, AreShares};
ghost use Rattle.dt_aggstore.specs.Table.{IsTable};
ghost use Rattle.dt_aggstore.specs.TableOf.{table_of};
ghost use Rattle.dt_aggfn.specs.Cells.{cell_words};
ghost use Rattle.dt_aggstore.specs.declared.key.KeyPart.{KeyPart};
ghost use Rattle.dt_aggstore.specs.declared.limits.TheConstants.{KEYS_MAX, STORES_MAX};

use crate::cells::cell_at;
use crate::joining::rows_of;
use crate::key::Aggregation;
use crate::limits::STORES_MAX;
use crate::recent_texts::RecentTexts;
use crate::row::Row;
use crate::share::{NewShare, sort};
use crate::sized_shares::{DoubleShare, NarrowShare, WideShare};
use crate::store::AggStore;
use dt_aggfn::{any_order, cell_length};
use std::alloc::{AllocError, Global};

impl AggStore {
    /// The table of an aggregation over the stores of all processors, at most [`STORES_MAX`]: a row for each
    /// key that some store holds, with the function of all its values, in order of key. `Err`: there was no
    /// memory for it.
    pub fn merge_all(
        alloc: Global,
        stores: &[AggStore],
        aggregation: Aggregation,
    ) -> Result<Vec<Row>, AllocError>
        requires { length stores.now ≤ STORES_MAX }
        ensures table { (pasts : List Past) → AllZip IsAt pasts stores.now
            → IfOk result (λ rows. IsTable pasts aggregation (map form_of_row rows.items)) }
        ensures value { (pasts : List Past) → AllZip IsAt pasts stores.now
            → IfOk result (λ rows. map form_of_row rows.items ≡ table_of pasts aggregation) }
    {
        // in most aggregations each key has few parts: shares with as few places take less memory, and less of it is moved
        if let Some(rows) = table_by::<NarrowShare<'_>>(alloc, stores, aggregation)? {
            return Ok(rows);
        }
        if let Some(rows) = table_by::<DoubleShare<'_>>(alloc, stores, aggregation)? {
            return Ok(rows);
        }
        Ok(table_by::<WideShare<'_>>(alloc, stores, aggregation)?.unwrap())
    }

    /// Puts what this store has of an aggregation's keys at the end of shares, and says whether all keys have at most as many
    /// parts as shares have places for. Where one has more, it stops there. `Err`: there was no memory for it.
    fn share_into<'a, S: NewShare<'a>>(
        &'a self,
        aggregation: Aggregation,
        texts: &mut RecentTexts<'a>,
        shares: &mut Vec<S>,
    ) -> Result<bool, AllocError>
        ensures words { All (λ share. length (cell_shared share) ≡ cell_words aggregation.function)
            (map S.told shares.old.items)
            → All (λ share. length (cell_shared share) ≡ cell_words aggregation.function) (map S.told shares.new.items) }
        // where all have, shares of bags are those of the same bags with what this store keeps of each key
        ensures shares { (past : Past) (at : IsAt past self.now) (bags : List KeyPart → List ℤ)
            → AreShares aggregation.function bags (map S.told shares.old.items)
            → IfOk result (λ all. IsTrue all → AreShares aggregation.function
            (λ key. bags key ++ bag past.events at.chosen aggregation key) (map S.told shares.new.items)) }
        ensures all { KEYS_MAX ≤ S.places → IfOk result (λ all. IsTrue all) }
    {
        cell_length();
        let mut place = 0;
        for name in self.entries.names() {
            let words = name.aggregation.function.cell_words();
            if aggregation.is(name.aggregation) {
                if S::places() < name.key.parts.len() {
                    return Ok(false);
                }
                let cell = cell_at(&self.cells, place, words);
                shares.push(S::of(&name.key, cell, texts))?;
            }
            place += words;
        }
        Ok(true)
    }
}

/// The table of an aggregation, made by shares with so many places for parts. `None`: a key has more parts. `Err`: there was
/// no memory for it.
fn table_by<'a, S: NewShare<'a>>(
    alloc: Global,
    stores: &'a [AggStore],
    aggregation: Aggregation,
) -> Result<Option<Vec<Row>>, AllocError>
    requires { length stores.now ≤ STORES_MAX }
    ensures table { (pasts : List Past) → AllZip IsAt pasts stores.now
        → IfOk result (λ made. IfSome made (λ rows. IsTable pasts aggregation (map form_of_row rows.items))) }
    ensures all { KEYS_MAX ≤ S.places → IfOk result (λ made. IsSome made) }
{
    let entries = entries_in(stores);
    let mut shares: Vec<S> = Vec::with_capacity(alloc, entries)?;
    let mut texts = RecentTexts::new(alloc, entries);
    for store in stores {
        if !store.share_into(aggregation, &mut texts, &mut shares)? {
            return Ok(None);
        }
    }
    // where several stores have a key, the order in which their bags are joined doesn't matter
    any_order();
    sort(&mut shares);
    Ok(Some(rows_of(alloc, aggregation.function, &shares)?))
}

/// How many entries stores have, of all aggregations: for so many shares room is made at once, of which nothing is written
/// where there is no share.
fn entries_in(stores: &[AggStore]) -> usize {
    let mut entries: usize = 0;
    for store in stores {
        entries = entries.saturating_add(store.entries.names().len());
    }
    entries
}
