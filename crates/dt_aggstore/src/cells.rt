//! The cells of a store's entries, one after another in one list of words.
ghost use Rattle.std.specs.Prelude.{◌≡◌, ◌+◌, ◌≤◌, List, [], ◌∷◌, ◌++◌, ℤ, length, take, drop, slice_range, vec_len, vec_capacity};
ghost use Rattle.dt_aggfn.specs.Cells.{cell_words, cell_of, IsBag};
ghost use Rattle.dt_aggstore.specs.EntryNames.{entries_named, words_of, cells_without};

use crate::entry_name::EntryName;
use crate::key::Aggregation;
use dt_aggfn::AggFn;

/// Adds a value to the bag of the cell at a place.
pub(crate) fn add_at(function: AggFn, cells: &mut [u64], place: usize, value: i64)
    requires { place + cell_words function ≤ length cells.old }
    ensures { (bag : List ℤ) → IsBag bag
        → slice_range cells.old place (place + cell_words function) ≡ cell_of function bag
        → cells.new ≡ take place cells.old ++ cell_of function (bag ++ value ∷ [])
        ++ drop (place + cell_words function) cells.old }
{
    // how many words the cell has needn't be known, which would take an `lquantize` a division
    function.add(&mut cells[place..], value);
}

/// The cell of so many words at a place.
pub(crate) fn cell_at(cells: &[u64], place: usize, words: usize) -> &[u64]
    requires { place + words ≤ length cells.now }
    ensures { result.now ≡ slice_range cells.now place (place + words) }
{
    &cells[place..place + words]
}

/// Puts the cell of one value at the end.
pub(crate) fn push_first(function: AggFn, cells: &mut Vec<u64>, value: i64)
    requires { vec_len cells.old + cell_words function ≤ vec_capacity cells.old }
    ensures items { cells.new.items ≡ cells.old.items ++ cell_of function (value ∷ []) }
    ensures len { vec_len cells.new ≡ vec_len cells.old + cell_words function }
    ensures capacity { vec_capacity cells.old ≤ vec_capacity cells.new }
{
    let place = cells.len();
    cells.resize(place + function.cell_words(), 0).unwrap();
    function.first(&mut cells[place..], value);
}

/// Takes out the cells of an aggregation.
pub(crate) fn close_up(cells: &mut Vec<u64>, entries: &[EntryName], aggregation: Aggregation)
    requires { length cells.old.items ≡ words_of (entries_named entries.now) }
    ensures items { cells.new.items ≡ cells_without aggregation (entries_named entries.now) cells.old.items }
    ensures capacity { vec_capacity cells.new ≡ vec_capacity cells.old }
{
    let mut from = 0;
    let mut to = 0;
    for name in entries {
        let words = name.aggregation.function.cell_words();
        if !aggregation.is(name.aggregation) {
            move_down(cells, from, to, words);
            to += words;
        }
        from += words;
    }
    cells.truncate(to);
}

/// Copies words to a place that isn't after theirs.
fn move_down(cells: &mut [u64], from: usize, to: usize, words: usize)
    requires down { to ≤ from }
    requires within { from + words ≤ length cells.old }
    ensures { cells.new ≡ take to cells.old ++ slice_range cells.old from (from + words)
        ++ drop (to + words) cells.old }
{
    for index in 0..words {
        cells[to + index] = cells[from + index];
    }
}
