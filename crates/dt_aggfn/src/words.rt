//! What is done to the words of cells.
ghost use Rattle.std.specs.Prelude.{◌≡◌, ◌<◌, ◌+◌, ◌%◌, ◌^◌, ℕ, length, slice_index, slice_set};

/// Adds each word of another cell to that of a cell.
pub(crate) fn add_words(cell: &mut [u64], other: &[u64])
    requires { length cell.old ≡ length other.now }
    ensures { (k : ℕ) → k < length cell.old
        → slice_index cell.new k ≡ (slice_index cell.old k + slice_index other.now k) % 2 ^ 64 }
{
    for (index, more) in other.iter().enumerate() {
        cell[index] = cell[index].wrapping_add(*more);
    }
}

/// Counts one value more at an index.
pub(crate) fn count_at(cell: &mut [u64], index: usize)
    requires { index < length cell.old }
    ensures { cell.new ≡ slice_set cell.old index ((slice_index cell.old index + 1) % 2 ^ 64) }
{
    cell[index] = cell[index].wrapping_add(1);
}
