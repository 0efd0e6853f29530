//! What holds of the definitions alone.
ghost use Rattle.std.specs.Prelude.{◌≡◌, ◌≢◌, ◌≤◌, ℕ, List, [], length, ℤ, ◌≤ℤ◌, IsPermutation, Contains, All};
ghost use Rattle.dt_aggfn.specs.declared.function.AggFn.{AggFn};
ghost use Rattle.dt_aggfn.specs.Limits.{cell_words_max};
ghost use Rattle.dt_aggfn.specs.declared.levels.Bounds.{Bounds};
ghost use Rattle.dt_aggfn.specs.Rows.{quantize_rows, lquantize_rows, IsRowOf};
ghost use Rattle.dt_aggfn.specs.Cells.{cell_words, cell_of, least_of, greatest_of};
ghost use Rattle.dt_aggfn.specs.Answers.{answer_of_bag};

/// The order of a bag's values doesn't matter, to its cell and to what is answered.
pub fn any_order()
    ensures cell { (f : AggFn) (a b : List ℤ) → IsPermutation a b → cell_of f a ≡ cell_of f b }
    ensures answer { (f : AggFn) (a b : List ℤ) → IsPermutation a b → answer_of_bag f a ≡ answer_of_bag f b }
{}

/// The cell of each bag has the function's words, and these are some and not too many.
pub fn cell_length()
    ensures words { (f : AggFn) (bag : List ℤ) → length (cell_of f bag) ≡ cell_words f }
    ensures some { (f : AggFn) → 1 ≤ cell_words f }
    ensures few { (f : AggFn) → cell_words f ≤ cell_words_max }
{}

/// Each value is counted by exactly one row of `quantize`, and by exactly one row of each `lquantize`.
pub fn one_row()
    ensures quantize { (z : ℤ) → (index : ℕ) × IsRowOf quantize_rows z index }
    ensures lquantize { (bounds : Bounds) (z : ℤ) → (index : ℕ) × IsRowOf (lquantize_rows bounds) z index }
{}

/// The least value of a bag is one of its values and above none of them, the greatest is one and below none.
pub fn extremes()
    ensures least { (bag : List ℤ) → bag ≢ [] → Contains bag (least_of bag) × All (λ z. least_of bag ≤ℤ z) bag }
    ensures greatest { (bag : List ℤ) → bag ≢ []
        → Contains bag (greatest_of bag) × All (λ z. z ≤ℤ greatest_of bag) bag }
{}
