//! What the words of the definitions come to, in plain facts.
ghost use Rattle.std.specs.Prelude.{◌≡◌, ◌≢◌, ℕ, ◌+◌, ◌%◌, ◌^◌, ◌<◌, min, max, Some, None, ℤ, pos, ◌+ℤ◌, ◌-ℤ◌, ◌*ℤ◌, neg_ℤ, ◌≤ℤ◌, FitsSigned, int_div, int_rem, unsigned_abs};
ghost use Rattle.std.specs.Int.{w64, int_bit_and, int_bit_not, int_bit_or, int_bit_xor};
ghost use Rattle.dt_expr.specs.declared.operators.BinaryOp.TheVariants.{Or, Xor, And, BitOr, BitXor, BitAnd};
ghost use Rattle.dt_locals.specs.History.{LocalsPast};
ghost use Rattle.dt_expr.specs.Form.{Form, Joined};
ghost use Rattle.dt_expr.specs.Operators.{bit_of, binary, wrapped, DifferBy, shift_count, shifted_right, quotient, remainder};
ghost use Rattle.dt_expr.specs.Scene.{SceneForm};
ghost use Rattle.dt_expr.specs.Value.{value};

/// Law: each number has one representative from -2^63 to 2^63 - 1, and differs from it by a multiple of 2^64.
pub fn representatives()
    ensures within { (z : ℤ) → FitsSigned w64 (wrapped z) }
    ensures same { (z : ℤ) → DifferBy (2 ^ 64) (wrapped z) z }
    ensures only_one { (a b : ℤ) → FitsSigned w64 a → FitsSigned w64 b → DifferBy (2 ^ 64) a b → a ≡ b }
{}

/// Law: a quotient and its remainder give the dividend back. The remainder is nearer to 0 than the divisor, and lies on
/// the dividend's side of 0, so the quotient is cut toward zero. The least number by -1 is itself, and its remainder 0.
pub fn divisions()
    ensures whole { (x y : ℤ) → int_div x y *ℤ y +ℤ int_rem x y ≡ x }
    ensures smaller { (x y : ℤ) → y ≢ pos 0 → unsigned_abs (int_rem x y) < unsigned_abs y }
    ensures above { (x y : ℤ) → pos 0 ≤ℤ x → pos 0 ≤ℤ int_rem x y }
    ensures below { (x y : ℤ) → x ≤ℤ pos 0 → int_rem x y ≤ℤ pos 0 }
    ensures least { quotient (neg_ℤ (pos (2 ^ 63))) (neg_ℤ (pos 1)) ≡ Some (neg_ℤ (pos (2 ^ 63))) }
    ensures least_remainder { remainder (neg_ℤ (pos (2 ^ 63))) (neg_ℤ (pos 1)) ≡ Some (pos 0) }
{}

/// Law: a shift's count lies from 0 to 63 and differs from the operand by a multiple of 64. A shift to the right divides
/// by that power of two and leaves a remainder that is not negative, so it is rounded down. Every bit turned is one less
/// than the negation.
pub fn bits()
    ensures count { (z : ℤ) → shift_count z < 64 }
    ensures same_count { (z : ℤ) → DifferBy 64 (pos (shift_count z)) z }
    ensures rounded_down { (z count : ℤ) → (rest : ℕ) × (rest < 2 ^ shift_count count)
        × (z ≡ shifted_right z count *ℤ pos (2 ^ shift_count count) +ℤ pos rest) }
    ensures complement { (z : ℤ) → FitsSigned w64 z → int_bit_not w64 z ≡ neg_ℤ z -ℤ pos 1 }
{}

/// Law: where the left side of `&&` is 0, or that of `||` is not, the right side does not count, whether or not it divides
/// by zero; a fault on the right of `^^` always counts.
pub fn decisions()
    ensures and { (scene : SceneForm) (locals : LocalsPast) (left right : Form) → value scene locals left ≡ Some (pos 0)
        → value scene locals (Joined And left right) ≡ Some (pos 0) }
    ensures or { (scene : SceneForm) (locals : LocalsPast) (left right : Form) (z : ℤ) → z ≢ pos 0 → value scene locals left ≡ Some z
        → value scene locals (Joined Or left right) ≡ Some (pos 1) }
    ensures xor { (scene : SceneForm) (locals : LocalsPast) (left right : Form) → value scene locals right ≡ None
        → value scene locals (Joined Xor left right) ≡ None }
{}

/// Law: each of the 64 places of `x | y`, `x & y` and `x ^ y`, in two's complement, has the greater, the lesser and the sum
/// without carry of the operands' bits there.
pub fn places()
    ensures or { (x y : ℤ) (place : ℕ) → FitsSigned w64 x → FitsSigned w64 y
        → (binary BitOr x y ≡ Some (int_bit_or w64 x y))
        × (bit_of (int_bit_or w64 x y) place ≡ max (bit_of x place) (bit_of y place)) }
    ensures and { (x y : ℤ) (place : ℕ) → FitsSigned w64 x → FitsSigned w64 y
        → (binary BitAnd x y ≡ Some (int_bit_and w64 x y))
        × (bit_of (int_bit_and w64 x y) place ≡ min (bit_of x place) (bit_of y place)) }
    ensures xor { (x y : ℤ) (place : ℕ) → FitsSigned w64 x → FitsSigned w64 y
        → (binary BitXor x y ≡ Some (int_bit_xor w64 x y))
        × (bit_of (int_bit_xor w64 x y) place ≡ (bit_of x place + bit_of y place) % 2) }
{}
