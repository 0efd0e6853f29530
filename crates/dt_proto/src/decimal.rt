//! Numbers as decimal digits.
ghost use Rattle.std.specs.Prelude.{◌≡◌, ◌≢◌, ◌⊎◌, ◌↔◌, ℕ, ◌^◌, ◌<◌, length, slice_index, IsTrue, IfSome, IfNone, decimal};

/// The number of 32 bits that decimal digits write, without a sign or a leading zero; `None` where they write none. In
/// step lines and in the texts of trails numbers are written so. It takes no memory.
pub fn number_of(digits: &[u8]) -> Option<u32>
    ensures found { IfSome result (λ number. (number < 2 ^ 32) × (digits.now ≡ decimal number)) }
    ensures none { IfNone result ((number : ℕ) → number < 2 ^ 32 → digits.now ≢ decimal number) }
{
    // a number has one spelling: a plus or a leading zero, which `parse` would let pass, makes it none
    if has_sign_or_zero(digits) {
        return None;
    }
    str::from_utf8(digits).ok()?.parse().ok()
}

/// Whether a plus or a leading zero stands first, which `parse` would pass over.
fn has_sign_or_zero(digits: &[u8]) -> bool
    ensures { IsTrue result ↔ ((slice_index digits.now 0 ≡ 43)
        ⊎ ((slice_index digits.now 0 ≡ 48) × (1 < length digits.now))) }
{
    matches!(digits, [b'+', ..] | [b'0', _, ..])
}
