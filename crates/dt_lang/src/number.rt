//! Numbers, as programs write them.
ghost use Rattle.std.specs.Prelude.{◌≡◌, ℕ, ◌<◌, ◌≤◌, ◌^◌, IfSome, IfNone};
ghost use Rattle.std.specs.Str.Parse.{digits_value, AllDigits};
ghost use Rattle.dt_lang.specs.Number.{IsNumber};

/// The number that these bytes are: decimal, octal after a `0`, or hexadecimal after `0x` or `0X`.
pub(crate) fn value_of(bytes: &[u8]) -> Option<u64>
    ensures found { IfSome result (IsNumber bytes.now) }
    ensures none { IfNone result ((n : ℕ) → IsNumber bytes.now n → ⊥) }
{
    match bytes {
        [] | [b'0', b'x' | b'X'] => None,
        [b'0', b'x' | b'X', digits @ ..] => value_of_digits(digits, 16),
        [b'0', digits @ ..] => value_of_digits(digits, 8),
        _ => value_of_digits(bytes, 10),
    }
}

/// The number that these digits are in a base, where they are and it fits.
fn value_of_digits(digits: &[u8], radix: u32) -> Option<u64>
    requires low { 2 ≤ radix }
    requires high { radix ≤ 36 }
    ensures digits { IfSome result (λ n. AllDigits radix digits.now) }
    ensures value { IfSome result (λ n. n ≡ digits_value radix digits.now) }
    ensures none { IfNone result (AllDigits radix digits.now → 2 ^ 64 ≤ digits_value radix digits.now) }
{
    let mut value: u64 = 0;
    for byte in digits {
        let digit = char::from(*byte).to_digit(radix)?;
        value = value
            .checked_mul(u64::from(radix))?
            .checked_add(u64::from(digit))?;
    }
    Some(value)
}
