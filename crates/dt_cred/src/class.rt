//! The class of a probe, by its provider's name.
ghost use Rattle.std.specs.Prelude.{◌≡◌, ◌≤◌, length, MatchOption};
ghost use Rattle.dt_cred.specs.Class.{IsClassOf, WritesDecimal, number_of};

use dt_names::{NAME_MAX, Name};

/// The most digits of a process number that a provider's name has room for, after `pid`.
const DIGITS_MAX: usize = NAME_MAX - 3;

/// The class of a probe, which decides what an account needs to enable it and to be shown its firings.
#[derive(Clone, Copy, Debug, PartialEq, Eq)]
pub enum Class {
    /// `dtrace`: a consumer's own `BEGIN` and `END`.
    Dtrace,
    /// `syscall`
    Syscall,
    /// `profile`
    Profile,
    /// `pid` and the decimal number of a process without leading zero. The number may be that of no process: 28 digits
    /// fit in a name.
    Pid(u128),
    /// Any other provider.
    Other,
}

impl Class {
    /// The class of a provider's probes.
    pub fn of(provider: &Name) -> Class
        ensures { IsClassOf provider.now result }
    {
        match provider.as_bytes() {
            b"dtrace" => Class::Dtrace,
            b"syscall" => Class::Syscall,
            b"profile" => Class::Profile,
            [b'p', b'i', b'd', digits @ ..] => match decimal(digits) {
                Some(pid) => Class::Pid(pid),
                None => Class::Other,
            },
            _ => Class::Other,
        }
    }
}

/// The number that decimal digits without a leading zero write, or `None` for any other text.
fn decimal(digits: &[u8]) -> Option<u128>
    requires { length digits.now ≤ DIGITS_MAX }
    ensures { MatchOption result (WritesDecimal digits.now → ⊥)
        (λ number. WritesDecimal digits.now × (number_of digits.now ≡ number)) }
{
    // `pid` and `pid01` name no process: they are providers like any other
    if digits.is_empty() || (digits[0] == b'0' && digits.len() != 1) {
        return None;
    }
    let mut number = 0;
    for digit in digits {
        // `pidx` names no process either
        if !digit.is_ascii_digit() {
            return None;
        }
        number = 10 * number + u128::from(*digit - b'0');
    }
    Some(number)
}
