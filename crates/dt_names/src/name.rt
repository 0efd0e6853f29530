//! Names: what a part of a probe, or an account, is called.
ghost use Rattle.std.specs.Prelude.{◌≡◌, ◌-◌, ◌↔◌, [], ◌++◌, IsTrue, IsSome, Some, IfSome, length, replicate};
ghost use Rattle.dt_names.specs.Name.{IsNameByte, IsName};

use crate::short_text::{PADDED_SIZE, SHORT_TEXT_MAX, ShortText};
use std::marker::Model;
use std::{fmt, str};

/// The most bytes that a [`Name`] has.
pub const NAME_MAX: usize = SHORT_TEXT_MAX;

/// Whether a name may have this byte: a visible ASCII character, but none of `:` `,` `/` `{` `}` `"`.
pub const fn is_name_byte(byte: u8) -> bool
    ensures { IsTrue result ↔ IsNameByte byte }
{
    match byte {
        b':' | b',' | b'/' | b'{' | b'}' | b'"' => false,
        _ => byte >= b'!' && byte <= b'~',
    }
}

/// A name of 0 to 31 name bytes ([`is_name_byte`]), which lie in the value itself.
///
/// It names one part of a probe, or an account. Contracts see a `Name` as the list of its bytes.
#[derive(Clone, Copy, PartialEq, Eq)]
pub struct Name {
    text: ShortText,
}

impl Model for Name {
    ghost use Rattle.std.specs.Prelude.{ℕ, List};
    ghost use Rattle.dt_names.specs.Name.{IsName};

    ghost Value = { List ℕ };

    ghost view = { λ name. name.text };

    ghost invariant = { λ name. IsName name.text };

    ghost inverse = { λ bytes. record { text = bytes } };
}

impl Name {
    /// The name of these bytes, or `None` where they are no name: more than 31, or one that no name has.
    pub fn new(bytes: &[u8]) -> Option<Self>
        ensures valid { IsSome result ↔ IsName bytes.now }
        ensures value { IfSome result (λ name. name ≡ bytes.now) }
    {
        let text = ShortText::new(bytes)?;
        // in the head of a clause any other byte ends the name
        if !bytes.iter().all(|byte| is_name_byte(*byte)) {
            return None;
        }
        Some(Name { text })
    }

    /// The bytes of the name.
    pub fn as_bytes(&self) -> &[u8]
        ensures value { result.now ≡ self.now }
        ensures name { IsName self.now }
    {
        self.text.as_bytes()
    }

    /// The name as text.
    pub fn as_str(&self) -> &str
        ensures { result.now ≡ self.now }
    {
        match str::from_utf8(self.as_bytes()) {
            Ok(text) => text,
            Err(_) => unreachable!("a name is ASCII"),
        }
    }

    /// Whether the name has no byte.
    pub fn is_empty(&self) -> bool
        ensures { IsTrue result ↔ (self.now ≡ []) }
    {
        self.as_bytes().is_empty()
    }

    /// The name as a record shows it: its bytes, and zeros up to 32 bytes in all.
    pub fn padded(&self) -> &[u8; PADDED_SIZE]
        ensures { result.now ≡ self.now ++ replicate (PADDED_SIZE - length self.now) 0 }
    {
        self.text.padded()
    }
}

impl fmt::Display for Name {
    ghost output = { λ name. Some name };

    fn fmt<W: fmt::Write>(&self, f: &mut fmt::Formatter<W>) -> fmt::Result {
        f.write_str(self.as_str())
    }
}

impl fmt::Debug for Name {
    fn fmt<W: fmt::Write>(&self, f: &mut fmt::Formatter<W>) -> fmt::Result {
        f.write_str(self.as_str())
    }
}
