//! The bytes of a pattern's text, with what a `\` makes of them.

ghost use Rattle.std.specs.Prelude.{◌≡◌, ◌≢◌, ℕ, ◌++◌, ◌↔◌, ◌⊎◌, List, [], ◌∷◌, IsTrue, IfSome, IfNone};
ghost use Rattle.dt_glob.specs.Sign.{escape, byte_of, sign_text, IsSign};

/// A byte of a pattern, as its text shows it.
#[derive(Clone, Copy)]
pub(crate) enum PatternSign {
    /// A byte with no `\` in front of it.
    Plain(u8),
    /// A byte after a `\`, which stands for itself everywhere.
    Escaped(u8),
}

impl PatternSign {
    /// The sign at the front of a text, and what stands after it. A text that is empty or a lone `\` has none.
    pub(crate) fn split_first(text: &[u8]) -> Option<(PatternSign, &[u8])>
        ensures some { IfSome result (λ found. IsSign found.0 × (text.now ≡ sign_text found.0 ++ found.1.now)) }
        ensures none { IfNone result ((text.now ≡ []) ⊎ (text.now ≡ escape ∷ [])) }
    {
        match text {
            [] | [b'\\'] => None,
            [b'\\', byte, rest @ ..] => Some((PatternSign::Escaped(*byte), rest)),
            [byte, rest @ ..] => Some((PatternSign::Plain(*byte), rest)),
        }
    }

    /// Whether this is the byte with no `\` in front of it.
    pub(crate) fn is_plain(self, byte: u8) -> bool
        ensures { IsTrue result ↔ (self ≡ PatternSign.Plain byte) }
    {
        match self {
            PatternSign::Plain(own) => own == byte,
            PatternSign::Escaped(_) => false,
        }
    }

    /// The byte that the sign stands for.
    pub(crate) fn byte(self) -> u8
        ensures { result ≡ byte_of self }
    {
        match self {
            PatternSign::Plain(byte) | PatternSign::Escaped(byte) => byte,
        }
    }
}

/// What stands after this byte at the front of a text.
pub(crate) fn strip_byte(text: &[u8], byte: u8) -> Option<&[u8]>
    ensures some { IfSome result (λ rest. text.now ≡ byte ∷ rest.now) }
    ensures none { IfNone result ((rest : List ℕ) → text.now ≢ byte ∷ rest) }
{
    match text {
        [first, rest @ ..] if *first == byte => Some(rest),
        _ => None,
    }
}
