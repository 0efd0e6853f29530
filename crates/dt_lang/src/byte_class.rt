//! The bytes that run together.
ghost use Rattle.std.specs.Prelude.{◌≡◌};
ghost use Rattle.std.specs.List.{take_while};
ghost use Rattle.dt_lang.specs.Class.{members};

use dt_names::is_name_byte;

/// Which bytes run together.
#[derive(Clone, Copy)]
pub(crate) enum ByteClass {
    /// Letters, digits and `_`: identifiers and numbers.
    Word,
    /// What a string has between its `"`.
    String,
    /// Name bytes and `:`: descriptions.
    Description,
}

impl ByteClass {
    /// Whether a byte is one of these.
    pub(crate) fn has(self, byte: u8) -> bool
        ensures { result ≡ members self byte }
    {
        match self {
            ByteClass::Word => byte.is_ascii_alphanumeric() || byte == b'_',
            ByteClass::String => byte >= b' ' && byte <= b'~' && byte != b'"' && byte != b'\\',
            ByteClass::Description => is_name_byte(byte) || byte == b':',
        }
    }

    /// The longest run of such bytes at the front of a text.
    pub(crate) fn run(self, text: &[u8]) -> &[u8]
        ensures { result.now ≡ take_while (members self) text.now }
    {
        for (len, byte) in text.iter().enumerate() {
            // the first byte of another kind ends the run
            if !self.has(*byte) {
                return &text[..len];
            }
        }
        text
    }
}
