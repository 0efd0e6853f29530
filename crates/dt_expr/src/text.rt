//! Texts of an expression, and values as a record shows them.
ghost use Rattle.std.specs.Prelude.{◌≡◌};
ghost use Rattle.dt_expr.specs.Scene.{scene_of, text_value, padded};

use crate::scene::{Scene, TextVariable};
use dt_names::{PADDED_SIZE, ShortText};

/// A text of an expression: one that is written, or one of the scene.
#[derive(Clone, Copy, PartialEq, Eq)]
pub enum Text {
    /// A text as it is written.
    Literal(ShortText),
    /// A variable that names a text of the scene.
    Variable(TextVariable),
}

/// A value as a record shows it.
#[derive(Clone, Copy, Debug, PartialEq, Eq)]
pub enum Value {
    /// A number, in 8 bytes of a record.
    Number(i64),
    /// A text, and zeros up to 32 bytes.
    Text([u8; PADDED_SIZE]),
}

impl Default for Value {
    /// The number 0.
    fn default() -> Self {
        Value::Number(0)
    }
}

impl Text {
    ghost use Rattle.dt_expr.specs.Scene.{text_bytes};

    /// The text as a record shows it: its bytes, and zeros up to 32 bytes in all.
    pub fn value(&self, scene: &Scene) -> Value
        ensures { result ≡ text_value (scene_of scene.now) self.now }
    {
        match self {
            Text::Literal(text) => Value::Text(*text.padded()),
            Text::Variable(variable) => Value::Text(*scene.padded(*variable)),
        }
    }

    /// The bytes of the text.
    pub(crate) fn bytes<'a>(&'a self, scene: &'a Scene) -> &'a [u8]
        ensures { result.now ≡ text_bytes (scene_of scene.now) self.now }
    {
        match self {
            Text::Literal(text) => text.as_bytes(),
            Text::Variable(variable) => scene.bytes(*variable),
        }
    }
}
