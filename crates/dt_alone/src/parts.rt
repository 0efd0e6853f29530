//! The parts of a text: what stands before a byte, and after it.
ghost use Rattle.std.specs.Prelude.{IfSome, IfNone};
ghost use Rattle.dt_alone.specs.Parts.{IsCutAt, HasNo};

/// The text in front of the first byte of this value, and what stands after it.
pub(crate) fn cut_at(byte: u8, text: &[u8]) -> Option<(&[u8], &[u8])>
    ensures found { IfSome result (λ parts. IsCutAt byte text.now parts.0.now parts.1.now) }
    ensures none { IfNone result (HasNo byte text.now) }
{
    let at = text.iter().position(|other| *other == byte)?;
    Some((&text[..at], &text[at + 1..]))
}
