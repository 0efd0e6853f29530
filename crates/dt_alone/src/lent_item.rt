//! The items of a trail's text.
ghost use Rattle.std.specs.Prelude.{◌≡◌, ℕ, ◌^◌, ◌<◌, List, ◌++◌, codes, decimal, IfSome, IfNone};
ghost use Rattle.dt_proto.specs.Splits.{HasNoNewline};
ghost use Rattle.dt_proto.specs.Trail as trail;
ghost use Rattle.dt_proto.specs.Trail.{IsWritable, item_text, reply_line};
ghost use Rattle.dt_alone.specs.Lent.{form_of_lent, has_reply};

use crate::parts::cut_at;
use dt_proto::number_of;

/// An item of a trail, lent by its text.
#[derive(Clone, Copy, Debug, PartialEq, Eq)]
pub(crate) enum LentItem<'a> {
    /// A line and its reply, both without the newline.
    Line { line: &'a [u8], reply: &'a [u8] },
    /// A long line, whose bytes aren't told, and its reply without the newline.
    Long { reply: &'a [u8] },
    /// A firing, by its processor and its place in that processor's script, both from 0 on.
    Fired { cpu: u32, place: u32 },
}

impl<'a> LentItem<'a> {
    /// The item that a text begins with, and what stands after it. `None`: it begins with no item.
    pub(crate) fn read(text: &'a [u8]) -> Option<(Self, &'a [u8])>
        ensures found { IfSome result (λ parts. IsWritable (form_of_lent parts.0)
            × (text.now ≡ item_text (form_of_lent parts.0) ++ parts.1.now)) }
        ensures none { IfNone result ((item : trail.WrittenItem) (rest : List ℕ)
            → IsWritable item → text.now ≡ item_text item ++ rest → ⊥) }
    {
        let (first, rest) = cut_at(b'\n', text)?;
        if let Some(line) = first.strip_prefix(b"line ") {
            let (reply, rest) = read_reply(rest)?;
            Some((LentItem::Line { line, reply }, rest))
        } else if first == b"long".as_slice() {
            let (reply, rest) = read_reply(rest)?;
            Some((LentItem::Long { reply }, rest))
        } else {
            let (cpu, place) = read_place(first.strip_prefix(b"fired ")?)?;
            Some((LentItem::Fired { cpu, place }, rest))
        }
    }

    /// Whether the item has a reply.
    pub(crate) fn has_reply(&self) -> bool
        ensures { result ≡ has_reply (form_of_lent self.now) }
    {
        !matches!(self, LentItem::Fired { .. })
    }
}

/// The reply that a text begins with, and what stands after its line. `None`: its first line is no reply.
fn read_reply(text: &[u8]) -> Option<(&[u8], &[u8])>
    ensures found { IfSome result (λ parts. HasNoNewline parts.0.now
        × (text.now ≡ reply_line parts.0.now ++ parts.1.now)) }
    ensures none { IfNone result ((reply rest : List ℕ)
        → HasNoNewline reply → text.now ≡ reply_line reply ++ rest → ⊥) }
{
    let (first, rest) = cut_at(b'\n', text)?;
    Some((first.strip_prefix(b"reply ")?, rest))
}

/// The processor and the place that a text is, one blank apart. `None`: it is no such two numbers.
fn read_place(text: &[u8]) -> Option<(u32, u32)>
    ensures found { IfSome result (λ found. (found.0 < 2 ^ 32) × (found.1 < 2 ^ 32)
        × (text.now ≡ decimal found.0 ++ (codes " " ++ decimal found.1))) }
    ensures none { IfNone result ((cpu place : ℕ) → cpu < 2 ^ 32 → place < 2 ^ 32
        → text.now ≡ decimal cpu ++ (codes " " ++ decimal place) → ⊥) }
{
    let (cpu, place) = cut_at(b' ', text)?;
    Some((number_of(cpu)?, number_of(place)?))
}
