//! The word that names a seat.
ghost use Rattle.std.specs.Prelude.{ℕ, IfSome, IfNone};
ghost use Rattle.dtraced.specs.Seat.{SpellsSeat};

use dt_chain::Seat;
use dt_proto::number_of;

/// Reads the number of a seat: decimal, without a sign or a leading zero, and below 256. Any other text gives `None`.
pub fn seat_of(text: &str) -> Option<Seat>
    ensures found { IfSome result (λ seat. SpellsSeat text.now seat) }
    ensures none { IfNone result ((number : ℕ) → SpellsSeat text.now number → ⊥) }
{
    Seat::new(number_of(text.as_bytes())?)
}
