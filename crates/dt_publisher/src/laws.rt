//! What holds of the definitions alone.
ghost use Rattle.std.specs.Prelude.{◌≡◌, ◌≢◌, ℕ, List, [], ◌∷◌, ◌++◌};
ghost use mathlib.Core.List.{IsPrefix};
ghost use Rattle.dt_chain.specs.Writes.{Write, seat_of, writes_of};

/// Law: a seat's own writes go on by a write of the seat, and stay as they are by one of another seat. Those among a beginning of all writes begin
/// those among all.
pub fn own_writes_go_on()
    ensures own { (write : Write) (writes : List Write)
        → writes_of (writes ++ write ∷ []) (seat_of write) ≡ writes_of writes (seat_of write) ++ write ∷ [] }
    ensures other { (write : Write) (writes : List Write) (seat : ℕ) → seat_of write ≢ seat
        → writes_of (writes ++ write ∷ []) seat ≡ writes_of writes seat }
    ensures begins { (some all : List Write) (seat : ℕ) → IsPrefix some all
        → IsPrefix (writes_of some seat) (writes_of all seat) }
{}
