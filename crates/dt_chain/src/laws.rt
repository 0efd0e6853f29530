//! What holds of the definitions alone: a look has one answer, and the last write of each seat is all that counts.
ghost use Rattle.std.specs.Prelude.{◌≡◌, ◌≢◌, ℕ, ◌∷◌, List, Option, Some, option_and_then};
ghost use Rattle.dt_machine.specs.Registry.{Registry};
ghost use Rattle.dt_cred.specs.declared.firing.Firing.{Firing};
ghost use Rattle.dt_chain.specs.IsAt.{EntriesAreAt};
ghost use Rattle.dt_chain.specs.Look.{IsLook};
ghost use Rattle.dt_chain.specs.Tests.{mask_of};
ghost use Rattle.dt_chain.specs.Writes.{Write, published_on, seat_of, published_by, writes_of, last_write_of, SameLastWrites};
ghost use Rattle.dt_chain.specs.declared.entries.Entries.{Entries};

/// Two looks at one firing after the same writes name the same seats, each with the same life.
pub fn one_look()
    ensures { (registry : Registry) (writes : List Write) (firing : Firing) (some other : ℕ → Option ℕ)
        → IsLook registry writes firing some → IsLook registry writes firing other
        → (seat : ℕ) → some seat ≡ other seat }
{}

/// The last write of a seat is its newest, and what is published of the seat is what that write leaves: nothing after a
/// withdrawal, or where the seat never wrote.
pub fn last_write_tells()
    ensures newest { (write : Write) (writes : List Write)
        → last_write_of (write ∷ writes) (seat_of write) ≡ Some write }
    ensures published { (writes : List Write) (seat : ℕ)
        → published_on writes seat ≡ option_and_then published_by (last_write_of writes seat) }
{}

/// Writes of other seats don't matter: a seat has the last write, and the publication, that it has by its own writes alone.
pub fn own_writes_tell()
    ensures other { (write : Write) (writes : List Write) (seat : ℕ) → seat_of write ≢ seat
        → last_write_of (write ∷ writes) seat ≡ last_write_of writes seat }
    ensures last { (writes : List Write) (seat : ℕ)
        → last_write_of (writes_of writes seat) seat ≡ last_write_of writes seat }
    ensures published { (writes : List Write) (seat : ℕ)
        → published_on (writes_of writes seat) seat ≡ published_on writes seat }
{}

/// Two histories in which each seat has the same last write can't be told apart: `Entries` at the end of one are at the
/// end of the other, and a look after one is a look after the other.
pub fn last_writes_suffice()
    ensures entries { (writes others : List Write) (entries : Entries) → SameLastWrites writes others
        → EntriesAreAt writes entries → EntriesAreAt others entries }
    ensures looks { (registry : Registry) (writes others : List Write) (firing : Firing) (lives : ℕ → Option ℕ)
        → SameLastWrites writes others → IsLook registry writes firing lives → IsLook registry others firing lives }
{}

/// Two `Entries` that are at the end of one history are at the end of the same histories.
pub fn copies_agree()
    ensures { (writes others : List Write) (some other : Entries)
        → EntriesAreAt writes some → EntriesAreAt writes other → EntriesAreAt others some → EntriesAreAt others other }
{}

/// The function by which what a look names is computed is the relation that it stands for.
pub fn tests_agree()
    ensures { (registry : Registry) (writes : List Write) (firing : Firing)
        → IsLook registry writes firing (mask_of registry writes firing) }
{}
