//! Which rows there may be.

/// Which row it is, and whose: the account is what the row's law is about. Contracts speak of it; no value of it is made.
pub struct Named<K> {
    /// Which row: what is of one row has one number.
    pub id: (u64, u64),
    /// Whose row it is.
    pub account: K,
}

/// Which rows an account may have: a fact of each row as it grows.
pub trait Law<K> {
    ghost use Rattle.std.specs.Prelude.{List, ◌++◌};
    ghost use Rattle.dt_trail.specs.Items.{TrailItem};

    /// The account may have a row of these items.
    ghost lawful: { K → List TrailItem → Type 0 };

    /// A beginning of a lawful row is lawful.
    ghost closed: { (k : K) (xs ys : List TrailItem) → lawful k (xs ++ ys) → lawful k xs };
}
