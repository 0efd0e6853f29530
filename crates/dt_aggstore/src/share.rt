//! What single stores have of an aggregation's keys, before it is joined.
ghost use Rattle.std.specs.Prelude.{◌≡◌, ◌≤◌, ℕ, ℤ, List, All, map, length};
ghost use Rattle.std.specs.List.Sorted.{IsSortedByKey};
ghost use Rattle.dt_aggfn.specs.declared.function.AggFn.{AggFn};
ghost use Rattle.dt_aggstore.specs.Joining.{cell_shared, shared_key, AreShares, AreSharesInSomeOrder};
ghost use Rattle.dt_aggstore.specs.Keys.{key_cmp};
ghost use Rattle.dt_aggstore.specs.Shares.{ShareForm, parts_told};
ghost use Rattle.dt_aggstore.specs.declared.key.KeyPart.{KeyPart as Part};
ghost use Rattle.dt_aggstore.specs.declared.limits.TheConstants.{KEYS_MAX};

use crate::key::Key;
use crate::part_share::PartShare;
use crate::places::order;
use crate::recent_texts::RecentTexts;

/// A key with the cell that one store has of it. It holds the parts side by side, texts by reference, so that who sorts shares and
/// makes rows of them needn't look at the keys, which lie far apart, but for their texts. Since a sort moves shares, there are
/// kinds of them with few places for parts and with many.
pub(crate) trait KeyShare: Drop {
    /// How many parts a key may have.
    ghost places: { ℕ };

    /// What it holds.
    ghost told: { Self → ShareForm };

    /// How many parts a key may have.
    fn places() -> usize
        ensures { result ≡ places };

    /// The places of its key's parts.
    fn parts(&self) -> &[PartShare<'_>]
        ensures key { parts_told result.now ≡ (told self.now).key }
        ensures long { length result.now ≡ places }
        ensures few { length result.now ≤ KEYS_MAX };

    /// The words of its cell.
    fn cell(&self) -> &[u64]
        ensures { result.now ≡ (told self.now).cell };
}

/// A share that is made of a key and a cell that outlive it.
pub(crate) trait NewShare<'a>: KeyShare {
    /// The share of a key with this cell.
    fn of(key: &'a Key, cell: &'a [u64], texts: &mut RecentTexts<'a>) -> Self
        requires { length key.now.parts.items ≤ Self.places }
        ensures key { (Self.told result).key ≡ key.now.parts.items }
        ensures cell { (Self.told result).cell ≡ cell.now };
}

/// Puts shares in order of key. In which order those of one key come isn't said: what their bags make together doesn't
/// depend on it.
pub(crate) fn sort<S: KeyShare>(shares: &mut Vec<S>)
    ensures sorted { IsSortedByKey shared_key key_cmp (map S.told shares.new.items) }
    ensures bags { (function : AggFn) (bags : List Part → List ℤ) → AreShares function bags (map S.told shares.old.items)
        → AreSharesInSomeOrder function bags (map S.told shares.new.items) }
    ensures words { (words : ℕ) → All (λ share. length (cell_shared share) ≡ words) (map S.told shares.old.items)
        → All (λ share. length (cell_shared share) ≡ words) (map S.told shares.new.items) }
{
    shares.sort_unstable_by(|one, other| order(one.parts(), other.parts()));
}
