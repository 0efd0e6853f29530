//! Shares with one place for the parts of a key, with two, and with as many as a key may have parts.
ghost use Rattle.std.specs.Prelude.{◌≡◌, length};
ghost use Rattle.dt_aggstore.specs.declared.limits.TheConstants.{KEYS_MAX};

use crate::key::Key;
use crate::limits::KEYS_MAX;
use crate::part_share::PartShare;
use crate::places::put_parts;
use crate::recent_texts::RecentTexts;
use crate::share::{KeyShare, NewShare};
use crate::share_cell::ShareCell;

/// A share of 40 bytes, of a key with one part at most.
#[derive(Drop)]
pub(crate) struct NarrowShare<'a> {
    parts: [PartShare<'a>; 1],
    cell: ShareCell<'a>,
    ghost places: { length parts ≡ 1 },
}

/// A share of 56 bytes, of a key with two parts at most.
#[derive(Drop)]
pub(crate) struct DoubleShare<'a> {
    parts: [PartShare<'a>; 2],
    cell: ShareCell<'a>,
    ghost places: { length parts ≡ 2 },
}

/// A share of 88 bytes, of any key.
#[derive(Drop)]
pub(crate) struct WideShare<'a> {
    parts: [PartShare<'a>; KEYS_MAX],
    cell: ShareCell<'a>,
    ghost places: { length parts ≡ KEYS_MAX },
}

impl<'a> KeyShare for NarrowShare<'a> {
    ghost use Rattle.dt_aggstore.specs.Shares.{share_told};

    ghost places = { 1 };

    ghost told = { λ share. share_told share.parts share.cell };

    #[inline(always)]
    fn places() -> usize
        ensures { result ≡ 1 }
    {
        1
    }

    #[inline(always)]
    fn parts(&self) -> &[PartShare<'_>] {
        &self.parts
    }

    fn cell(&self) -> &[u64] {
        self.cell.words()
    }
}

impl<'a> NewShare<'a> for NarrowShare<'a> {
    #[inline(always)]
    fn of(key: &'a Key, cell: &'a [u64], texts: &mut RecentTexts<'a>) -> Self {
        let mut parts = [PartShare::Nothing; 1];
        put_parts(&mut parts, key, texts);
        NarrowShare {
            parts,
            cell: ShareCell::of(cell),
        }
    }
}

impl<'a> KeyShare for DoubleShare<'a> {
    ghost use Rattle.dt_aggstore.specs.Shares.{share_told};

    ghost places = { 2 };

    ghost told = { λ share. share_told share.parts share.cell };

    #[inline(always)]
    fn places() -> usize
        ensures { result ≡ 2 }
    {
        2
    }

    #[inline(always)]
    fn parts(&self) -> &[PartShare<'_>] {
        &self.parts
    }

    fn cell(&self) -> &[u64] {
        self.cell.words()
    }
}

impl<'a> NewShare<'a> for DoubleShare<'a> {
    #[inline(always)]
    fn of(key: &'a Key, cell: &'a [u64], texts: &mut RecentTexts<'a>) -> Self {
        let mut parts = [PartShare::Nothing; 2];
        put_parts(&mut parts, key, texts);
        DoubleShare {
            parts,
            cell: ShareCell::of(cell),
        }
    }
}

impl<'a> KeyShare for WideShare<'a> {
    ghost use Rattle.dt_aggstore.specs.Shares.{share_told};

    ghost places = { KEYS_MAX };

    ghost told = { λ share. share_told share.parts share.cell };

    #[inline(always)]
    fn places() -> usize
        ensures { result ≡ KEYS_MAX }
    {
        KEYS_MAX
    }

    #[inline(always)]
    fn parts(&self) -> &[PartShare<'_>] {
        &self.parts
    }

    fn cell(&self) -> &[u64] {
        self.cell.words()
    }
}

impl<'a> NewShare<'a> for WideShare<'a> {
    #[inline(always)]
    fn of(key: &'a Key, cell: &'a [u64], texts: &mut RecentTexts<'a>) -> Self {
        let mut parts = [PartShare::Nothing; KEYS_MAX];
        put_parts(&mut parts, key, texts);
        WideShare {
            parts,
            cell: ShareCell::of(cell),
        }
    }
}
