//! Cells of shares.
ghost use Rattle.std.specs.Prelude.{◌≡◌};
ghost use Rattle.dt_aggstore.specs.Shares.{words_held};

/// The cell that one store has of a key. One word is held by value: it is read where a store is gone over in order, and
/// not where rows are made in order of key, of which the cells lie far apart.
#[derive(Clone, Copy)]
pub(crate) enum ShareCell<'a> {
    Word([u64; 1]),
    Words(&'a [u64]),
}

impl<'a> ShareCell<'a> {
    pub(crate) fn of(cell: &'a [u64]) -> Self
        ensures { words_held result ≡ cell.now }
    {
        match cell {
            [word] => ShareCell::Word([*word]),
            _ => ShareCell::Words(cell),
        }
    }

    pub(crate) fn words(&self) -> &[u64]
        ensures { result.now ≡ words_held self.now }
    {
        match self {
            ShareCell::Word(word) => word,
            ShareCell::Words(words) => words,
        }
    }
}
