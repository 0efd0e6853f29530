//! What a cell shows.
ghost use Rattle.std.specs.Prelude.{◌≡◌, ◌<◌, ◌+◌, MatchOption};

/// What a cell shows of its item. The bytes of a line stay with its session.
#[derive(Clone, Copy, Debug, PartialEq, Eq)]
pub enum Seen {
    /// A line of the session.
    Line,
    /// A firing, by its processor and its place in that processor's script.
    Fired { cpu: u32, place: u32 },
}

impl Seen {
    ghost use Rattle.dt_trail.specs.Items.{TrailItem, code, IsReal};
    ghost use Rattle.dt_trail.specs.Kinds.{ShowsItem};

    /// What a word shows, or `None` where its cell is empty.
    pub(crate) fn of(word: u64) -> Option<Seen>
        ensures { MatchOption result (word ≡ 0) (λ seen. (0 < word) × ((item : TrailItem) → IsReal item → word ≡ code item → ShowsItem seen item)) }
    {
        match word {
            0 => None,
            1 => Some(Seen::Line),
            _ => Some(Seen::fired(word - 2)),
        }
    }

    fn fired(firing: u64) -> Seen
        ensures { (item : TrailItem) → IsReal item → firing + 2 ≡ code item → ShowsItem result item }
    {
        Seen::Fired {
            cpu: (firing >> 32) as u32,
            place: (firing % 0x1_0000_0000) as u32,
        }
    }
}
