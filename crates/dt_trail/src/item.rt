//! What a cell stands for.
ghost use Rattle.std.specs.Prelude.{◌≡◌, ◌<◌};
ghost use Rattle.dt_trail.specs.Limits.{trail_cpus_max};

use std::marker::Model;

/// An item of a trail: a line of its session, or a firing by its processor and its place in that processor's script.
///
/// Contracts see it as a `TrailItem` of `specs/Items.antt`.
#[derive(Drop)]
pub struct Item {
    stored: StoredItem,
}

#[derive(Drop)]
enum StoredItem {
    Line(Vec<u8>),
    LongLine,
    Fired { cpu: u32, place: u32 },
}

impl Model for Item {
    ghost use Rattle.dt_trail.specs.Items.{TrailItem};

    ghost Value = { TrailItem };

    ghost use Rattle.dt_trail.specs.Items.{IsReal};
    ghost use Rattle.dt_trail.specs.Kinds.{item_of};

    ghost view = { λ item. item_of item.stored };

    ghost invariant = { λ item. IsReal (item_of item.stored) };
}

/// What an item is, lent by it.
#[derive(Clone, Copy, Debug, PartialEq, Eq)]
pub enum ItemKind<'a> {
    /// A line of the session, with its bytes.
    Line(&'a [u8]),
    /// A line of the session that was too long: its bytes weren't kept.
    LongLine,
    /// A firing, by its processor and its place in that processor's script, both from 0 on.
    Fired { cpu: u32, place: u32 },
}

impl Item {
    ghost use Rattle.dt_trail.specs.Items.{line, long_line, fired, code, IsReal};
    ghost use Rattle.dt_trail.specs.Kinds.{item_lent};

    /// A line of the session.
    pub fn line(bytes: Vec<u8>) -> Item
        ensures { result ≡ line bytes.items }
    {
        Item {
            stored: StoredItem::Line(bytes),
        }
    }

    /// A line of the session that was too long.
    pub fn long_line() -> Item
        ensures { result ≡ long_line }
    {
        Item {
            stored: StoredItem::LongLine,
        }
    }

    /// A firing, by its processor and its place in that processor's script.
    pub fn fired(cpu: u32, place: u32) -> Item
        requires { cpu < trail_cpus_max }
        ensures { result ≡ fired cpu place }
    {
        Item {
            stored: StoredItem::Fired { cpu, place },
        }
    }

    /// What it is.
    pub fn kind(&self) -> ItemKind<'_>
        ensures { item_lent result ≡ self.now }
    {
        match &self.stored {
            StoredItem::Line(bytes) => ItemKind::Line(bytes),
            StoredItem::LongLine => ItemKind::LongLine,
            StoredItem::Fired { cpu, place } => ItemKind::Fired {
                cpu: *cpu,
                place: *place,
            },
        }
    }

    /// The word of a cell that stands for it.
    pub(crate) fn code(&self) -> u64
        ensures word { result ≡ code self.now }
        ensures real { IsReal self.now }
    {
        match &self.stored {
            StoredItem::Line(_) | StoredItem::LongLine => 1,
            StoredItem::Fired { cpu, place } => 2
                + u64::from(*cpu) * 0x1_0000_0000
                + u64::from(*place),
        }
    }
}
