//! The lines that a session kept.
ghost use Rattle.std.specs.Prelude.{◌≡◌, ◌≢◌, ◌≤◌, ℕ, IfSome, IsSomeAnd, MatchOption, Some, length, slice_get};
ghost use Rattle.dt_seat.specs.Places.{IsKnownAt};
ghost use Rattle.dt_trail.specs.Items.{own};
ghost use Rattle.dt_trail.specs.Kinds.{item_lent};

use crate::known_item::KnownItem;
use crate::line_kept::LineKept;
use crate::session::Session;
use crate::site::HubSite;
use dt_trail::{ItemKind, Seen};

/// The number of the line that stands at a place of the trail, if one does.
fn number_of(lines: &Vec<LineKept>, place: u64) -> Option<usize>
    ensures { MatchOption result ((n : ℕ) → IfSome (slice_get lines.now.items n) (λ line. line.place ≢ place))
        (λ n. IsSomeAnd (slice_get lines.now.items n) (λ line. line.place ≡ place)) }
{
    'lines: for number in 0..lines.len() {
        if lines[number].place == place {
            return Some(number);
        }
    }
    None
}

impl<J: HubSite> Session<J> {
    /// What it knows at a place of its trail, from 0 on, or `None` where it knows fewer items. It takes no lock and no memory, and waits for
    /// nobody.
    pub fn known(&mut self, k: u64) -> Option<KnownItem>
        ensures item { MatchOption result (length self.old.knows ≤ k) (IsKnownAt self.old.knows k) }
        ensures same { self.new ≡ self.old }
    {
        let notebook = &mut self.notebook;
        if notebook.note.count() <= k {
            return None;
        }
        match notebook.note.item(k) {
            Seen::Fired { cpu, place } => Some(KnownItem::Fired { cpu, place }),
            Seen::Line => match number_of(&notebook.lines, k) {
                Some(number) => Some(KnownItem::Line(number)),
                None => unreachable!(),
            },
        }
    }

    /// A line of its own, by its number among these, from 0 on, or `None` where there are fewer. It waits for nobody.
    pub fn line(&self, number: usize) -> Option<ItemKind<'_>>
        ensures { MatchOption result (length (own 0 self.now.knows) ≤ number)
            (λ kind. slice_get (own 0 self.now.knows) number ≡ Some (item_lent kind)) }
    {
        if number >= self.notebook.lines.len() {
            return None;
        }
        Some(self.notebook.lines[number].item.kind())
    }
}
