//! The text of a trail.
ghost use Rattle.std.specs.Prelude.{◌≡◌, ℕ, List, Err, IfOk};
ghost use Rattle.dt_proto.specs.Trail as trail;
ghost use Rattle.dt_proto.specs.Trail.{SpellsTrail};
ghost use Rattle.dt_alone.specs.Lent.{AreWrittenItems, forms_of_lent};

use crate::checking::CheckFault;
use crate::lent_item::LentItem;
use crate::parts::cut_at;
use std::alloc::Global;

/// A trail, lent by its text.
#[derive(Drop)]
pub(crate) struct TrailText<'a> {
    /// The name of the session's account.
    pub(crate) name: &'a [u8],
    /// Its items, the oldest first.
    pub(crate) items: Vec<LentItem<'a>>,
}

impl<'a> TrailText<'a> {
    /// The trail that a text is. [`CheckFault::Text`]: it is none. [`CheckFault::Memory`]: there was no memory for the
    /// items.
    pub(crate) fn read(alloc: Global, text: &'a [u8]) -> Result<Self, CheckFault>
        ensures ok { IfOk result (λ trail. SpellsTrail text.now trail.name.now (forms_of_lent trail.items.items)) }
        ensures refused { result ≡ Err CheckFault.Text
            → (name : List ℕ) (items : List trail.WrittenItem) → SpellsTrail text.now name items → ⊥ }
    {
        let (first, rest) = cut_at(b'\n', text).ok_or(CheckFault::Text)?;
        let name = first.strip_prefix(b"account ").ok_or(CheckFault::Text)?;
        let items = read_items(alloc, rest)?;
        Ok(TrailText { name, items })
    }
}

/// The items that a text is, one after the other.
fn read_items(alloc: Global, text: &[u8]) -> Result<Vec<LentItem<'_>>, CheckFault>
    ensures ok { IfOk result (λ items. AreWrittenItems text.now (forms_of_lent items.items)) }
    ensures refused { result ≡ Err CheckFault.Text
        → (items : List trail.WrittenItem) → AreWrittenItems text.now items → ⊥ }
{
    let mut items = Vec::new(alloc);
    let mut rest = text;
    while !rest.is_empty() {
        let (item, more) = LentItem::read(rest).ok_or(CheckFault::Text)?;
        items.push(item).map_err(|_| CheckFault::Memory)?;
        rest = more;
    }
    Ok(items)
}
