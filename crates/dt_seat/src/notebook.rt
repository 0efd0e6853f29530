//! What a session wrote down.
ghost use Rattle.std.specs.Prelude.{◌≡◌, ◌⊎◌};
ghost use Rattle.dt_seat.specs.Publications.{writes_seen};
ghost use mathlib.Core.List.{IsPrefix};

use crate::line_kept::LineKept;
use crate::site::HubSite;
use crate::trailed::Note;
use dt_chain::{ChainReader, Front};

/// What a session wrote down: its note of the trail, its own lines, and the writes that it knows to be published since it published itself.
#[derive(Drop)]
pub(crate) struct Notebook<J: HubSite> {
    pub(crate) note: Note<J>,
    pub(crate) lines: Vec<LineKept>,
    pub(crate) front: Option<Front<J>>,
}

/// The same writes once more.
pub(crate) fn again<J: HubSite>(front: &Option<Front<J>>) -> Option<Front<J>>
    ensures { result ≡ front.now }
{
    match front {
        Some(front) => Some(front.again()),
        None => None,
    }
}

/// Who knew of some writes knows of these too.
pub(crate) fn take_down<J: HubSite>(front: &mut Option<Front<J>>, published: Option<Front<J>>)
    ensures before { IsPrefix (writes_seen front.old) (writes_seen front.new) }
    ensures now { IsPrefix (writes_seen published) (writes_seen front.new) }
    ensures one { (front.new ≡ front.old) ⊎ (front.new ≡ published) }
{
    let Some(later) = published else {
        return;
    };
    let longer = match front {
        Some(earlier) => earlier.longer(&later),
        None => later,
    };
    *front = Some(longer);
}

/// A processor's reader is told of the writes that were published as a session's `go` was accepted, once it was.
pub(crate) fn hear<J: HubSite>(reader: &mut ChainReader<J>, front: &Option<Front<J>>)
    ensures seen { reader.new.seen ≡ reader.old.seen }
    ensures kept { IsPrefix reader.old.told reader.new.told }
    ensures told { IsPrefix (writes_seen front.now) reader.new.told }
    ensures order { IsPrefix (writes_seen front.now) reader.old.seen ⊎ IsPrefix reader.old.seen (writes_seen front.now) }
{
    let Some(front) = front else {
        return;
    };
    // of two fronts one begins the other, which is what the proofs need: told of both, the reader knows of both
    let _earlier = front.begins(&reader.seen());
    reader.tell(front);
}
