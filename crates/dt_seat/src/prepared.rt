//! What is made for a line before anything is changed.

use dt_consumer::Draft;
use dt_trail::Item;

/// What a line will be answered and will change: all memory for it is taken, and nothing is changed yet.
#[derive(Drop)]
pub(crate) struct Prepared {
    pub(crate) draft: Draft,
    pub(crate) item: Item,
    pub(crate) text: Vec<u8>,
}
