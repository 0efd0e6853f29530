//! Items as they are made and lent.
use crate::asserts::same;
use dt_trail::{Item, ItemKind};
use std::test::*;

#[test]
fn items_are_what_they_were_made_of(rt: HostRuntime) -> Result<(), Fail> {
    let line = Item::line(b"{\"cmd\":\"go\"}".to_vec(rt.alloc())?);
    same(
        &rt,
        "a line",
        line.kind(),
        ItemKind::Line(b"{\"cmd\":\"go\"}"),
    );
    same(
        &rt,
        "a long line",
        Item::long_line().kind(),
        ItemKind::LongLine,
    );
    same(
        &rt,
        "a firing",
        Item::fired(63, 4_294_967_295).kind(),
        ItemKind::Fired {
            cpu: 63,
            place: 4_294_967_295,
        },
    );
    Ok(())
}
