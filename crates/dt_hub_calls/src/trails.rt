//! The text of a session's trail, for who judges it.
use crate::calls::SessionCalls;
use dt_hub::KnownItem;
use dt_trail::ItemKind;
use std::alloc::{AllocError, Global};

/// Adds a firing.
fn put_firing(alloc: Global, text: &mut Vec<u8>, cpu: u32, place: u32) -> Result<(), AllocError> {
    let line = format!(in alloc; "fired {cpu} {place}\n")?;
    text.extend_from_slice(line.as_bytes())
}

/// Adds a line of a session, by its number among these, with its reply.
fn put_line<S: SessionCalls>(
    text: &mut Vec<u8>,
    session: &S,
    number: usize,
    replies: &[Vec<u8>],
) -> Result<(), AllocError> {
    if let Some(ItemKind::Line(line)) = session.line(number) {
        text.extend_from_slice(b"line ")?;
        text.extend_from_slice(line)?;
    }
    text.extend_from_slice(b"\nreply ")?;
    if let Some(reply) = replies.get(number) {
        text.extend_from_slice(reply)?;
    }
    Ok(())
}

/// Adds an item, and says whether it is a firing.
fn put_item<S: SessionCalls>(
    alloc: Global,
    text: &mut Vec<u8>,
    session: &S,
    item: KnownItem,
    replies: &[Vec<u8>],
) -> Result<bool, AllocError> {
    match item {
        KnownItem::Fired { cpu, place } => {
            put_firing(alloc, text, cpu, place)?;
            Ok(true)
        }
        KnownItem::Line(number) => {
            put_line(text, session, number, replies)?;
            Ok(false)
        }
    }
}

/// The first line of a trail's text.
fn headed(alloc: Global, name: &str) -> Result<Vec<u8>, AllocError> {
    let line = format!(in alloc; "account {name}\n")?;
    Ok(line.into_bytes())
}

/// The items that a session knows, each line with its reply, as `check` reads them, and how many of them are firings.
pub fn trail_text<S: SessionCalls>(
    alloc: Global,
    session: &mut S,
    name: &str,
    replies: &[Vec<u8>],
) -> Result<(Vec<u8>, u64), AllocError> {
    let mut text = headed(alloc, name)?;
    let mut firings = 0u64;
    for k in 0..u64::MAX {
        let Some(item) = session.known(k) else {
            break;
        };
        if put_item(alloc, &mut text, session, item, replies)? {
            firings = firings.wrapping_add(1);
        }
    }
    Ok((text, firings))
}
