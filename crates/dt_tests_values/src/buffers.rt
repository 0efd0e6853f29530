//! The policies, as a table of puts with what the buffer then shows.
use crate::asserts::{same, word_holds};
use dt_buffer::{DROPS_LIMIT, Policy, Principal, Put, SIZE_MAX};
use std::alloc::Global;
use std::process::Abort;
use std::str::SplitWhitespace;
use std::test::Fail;

/// In each line: policy, size and reserve; then words in order. A number puts a record of so many bytes, with an `e` in
/// front one of END; after it stands what `put` answers: `k` kept, `d` dropped, `f` filled. `s` is a swap. `=` stands
/// before what is then shown: the places of the kept records among the puts, from 1, then the drops, and `filled` or
/// `open`. The i-th put's bytes are all i.
const TABLE: &str = "
switch 28 0 12k 12k 12d 4k = 1,2,4 1 open
fill 28 0 12k 12k 12f 4f = 1,2 0 filled
ring 28 0 12k 12k 12k 4k = 2,3,4 0 open
switch 10 0 12d = - 1 open
fill 10 0 12f = - 0 filled
ring 10 0 12d = - 1 open
switch 1 0 1k 1d 0k = 1 1 open
fill 1 0 1k 0k 1f 0f = 1 0 filled
ring 1 0 1k 1k 0k 1k = 4 0 open
switch 0 0 0k 1d = - 1 open
ring 0 0 0k 1d 0k = - 1 open
switch 4 0 4k 1d s 2k = 3 0 open
switch 4 0 5d s = - 0 open
fill 4 0 2k s 2k s 1f = 1,2 0 filled
ring 4 0 2k s 5d s 2k s 1k = 3,4 1 open
fill 10 4 6k 1f 0f e4k e1f = 1,4 0 filled
fill 10 4 7f e7k e3k e0k e1f = 2,3 0 filled
fill 10 10 1f e10k = 2 0 filled
fill 10 4 3k e7k e0k = 1,2 0 open
switch 10 4 10k e1d = 1 1 open
ring 10 4 10k e1k = 2 0 open
ring 4 0 3k 5d 2k = 3 1 open
ring 4 0 1k 1k 1k 1k 4k = 5 0 open
ring 4 0 3k 0k 3k 0k 1k 0k 3k = 5,7 0 open
ring 5 0 3k 3k 3k 2k 3k 2k 1k 4k = 7,8 0 open
ring 3 0 1k 1k 1k 1k 1k 1k 1k = 5,6,7 0 open
ring 3 0 2k 2k 2k 2k 1k = 4,5 0 open
";

#[test]
fn policies_show_what_the_table_says(rt: HostRuntime) -> Result<(), Fail> {
    for line in TABLE.lines() {
        if let Some((asked, wanted)) = line.split_once(" = ") {
            shows(&rt, rt.alloc(), asked, wanted)?;
        }
    }
    Ok(())
}

/// Makes the line's buffer, does what its words say and compares what is shown.
fn shows(rt: &impl Abort, alloc: Global, asked: &str, wanted: &str) -> Result<(), Fail> {
    let (places, end) = wanted.split_once(' ').ok_or("no end")?;
    let (buffer, lengths) = played(rt, alloc, asked)?;
    let kept = kept(alloc, &lengths, places)?;
    is_left(rt, alloc, &buffer, asked, (&kept, end))
}

/// Compares a buffer's content, what it lends if it is a ring, and what it tells at the end.
fn is_left(
    rt: &impl Abort,
    alloc: Global,
    buffer: &Principal,
    asked: &str,
    (kept, end): (&(Vec<u8>, Vec<u32>), &str),
) -> Result<(), Fail> {
    has(rt, alloc, buffer, asked, &kept.0)?;
    lends(rt, alloc, buffer, asked, kept)?;
    same(rt, told(alloc, buffer)?.as_str(), end, asked);
    Ok(())
}

/// The line's buffer after what its words say, and how long each put's record was.
fn played(rt: &impl Abort, alloc: Global, asked: &str) -> Result<(Principal, Vec<usize>), Fail> {
    let mut words = asked.split_whitespace();
    let mut buffer = buffer_of(alloc, &mut words)?;
    let mut lengths = Vec::new(alloc);
    for word in words {
        plays(rt, &mut buffer, &mut lengths, asked, word)?;
    }
    Ok((buffer, lengths))
}

/// Does what a word says, and compares what that is answered.
fn plays(
    rt: &impl Abort,
    buffer: &mut Principal,
    lengths: &mut Vec<usize>,
    asked: &str,
    word: &str,
) -> Result<(), Fail> {
    if word == "s" {
        swap(buffer);
        return Ok(());
    }
    lengths.push(digits(word))?;
    let found = put(buffer, lengths.len(), word).ok_or("no put")?;
    word_holds(rt, word.ends_with(found), word, asked);
    Ok(())
}

/// Compares a buffer's content.
fn has(
    rt: &impl Abort,
    alloc: Global,
    buffer: &Principal,
    asked: &str,
    bytes: &[u8],
) -> Result<(), Fail> {
    let is_so = content(alloc, buffer)?.as_slice() == bytes;
    word_holds(rt, is_so, "the content", asked);
    Ok(())
}

/// Compares what a ring lends. Another buffer lends nothing.
fn lends(
    rt: &impl Abort,
    alloc: Global,
    buffer: &Principal,
    asked: &str,
    kept: &(Vec<u8>, Vec<u32>),
) -> Result<(), Fail> {
    let is_ring = asked.starts_with("ring");
    let is_so = match lent(alloc, buffer)? {
        Some(found) => is_ring && found == *kept,
        None => !is_ring,
    };
    word_holds(rt, is_so, "what is lent", asked);
    Ok(())
}

/// The buffer of a policy, a size and a reserve.
fn buffer_of(alloc: Global, words: &mut SplitWhitespace) -> Result<Principal, Fail> {
    let policy = match words.next() {
        Some("switch") => Policy::Switch,
        Some("fill") => Policy::Fill,
        _ => Policy::Ring,
    };
    let size = digits(words.next().unwrap_or("0"));
    let reserve = digits(words.next().unwrap_or("0"));
    if size > SIZE_MAX || reserve > size {
        return Err("no buffer".into());
    }
    Ok(Principal::new(alloc, policy, size, reserve)?)
}

/// The bytes of the record at a place among the puts, and more of them.
fn record(place: usize) -> Option<[u8; 16]> {
    Some([u8::try_from(place).ok()?; 16])
}

/// Puts what a word says at this place among the puts, and gives the letter of what is answered.
fn put(buffer: &mut Principal, place: usize, word: &str) -> Option<char> {
    let bytes = record(place)?;
    let bytes = bytes.get(..digits(word))?;
    if buffer.drops() >= DROPS_LIMIT {
        return None;
    }
    Some(match buffer.put(bytes, word.starts_with('e')) {
        Put::Kept => 'k',
        Put::Dropped => 'd',
        Put::Filled => 'f',
    })
}

fn swap(buffer: &mut Principal) {
    buffer.swap();
}

fn content(alloc: Global, buffer: &Principal) -> Result<Vec<u8>, Fail> {
    Ok(buffer.content(alloc)?)
}

/// The bytes and the lengths that a ring lends.
fn lent(alloc: Global, buffer: &Principal) -> Result<Option<(Vec<u8>, Vec<u32>)>, Fail> {
    let Some(rings) = buffer.ring() else {
        return Ok(None);
    };
    let bytes = rings.bytes.to_vec(alloc)?;
    let lengths = rings.lengths.to_vec(alloc)?;
    Ok(Some((bytes, lengths)))
}

/// The drops, and whether the buffer is filled.
fn told(alloc: Global, buffer: &Principal) -> Result<String, Fail> {
    let filled = if buffer.filled() { "filled" } else { "open" };
    Ok(format!(in alloc; "{} {filled}", buffer.drops())?)
}

/// The bytes and the lengths of the records at these places among the puts.
fn kept(alloc: Global, lengths: &[usize], places: &str) -> Result<(Vec<u8>, Vec<u32>), Fail> {
    let mut bytes = Vec::new(alloc);
    let mut kept = Vec::new(alloc);
    for place in places.split(',') {
        keeps(lengths, digits(place), &mut bytes, &mut kept)?;
    }
    Ok((bytes, kept))
}

/// Adds the bytes and the length of the record at a place among the puts, if there is one.
fn keeps(
    lengths: &[usize],
    place: usize,
    bytes: &mut Vec<u8>,
    kept: &mut Vec<u32>,
) -> Result<(), Fail> {
    if let Some(length) = lengths.get(place.wrapping_sub(1)) {
        let record = record(place).ok_or("no place")?;
        bytes.extend_from_slice(record.get(..*length).ok_or("too long")?)?;
        kept.push(u32::try_from(*length)?)?;
    }
    Ok(())
}

/// The number that the digits of a word write.
fn digits(word: &str) -> usize {
    let mut number: usize = 0;
    for byte in word.bytes() {
        if byte.is_ascii_digit() {
            number = number.wrapping_mul(10).wrapping_add((byte - b'0') as usize);
        }
    }
    number
}
