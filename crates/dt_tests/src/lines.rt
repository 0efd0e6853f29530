//! Inputs with their lines, cut at each place, lines about the limit, and long inputs.
use dt_proto::{Asked, Lines, asked_in, read_line};
use std::alloc::Global;
use std::process::Abort;
use std::test::Fail;

/// Inputs, in which `/` stands for a newline, with the lines that they have, each in brackets.
const TABLE: &[(&str, &str)] = &[
    ("", ""),
    ("a", ""),
    ("/", "[]"),
    ("a/", "[a]"),
    ("a/b", "[a]"),
    ("//", "[][]"),
    ("ab/c/", "[ab][c]"),
    ("/a//b c/d", "[][a][][b c]"),
];

#[test]
fn lines_do_not_depend_on_the_cutting(rt: HostRuntime) -> Result<(), Fail> {
    let alloc = rt.alloc();
    for (input, lines) in TABLE {
        has_lines_however_cut(&rt, alloc, &bytes_of(alloc, input)?, lines)?;
    }
    Ok(())
}

/// The bytes of an input.
fn bytes_of(alloc: Global, input: &str) -> Result<Vec<u8>, Fail> {
    let mut bytes = Vec::new(alloc);
    for byte in input.as_bytes() {
        bytes.push(if *byte == b'/' { b'\n' } else { *byte })?;
    }
    Ok(bytes)
}

/// Cuts an input at each two places, and compares its lines.
fn has_lines_however_cut(
    rt: &impl Abort,
    alloc: Global,
    text: &[u8],
    lines: &str,
) -> Result<(), Fail> {
    for cut in 0..text.len() + 1 {
        for second in cut..text.len() + 1 {
            let pieces = [&text[..cut], &text[cut..second], &text[second..]];
            has_lines(rt, alloc, &pieces, lines)?;
        }
    }
    Ok(())
}

/// Compares the lines of an input in pieces.
fn has_lines(rt: &impl Abort, alloc: Global, pieces: &[&[u8]], lines: &str) -> Result<(), Fail> {
    let shown = shown(alloc, pieces)?;
    assert!(rt;
        shown.as_slice() == lines.as_bytes(),
        "{lines} in {pieces:?}"
    );
    Ok(())
}

/// The lines of an input in pieces.
fn lines_in(alloc: Global, pieces: &[&[u8]]) -> Result<Vec<Asked>, Fail> {
    Ok(asked_in(alloc, pieces)?)
}

/// Each line in these pieces in brackets, where a long one is `!`.
fn shown(alloc: Global, pieces: &[&[u8]]) -> Result<Vec<u8>, Fail> {
    let mut text = Vec::new(alloc);
    for line in &lines_in(alloc, pieces)? {
        text.push(b'[')?;
        match line {
            Asked::Line(bytes) => text.extend_from_slice(bytes)?,
            Asked::Long => text.push(b'!')?,
        }
        text.push(b']')?;
    }
    Ok(text)
}

/// What the lines in these pieces ask, or their refusals, each with a blank after it.
fn told(alloc: Global, pieces: &[&[u8]]) -> Result<String, Fail> {
    let mut text = String::new(alloc);
    for asked in &lines_in(alloc, pieces)? {
        text.push_str(command_of(alloc, asked)?.as_str())?;
        text.push_str(" ")?;
    }
    Ok(text)
}

/// What a line asks, or its refusal.
fn command_of(alloc: Global, asked: &Asked) -> Result<String, Fail> {
    Ok(match read_line(alloc, asked.lent())? {
        Ok(command) => format!(in alloc; "{command:?}")?,
        Err(refusal) => format!(in alloc; "{refusal:?}")?,
    })
}

#[test]
fn lines_ask_the_same_however_they_are_cut(rt: HostRuntime) -> Result<(), Fail> {
    let alloc = rt.alloc();
    let input: &[u8] = b"{\"cmd\":\"status\"}\n\n{\"cmd\":\"go\"}";
    for cut in 0..input.len() + 1 {
        asks(&rt, alloc, input, cut, "Status Json ")?;
    }
    Ok(())
}

/// Compares what an input asks that is cut in two at this place.
fn asks(
    rt: &impl Abort,
    alloc: Global,
    input: &[u8],
    cut: usize,
    wanted: &str,
) -> Result<(), Fail> {
    let (first, second) = input.split_at_checked(cut).ok_or("no cut")?;
    let text = told(alloc, &[first, second])?;
    assert_eq!(rt;
        text.as_str(),
        wanted,
        "{} bytes, cut at {cut}",
        input.len()
    );
    Ok(())
}

#[test]
fn status_with_blanks_is_read_up_to_the_limit(rt: HostRuntime) -> Result<(), Fail> {
    let alloc = rt.alloc();
    for (length, wanted) in [(65_536, "Status "), (65_537, "LineLong ")] {
        let line = status_line(alloc, length)?;
        // cut in the words, after them, on both sides of the limit, and after the newline
        for cut in [0, 1, 9, 16, 17, 65_535, 65_536, length, line.len()] {
            asks(&rt, alloc, &line, cut, wanted)?;
        }
    }
    Ok(())
}

/// `status` with blanks up to a length, and its newline.
fn status_line(alloc: Global, length: usize) -> Result<Vec<u8>, Fail> {
    let mut line = Vec::from_slice(alloc, b"{\"cmd\":\"status\"}")?;
    line.resize(length, b' ')?;
    line.push(b'\n')?;
    Ok(line)
}

/// Feeds a piece, and gives how many of its bytes were used, and the line that is whole then.
fn fed(alloc: Global, lines: &mut Lines, piece: &[u8]) -> Result<(usize, Option<Asked>), Fail> {
    let fed = lines.feed(piece);
    if !fed.whole {
        return Ok((fed.used, None));
    }
    Ok((fed.used, Some(lines.line().to_asked(alloc)?)))
}

/// Feeds a piece, and compares how many of its bytes were used and the line that is whole then; `when` tells where in
/// the input that is.
fn feeds(
    rt: &impl Abort,
    alloc: Global,
    lines: &mut Lines,
    piece: &[u8],
    wanted: &(usize, Option<Asked>),
    (when, number): (&str, usize),
) -> Result<(), Fail> {
    let found = fed(alloc, lines, piece)?;
    assert!(rt; found == *wanted, "{} bytes {when} {number}", piece.len());
    Ok(())
}

#[test]
fn lines_are_long_from_65537_bytes_on(rt: HostRuntime) -> Result<(), Fail> {
    let alloc = rt.alloc();
    for (length, long) in [
        (65_535, false),
        (65_536, false),
        (65_537, true),
        (131_074, true),
    ] {
        let bytes = vec![in alloc; b'x'; length]?;
        for cut in [0, 1, 65_535, length] {
            let (first, second) = bytes.split_at_checked(cut).ok_or("no cut")?;
            is_long(&rt, alloc, [first, second], long)?;
        }
    }
    Ok(())
}

/// Feeds a line in two pieces, then its newline and a short line.
fn is_long(rt: &impl Abort, alloc: Global, pieces: [&[u8]; 2], long: bool) -> Result<(), Fail> {
    let [first, second] = pieces;
    let cut = first.len();
    let mut lines = Lines::new(alloc)?;
    for piece in pieces {
        let when = ("of a line cut at", cut);
        feeds(rt, alloc, &mut lines, piece, &(piece.len(), None), when)?;
    }
    let wanted = if long {
        Asked::Long
    } else {
        Asked::Line([first, second].concat(alloc)?)
    };
    ends(rt, alloc, &mut lines, wanted, cut)
}

/// Feeds the newline of a line, which is this one, and more bytes: it is whole then, and only the newline was used of them. Then it feeds a short line, its
/// newline and more bytes.
fn ends(
    rt: &impl Abort,
    alloc: Global,
    lines: &mut Lines,
    wanted: Asked,
    cut: usize,
) -> Result<(), Fail> {
    let whole = (1, Some(wanted));
    feeds(
        rt,
        alloc,
        lines,
        b"\ny\nz",
        &whole,
        ("at the end of a line cut at", cut),
    )?;
    let short = (2, Some(Asked::Line(b"y".to_vec(alloc)?)));
    feeds(
        rt,
        alloc,
        lines,
        b"y\nz",
        &short,
        ("after a line cut at", cut),
    )
}

/// Inputs of 1,310,770 bytes or more, ten times the longest above: the bytes of each line, and how many lines there are.
const LONG_INPUTS: &[(usize, usize)] = &[(9, 131_077), (65_536, 21), (1_310_769, 1)];

/// An input of so many lines of this length, and what each of them is.
fn long_input(alloc: Global, length: usize, count: usize) -> Result<(Vec<u8>, Asked), Fail> {
    let mut line = vec![in alloc; b'x'; length]?;
    let asked = if length > 65_536 {
        Asked::Long
    } else {
        Asked::Line(line.to_vec(alloc)?)
    };
    line.push(b'\n')?;
    Ok((line.repeat(alloc, count)?, asked))
}

#[test]
fn long_inputs_have_all_their_lines(rt: HostRuntime) -> Result<(), Fail> {
    let alloc = rt.alloc();
    for (length, count) in LONG_INPUTS {
        let (input, wanted) = long_input(alloc, *length, *count)?;
        are_all(&rt, &lines_in(alloc, &[&input])?, *count, &wanted);
    }
    Ok(())
}

/// Ends the test where lines aren't so many as this, or one is another.
fn are_all(rt: &impl Abort, found: &[Asked], count: usize, wanted: &Asked) {
    assert!(rt;
        found.len() == count,
        "{count} lines, and not {}",
        found.len()
    );
    assert!(rt;
        found.iter().all(|line| *line == *wanted),
        "another of {count} lines"
    );
}

#[test]
fn long_inputs_are_fed_as_one_piece(rt: HostRuntime) -> Result<(), Fail> {
    let alloc = rt.alloc();
    for (length, count) in LONG_INPUTS {
        is_fed_as_one_piece(&rt, alloc, *length, *count)?;
    }
    Ok(())
}

/// Feeds so many lines of a length in one piece.
fn is_fed_as_one_piece(
    rt: &impl Abort,
    alloc: Global,
    length: usize,
    count: usize,
) -> Result<(), Fail> {
    let (input, asked) = long_input(alloc, length, count)?;
    let wanted = (length.saturating_add(1), Some(asked));
    let mut lines = Lines::new(alloc)?;
    feeds_all(rt, alloc, &mut lines, &input, &wanted, count)
}

/// Feeds an input of so many lines in one piece: each time its first line is used, and nothing is left at last.
fn feeds_all(
    rt: &impl Abort,
    alloc: Global,
    lines: &mut Lines,
    input: &[u8],
    wanted: &(usize, Option<Asked>),
    count: usize,
) -> Result<(), Fail> {
    let mut rest = input;
    for place in 0..count {
        feeds(rt, alloc, lines, rest, wanted, ("from line", place))?;
        rest = rest.get(wanted.0..).ok_or("too few bytes")?;
    }
    assert!(rt; rest.is_empty(), "{count} lines of {} bytes", wanted.0);
    Ok(())
}

#[test]
fn a_long_input_is_fed_byte_by_byte(rt: HostRuntime) -> Result<(), Fail> {
    let alloc = rt.alloc();
    let (input, wanted) = long_input(alloc, 65_536, 21)?;
    let mut lines = Lines::new(alloc)?;
    let mut whole = 0usize;
    for byte in &input {
        if is_whole_after(&rt, alloc, &mut lines, *byte, &wanted, whole)? {
            whole = whole.saturating_add(1);
        }
    }
    assert_eq!(rt; whole, 21);
    Ok(())
}

/// Feeds a byte after so many lines, and tells whether a line is whole then, which is this one.
fn is_whole_after(
    rt: &impl Abort,
    alloc: Global,
    lines: &mut Lines,
    byte: u8,
    wanted: &Asked,
    before: usize,
) -> Result<bool, Fail> {
    let (used, line) = fed(alloc, lines, &[byte])?;
    assert!(rt; used == 1, "after {before} lines a byte isn't used");
    let Some(line) = line else {
        return Ok(false);
    };
    assert!(rt; line == *wanted, "after {before} lines another line");
    Ok(true)
}
