//! What `dtr` prints of long replies, texts and buffers.
use dt_aggfn::Bounds;
use dt_front::{
    KeyColumn, PictureRow, RowCount, ToldRefusal, counts_in, counts_total, key_in, layout_in,
    level_rows, power_rows, push_caret, push_key, push_number_line, push_picture, push_probe,
    push_rows, push_shown, push_title, rows_total, unknown_epid,
};
use dt_record::{Layout, split};
use serde_json::Value;
use std::alloc::Global;
use std::test::Fail;

/// The value of an array with so many parts, each between the same two texts and with its place.
fn array_of(alloc: Global, count: u64, before: &str, after: &str) -> Result<Value, Fail> {
    let mut text = String::from_str(alloc, "[")?;
    for i in 0..count {
        let comma = if i == 0 { "" } else { "," };
        text.push_str(format!(in alloc; "{comma}{before}{i}{after}")?.as_str())?;
    }
    text.push_str("]")?;
    Ok(Value::from_str(alloc, text.as_str())?)
}

#[test]
fn a_long_text_is_shown(rt: HostRuntime) -> Result<(), Fail> {
    let mut bytes = Vec::new(rt.alloc());
    for _ in 0..400 {
        for byte in 0..=255_u8 {
            bytes.push(byte)?;
        }
    }
    let mut out = Vec::new(rt.alloc());
    push_shown(&mut out, &bytes)?;
    // of each 256, a backslash takes two bytes, and the 161 that aren't plain four each
    assert_eq!(rt; out.len(), 400 * (94 + 2 + 161 * 4));
    for byte in &out {
        assert!(rt; *byte >= 32 && *byte <= 126);
    }
    Ok(())
}

#[test]
fn a_caret_in_a_long_text(rt: HostRuntime) -> Result<(), Fail> {
    let text = b"a".repeat(rt.alloc(), 100_000)?;
    let out = caret_in(rt.alloc(), &text, 99_996)?;
    // 4 + 99,996 columns fill 1,250 rows of 80, and a newline ends each
    assert_eq!(rt; out.len(), 4 + 100_000 + 1_250 + 3);
    assert!(rt; out.ends_with(b"a\naaaa\n^\n"));
    Ok(())
}

#[test]
fn a_caret_after_full_rows(rt: HostRuntime) -> Result<(), Fail> {
    let text = b"a".repeat(rt.alloc(), 99_996)?;
    let out = caret_in(rt.alloc(), &text, 99_996)?;
    // at the end of a text that fills its rows, below an empty row
    assert_eq!(rt; out.len(), 100_000 + 1_250 + 3);
    assert!(rt; out.ends_with(b"a\n\n^\n"));
    Ok(())
}

/// A text with a caret below a place of it, on a page of 80 columns.
fn caret_in(alloc: Global, text: &[u8], at: usize) -> Result<Vec<u8>, Fail> {
    let mut out = Vec::new(alloc);
    push_caret(alloc, &mut out, 80, text, at.min(text.len()))?;
    Ok(out)
}

#[test]
fn a_thousand_records_are_rows(rt: HostRuntime) -> Result<(), Fail> {
    let alloc = rt.alloc();
    let layouts = number_layouts(alloc)?;
    let bytes = thousand_records(alloc)?;
    assert!(rt; rows_of(alloc, &layouts, &bytes)? == thousand_rows(alloc)?);
    assert_eq!(rt; unknown_epid(&layouts, &bytes), None);
    // EPIDs count from 1, so 0 names no layout
    for epid in [2_u8, 0] {
        assert_eq!(rt;
            unknown_after(alloc, &layouts, &bytes, epid)?,
            Some(u32::from(epid))
        );
    }
    assert_eq!(rt; unknown_epid(&[], &bytes), Some(1));
    Ok(())
}

/// The layout of records of one number, alone.
fn number_layouts(alloc: Global) -> Result<Vec<Layout>, Fail> {
    let words = Value::from_str(alloc, "[\"number\"]")?;
    let layout = layout_in(words.as_array().ok_or("no words")?).ok_or("no layout")?;
    let mut layouts = Vec::new(alloc);
    layouts.push(layout)?;
    Ok(layouts)
}

/// Records of EPID 1 with the numbers from 0.
fn thousand_records(alloc: Global) -> Result<Vec<u8>, Fail> {
    let mut bytes = Vec::new(alloc);
    for i in 0..1_000_u64 {
        bytes.extend_from_slice(&[0, 0, 0, 1])?;
        bytes.extend_from_slice(&i.to_be_bytes())?;
    }
    Ok(bytes)
}

/// The rows that they are.
fn thousand_rows(alloc: Global) -> Result<Vec<u8>, Fail> {
    let mut wanted = Vec::new(alloc);
    for i in 0..1_000_u64 {
        wanted.extend_from_slice(format!(in alloc; "  {i}\n")?.as_bytes())?;
    }
    Ok(wanted)
}

/// The rows of records.
fn rows_of(alloc: Global, layouts: &[Layout], bytes: &[u8]) -> Result<Vec<u8>, Fail> {
    let records = split(alloc, layouts, bytes)?.ok_or("no records")?;
    let mut out = Vec::new(alloc);
    push_rows(alloc, &mut out, 80, true, 0, &[], &records)?;
    Ok(out)
}

/// The first EPID that no layout has, with a further record of an EPID.
fn unknown_after(
    alloc: Global,
    layouts: &[Layout],
    bytes: &[u8],
    epid: u8,
) -> Result<Option<u32>, Fail> {
    let mut more = Vec::from_slice(alloc, bytes)?;
    more.extend_from_slice(&[0, 0, 0, epid])?;
    Ok(unknown_epid(layouts, &more))
}

#[test]
fn all_levels_are_rows(rt: HostRuntime) -> Result<(), Fail> {
    let alloc = rt.alloc();
    let counts = level_counts(alloc)?;
    assert_eq!(rt; counts_total(&counts), Some(512));
    let bounds = Bounds::new(0, 512, 1).ok_or("no bounds")?;
    let rows = level_rows(alloc, bounds, &counts)?;
    assert_eq!(rt; rows.len(), 514);
    assert!(rt;
        rows.get(1..513)
            .unwrap_or(&[])
            .iter()
            .all(|row| row.count == 1)
    );
    // a head, and a row for each level and for each end
    assert_eq!(rt; picture_lines(alloc, &rows)?, Some(515));
    Ok(())
}

#[test]
fn all_levels_are_few_powers(rt: HostRuntime) -> Result<(), Fail> {
    let powers = power_rows(rt.alloc(), &level_counts(rt.alloc())?)?;
    assert_eq!(rt; powers.len(), 127);
    // of these rows ten have the name of a level: 0 and the powers from 1 to 256
    assert_eq!(rt; rows_total(&powers), Some(10));
    Ok(())
}

/// Level i, of 512, counts once.
fn level_counts(alloc: Global) -> Result<Vec<RowCount>, Fail> {
    let told = array_of(alloc, 512, "[", ",1]")?;
    Ok(counts_in(alloc, told.as_array().ok_or("no counts")?)?.ok_or("no counts")?)
}

/// How many lines the picture of rows has that count to 512.
fn picture_lines(alloc: Global, rows: &[PictureRow]) -> Result<Option<usize>, Fail> {
    if rows_total(rows) != Some(512) {
        return Ok(None);
    }
    let mut out = Vec::new(alloc);
    push_picture(&mut out, 80, rows)?;
    Ok(Some(out.iter().filter(|byte| **byte == b'\n').count()))
}

#[test]
fn a_long_key_is_columns(rt: HostRuntime) -> Result<(), Fail> {
    let alloc = rt.alloc();
    let told = array_of(alloc, 400, "", "")?;
    let key: Vec<KeyColumn> = key_in(alloc, told.as_array().ok_or("no key")?)?.ok_or("no key")?;
    let mut out = Vec::new(alloc);
    push_key(alloc, &mut out, &key)?;
    // two blanks and a column of ten
    assert_eq!(rt; out.len(), 400 * 12);
    assert!(rt; out.ends_with(b"         399"));
    let mut line = Vec::new(alloc);
    push_number_line(alloc, &mut line, &key, -7)?;
    assert_eq!(rt; line.len(), 400 * 12 + 2 + 16 + 1);
    assert!(rt; line.starts_with(&out) && line.ends_with(b"  -7\n"));
    Ok(())
}

#[test]
fn what_is_no_key_and_no_count_is_none(rt: HostRuntime) -> Result<(), Fail> {
    let alloc = rt.alloc();
    for text in ["[null]", "[[]]", "[1,{}]", "[[1]]", "[[null,-1]]"] {
        let told = Value::from_str(alloc, text)?;
        assert!(rt; counts_in(alloc, told.as_array().ok_or("no counts")?)?.is_none());
    }
    for text in ["[null]", "[1,true]", "[\"a\",[]]"] {
        let told = Value::from_str(alloc, text)?;
        assert!(rt; key_in(alloc, told.as_array().ok_or("no key")?)?.is_none());
    }
    Ok(())
}

/// A name of a hundred thousand bytes.
fn long_name(alloc: Global) -> Result<String, Fail> {
    Ok("abcd:".repeat(alloc, 20_000)?)
}

#[test]
fn long_names_are_shown_whole(rt: HostRuntime) -> Result<(), Fail> {
    let name = long_name(rt.alloc())?;
    let mut title = Vec::new(rt.alloc());
    push_title(&mut title, name.as_bytes(), b"sum")?;
    // a newline, @, the name, and what comes after it
    assert_eq!(rt; title.len(), 2 + 100_000 + 9);
    let narrow = probe_on(rt.alloc(), 79, name.as_bytes())?;
    assert_eq!(rt; narrow.len(), 6 + 100_000 + 1);
    assert!(rt; narrow.starts_with(b"   12 abcd:"));
    // three columns, and what stands after the third colon
    let wide = probe_on(rt.alloc(), 80, name.as_bytes())?;
    assert_eq!(rt; wide.len(), 6 + 10 + 1 + 17 + 1 + 33 + 1 + 99_985 + 1);
    Ok(())
}

/// The line of probe 12 of this name, on a page of so many columns.
fn probe_on(alloc: Global, page: usize, name: &[u8]) -> Result<Vec<u8>, Fail> {
    let mut line = Vec::new(alloc);
    push_probe(alloc, &mut line, page, 12, name)?;
    Ok(line)
}

#[test]
fn a_long_name_is_told_whole(rt: HostRuntime) -> Result<(), Fail> {
    let name = long_name(rt.alloc())?;
    let refusal = ToldRefusal {
        number: 8,
        at: None,
        clause: None,
        why: None,
        what: Some(name.as_str()),
    };
    let mut sentence = Vec::new(rt.alloc());
    refusal.push_sentence(&mut sentence)?;
    assert!(rt; sentence.starts_with(b"the aggregation @abcd:abcd:"));
    assert!(rt; sentence.len() > 100_000 && sentence.ends_with(b" elsewhere\n"));
    Ok(())
}

#[test]
fn eight_words_are_a_layout(rt: HostRuntime) -> Result<(), Fail> {
    let mut text = String::from_str(rt.alloc(), "\"string\"")?;
    for count in 1..=7 {
        text.push_str(format!(in rt.alloc(); ",\"ustack{count}\"")?.as_str())?;
    }
    // an EPID, a text, and 1 to 7 frames
    assert_eq!(rt;
        size_of_words(rt.alloc(), text.as_str())?,
        Some(4 + 32 + 8 * 28)
    );
    text.push_str(",\"number\"")?;
    assert_eq!(rt; size_of_words(rt.alloc(), text.as_str())?, None);
    Ok(())
}

/// The size of the records of these words, if they are a layout's.
fn size_of_words(alloc: Global, words: &str) -> Result<Option<usize>, Fail> {
    let text = format!(in alloc; "[{words}]")?;
    let words = Value::from_str(alloc, text.as_str())?;
    Ok(layout_in(words.as_array().ok_or("no words")?).map(|layout| layout.size()))
}
