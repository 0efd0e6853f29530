//! Stores, as a table of contributions and truncations with what is answered and what the table then shows.

use crate::asserts::{holds, same};
use arrayvec::ArrayVec;
use dt_aggfn::{AggFn, Bounds, CellAnswer, CountedRow};
use dt_aggstore::{
    ADDED_LIMIT, AGGSIZE_MAX, AggStore, Aggregation, KEYS_MAX, Key, KeyPart, Row, RowKey,
};
use std::alloc::{AllocError, Global};
use std::process::Abort;
use std::str::SplitWhitespace;
use std::test::Fail;

/// In each line: the size of two stores, and then words in order. `@1:avg` names the aggregation that is meant
/// from there on, by its number and function; `lq100` is an `lquantize` of ten levels from 0 to 100.
/// `0+KEY:VALUE` gives a value on store 0 and is kept, `1-KEY:VALUE` gives one on store 1 and is dropped. `0!`
/// truncates on store 0. `0#3` says that store 0 counts three contributions, and `0~1` that one of them was
/// dropped. `0=KEY@PLACE;../WORD,..` is what its index and its pool show. `[KEY:VALUE;..]` is the table of both stores. A key has its parts between commas: numbers, and texts
/// behind a `'`. A value of rows has `NAME=COUNT` for each, between `&`.
const TABLE: &str = "
56 @1:avg 0+'sh:1 0+'sh:2 1+'sh:9 1-'cron:9 ['sh:4] 0! 1! [] 1+'cron:5 ['cron:5]
56 @1:avg 0+'sh:1 0-'cron:2 0+'sh:5 ['sh:3] 0#3 1#0 0~1 1~0
55 @1:avg 0-'sh:1 [] 0#1 0~1 0! 0~1
48 @1:count 0+1:0 0+2:0 0-3:0 0+1:0 [1:2;2:1]
47 @1:count 0+1:0 0-2:0 [1:1]
16 @1:count 0+:0 0+:0 [:2]
15 @1:count 0-:0 []
0 @1:count 0-:0 1-:0 [] 0#1 1#1
64 @1:count 0+:0 @2:count 0+:0 @1:count 0+:0 [:2] @2:count [:1] @1:count 0! [] @2:count [:1]
64 @1:sum 0+:5 @1:max 0+:7 0+:6 [:7] @1:sum [:5]
1000 @1:lq100 0+1:15 @1:lq200 0+1:15 [1:0=1] @1:lq100 [1:10=1]
112 @1:lq100 0+1:100 0+1:-1 0-2:5 [1:null=1&100=1]
1056 @1:quantize 0+'sh:0 0+'sh:1 0+'sh:-3 0-'ls:1 1+'sh:1 ['sh:-2=1&0=1&1=2]
1055 @1:quantize 0-'sh:0 1-'sh:0 []
80 @1:count 0+1:0 @2:count 0+1:0 @1:count 0+2:0 0-3:0 0! [] 0~1 0+3:0 0+4:0 0-5:0 [3:1;4:1] @2:count [1:1] 0~2
80 @1:sum 0+1:1 @2:avg 0+1:4 @3:sum 0+1:3 @2:avg 0! @3:sum 0+1:4 [1:7] @1:sum [1:1] 0+1:1 [1:2] @2:avg []
1000 @1:count 0+'b:0 0+'a:0 1+10:0 1+9:0 1+-1:0 1+'ab:0 [-1:1;9:1;10:1;'a:1;'ab:1;'b:1]
1000 @1:sum 0+2,1:1 0+1,'b:2 0+1,'a:3 0+1,2:4 1+1:5 1+1,'a:6 [1:5;1,2:4;1,'a:9;1,'b:2;2,1:1]
1000 @1:sum 0+1:1 0+'1:2 0+1,1:3 0+1,'1:4 0+'1,1:5 [1:1;1,1:3;1,'1:4;'1:2;'1,1:5]
1000 @1:sum 0+1,2,3,4:1 0+1,2,3:2 0+1,2,3,5:3 [1,2,3:2;1,2,3,4:1;1,2,3,5:3]
1000 @1:sum 0+1:9223372036854775807 1+1:9223372036854775807 [1:-2]
1000 @1:sum 0+1:5 1+1:6 0! [1:6] 0+1:1 [1:7] 1! 1! [1:1]
1000 @1:min 0+1:5 1+1:7 1+2:-3 [1:5;2:-3] 0#1 1#2
1000 @1:max 0+1:-5 1+1:-7 0! 0#1 [1:-7]
1000 0= @1:count 0+1:0 0+'sh:0 @2:avg 0+1:8 @3:sum 0+1,2:9 @2:avg 0+1:4 0=1@0;'sh@1;1@2;1,2@4/1,1,2,12,9
1000 @1:count 0+1:0 0+2:0 @2:avg 0+1:8 @1:count 0+3:0 0! 0=1@0/1,8 @2:avg 0+1:4 @1:count 0+2:0 0=1@0;2@2/2,12,1
";

#[test]
fn stores_show_what_the_table_says(rt: HostRuntime) -> Result<(), Fail> {
    for line in TABLE.lines() {
        if !line.is_empty() {
            shows(&rt, rt.alloc(), line)?;
        }
    }
    Ok(())
}

/// The aggregation that a line means before it names one.
const COUNT: Aggregation = Aggregation {
    number: 1,
    function: AggFn::Count,
};

const SUM: Aggregation = Aggregation {
    number: 1,
    function: AggFn::Sum,
};

#[test]
fn many_keys_come_in_order(rt: HostRuntime) -> Result<(), Fail> {
    let mut stores = stores(rt.alloc(), 2400)?;
    for store in stores.iter_mut() {
        assert!(rt; is_filled(store, SUM));
    }
    are_in_order(&rt, rt.alloc(), &rows(rt.alloc(), &stores, SUM)?)
}

/// Gives 101 keys to a store, and tells whether the first hundred were kept and the last one dropped.
fn is_filled(store: &mut AggStore, aggregation: Aggregation) -> bool {
    let mut is_filled = true;
    for n in 0..101_i64 {
        let number = n.wrapping_mul(37) % 101;
        is_filled = is_filled
            && give(store, aggregation, &number_key(number), number) == Some(n < 100);
    }
    is_filled
}

/// Ends the test where rows aren't those of the hundred keys.
fn are_in_order(rt: &impl Abort, alloc: Global, rows: &[Row]) -> Result<(), Fail> {
    assert!(rt; rows.len() == 100);
    for (place, row) in rows.iter().enumerate() {
        assert!(rt; is_row_at(alloc, place, row)?, "the row at {place}");
    }
    Ok(())
}

/// Whether a row is the one at this place, where each key was given twice.
fn is_row_at(alloc: Global, place: usize, row: &Row) -> Result<bool, Fail> {
    // 64 came last, and was dropped.
    let number = if place < 64 {
        place
    } else {
        place.wrapping_add(1)
    };
    let expected = format!(in alloc; "{number}:{}", number.wrapping_mul(2))?;
    Ok(row_text(alloc, row)? == expected)
}

/// Makes the line's stores, does what its words say and compares what is shown.
fn shows(rt: &impl Abort, alloc: Global, line: &str) -> Result<(), Fail> {
    let mut words = line.split_whitespace();
    let size = words.next().unwrap_or("0").parse().unwrap_or(0);
    plays(rt, alloc, &mut stores(alloc, size)?, words, line)
}

/// Does what the words of a line say on its stores, and compares what is shown.
fn plays(
    rt: &impl Abort,
    alloc: Global,
    stores: &mut [AggStore; 2],
    words: SplitWhitespace,
    line: &str,
) -> Result<(), Fail> {
    let mut aggregation = COUNT;
    for word in words {
        if let Some(named) = word.strip_prefix('@') {
            aggregation = aggregation_of(named).ok_or("aggregation")?;
        } else {
            play(rt, alloc, stores, aggregation, (word, line))?;
        }
    }
    Ok(())
}

/// Does what a word of a line says, or compares what it shows.
fn play(
    rt: &impl Abort,
    alloc: Global,
    stores: &mut [AggStore; 2],
    aggregation: Aggregation,
    (word, line): (&str, &str),
) -> Result<(), Fail> {
    if word.starts_with('[') {
        same(
            rt,
            tables_text(alloc, stores, aggregation)?.as_str(),
            word,
            line,
        );
    } else if let Some(step) = word.strip_prefix('0') {
        take(rt, alloc, &mut stores[0], aggregation, step)?;
    } else if let Some(step) = word.strip_prefix('1') {
        take(rt, alloc, &mut stores[1], aggregation, step)?;
    }
    Ok(())
}

/// Two stores of this size.
fn stores(alloc: Global, size: usize) -> Result<[AggStore; 2], Fail> {
    Ok([store(alloc, size)?, store(alloc, size)?])
}

/// A store of this size.
fn store(alloc: Global, size: usize) -> Result<AggStore, Fail> {
    if size > AGGSIZE_MAX {
        return Err("no store".into());
    }
    Ok(AggStore::new(alloc, size)?)
}

/// Gives a value, and tells whether it is kept.
fn give(store: &mut AggStore, aggregation: Aggregation, key: &Key, value: i64) -> Option<bool> {
    if store.added() >= ADDED_LIMIT {
        return None;
    }
    Some(store.add(aggregation, key, value))
}

fn forget(store: &mut AggStore, aggregation: Aggregation) {
    store.trunc(aggregation);
}

/// How many values were given, and how many of them were dropped.
fn counts(store: &AggStore) -> (u64, u64) {
    (store.added(), store.dropped())
}

/// The table of both stores.
fn rows(alloc: Global, stores: &[AggStore; 2], aggregation: Aggregation) -> Result<Vec<Row>, Fail> {
    Ok(AggStore::merge_all(alloc, stores, aggregation)?)
}

/// Does one step on a store, and compares what it answers.
fn take(
    rt: &impl Abort,
    alloc: Global,
    store: &mut AggStore,
    aggregation: Aggregation,
    step: &str,
) -> Result<(), Fail> {
    if step == "!" {
        forget(store, aggregation);
    } else if let Some(count) = step.strip_prefix('#') {
        is_count(rt, counts(store).0, count, step);
    } else if let Some(count) = step.strip_prefix('~') {
        is_count(rt, counts(store).1, count, step);
    } else if let Some(shown) = step.strip_prefix('=') {
        same(rt, index_text(alloc, store)?.as_str(), shown, step);
    } else {
        gives(rt, store, aggregation, step)?;
    }
    Ok(())
}

/// Ends the test where a count isn't the one that a step writes.
fn is_count(rt: &impl Abort, found: u64, written: &str, step: &str) {
    assert!(rt; written.parse() == Ok(found), "{found}, and not {step}");
}

/// Gives the value of a step, which is kept where the step begins with `+`.
fn gives(
    rt: &impl Abort,
    store: &mut AggStore,
    aggregation: Aggregation,
    step: &str,
) -> Result<(), Fail> {
    let kept = adds(rt, store, aggregation, step)?;
    holds(rt, kept == Some(step.starts_with('+')), step);
    Ok(())
}

/// Gives the value of a step `+KEY:VALUE` or `-KEY:VALUE`.
fn adds(
    rt: &impl Abort,
    store: &mut AggStore,
    aggregation: Aggregation,
    step: &str,
) -> Result<Option<bool>, Fail> {
    let (key, value) = step.split_once(':').ok_or("no value")?;
    let key = key.strip_prefix(['+', '-']).ok_or("no key")?;
    let value = value.parse::<i64>()?;
    Ok(give(store, aggregation, &key_of(rt, key), value))
}

/// The aggregation that a word names.
fn aggregation_of(word: &str) -> Option<Aggregation> {
    let (number, function) = word.split_once(':')?;
    let function = match function {
        "count" => AggFn::Count,
        "sum" => AggFn::Sum,
        "avg" => AggFn::Avg,
        "min" => AggFn::Min,
        "max" => AggFn::Max,
        "quantize" => AggFn::Quantize,
        "lq100" => AggFn::Lquantize(Bounds::new(0, 100, 10)?),
        _ => AggFn::Lquantize(Bounds::new(0, 200, 20)?),
    };
    let number = number.parse().unwrap_or(0);
    Some(Aggregation { number, function })
}

/// The key of one number.
fn number_key(number: i64) -> Key {
    let mut parts = ArrayVec::new();
    parts.push(KeyPart::Number(number));
    Key { parts }
}

/// The key that a word writes.
fn key_of(rt: &impl Abort, word: &str) -> Key {
    let mut parts = ArrayVec::new();
    if word.is_empty() {
        return Key { parts };
    }
    for part in word.split(',') {
        assert!(rt; parts.len() < KEYS_MAX);
        match part.strip_prefix('\'') {
            Some(text) => parts.push(text_part(text)),
            None => parts.push(KeyPart::Number(part.parse().unwrap_or(0))),
        }
    }
    Key { parts }
}

/// A text as a part of a key.
fn text_part(text: &str) -> KeyPart {
    let mut bytes = [0; 32];
    for (byte, given) in bytes.iter_mut().zip(text.as_bytes()) {
        *byte = *given;
    }
    KeyPart::Text(bytes)
}

/// The table of both stores as a line writes it.
fn tables_text(
    alloc: Global,
    stores: &[AggStore; 2],
    aggregation: Aggregation,
) -> Result<String, Fail> {
    Ok(table_text(alloc, &rows(alloc, stores, aggregation)?)?)
}

/// A table as a line writes it.
fn table_text(alloc: Global, rows: &[Row]) -> Result<String, AllocError> {
    let mut text = String::from_str(alloc, "[")?;
    for row in rows {
        if text.len() > 1 {
            text.push(';')?;
        }
        text.push_str(row_text(alloc, row)?.as_str())?;
    }
    text.push(']')?;
    Ok(text)
}

/// What a store's index and pool show, as a line writes it.
fn index_text(alloc: Global, store: &AggStore) -> Result<String, AllocError> {
    let mut text = String::new(alloc);
    for (held, place) in store.index() {
        push_held(alloc, &mut text, held.key.parts.as_slice(), *place)?;
    }
    for (place, word) in store.pool().iter().enumerate() {
        let between = if place == 0 { '/' } else { ',' };
        text.push_str(format!(in alloc; "{between}{word}")?.as_str())?;
    }
    Ok(text)
}

/// Adds a key of an index, with the place of its cell.
fn push_held(
    alloc: Global,
    text: &mut String,
    parts: &[KeyPart],
    place: usize,
) -> Result<(), AllocError> {
    if !text.is_empty() {
        text.push(';')?;
    }
    text.push_str(key_text(alloc, parts)?.as_str())?;
    text.push_str(format!(in alloc; "@{place}")?.as_str())
}

/// A row's key as a line writes it.
fn row_key_text(alloc: Global, key: &RowKey) -> Result<String, AllocError> {
    match key {
        RowKey::Numbers(numbers) => {
            let mut parts = Vec::new(alloc);
            for number in numbers.as_slice() {
                parts.push(KeyPart::Number(*number))?;
            }
            key_text(alloc, &parts)
        }
        RowKey::Parts(parts) => key_text(alloc, parts),
    }
}

/// A key as a line writes it.
fn key_text(alloc: Global, parts: &[KeyPart]) -> Result<String, AllocError> {
    let mut text = String::new(alloc);
    for part in parts {
        if !text.is_empty() {
            text.push(',')?;
        }
        match part {
            KeyPart::Number(number) => text.push_str(format!(in alloc; "{number}")?.as_str())?,
            KeyPart::Text(bytes) => push_text(&mut text, bytes)?,
        }
    }
    Ok(text)
}

/// Adds a text of a key.
fn push_text(text: &mut String, bytes: &[u8; 32]) -> Result<(), AllocError> {
    text.push('\'')?;
    for byte in bytes {
        if *byte != 0 {
            text.push(*byte as char)?;
        }
    }
    Ok(())
}

/// A row as a line writes it.
fn row_text(alloc: Global, row: &Row) -> Result<String, AllocError> {
    let mut text = row_key_text(alloc, &row.key)?;
    text.push(':')?;
    match &row.value {
        CellAnswer::Number(value) => text.push_str(format!(in alloc; "{value}")?.as_str())?,
        CellAnswer::Rows(rows) => push_rows(alloc, &mut text, rows)?,
    }
    Ok(text)
}

/// Adds the rows of an answer.
fn push_rows(alloc: Global, text: &mut String, rows: &[CountedRow]) -> Result<(), AllocError> {
    for (place, counted) in rows.iter().enumerate() {
        let between = if place == 0 { "" } else { "&" };
        let one = match counted.least {
            Some(least) => format!(in alloc; "{between}{least}={}", counted.count)?,
            None => format!(in alloc; "{between}null={}", counted.count)?,
        };
        text.push_str(one.as_str())?;
    }
    Ok(())
}
