//! The functions, as a table of values with what their cell answers.
use crate::asserts::{holds, same};
use dt_aggfn::{AggFn, Bounds, CELL_WORDS_MAX, CellAnswer, CountedRow};
use std::alloc::{AllocError, Global};
use std::process::Abort;
use std::str::SplitWhitespace;
use std::test::Fail;

/// In each line: a function, for `lquantize` with its bounds; the values, where `MIN` and `MAX` stand for the least
/// and the greatest; and after `=` the answer, which is a number, or the rows with their counts.
const TABLE: &str = "
count 5 = 1
count 0 0 0 = 3
count MIN MAX = 2
count 1 2 3 4 5 6 7 = 7
sum 5 = 5
sum MAX MAX = -2
sum MIN MIN = 0
sum MIN -1 = 9223372036854775807
sum MAX 1 = -9223372036854775808
sum MAX MAX MAX = 9223372036854775805
sum -3 2 -1 = -2
sum MIN MAX = -1
avg 5 = 5
avg MAX MAX = -1
avg MIN = -9223372036854775808
avg MAX = 9223372036854775807
avg MIN MIN = 0
avg 1 2 = 1
avg -1 -2 = -1
avg -3 -4 0 = -2
avg 1 2 3 5 = 2
avg -7 2 = -2
avg MIN MIN MIN = -3074457345618258602
avg 10 10 1 = 7
min 5 = 5
min MIN = -9223372036854775808
min MAX = 9223372036854775807
min 3 4 = 3
min -3 -4 = -4
min MIN MAX = -9223372036854775808
min MAX MIN = -9223372036854775808
min -1 0 1 = -1
min 1 0 -1 = -1
min 7 9 8 = 7
min -7 -9 -8 = -9
max 5 = 5
max MIN = -9223372036854775808
max MAX = 9223372036854775807
max 3 4 = 4
max -3 -4 = -3
max MIN MAX = 9223372036854775807
max MAX MIN = 9223372036854775807
max -1 0 1 = 1
max 1 0 -1 = 1
max 7 9 8 = 9
max -7 -9 -8 = -7
quantize -3 -1 0 1 MAX MIN = -4611686018427387904:1 -2:1 -1:1 0:1 1:1 4611686018427387904:1
quantize 1 -1 = -1:1 1:1
quantize 2 3 -2 -3 = -2:2 2:2
quantize 4 7 -4 -7 = -4:2 4:2
quantize 8 15 -8 -15 = -8:2 8:2
quantize 16 31 -16 -31 = -16:2 16:2
quantize 32 63 -32 -63 = -32:2 32:2
quantize 64 127 -64 -127 = -64:2 64:2
quantize 128 255 -128 -255 = -128:2 128:2
quantize 256 511 -256 -511 = -256:2 256:2
quantize 512 1023 -512 -1023 = -512:2 512:2
quantize 1024 2047 -1024 -2047 = -1024:2 1024:2
quantize 2048 4095 -2048 -4095 = -2048:2 2048:2
quantize 4096 8191 -4096 -8191 = -4096:2 4096:2
quantize 8192 16383 -8192 -16383 = -8192:2 8192:2
quantize 16384 32767 -16384 -32767 = -16384:2 16384:2
quantize 32768 65535 -32768 -65535 = -32768:2 32768:2
quantize 65536 131071 -65536 -131071 = -65536:2 65536:2
quantize 131072 262143 -131072 -262143 = -131072:2 131072:2
quantize 262144 524287 -262144 -524287 = -262144:2 262144:2
quantize 524288 1048575 -524288 -1048575 = -524288:2 524288:2
quantize 1048576 2097151 -1048576 -2097151 = -1048576:2 1048576:2
quantize 2097152 4194303 -2097152 -4194303 = -2097152:2 2097152:2
quantize 4194304 8388607 -4194304 -8388607 = -4194304:2 4194304:2
quantize 8388608 16777215 -8388608 -16777215 = -8388608:2 8388608:2
quantize 16777216 33554431 -16777216 -33554431 = -16777216:2 16777216:2
quantize 33554432 67108863 -33554432 -67108863 = -33554432:2 33554432:2
quantize 67108864 134217727 -67108864 -134217727 = -67108864:2 67108864:2
quantize 134217728 268435455 -134217728 -268435455 = -134217728:2 134217728:2
quantize 268435456 536870911 -268435456 -536870911 = -268435456:2 268435456:2
quantize 536870912 1073741823 -536870912 -1073741823 = -536870912:2 536870912:2
quantize 1073741824 2147483647 -1073741824 -2147483647 = -1073741824:2 1073741824:2
quantize 2147483648 4294967295 -2147483648 -4294967295 = -2147483648:2 2147483648:2
quantize 4294967296 8589934591 -4294967296 -8589934591 = -4294967296:2 4294967296:2
quantize 8589934592 17179869183 -8589934592 -17179869183 = -8589934592:2 8589934592:2
quantize 17179869184 34359738367 -17179869184 -34359738367 = -17179869184:2 17179869184:2
quantize 34359738368 68719476735 -34359738368 -68719476735 = -34359738368:2 34359738368:2
quantize 68719476736 137438953471 -68719476736 -137438953471 = -68719476736:2 68719476736:2
quantize 137438953472 274877906943 -137438953472 -274877906943 = -137438953472:2 137438953472:2
quantize 274877906944 549755813887 -274877906944 -549755813887 = -274877906944:2 274877906944:2
quantize 549755813888 1099511627775 -549755813888 -1099511627775 = -549755813888:2 549755813888:2
quantize 1099511627776 2199023255551 -1099511627776 -2199023255551 = -1099511627776:2 1099511627776:2
quantize 2199023255552 4398046511103 -2199023255552 -4398046511103 = -2199023255552:2 2199023255552:2
quantize 4398046511104 8796093022207 -4398046511104 -8796093022207 = -4398046511104:2 4398046511104:2
quantize 8796093022208 17592186044415 -8796093022208 -17592186044415 = -8796093022208:2 8796093022208:2
quantize 17592186044416 35184372088831 -17592186044416 -35184372088831 = -17592186044416:2 17592186044416:2
quantize 35184372088832 70368744177663 -35184372088832 -70368744177663 = -35184372088832:2 35184372088832:2
quantize 70368744177664 140737488355327 -70368744177664 -140737488355327 = -70368744177664:2 70368744177664:2
quantize 140737488355328 281474976710655 -140737488355328 -281474976710655 = -140737488355328:2 140737488355328:2
quantize 281474976710656 562949953421311 = 281474976710656:2
quantize -281474976710656 -562949953421311 = -281474976710656:2
quantize 562949953421312 1125899906842623 = 562949953421312:2
quantize -562949953421312 -1125899906842623 = -562949953421312:2
quantize 1125899906842624 2251799813685247 = 1125899906842624:2
quantize -1125899906842624 -2251799813685247 = -1125899906842624:2
quantize 2251799813685248 4503599627370495 = 2251799813685248:2
quantize -2251799813685248 -4503599627370495 = -2251799813685248:2
quantize 4503599627370496 9007199254740991 = 4503599627370496:2
quantize -4503599627370496 -9007199254740991 = -4503599627370496:2
quantize 9007199254740992 18014398509481983 = 9007199254740992:2
quantize -9007199254740992 -18014398509481983 = -9007199254740992:2
quantize 18014398509481984 36028797018963967 = 18014398509481984:2
quantize -18014398509481984 -36028797018963967 = -18014398509481984:2
quantize 36028797018963968 72057594037927935 = 36028797018963968:2
quantize -36028797018963968 -72057594037927935 = -36028797018963968:2
quantize 72057594037927936 144115188075855871 = 72057594037927936:2
quantize -72057594037927936 -144115188075855871 = -72057594037927936:2
quantize 144115188075855872 288230376151711743 = 144115188075855872:2
quantize -144115188075855872 -288230376151711743 = -144115188075855872:2
quantize 288230376151711744 576460752303423487 = 288230376151711744:2
quantize -288230376151711744 -576460752303423487 = -288230376151711744:2
quantize 576460752303423488 1152921504606846975 = 576460752303423488:2
quantize -576460752303423488 -1152921504606846975 = -576460752303423488:2
quantize 1152921504606846976 2305843009213693951 = 1152921504606846976:2
quantize -1152921504606846976 -2305843009213693951 = -1152921504606846976:2
quantize 2305843009213693952 4611686018427387903 = 2305843009213693952:2
quantize -2305843009213693952 -4611686018427387903 = -2305843009213693952:2
quantize 4611686018427387904 MAX = 4611686018427387904:2
quantize -4611686018427387904 -9223372036854775807 = -4611686018427387904:2
quantize 0 0 2 0 = 0:3 2:1
lquantize 0 100 10 -1 0 99 100 = null:1 0:1 90:1 100:1
lquantize 0 100 10 9 10 11 19 20 90 MIN MAX = null:1 0:1 10:3 20:1 90:1 100:1
lquantize -10 10 5 -11 -10 -6 -5 -1 0 4 5 9 10 = null:1 -10:2 -5:2 0:2 5:2 10:1
lquantize -30 -10 10 -31 -30 -21 -20 -11 -10 0 = null:1 -30:2 -20:2 -10:2
lquantize 5 6 1 4 5 6 = null:1 5:1 6:1
lquantize MIN 9223372036854775296 36028797018963967 MIN = -9223372036854775808:1
lquantize MIN 9223372036854775296 36028797018963967 -9187343239835811842 = -9223372036854775808:1
lquantize MIN 9223372036854775296 36028797018963967 -9187343239835811841 = -9187343239835811841:1
lquantize MIN 9223372036854775296 36028797018963967 0 = -256:1
lquantize MIN 9223372036854775296 36028797018963967 9223372036854775295 = 9187343239835811329:1
lquantize MIN 9223372036854775296 36028797018963967 9223372036854775296 = 9223372036854775296:1
lquantize MIN 9223372036854775296 36028797018963967 MAX = 9223372036854775296:1
lquantize MIN 4611686018427387904 4611686018427387904 MIN -1 = -9223372036854775808:1 -4611686018427387904:1
lquantize MIN 4611686018427387904 4611686018427387904 0 4611686018427387903 = 0:2
lquantize MIN 4611686018427387904 4611686018427387904 4611686018427387904 MAX = 4611686018427387904:2
lquantize MIN MAX 6148914691236517205 MIN -3074457345618258603 = -9223372036854775808:1 -3074457345618258603:1
lquantize MIN MAX 6148914691236517205 0 9223372036854775806 = -3074457345618258603:1 3074457345618258602:1
lquantize MIN MAX 6148914691236517205 MAX = 9223372036854775807:1
lquantize -256 256 1 -257 -256 -255 255 256 = null:1 -256:1 -255:1 255:1 256:1
";

/// Bounds that have no levels, too many, or leave something over.
const REFUSED: &str = "
0 0 1
1 0 1
0 10 0
0 10 -1
0 10 3
0 513 1
MIN MAX 2
MIN MAX MAX
";

#[test]
fn cells_answer_what_the_table_says(rt: HostRuntime) -> Result<(), Fail> {
    for line in TABLE.lines() {
        if !line.is_empty() {
            answers(&rt, rt.alloc(), line)?;
        }
    }
    Ok(())
}

#[test]
fn bounds_leave_some_levels_and_nothing_over(rt: HostRuntime) -> Result<(), Fail> {
    for line in REFUSED.lines() {
        if !line.is_empty() {
            let bounds = bounds_of(&mut line.split_whitespace());
            assert!(&rt; bounds.is_none(), "{line}");
        }
    }
    Ok(())
}

/// A cell, and what lies behind it.
type Cell = [u64; CELL_WORDS_MAX];

/// The cell of all values, and those of every other one.
#[derive(Drop)]
struct Cells {
    all: Cell,
    odd: Cell,
    even: Cell,
}

impl Cells {
    fn new() -> Cells {
        Cells {
            all: [7; CELL_WORDS_MAX],
            odd: [7; CELL_WORDS_MAX],
            even: [7; CELL_WORDS_MAX],
        }
    }

    /// Gives the value of this index.
    fn take(&mut self, function: AggFn, index: usize, value: i64) {
        take(function, &mut self.all, index == 0, value);
        if index % 2 == 0 {
            take(function, &mut self.odd, index < 2, value);
        } else {
            take(function, &mut self.even, index < 2, value);
        }
    }

    /// Whether the cells of every other value make the one of all when they are merged.
    fn are_alike(&self, function: AggFn) -> bool {
        merged(function, self.odd, &self.even) == self.all
    }
}

/// Makes the cell of the line's values, and compares what is answered.
fn answers(rt: &impl Abort, alloc: Global, line: &str) -> Result<(), Fail> {
    let (given, expected) = line.split_once(" = ").ok_or("no answer")?;
    let mut words = given.split_whitespace();
    let function = function_of(&mut words).ok_or("no function")?;
    let cell = cell_of(rt, function, words, line);
    same(
        rt,
        answer_of(alloc, function, &cell)?.as_str(),
        expected,
        line,
    );
    Ok(())
}

/// Makes the cell of words one after the other, and each time again from two cells that are merged, and compares what
/// they hold.
fn cell_of(rt: &impl Abort, function: AggFn, words: SplitWhitespace, line: &str) -> Cell {
    let mut cells = Cells::new();
    for (index, word) in words.enumerate() {
        cells.take(function, index, number(word));
        holds(rt, index == 0 || cells.are_alike(function), line);
    }
    cells.all
}

/// Makes a cell that of its first value, or adds a value to it.
fn take(function: AggFn, cell: &mut Cell, begins: bool, value: i64) {
    let size = function.cell_words();
    if begins {
        function.first(&mut cell[..size], value);
    } else {
        function.add(&mut cell[..size], value);
    }
}

/// The first cell, into which the other is merged.
fn merged(function: AggFn, mut cell: Cell, other: &Cell) -> Cell {
    let size = function.cell_words();
    function.merge(&mut cell[..size], &other[..size]);
    cell
}

/// What a cell answers, as the table writes it.
fn answer_of(alloc: Global, function: AggFn, cell: &Cell) -> Result<String, AllocError> {
    text_of(
        alloc,
        &function.answer(alloc, &cell[..function.cell_words()])?,
    )
}

/// The function that words name; an `lquantize` has its bounds after its name.
fn function_of(words: &mut SplitWhitespace) -> Option<AggFn> {
    match words.next()? {
        "count" => Some(AggFn::Count),
        "sum" => Some(AggFn::Sum),
        "avg" => Some(AggFn::Avg),
        "min" => Some(AggFn::Min),
        "max" => Some(AggFn::Max),
        "quantize" => Some(AggFn::Quantize),
        _ => Some(AggFn::Lquantize(bounds_of(words)?)),
    }
}

/// The bounds that three words write.
fn bounds_of(words: &mut SplitWhitespace) -> Option<Bounds> {
    let lower = number(words.next()?);
    let upper = number(words.next()?);
    let step = number(words.next()?);
    Bounds::new(lower, upper, step)
}

/// An answer as the table writes it.
fn text_of(alloc: Global, answer: &CellAnswer) -> Result<String, AllocError> {
    let rows = match answer {
        CellAnswer::Number(value) => return format!(in alloc; "{value}"),
        CellAnswer::Rows(rows) => rows,
    };
    let mut text = String::new(alloc);
    for row in rows {
        push_row(alloc, &mut text, row)?;
    }
    Ok(text)
}

/// Adds a row of an answer.
fn push_row(alloc: Global, text: &mut String, row: &CountedRow) -> Result<(), AllocError> {
    let space = if text.is_empty() { "" } else { " " };
    let one = match row.least {
        Some(least) => format!(in alloc; "{space}{least}:{}", row.count)?,
        None => format!(in alloc; "{space}null:{}", row.count)?,
    };
    text.push_str(one.as_str())
}

/// The number that a word writes, or 0.
fn number(word: &str) -> i64 {
    match word {
        "MIN" => i64::MIN,
        "MAX" => i64::MAX,
        _ => word.parse().unwrap_or(0),
    }
}
