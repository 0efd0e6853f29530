//! Laws over the definitions.
ghost use Rattle.std.specs.Prelude.{◌<◌, ◌^◌, ℕ, ℤ, All, Bool, FitsSigned, List, Option};
ghost use Rattle.std.specs.Int.{w64};
ghost use Rattle.std.specs.List.{AllByRecursion};
ghost use Rattle.dt_aggfn.specs.declared.levels.Bounds.{Bounds};
ghost use Rattle.dt_record.specs.Split.{RecordForm};
ghost use Rattle.dt_front.specs.Distribution.{level_rows, power_rows};
ghost use Rattle.dt_front.specs.Escaping.{AreBytes, ArePlain, ArePlainLines, shown};
ghost use Rattle.dt_front.specs.Picture.{PictureRowForm, picture};
ghost use Rattle.dt_front.specs.Printed.{IsPrintedPart, IsPrintedProbe, IsPrintedRecord, IsPrintedRefusal, IsPrintedRow};
ghost use Rattle.dt_front.specs.Probes.{table_head, table_line};
ghost use Rattle.dt_front.specs.Records.{rows_text};
ghost use Rattle.dt_front.specs.Refusals.{RefusalForm, caret_text};
ghost use Rattle.dt_front.specs.Rows.{ProbeForm, rows_head};
ghost use Rattle.dt_front.specs.Sentences.{sentence};
ghost use Rattle.dt_front.specs.Tables.{KeyForm, key_columns, number_line, table_title};

/// Law: what a terminal is shown for bytes is plain, whatever they are.
pub fn shown_is_plain()
    ensures { (bytes : List ℕ) → All (λ byte. byte < 256) bytes → ArePlain (shown bytes) }
{}

/// Law: the rows of records, and their head, are plain lines, whatever the probes' names and the records' values are.
pub fn rows_are_plain()
    ensures head { (page : ℕ) → ArePlainLines (rows_head page) }
    ensures rows { (page cpu : ℕ) (quiet : Bool) (probes : List ProbeForm) (records : List RecordForm) → cpu < 2 ^ 64
        → AllByRecursion IsPrintedProbe probes → AllByRecursion IsPrintedRecord records → ArePlainLines (rows_text page quiet cpu probes records) }
{}

/// Law: a picture is plain lines where the labels of its rows are plain, as those of all rows of a function are.
pub fn pictures_are_plain()
    ensures picture { (page : ℕ) (rows : List PictureRowForm) → AllByRecursion IsPrintedRow rows → ArePlainLines (picture page rows) }
    ensures powers { (counts : List (Option ℤ × ℕ)) → AllByRecursion (λ counted. counted.1 < 2 ^ 64) counts → AllByRecursion IsPrintedRow (power_rows counts) }
    ensures levels { (bounds : Bounds) (counts : List (Option ℤ × ℕ)) → FitsSigned w64 bounds.lower → FitsSigned w64 bounds.upper
        → AllByRecursion (λ counted. counted.1 < 2 ^ 64) counts → AllByRecursion IsPrintedRow (level_rows bounds counts) }
{}

/// Law: the tables of probes and of aggregations are plain lines, whatever the names and the keys are.
pub fn tables_are_plain()
    ensures probes_head { (page : ℕ) → ArePlainLines (table_head page) }
    ensures probes { (page id : ℕ) (name : List ℕ) → id < 2 ^ 64 → AreBytes name → ArePlainLines (table_line page id name) }
    ensures titles { (name function : List ℕ) → AreBytes name → AreBytes function → ArePlainLines (table_title name function) }
    ensures keys { (key : List KeyForm) → AllByRecursion IsPrintedPart key → ArePlainLines (key_columns key) }
    ensures numbers { (key : List KeyForm) (value : ℤ) → AllByRecursion IsPrintedPart key → FitsSigned w64 value → ArePlainLines (number_line key value) }
{}

/// Law: what is printed of a refusal is plain lines, whatever the names and the program's text are.
pub fn refusals_are_plain()
    ensures sentences { (refusal : RefusalForm) → IsPrintedRefusal refusal → ArePlainLines (sentence refusal) }
    ensures carets { (page : ℕ) (text : List ℕ) (at : ℕ) → AreBytes text → ArePlainLines (caret_text page text at) }
{}
