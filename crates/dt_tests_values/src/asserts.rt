//! The assertions that the tests share. A call of one costs a test's proof less than an `assert!` with a message does.
use std::process::Abort;

/// Ends the test where what a line says doesn't hold.
pub fn holds(rt: &impl Abort, is_so: bool, line: &str) {
    assert!(rt; is_so, "{line}");
}

/// Ends the test where what is said of a word or a part of a line doesn't hold.
pub fn word_holds(rt: &impl Abort, is_so: bool, word: &str, line: &str) {
    assert!(rt; is_so, "{word} in {line}");
}

/// Ends the test where a text isn't the one that is wanted in a line.
pub fn same(rt: &impl Abort, found: &str, wanted: &str, line: &str) {
    assert!(rt; found == wanted, "{found}, and not {wanted}, in {line}");
}
