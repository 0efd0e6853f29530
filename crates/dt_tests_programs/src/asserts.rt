//! The assertions that the tests share. A call of one costs a test's proof less than an `assert!` with a message does.
use std::process::Abort;

/// Ends the test where what is said of something doesn't hold.
pub fn holds(rt: &impl Abort, is_so: bool, what: &str) {
    assert!(rt; is_so, "{what}");
}

/// Ends the test where what is found of something isn't what is wanted.
pub fn same(rt: &impl Abort, found: &str, wanted: &str, what: &str) {
    assert_eq!(rt; found, wanted, "{what}");
}
