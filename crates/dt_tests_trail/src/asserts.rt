//! The assertion that the tests share. A call of it costs a test's proof less than an `assert_eq!` does.
use std::fmt;
use std::process::Abort;

/// Ends the test where what is found isn't what is wanted, and says of what that is.
pub(crate) fn same<T: PartialEq + fmt::Debug + Drop>(
    rt: &impl Abort,
    what: &str,
    found: T,
    wanted: T,
) {
    assert_eq!(rt; found, wanted, "{what}");
}
