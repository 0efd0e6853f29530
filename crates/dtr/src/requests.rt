//! The lines that the program asks.

use crate::fault::Trouble;
use crate::words::is_digits;
use serde_json::Value;
use std::alloc::Global;

/// A text as JSON has it.
pub(crate) fn quoted(alloc: Global, text: &str) -> Result<String, Trouble> {
    Ok(Value::String(String::from_str(alloc, text)?).to_string(alloc)?)
}

/// Bytes as JSON has a text: each the character of its number.
pub(crate) fn quoted_bytes(alloc: Global, bytes: &[u8]) -> Result<String, Trouble> {
    let mut text = String::new(alloc);
    for byte in bytes {
        text.push(char::from(*byte))?;
    }
    quoted(alloc, &text)
}

/// A command with one field that is a text.
pub(crate) fn with_text(
    alloc: Global,
    cmd: &str,
    key: &str,
    text: &str,
) -> Result<String, Trouble> {
    let value = quoted(alloc, text)?;
    Ok(format!(in alloc; "{{\"cmd\":\"{cmd}\",\"{key}\":{value}}}")?)
}

/// A command with one field that is a number.
pub(crate) fn with_number(
    alloc: Global,
    cmd: &str,
    key: &str,
    number: u64,
) -> Result<String, Trouble> {
    Ok(format!(in alloc; "{{\"cmd\":\"{cmd}\",\"{key}\":{number}}}")?)
}

/// An `option`: a value of digits alone is a number, any other a text.
pub(crate) fn option(alloc: Global, name: &str, value: &str) -> Result<String, Trouble> {
    let name = quoted(alloc, name)?;
    let value = option_value(alloc, value)?;
    Ok(format!(in alloc; "{{\"cmd\":\"option\",\"name\":{name},\"value\":{value}}}")?)
}

/// The value of an option as JSON has it.
fn option_value(alloc: Global, value: &str) -> Result<String, Trouble> {
    match value.parse::<u64>() {
        Ok(number) if is_digits(value) => Ok(format!(in alloc; "{number}")?),
        _ => quoted(alloc, value),
    }
}
