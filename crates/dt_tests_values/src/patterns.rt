//! Patterns against texts, and the faults of texts that are no pattern.

use crate::asserts::word_holds;
use dt_glob::{GlobFault, PATTERN_MAX, Pattern};
use std::process::Abort;
use std::test::Fail;

/// In each line a pattern, texts that it matches, and after `not` texts that it doesn't; `()` is the empty text.
const TABLE: &str = "
() () not a
* () a *
? a ? not () ab
read read not rea reads () Read
rea rea not read
[!a-c]* read not close () a b
\\* * not a ** () \\*
\\\\ \\ not \\\\
]-! ]-! not ]
[\\a-\\c] a b c not d - \\ () ab
[c-a] not () a b c -
[!c-a] a b - not () ab
[a-] a - not b a-
[-a] a - not b
[--a] - a not . A
[a--] not a -
[+--] + , - not * .
[\\--a] - . a not , b
[a\\-c] a - c not b
[a-c-e] a b c - e not d
[a-c-] a b c - not d
[!!] a not ! ()
[\\!a] ! a not b
[a!] a ! not b
[\\]] ] not \\ a ()
[!\\]-] a not ] -
[[] [ not ]
[X-[] X Y Z [ not W ] -
[*?] * ? not a ()
*ab*abc ababc xabyabc abababc abcabcabc not abc ababcd ab abab
a*b?c* abxc aabbxcz abbbc not abc bbxc a
*?*? ab abc not a ()
**a** a ba ab not () b
";

const FAULTS: &[(&[u8], GlobFault)] = &[
    (b"[", GlobFault::Unclosed),
    (b"[!", GlobFault::Unclosed),
    (b"[a-", GlobFault::Unclosed),
    (b"[abc", GlobFault::Unclosed),
    (b"[a\\]", GlobFault::Unclosed),
    (b"[a][", GlobFault::Unclosed),
    (b"[a-]b[", GlobFault::Unclosed),
    (b"[]", GlobFault::EmptySet),
    (b"[!]", GlobFault::EmptySet),
    (b"[]a]", GlobFault::EmptySet),
    (b"[]\\", GlobFault::EmptySet),
    (b"[][", GlobFault::EmptySet),
    (b"a[b]*[!]c", GlobFault::EmptySet),
    (b"\\", GlobFault::LoneEscape),
    (b"a*\\", GlobFault::LoneEscape),
    (b"[a\\", GlobFault::LoneEscape),
    (b"[\\", GlobFault::LoneEscape),
    (b"[!\\", GlobFault::LoneEscape),
];

#[test]
fn matches_whole_texts(rt: HostRuntime) -> Result<(), Fail> {
    for line in TABLE.lines() {
        check_line(&rt, line)?;
    }
    Ok(())
}

/// Checks that a line's pattern matches what the line says, and nothing that stands there after `not`.
fn check_line(rt: &impl Abort, line: &str) -> Result<(), Fail> {
    let mut words = line.split_whitespace();
    let pattern = words.next().unwrap_or("()");
    let mut matched = true;
    for word in words {
        if word == "not" {
            matched = false;
        } else {
            let found = matches(text_of(pattern), text_of(word))?;
            word_holds(rt, found == matched, word, line);
        }
    }
    Ok(())
}

/// The text that a word of the table stands for.
fn text_of(word: &str) -> &[u8] {
    if word == "()" { b"" } else { word.as_bytes() }
}

/// The pattern of a text.
fn pattern(text: &[u8]) -> Result<Pattern, Fail> {
    if text.len() > PATTERN_MAX {
        return Err("too long".into());
    }
    Ok(Pattern::parse(text)?)
}

fn matches(text: &[u8], whole: &[u8]) -> Result<bool, Fail> {
    Ok(pattern(text)?.matches(whole))
}

/// The fault of a text that is no pattern.
fn fault(text: &[u8]) -> Option<GlobFault> {
    if text.len() > PATTERN_MAX {
        return None;
    }
    Pattern::parse(text).err()
}

#[test]
fn tells_the_first_fault(rt: HostRuntime) {
    for (text, wanted) in FAULTS {
        assert!(rt; fault(text) == Some(*wanted), "{text:?}");
    }
}

#[test]
fn many_stars_are_quick(rt: HostRuntime) -> Result<(), Fail> {
    assert!(rt; matches(&[b'*'; 31], &[b'a'; 31])?);
    let apart = b"*a*a*a*a*a*a*a*a*a*a*a*a*a*a*a*a*a*a*a*a*a*a*a*a*a*a*a*a*a*a*b";
    assert!(rt; !matches(apart, &[b'a'; 63])?);
    Ok(())
}

#[test]
fn only_the_empty_pattern_is_empty(rt: HostRuntime) -> Result<(), Fail> {
    for (text, is_empty) in [(b"".as_slice(), true), (b"[a]", false), (b"***", false)] {
        assert!(rt; pattern(text)?.is_empty() == is_empty);
    }
    Ok(())
}
