//! Blanks: what stands between tokens.
ghost use Rattle.std.specs.Prelude.{◌≡◌, ◌≢◌, ℕ, ◌<◌, ◌≤◌, List, ◌∷◌, length, IfSome, IfNone};
ghost use Rattle.dt_lang.specs.Blanks.{HasNoEnd, EndsComment, StripsBlank, SkipsBlanks};

/// What stands after the blanks at the front of a text. A comment that isn't closed is no blank.
pub(crate) fn skip_blanks(text: &[u8]) -> &[u8]
    ensures skipped { SkipsBlanks text.now result.now }
    ensures shorter { length result.now ≤ length text.now }
{
    let mut rest = text;
    while let Some(behind) = strip_blank(rest) {
        rest = behind;
    }
    rest
}

/// What stands after the one blank at the front of a text: a blank byte, or a comment.
fn strip_blank(text: &[u8]) -> Option<&[u8]>
    ensures some { IfSome result (λ rest. StripsBlank text.now rest.now) }
    ensures shorter { IfSome result (λ rest. length rest.now < length text.now) }
    ensures none { IfNone result ((rest : List ℕ) → StripsBlank text.now rest → ⊥) }
{
    match text {
        [b' ' | b'\t' | b'\n' | b'\r', rest @ ..] => Some(rest),
        [b'/', b'*', inside @ ..] => behind_comment(inside),
        _ => None,
    }
}

/// What stands after the first `*/`.
fn behind_comment(text: &[u8]) -> Option<&[u8]>
    ensures some { IfSome result (λ rest. EndsComment text.now rest.now) }
    ensures shorter { IfSome result (λ rest. length rest.now < length text.now) }
    ensures none { IfNone result (HasNoEnd text.now) }
{
    let mut rest = text;
    while let Some((_, behind)) = rest.split_first() {
        // comments don't nest: the first `*/` ends this one
        if let Some(after) = strip_end(rest) {
            return Some(after);
        }
        rest = behind;
    }
    None
}

/// What stands after a `*/`.
fn strip_end(text: &[u8]) -> Option<&[u8]>
    ensures some { IfSome result (λ rest. text.now ≡ 42 ∷ 47 ∷ rest.now) }
    ensures none { IfNone result ((rest : List ℕ) → text.now ≢ 42 ∷ 47 ∷ rest) }
{
    match text {
        [b'*', b'/', rest @ ..] => Some(rest),
        _ => None,
    }
}
