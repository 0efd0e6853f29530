//! Replies as what they tell.
ghost use Rattle.std.specs.Prelude.{◌≡◌, ◌≢◌, ℕ, ◌≤◌, IfOk, MatchOption, Some, List, decimal, map, option_map};
ghost use Rattle.serde_json.specs.Data.{string};
ghost use Rattle.serde_json.specs.View.{view};
ghost use Rattle.dt_record.specs.Fields.{form_of_field, form_of_layout};
ghost use Rattle.dt_program.specs.Limits.{frames_max};
ghost use Rattle.dt_record.specs.Layout.{FieldForm, stack, ustack, field_word};
ghost use Rattle.dt_front.specs.CountForms.{form_of_row_count};
ghost use Rattle.dt_front.specs.Replies.{AreWordsOf, IsLayoutField, all_told, told_count, told_name, told_part, told_signed};
ghost use Rattle.dt_front.specs.TableForms.{form_of_key_part};

use crate::distribution::RowCount;
use crate::table::KeyColumn;
use arrayvec::ArrayVec;
use dt_program::Frames;
use dt_record::{Field, Layout};
use serde_json::Value;
use std::alloc::{AllocError, Global};

/// The number with a sign that a value is, where it is one of 64 bits.
pub fn signed_in(value: &Value) -> Option<i64>
    ensures { result ≡ told_signed (view value.now) }
{
    value.as_i64()
}

/// The key that the values of a row's key are; `None` where one is neither a number nor a text.
pub fn key_in(alloc: Global, values: &[Value]) -> Result<Option<Vec<KeyColumn>>, AllocError>
    ensures { IfOk result (λ key. option_map (λ key. map form_of_key_part key.items) key ≡ all_told told_part (map view values.now)) }
{
    let mut key = Vec::new(alloc);
    for value in values {
        match part_in(alloc, value)? {
            Some(part) => key.push(part)?,
            None => return Ok(None),
        }
    }
    Ok(Some(key))
}

/// The part of a key that a value is.
fn part_in(alloc: Global, value: &Value) -> Result<Option<KeyColumn>, AllocError>
    ensures { IfOk result (λ part. option_map form_of_key_part part ≡ told_part (view value.now)) }
{
    if let Some(number) = value.as_i64() {
        return Ok(Some(KeyColumn::Number(number)));
    }
    match value.as_str() {
        Some(text) => Ok(Some(KeyColumn::Text(Vec::from_slice(alloc, text.as_bytes())?))),
        None => Ok(None),
    }
}

/// The counts that the values of a distribution are; `None` where one isn't a row's name and its count.
pub fn counts_in(alloc: Global, values: &[Value]) -> Result<Option<Vec<RowCount>>, AllocError>
    ensures { IfOk result (λ counts. option_map (λ counts. map form_of_row_count counts.items) counts ≡ all_told told_count (map view values.now)) }
{
    let mut counts = Vec::new(alloc);
    for value in values {
        match counted_in(value) {
            Some(counted) => counts.push(counted)?,
            None => return Ok(None),
        }
    }
    Ok(Some(counts))
}

/// The count that a value is.
fn counted_in(value: &Value) -> Option<RowCount>
    ensures { option_map form_of_row_count result ≡ told_count (view value.now) }
{
    let least = name_in(value.get(0)?)?;
    let count = value.get(1)?.as_u64()?;
    Some(RowCount { least, count })
}

/// The row's name that a value is.
fn name_in(value: &Value) -> Option<Option<i64>>
    ensures { result ≡ told_name (view value.now) }
{
    match value.as_i64() {
        Some(name) => Some(Some(name)),
        None => match value.as_null() {
            Some(_) => Some(None),
            None => None,
        },
    }
}

/// The layout that the words of a `describe` name; `None` where one names no field, or there are too many.
pub fn layout_in(words: &[Value]) -> Option<Layout>
    ensures { MatchOption result
        ((fields : List FieldForm) → AreWordsOf (map view words.now) fields → ⊥)
        (λ layout. (fields : List FieldForm) × (form_of_layout layout ≡ Some fields) × AreWordsOf (map view words.now) fields) }
{
    let mut fields = ArrayVec::new();
    for word in words {
        match told_field(word) {
            Some(field) => {
                if fields.is_full() {
                    return None;
                }
                fields.push(field);
            }
            None => return None,
        }
    }
    Some(Layout {
        fields: Some(fields),
    })
}

/// The field that a value names, where it is a word that does.
fn told_field(value: &Value) -> Option<Field>
    ensures { MatchOption result
        ((field : FieldForm) → IsLayoutField field → view value.now ≢ string (field_word field))
        (λ field. view value.now ≡ string (field_word (form_of_field field))) }
{
    match value.as_str() {
        Some(word) => field_in(word),
        None => None,
    }
}

/// The field that a word names.
fn field_in(word: &str) -> Option<Field>
    ensures { MatchOption result
        ((field : FieldForm) → IsLayoutField field → word.now ≢ field_word field)
        (λ field. word.now ≡ field_word (form_of_field field)) }
{
    match word {
        "number" => Some(Field::Number),
        "string" => Some(Field::Text),
        _ => stack_in(word.as_bytes()),
    }
}

/// The stack that a word names: so many frames of the kernel's or of the process's.
fn stack_in(word: &[u8]) -> Option<Field>
    ensures { MatchOption result
        ((n : ℕ) → IsLayoutField (stack n) → word.now ≢ field_word (stack n) × word.now ≢ field_word (ustack n))
        (λ field. word.now ≡ field_word (form_of_field field)) }
{
    if let Some(count) = word.strip_prefix(b"ustack") {
        return Some(Field::Ustack(frames_in(count)?));
    }
    let count = word.strip_prefix(b"stack")?;
    Some(Field::Stack(frames_in(count)?))
}

/// So many frames, by the digit that says so.
fn frames_in(count: &[u8]) -> Option<Frames>
    ensures { MatchOption result
        ((n : ℕ) → 1 ≤ n → n ≤ frames_max → count.now ≢ decimal n)
        (λ frames. count.now ≡ decimal frames.count) }
{
    match count {
        [digit] => Frames::new(i64::from(*digit) - i64::from(b'0')),
        _ => None,
    }
}
