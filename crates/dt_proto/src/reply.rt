//! The line that a consumer is answered.
ghost use Rattle.std.specs.Prelude.{◌≡◌, ℕ, ◌<◌, ℤ, List, [], ◌++◌, Bool, Some, None, if◌then◌else◌, IfOk, codes, decimal, map};
ghost use Rattle.std.specs.Fmt.{signed_decimal};
ghost use Rattle.std.specs.List.{AllByRecursion, join_with_byte};
ghost use Rattle.dt_aggfn.specs.declared.function.AggFn.{AggFn};
ghost use Rattle.dt_aggstore.specs.Table.{RowForm};
ghost use Rattle.dt_cred.specs.declared.probe.Probe.{Probe};
ghost use Rattle.serde_json.specs.Data.{object, string};
ghost use Rattle.serde_json.specs.View.{view};
ghost use Rattle.hex.specs.Hex.{encode_lower};
ghost use Rattle.dt_names.specs.Bytes.{comma};
ghost use Rattle.dt_life.specs.Answer.{Answer, done, enabled, snapped, aggregated, status, listed, described, refused, answer_of};
ghost use Rattle.dt_life.specs.declared.phase.Phase.{Phase};
ghost use Rattle.dt_life.specs.declared.phase.End.TheVariants.{Stop, Exit, History};
ghost use Rattle.dt_lang.specs.Fault.{why_word};
ghost use Rattle.dt_lang.specs.Word.{name_of_destructive};
ghost use Rattle.dt_lang.specs.declared.fault.Why.{Why};
ghost use Rattle.dt_lang.specs.declared.word.Destructive.{Destructive};
ghost use Rattle.dt_ecb.specs.declared.fault.RestrictedAction.TheVariants.{Stack};
ghost use Rattle.serde_json.specs.Written.{compact_text};
ghost use Rattle.dt_record.specs.Fields.{form_of_field, form_of_layout};
ghost use Rattle.dt_record.specs.Layout.{FieldForm, layout_size};
ghost use Rattle.dt_proto.specs.Reply.{describe_text, field_data, quoted_word, fields_in, refusal_members, probe_text, reply_members, reply_text, status_text};
ghost use Rattle.dt_proto.specs.Rows.{function_word, row_text};
ghost use Rattle.dt_proto.specs.Scalars.{characters};

use crate::text::text_of;
use crate::written::{enabled_line, listed_line, snapped_line, status_line, table_line};
use dt_cred::Probe;
use dt_ecb::RestrictedAction;
use dt_lang::{Destructive, Why};
use dt_life::{Refusal, Reply};
use dt_names::ShortText;
use dt_record::{Field, Layout};
use serde_json::{Value, json};
use std::alloc::{AllocError, Global};

/// The line that a reply is, with its newline: JSON with the keys in the order of their bytes and no blanks.
pub fn reply_bytes(alloc: Global, reply: &Reply) -> Result<Vec<u8>, AllocError>
    ensures { IfOk result (λ bytes. bytes.items ≡ reply_text (answer_of reply.now)) }
{
    match reply {
        Reply::Done => Vec::from_slice(alloc, b"{\"ok\":true}\n"),
        Reply::Enabled { count, first } => enabled_line(alloc, *count, *first),
        Reply::Snapped {
            cpu,
            data,
            drops,
            filled,
        } => snapped_line(alloc, *cpu, data, *drops, *filled),
        Reply::Aggregated {
            name,
            function,
            rows,
        } => table_line(alloc, name.as_bytes(), *function, rows),
        Reply::Status {
            phase,
            seen,
            errors,
            aggdrops,
            dyndrops,
            specdrops,
            specfails,
        } => status_line(
            alloc, *phase, *seen, errors, aggdrops, dyndrops, specdrops, *specfails,
        ),
        Reply::Listed { probes } => listed_line(alloc, probes),
        Reply::Described {
            epid,
            probe,
            layout,
        } => line_of(alloc, &described_value(alloc, *epid, probe, layout)?),
        Reply::Refused(refusal) => line_of(alloc, &refusal_value(alloc, *refusal)?),
    }
}

/// The line that stands in place of any answer where memory ran out: refusal 16, with its newline. It takes no memory.
pub fn memory_line() -> &'static [u8]
    ensures { result.now ≡ reply_text (refused Refusal.Memory) }
{
    b"{\"error\":16,\"name\":\"Memory\"}\n"
}

/// The line of a reply's JSON value, with its newline.
fn line_of(alloc: Global, value: &Value) -> Result<Vec<u8>, AllocError>
    requires { (answer : Answer) × (view value.now ≡ object (reply_members answer)) }
    ensures { IfOk result (λ line. (answer : Answer) → view value.now ≡ object (reply_members answer)
        → line.items ≡ reply_text answer) }
{
    let mut line = value.to_vec(alloc)?;
    line.push(b'\n')?;
    Ok(line)
}

fn described_value(
    alloc: Global,
    epid: u32,
    probe: &Probe,
    layout: &Layout,
) -> Result<Value, AllocError>
    ensures { IfOk result (λ value. view value ≡ object (reply_members (described epid probe.now (form_of_layout layout.now)))) }
{
    let words = field_words(alloc, layout)?;
    let name = probe.tuple.to_string(alloc)?;
    json!(in alloc; {"epid": epid, "id": probe.id, "layout": words, "ok": true, "probe": name, "size": layout.size()})
}

/// The word for each value of a record; none where there is no record.
fn field_words(alloc: Global, layout: &Layout) -> Result<Vec<Value>, AllocError>
    ensures { IfOk result (λ values. map view values.items ≡ map field_data (fields_in (form_of_layout layout.now))) }
{
    let mut values = Vec::new(alloc);
    if let Some(fields) = &layout.fields {
        for field in fields.as_slice() {
            values.push(field_value(alloc, *field)?)?;
        }
    }
    Ok(values)
}

fn field_value(alloc: Global, field: Field) -> Result<Value, AllocError>
    ensures { IfOk result (λ value. view value ≡ field_data (form_of_field field)) }
{
    let word = match field {
        Field::Number => String::from_str(alloc, "number")?,
        Field::Text => String::from_str(alloc, "string")?,
        Field::Stack(frames) => format!(in alloc; "stack{}", frames.count)?,
        Field::Ustack(frames) => format!(in alloc; "ustack{}", frames.count)?,
    };
    Ok(Value::String(word))
}

fn refusal_value(alloc: Global, refusal: Refusal) -> Result<Value, AllocError>
    ensures { IfOk result (λ value. view value ≡ object (refusal_members refusal)) }
{
    match refusal {
        Refusal::Program { at, why } => program_value(alloc, at, why),
        Refusal::Privilege { clause, what } => privilege_value(alloc, clause, what),
        Refusal::Destructive { at, what } => destructive_value(alloc, at, what),
        Refusal::AggClash { what } => clash_value(alloc, what),
        Refusal::NoMatch { clause } => no_match_value(alloc, clause),
        // of any other there is no more to tell
        _ => json!(in alloc; {"error": refusal.number(), "name": refusal.name()}),
    }
}

fn program_value(alloc: Global, at: usize, why: Why) -> Result<Value, AllocError>
    ensures { IfOk result (λ value. view value ≡ object (refusal_members (Refusal.Program at why))) }
{
    let refusal = Refusal::Program { at, why };
    json!(in alloc; {"at": at, "error": refusal.number(), "name": refusal.name(), "why": why.word()})
}

fn privilege_value(alloc: Global, clause: u32, what: RestrictedAction) -> Result<Value, AllocError>
    ensures { IfOk result (λ value. view value ≡ object (refusal_members (Refusal.Privilege clause what))) }
{
    let refusal = Refusal::Privilege { clause, what };
    json!(in alloc; {"clause": clause, "error": refusal.number(), "name": refusal.name(), "what": what.word()})
}

fn destructive_value(alloc: Global, at: usize, what: Destructive) -> Result<Value, AllocError>
    ensures { IfOk result (λ value. view value ≡ object (refusal_members (Refusal.Destructive at what))) }
{
    let refusal = Refusal::Destructive { at, what };
    json!(in alloc; {"at": at, "error": refusal.number(), "name": refusal.name(), "what": what.name()})
}

fn clash_value(alloc: Global, what: ShortText) -> Result<Value, AllocError>
    ensures { IfOk result (λ value. view value ≡ object (refusal_members (Refusal.AggClash what))) }
{
    let refusal = Refusal::AggClash { what };
    let text = text_of(alloc, what.as_bytes())?;
    json!(in alloc; {"error": refusal.number(), "name": refusal.name(), "what": text})
}

fn no_match_value(alloc: Global, clause: u32) -> Result<Value, AllocError>
    ensures { IfOk result (λ value. view value ≡ object (refusal_members (Refusal.NoMatch clause))) }
{
    let refusal = Refusal::NoMatch { clause };
    json!(in alloc; {"clause": clause, "error": refusal.number(), "name": refusal.name()})
}

/// Law: the texts of the replies, letter by letter. The data is that of bytes, each below 256.
pub fn reply_texts()
    ensures done { reply_text done ≡ codes "{\"ok\":true}\n" }
    ensures enabled { (count first : ℕ) → reply_text (enabled count first)
        ≡ codes "{\"count\":" ++ decimal count ++ codes ",\"first\":" ++ decimal first ++ codes ",\"ok\":true}\n" }
    // the reply to a `snap`: its data is two lower case digits for each byte of the records
    ensures snapped { (cpu drops : ℕ) (bytes : List ℕ) (filled : Bool) → AllByRecursion (λ byte. byte < 256) bytes
        → reply_text (snapped cpu bytes drops filled)
        ≡ codes "{\"cpu\":" ++ decimal cpu ++ codes ",\"data\":\"" ++ encode_lower bytes
        ++ codes "\",\"drops\":" ++ decimal drops
        ++ codes ",\"filled\":" ++ (if filled then codes "true" else codes "false") ++ codes ",\"ok\":true}\n" }
    ensures listed { (probes : List Probe) → reply_text (listed probes)
        ≡ codes "{\"ok\":true,\"probes\":[" ++ join_with_byte comma (map probe_text probes) ++ codes "]}\n" }

    // the reply to an `agg`: the name as JSON quotes it, the rows with commas between them
    ensures aggregated { (name : List ℕ) (function : AggFn) (rows : List RowForm)
        → reply_text (aggregated name function rows)
        ≡ codes "{\"fn\":\"" ++ function_word function ++ codes "\",\"name\":"
        ++ compact_text (string (characters name)) ++ codes ",\"ok\":true,\"rows\":["
        ++ join_with_byte comma (map row_text rows) ++ codes "]}\n" }

    ensures inactive { (seen : ℕ) (errors aggdrops dyndrops specdrops : List ℕ) (specfails : ℕ)
        → reply_text (status Phase.Inactive seen errors aggdrops dyndrops specdrops specfails)
        ≡ status_text (codes "null") (codes "null") (codes "inactive")
        seen errors aggdrops dyndrops specdrops specfails }
    ensures active { (seen : ℕ) (errors aggdrops dyndrops specdrops : List ℕ) (specfails : ℕ)
        → reply_text (status Phase.Active seen errors aggdrops dyndrops specdrops specfails)
        ≡ status_text (codes "null") (codes "null") (codes "active")
        seen errors aggdrops dyndrops specdrops specfails }
    ensures stopped { (seen : ℕ) (errors aggdrops dyndrops specdrops : List ℕ) (specfails : ℕ)
        → reply_text (status (Phase.Stopped (Some Stop)) seen errors aggdrops dyndrops specdrops specfails)
        ≡ status_text (codes "\"stop\"") (codes "null") (codes "stopped")
        seen errors aggdrops dyndrops specdrops specfails }
    ensures exited { (code : ℤ) (seen : ℕ) (errors aggdrops dyndrops specdrops : List ℕ) (specfails : ℕ)
        → reply_text (status (Phase.Stopped (Some (Exit code))) seen errors aggdrops dyndrops specdrops specfails)
        ≡ status_text (codes "\"exit\"") (signed_decimal code) (codes "stopped")
        seen errors aggdrops dyndrops specdrops specfails }
    ensures history { (seen : ℕ) (errors aggdrops dyndrops specdrops : List ℕ) (specfails : ℕ)
        → reply_text (status (Phase.Stopped (Some History)) seen errors aggdrops dyndrops specdrops specfails)
        ≡ status_text (codes "\"history\"") (codes "null") (codes "stopped")
        seen errors aggdrops dyndrops specdrops specfails }
    ensures closed { (seen : ℕ) (errors aggdrops dyndrops specdrops : List ℕ) (specfails : ℕ)
        → reply_text (status (Phase.Stopped None) seen errors aggdrops dyndrops specdrops specfails)
        ≡ status_text (codes "null") (codes "null") (codes "stopped")
        seen errors aggdrops dyndrops specdrops specfails }
    ensures described { (epid : ℕ) (probe : Probe) (fields : List FieldForm)
        → reply_text (described epid probe (Some fields))
        ≡ describe_text epid probe (join_with_byte comma (map quoted_word fields)) (decimal (layout_size (Some fields))) }
    ensures described_unrecorded { (epid : ℕ) (probe : Probe) → reply_text (described epid probe None)
        ≡ describe_text epid probe [] (codes "0") }

    ensures json { reply_text (refused Refusal.Json) ≡ codes "{\"error\":1,\"name\":\"Json\"}\n" }
    ensures request { reply_text (refused Refusal.Request) ≡ codes "{\"error\":2,\"name\":\"Request\"}\n" }
    ensures line_long { reply_text (refused Refusal.LineLong) ≡ codes "{\"error\":3,\"name\":\"LineLong\"}\n" }
    ensures program { (at : ℕ) (why : Why) → reply_text (refused (Refusal.Program at why))
        ≡ codes "{\"at\":" ++ decimal at ++ codes ",\"error\":4,\"name\":\"Program\",\"why\":\"" ++ why_word why ++ codes "\"}\n" }
    ensures no_match { (clause : ℕ) → reply_text (refused (Refusal.NoMatch clause))
        ≡ codes "{\"clause\":" ++ decimal clause ++ codes ",\"error\":5,\"name\":\"NoMatch\"}\n" }
    ensures privilege { (clause : ℕ) → reply_text (refused (Refusal.Privilege clause Stack))
        ≡ codes "{\"clause\":" ++ decimal clause ++ codes ",\"error\":6,\"name\":\"Privilege\",\"what\":\"stack\"}\n" }
    ensures destructive { (at : ℕ) (what : Destructive) → reply_text (refused (Refusal.Destructive at what))
        ≡ codes "{\"at\":" ++ decimal at ++ codes ",\"error\":7,\"name\":\"Destructive\",\"what\":\"" ++ name_of_destructive what ++ codes "\"}\n" }
    ensures clash { (what : List ℕ) → reply_text (refused (Refusal.AggClash what))
        ≡ codes "{\"error\":8,\"name\":\"AggClash\",\"what\":" ++ compact_text (string (characters what)) ++ codes "}\n" }
    ensures limit { reply_text (refused Refusal.Limit) ≡ codes "{\"error\":9,\"name\":\"Limit\"}\n" }
    ensures busy { reply_text (refused Refusal.Busy) ≡ codes "{\"error\":10,\"name\":\"Busy\"}\n" }
    ensures option { reply_text (refused Refusal.Option) ≡ codes "{\"error\":11,\"name\":\"Option\"}\n" }
    ensures no_cpu { reply_text (refused Refusal.NoCpu) ≡ codes "{\"error\":12,\"name\":\"NoCpu\"}\n" }
    ensures no_agg { reply_text (refused Refusal.NoAgg) ≡ codes "{\"error\":13,\"name\":\"NoAgg\"}\n" }
    ensures no_epid { reply_text (refused Refusal.NoEpid) ≡ codes "{\"error\":14,\"name\":\"NoEpid\"}\n" }
    ensures quota { reply_text (refused Refusal.Quota) ≡ codes "{\"error\":15,\"name\":\"Quota\"}\n" }
    ensures memory { reply_text (refused Refusal.Memory) ≡ codes "{\"error\":16,\"name\":\"Memory\"}\n" }
{}
