//! What a consumer asks for by the bytes of a line.
ghost use Rattle.std.specs.Prelude.{◌≡◌, ◌≢◌, Some, None, Ok, Err, IfOk, IfErr, IfSome, option_map};
ghost use Rattle.std.specs.String.{string_bytes};
ghost use Rattle.serde_json.specs.View.{view};
ghost use Rattle.dt_life.specs.Ask.{line_asks};
ghost use Rattle.dt_life.specs.Refusal.{IsNoCommand};
ghost use Rattle.dt_proto.specs.Line.{field_text, field_number, option_request, request_of, requested_by, requested, value_in, value_of, ask_in};
ghost use Rattle.dt_proto.specs.Asked.{form_lent};

use crate::asked::WholeLine;
use crate::limits::LINE_MAX;
use dt_life::{Command, OptionValue, Refusal};
use serde_json::Value;
use std::alloc::{AllocError, Global};

/// What a consumer asks for by a line, or why the line is refused. `Err`: memory ran out; the line may be read again.
///
/// A line of more than [`LINE_MAX`] bytes is refused `LineLong`, whatever stands in it; any other is read by
/// [`command_of`].
pub fn read_line(alloc: Global, line: WholeLine<'_>) -> Result<Result<Command, Refusal>, AllocError>
    ensures asks { IfOk result (λ asked. line_asks asked ≡ ask_in (form_lent line.entry)) }
    ensures no_command { IfOk result (λ asked. IfErr asked IsNoCommand) }
{
    match ask_line(alloc, line) {
        Ok(command) => Ok(Ok(command)),
        Err(Refusal::Memory) => Err(AllocError),
        Err(refusal) => Ok(Err(refusal)),
    }
}

/// What a consumer asks for by a line; refused `Memory` where memory ran out.
fn ask_line(alloc: Global, line: WholeLine<'_>) -> Result<Command, Refusal>
    ensures ok { IfOk result (λ command. line_asks (Ok command) ≡ ask_in (form_lent line.entry)) }
    ensures err { IfErr result (λ refusal. refusal ≢ Refusal.Memory
        → line_asks (Err refusal) ≡ ask_in (form_lent line.entry)) }
    ensures no_command { IfErr result (λ refusal. refusal ≢ Refusal.Memory → IsNoCommand refusal) }
{
    match line {
        WholeLine::Bytes(bytes) if bytes.len() <= LINE_MAX => command_of(alloc, bytes),
        WholeLine::Bytes(_) | WholeLine::Long => Err(Refusal::LineLong),
    }
}

/// What a consumer asks for by the bytes of a line, given without its newline.
///
/// The line is a JSON object, whose `cmd` names the command; keys that are none of the command's are ignored.
/// What is no JSON is refused `Json`. What is no object, names no command, or lacks a field or has it of another JSON
/// kind is refused `Request`. Any line may be refused `Memory`, and may then be asked again.
pub fn command_of(alloc: Global, line: &[u8]) -> Result<Command, Refusal>
    ensures ok { IfOk result (λ command. requested line.now ≡ Ok (request_of command)) }
    ensures err { IfErr result (λ refusal. refusal ≢ Refusal.Memory → requested line.now ≡ Err refusal) }
    ensures no_command { IfErr result (λ refusal. refusal ≢ Refusal.Memory → IsNoCommand refusal) }
{
    // most lines of a session that traces are one of these, and to build a value costs far more than to compare a line
    if let Some(command) = fixed_command(line) {
        return Ok(command);
    }
    match Value::from_slice(alloc, line) {
        Ok(request) => requested_command(alloc, &request),
        Err(fault) if fault.is_memory() => Err(Refusal::Memory),
        Err(_) => Err(Refusal::Json),
    }
}

/// The command of a line that has no field but `cmd` and is written without a blank. Any other spelling of it asks the same,
/// and is read as JSON.
fn fixed_command(line: &[u8]) -> Option<Command>
    ensures { IfSome result (λ command. requested line.now ≡ Ok (request_of command)) }
{
    if line == b"{\"cmd\":\"status\"}".as_slice() {
        Some(Command::Status)
    } else if line == b"{\"cmd\":\"go\"}".as_slice() {
        Some(Command::Go)
    } else if line == b"{\"cmd\":\"stop\"}".as_slice() {
        Some(Command::Stop)
    } else if line == b"{\"cmd\":\"close\"}".as_slice() {
        Some(Command::Close)
    } else {
        None
    }
}

/// What a JSON value asks for.
fn requested_command(alloc: Global, request: &Value) -> Result<Command, Refusal>
    ensures ok { IfOk result (λ command. requested_by (view request.now) ≡ Ok (request_of command)) }
    ensures err { IfErr result (λ refusal. refusal ≢ Refusal.Memory → requested_by (view request.now) ≡ Err refusal) }
    ensures no_command { IfErr result (λ refusal. refusal ≢ Refusal.Memory → IsNoCommand refusal) }
{
    match text_field(request, "cmd").ok_or(Refusal::Request)? {
        "option" => option_command(alloc, request),
        "enable" => {
            let text = owned_text(alloc, request, "text")?;
            Ok(Command::Enable { text })
        }
        "go" => Ok(Command::Go),
        "stop" => Ok(Command::Stop),
        "snap" => {
            let cpu = number_field(request, "cpu").ok_or(Refusal::Request)?;
            Ok(Command::Snap { cpu })
        }
        "agg" => {
            let name = owned_text(alloc, request, "name")?;
            Ok(Command::Agg { name })
        }
        "trunc" => {
            let name = owned_text(alloc, request, "name")?;
            Ok(Command::Trunc { name })
        }
        "status" => Ok(Command::Status),
        "list" => {
            let probe = owned_text(alloc, request, "probe")?;
            Ok(Command::List { probe })
        }
        "describe" => {
            let epid = number_field(request, "epid").ok_or(Refusal::Request)?;
            Ok(Command::Describe { epid })
        }
        "close" => Ok(Command::Close),
        _ => Err(Refusal::Request),
    }
}

/// The `option` that a JSON value asks for. Its `value` may be of any kind: whether the option takes it, the consumer
/// judges.
fn option_command(alloc: Global, request: &Value) -> Result<Command, Refusal>
    ensures ok { IfOk result (λ command. option_request (view request.now) ≡ Some (request_of command)) }
    ensures err { IfErr result (λ refusal. refusal ≢ Refusal.Memory
        → (refusal ≡ Refusal.Request) × (option_request (view request.now) ≡ None)) }
{
    let name = text_field(request, "name").ok_or(Refusal::Request)?;
    let value = request.get("value").ok_or(Refusal::Request)?;
    let name = String::from_str(alloc, name).map_err(|_| Refusal::Memory)?;
    let value = option_value(alloc, value).map_err(|_| Refusal::Memory)?;
    Ok(Command::Option { name, value })
}

/// What a JSON value is as an option's.
fn option_value(alloc: Global, value: &Value) -> Result<OptionValue, AllocError>
    ensures { IfOk result (λ given. value_of given ≡ value_in (view value.now)) }
{
    if let Some(number) = value.as_u64() {
        Ok(OptionValue::Number(number))
    } else if let Some(text) = value.as_str() {
        Ok(OptionValue::Text(String::from_str(alloc, text)?))
    } else {
        Ok(OptionValue::Other)
    }
}

/// The text of a field, where it is one, in memory of its own.
fn owned_text(alloc: Global, request: &Value, key: &str) -> Result<String, Refusal>
    ensures ok { IfOk result (λ text. field_text key.now (view request.now) ≡ Some (string_bytes text)) }
    ensures err { IfErr result (λ refusal. refusal ≢ Refusal.Memory
        → (refusal ≡ Refusal.Request) × (field_text key.now (view request.now) ≡ None)) }
{
    let text = text_field(request, key).ok_or(Refusal::Request)?;
    String::from_str(alloc, text).map_err(|_| Refusal::Memory)
}

/// The text of a field, where it is one.
fn text_field<'v>(request: &'v Value, key: &str) -> Option<&'v str>
    ensures { option_map (λ text. text.now) result ≡ field_text key.now (view request.now) }
{
    request.get(key).and_then(Value::as_str)
}

/// The number of a field, where it is one that fits 64 bits and has no sign.
fn number_field(request: &Value, key: &str) -> Option<u64>
    ensures { result ≡ field_number key.now (view request.now) }
{
    request.get(key).and_then(Value::as_u64)
}
