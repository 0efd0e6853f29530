//! Fields of a reply.
ghost use Rattle.std.specs.Prelude.{◌≡◌, option_map};
ghost use Rattle.serde_json.specs.View.{view};
ghost use Rattle.dt_front.specs.Replies.{told_number, told_text};

use serde_json::Value;

/// The text of a field, where it is one.
pub fn text_field<'v>(reply: &'v Value, key: &str) -> Option<&'v str>
    ensures { option_map (λ text. text.now) result ≡ told_text key.now (view reply.now) }
{
    reply.get(key).and_then(Value::as_str)
}

/// The number of a field, where it is one that fits 64 bits and has no sign.
pub fn number_field(reply: &Value, key: &str) -> Option<u64>
    ensures { result ≡ told_number key.now (view reply.now) }
{
    reply.get(key).and_then(Value::as_u64)
}
