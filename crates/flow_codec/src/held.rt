//! What a plain value can hold.

ghost use Rattle.std.specs.Prelude.{◌≡◌, true, map};
ghost use Rattle.std.specs.List.{list_all};
ghost use Rattle.flow_base.specs.Values.{is_plain};
ghost use Rattle.flow_codec.specs.Holding.{is_held, is_int, is_text};

use flow_base::{Text, Value};

#[tactic(auto, using(crate::proofs::Values::text_is))]
fn text_held(text: &Text) -> bool
    ensures text { result ≡ is_text text.now }
    ensures yes { result ≡ true }
{
    let _bytes = text.as_slice();
    true
}

#[tactic(auto, using(crate::proofs::Values::int_held))]
fn int_held(n: i64) -> bool
    ensures int { result ≡ is_int n }
    ensures yes { result ≡ true }
{
    true
}

/// Whether the value is plain: no future and no output stands in it. Then its numbers have 64 bits, and each byte of
/// its texts is a newline or printable ASCII.
#[cycle(held)]
#[tactic(auto, unfolding(crate::specs::Holding::is_held, flow_base::specs::Values::is_plain))]
pub fn is_held(value: &Value) -> bool
    ensures held { result ≡ is_held value.now }
    ensures plain { result ≡ is_plain value.now }
{
    match value {
        Value::Int(n) => int_held(*n),
        Value::Text(text) => text_held(text),
        Value::List(items) => all_held(items.as_slice()),
        Value::File { name, content } => text_held(name) && text_held(content),
        Value::Future { .. } => false,
        Value::Output { .. } => false,
        Value::Nothing => true,
    }
}

#[cycle(held)]
fn all_held(values: &[Value]) -> bool
    ensures held { result ≡ list_all (λ b. b) (map is_held values.now) }
    ensures plain { result ≡ list_all (λ b. b) (map is_plain values.now) }
{
    for value in values {
        if !is_held(value) {
            return false;
        }
    }
    true
}
