//! Whether a future or an output stands too deep.

ghost use Rattle.std.specs.Prelude.{◌≡◌, not, ◌&&◌};
ghost use Rattle.flow_base.specs.declared.value.Value.{out-Value};
ghost use Rattle.flow_base.specs.Values.{is_plain};
ghost use Rattle.flow_meaning.specs.Inputs as definition;

use flow_base::Value;

/// Whether a future or an output stands in a list that is an item of a list argument.
#[tactic(auto, unfolding(flow_meaning::specs::Inputs::are_deep))]
pub fn are_deep(arguments: &[Value]) -> bool
    ensures { result ≡ definition.are_deep arguments.now }
{
    for argument in arguments {
        if is_deep(argument) {
            return true;
        }
    }
    false
}

fn is_deep(argument: &Value) -> bool
    ensures { result ≡ definition.deep_in (out-Value argument.now) }
{
    match argument {
        Value::List(items) => {
            for item in items.as_slice() {
                if is_deep_item(item) {
                    return true;
                }
            }
            false
        }
        _ => false,
    }
}

fn is_deep_item(item: &Value) -> bool
    ensures { result ≡ (definition.is_list (out-Value item.now) && not (is_plain item.now)) }
{
    match item {
        Value::List(_) => !item.is_plain(),
        _ => false,
    }
}
