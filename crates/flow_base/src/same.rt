//! Equality of values.

ghost use Rattle.std.specs.Prelude.{◌≡◌, bytes_eq, map};
ghost use Rattle.flow_base.specs.Values.{all_match, same};

use crate::path::Path;
use crate::value::Value;

impl Value {
    /// Whether both are the same by structure.
    #[cycle(same)]
    #[tactic(auto, unfolding(crate::specs::Values::same))]
    pub fn same(&self, other: &Value) -> bool
        ensures { result ≡ same self.now other.now }
    {
        match self {
            Value::Int(a) => matches!(other, Value::Int(b) if a == b),
            Value::Text(a) => matches!(other, Value::Text(b) if a.same(b)),
            Value::List(items) => match other {
                Value::List(others) => all_same(items.as_slice(), others.as_slice()),
                _ => false,
            },
            Value::File { name, content } => match other {
                Value::File {
                    name: n,
                    content: c,
                } => name.same(n) && content.same(c),
                _ => false,
            },
            Value::Future { path, outputs } => match other {
                Value::Future {
                    path: p,
                    outputs: n,
                } => same_path(path, p) && outputs == n,
                _ => false,
            },
            Value::Output { path, index } => match other {
                Value::Output { path: p, index: i } => same_path(path, p) && index == i,
                _ => false,
            },
            Value::Nothing => matches!(other, Value::Nothing),
        }
    }
}

/// Whether there are as many of both, each the same as the one in its place.
#[cycle(same)]
#[tactic(auto, unfolding(crate::specs::Values::same))]
pub fn all_same(items: &[Value], others: &[Value]) -> bool
    ensures { result ≡ all_match (map same items.now) others.now }
{
    if items.len() != others.len() {
        return false;
    }
    for i in 0..items.len() {
        if !items[i].same(&others[i]) {
            return false;
        }
    }
    true
}

fn same_path(path: &Path, other: &Path) -> bool
    ensures { result ≡ bytes_eq path.now other.now }
{
    path.as_slice() == other.as_slice()
}
