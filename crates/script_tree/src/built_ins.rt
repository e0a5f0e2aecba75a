//! The built-ins by name, and how many arguments each takes.

ghost use Rattle.std.specs.Prelude.{◌≡◌};
ghost use Rattle.script_tree.specs.BuiltIns as table;

use crate::tree::BuiltIn;
use flow_base::Text;

/// The built-in of a name.
#[tactic(auto, unfolding(crate::specs::BuiltIns::built_in_named))]
pub fn named(name: &Text) -> Option<BuiltIn>
    ensures { result ≡ table.built_in_named name.now }
{
    match name.as_str() {
        "len" => Some(BuiltIn::Len),
        "text" => Some(BuiltIn::Text),
        "number" => Some(BuiltIn::Number),
        "slice" => Some(BuiltIn::Slice),
        "range" => Some(BuiltIn::Range),
        "append" => Some(BuiltIn::Append),
        "split" => Some(BuiltIn::Split),
        "concat" => Some(BuiltIn::Concat),
        "file" => Some(BuiltIn::File),
        "name" => Some(BuiltIn::Name),
        "content" => Some(BuiltIn::Content),
        "output" => Some(BuiltIn::Output),
        "result" => Some(BuiltIn::Result),
        "exception" => Some(BuiltIn::Exception),
        _ => None,
    }
}

/// How many arguments a built-in takes.
pub fn arity(built_in: BuiltIn) -> usize
    ensures { result ≡ table.arity built_in }
{
    match built_in {
        BuiltIn::Len
        | BuiltIn::Text
        | BuiltIn::Number
        | BuiltIn::Name
        | BuiltIn::Content
        | BuiltIn::Result
        | BuiltIn::Exception => 1,
        BuiltIn::Range
        | BuiltIn::Append
        | BuiltIn::Split
        | BuiltIn::Concat
        | BuiltIn::File
        | BuiltIn::Output => 2,
        BuiltIn::Slice => 3,
    }
}
