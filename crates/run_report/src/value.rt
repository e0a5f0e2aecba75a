//! The text of values.

ghost use Rattle.std.specs.Prelude.{◌≡◌, ◌++◌, OnOk, map};
ghost use Rattle.run_report.specs.Shown.{shown, file_text, list_text};

use flow_base::{Text, Value};
use std::alloc::AllocError;
use text_writer::Writer;

/// Adds a file, as `file("name", "content")`.
pub fn print_file(writer: &mut Writer, name: &Text, content: &Text) -> Result<(), AllocError>
    ensures { OnOk result (writer.new ≡ writer.old ++ file_text name.now content.now) }
{
    writer.add(b"file(")?;
    writer.quote(name)?;
    writer.add(b", ")?;
    writer.quote(content)?;
    writer.add(b")")
}

/// Adds a value.
#[cycle(print_value)]
#[tactic(auto, unfolding(crate::specs::Shown::shown))]
pub fn print_value(writer: &mut Writer, value: &Value) -> Result<(), AllocError>
    ensures { OnOk result (writer.new ≡ writer.old ++ shown value.now) }
{
    match value {
        Value::Int(n) => writer.signed(*n),
        Value::Text(text) => writer.quote(text),
        Value::List(items) => print_list(writer, items.as_slice()),
        Value::File { name, content } => print_file(writer, name, content),
        Value::Future { path, .. } => {
            writer.add(b"future ")?;
            writer.path(path)
        }
        Value::Output { path, index } => {
            writer.add(b"output ")?;
            writer.path(path)?;
            writer.add(b" ")?;
            writer.number(*index)
        }
        Value::Nothing => writer.add(b"nothing"),
    }
}

#[cycle(print_value)]
fn print_list(writer: &mut Writer, items: &[Value]) -> Result<(), AllocError>
    ensures { OnOk result (writer.new ≡ writer.old ++ list_text (map shown items.now)) }
{
    writer.add(b"[")?;
    if let Some((first, rest)) = items.split_first() {
        print_value(writer, first)?;
        for item in rest {
            writer.add(b", ")?;
            print_value(writer, item)?;
        }
    }
    writer.add(b"]")
}
