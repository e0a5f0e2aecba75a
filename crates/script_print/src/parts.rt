//! The text of names, numbers, text values and operators.

ghost use Rattle.std.specs.Prelude.{◌≡◌, ◌++◌, OnOk};
ghost use Rattle.script_tree.specs.Canonical as canonical;

use flow_base::Text;
use script_tree::tree::{CompareOp, SumOp, TermOp, UnaryOp};
use std::alloc::AllocError;
use text_writer::Writer;

/// Adds a number. One below 0 has no text.
pub fn write_number(writer: &mut Writer, n: i64) -> Result<(), AllocError>
    ensures { OnOk result (writer.new ≡ writer.old ++ canonical.number_text n) }
{
    if n < 0 {
        return Ok(());
    }
    writer.signed(n)
}

/// Adds a text value as a script spells it.
pub fn write_text(writer: &mut Writer, text: &Text) -> Result<(), AllocError>
    ensures { OnOk result (writer.new ≡ writer.old ++ canonical.spelt text.now) }
{
    writer.quote(text)
}

// With commas between them.
fn write_names(writer: &mut Writer, names: &[Text]) -> Result<(), AllocError>
    ensures { OnOk result (writer.new ≡ writer.old ++ canonical.listed names.now) }
{
    if let Some((first, rest)) = names.split_first() {
        writer.add(first.as_slice())?;
        for name in rest {
            writer.add(b", ")?;
            writer.add(name.as_slice())?;
        }
    }
    Ok(())
}

/// Adds an app's parameters in their parentheses.
pub fn write_parameters(writer: &mut Writer, names: &[Text]) -> Result<(), AllocError>
    ensures { OnOk result (writer.new ≡ writer.old ++ canonical.in_parens (canonical.listed names.now)) }
{
    writer.add(b"(")?;
    write_names(writer, names)?;
    writer.add(b")")
}

/// Adds a comparison between its blanks.
pub fn write_compare(writer: &mut Writer, op: CompareOp) -> Result<(), AllocError>
    ensures { OnOk result (writer.new ≡ writer.old ++ canonical.compare_text op) }
{
    match op {
        CompareOp::Equal => writer.add(b" == "),
        CompareOp::Differ => writer.add(b" != "),
        CompareOp::Less => writer.add(b" < "),
        CompareOp::AtMost => writer.add(b" <= "),
        CompareOp::Greater => writer.add(b" > "),
        CompareOp::AtLeast => writer.add(b" >= "),
    }
}

/// Adds `+` or `-` between its blanks.
pub fn write_sum_op(writer: &mut Writer, op: SumOp) -> Result<(), AllocError>
    ensures { OnOk result (writer.new ≡ writer.old ++ canonical.sum_text op) }
{
    match op {
        SumOp::Plus => writer.add(b" + "),
        SumOp::Minus => writer.add(b" - "),
    }
}

/// Adds `*`, `/` or `%` between its blanks.
pub fn write_term_op(writer: &mut Writer, op: TermOp) -> Result<(), AllocError>
    ensures { OnOk result (writer.new ≡ writer.old ++ canonical.term_text op) }
{
    match op {
        TermOp::Times => writer.add(b" * "),
        TermOp::Over => writer.add(b" / "),
        TermOp::Rest => writer.add(b" % "),
    }
}

/// Adds the sign, where there is one.
pub fn write_sign(writer: &mut Writer, op: Option<UnaryOp>) -> Result<(), AllocError>
    ensures { OnOk result (writer.new ≡ writer.old ++ canonical.sign_part op) }
{
    match op {
        None => Ok(()),
        Some(UnaryOp::Minus) => writer.add(b"-"),
        Some(UnaryOp::Not) => writer.add(b"not "),
    }
}
