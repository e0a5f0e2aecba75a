//! The text of statements and blocks.

ghost use Rattle.std.specs.Prelude.{◌≡◌, ◌++◌, ◌∷◌, [], OnOk, codes, flat_map, map};
ghost use Rattle.script_tree.specs.Canonical as canonical;
ghost use Rattle.script_tree.specs.Folds.{fold_statement};
ghost use Rattle.script_tree.specs.declared.tree.Statement.TheOpen.{Statement-F};

use crate::expression::{write_call, write_expr};
use crate::indent::Indent;
use script_tree::tree::{Block, CallExpr, Expr, Name, Statement};
use std::alloc::AllocError;
use text_writer::Writer;

// An expression, and the end of its line.
fn write_last(writer: &mut Writer, e: &Expr) -> Result<(), AllocError>
    ensures { OnOk result (writer.new ≡ writer.old ++ canonical.expr e.now ++ codes ";" ++ 10 ∷ []) }
{
    write_expr(writer, e)?;
    writer.add(b";\n")
}

// A name with its new value, and the end of its line.
fn write_assigned(writer: &mut Writer, name: &Name, e: &Expr) -> Result<(), AllocError>
    ensures { OnOk result (writer.new ≡ writer.old ++ name.now ++ codes " = " ++ canonical.expr e.now ++ codes ";" ++ 10 ∷ []) }
{
    writer.add(name.as_slice())?;
    writer.add(b" = ")?;
    write_last(writer, e)
}

fn write_let(writer: &mut Writer, name: &Name, e: &Expr, indent: &Indent) -> Result<(), AllocError>
    ensures { OnOk result (writer.new ≡ writer.old ++ canonical.statement_lines (Statement-F.Let name.now e.now) indent.now) }
{
    indent.write(writer)?;
    writer.add(b"let ")?;
    write_assigned(writer, name, e)
}

fn write_set(writer: &mut Writer, name: &Name, e: &Expr, indent: &Indent) -> Result<(), AllocError>
    ensures { OnOk result (writer.new ≡ writer.old ++ canonical.statement_lines (Statement-F.Set name.now e.now) indent.now) }
{
    indent.write(writer)?;
    write_assigned(writer, name, e)
}

fn write_return(writer: &mut Writer, e: &Expr, indent: &Indent) -> Result<(), AllocError>
    ensures { OnOk result (writer.new ≡ writer.old ++ canonical.statement_lines (Statement-F.Return e.now) indent.now) }
{
    indent.write(writer)?;
    writer.add(b"return ")?;
    write_last(writer, e)
}

fn write_raise(writer: &mut Writer, e: &Expr, indent: &Indent) -> Result<(), AllocError>
    ensures { OnOk result (writer.new ≡ writer.old ++ canonical.statement_lines (Statement-F.Raise e.now) indent.now) }
{
    indent.write(writer)?;
    writer.add(b"raise ")?;
    write_last(writer, e)
}

fn write_printed(writer: &mut Writer, e: &Expr, indent: &Indent) -> Result<(), AllocError>
    ensures { OnOk result (writer.new ≡ writer.old ++ canonical.statement_lines (Statement-F.Print e.now) indent.now) }
{
    indent.write(writer)?;
    writer.add(b"print ")?;
    write_last(writer, e)
}

fn write_output(
    writer: &mut Writer,
    output: &Expr,
    content: &Expr,
    indent: &Indent,
) -> Result<(), AllocError>
    ensures { OnOk result (writer.new ≡ writer.old ++ canonical.statement_lines (Statement-F.Write output.now content.now) indent.now) }
{
    indent.write(writer)?;
    writer.add(b"write ")?;
    write_expr(writer, output)?;
    writer.add(b", ")?;
    write_last(writer, content)
}

fn write_checkpoint(writer: &mut Writer, indent: &Indent) -> Result<(), AllocError>
    ensures { OnOk result (writer.new ≡ writer.old ++ canonical.statement_lines Statement-F.Checkpoint indent.now) }
{
    indent.write(writer)?;
    writer.add(b"checkpoint;\n")
}

fn write_call_line(writer: &mut Writer, call: &CallExpr, indent: &Indent) -> Result<(), AllocError>
    ensures { OnOk result (writer.new ≡ writer.old ++ canonical.statement_lines (Statement-F.Call call.now) indent.now) }
{
    indent.write(writer)?;
    write_call(writer, call)?;
    writer.add(b";\n")
}

// What stands before the block of a `while`.
fn write_while(writer: &mut Writer, e: &Expr, indent: &Indent) -> Result<(), AllocError>
    ensures { OnOk result (writer.new ≡ writer.old ++ canonical.indent indent.now ++ codes "while " ++ canonical.expr e.now) }
{
    indent.write(writer)?;
    writer.add(b"while ")?;
    write_expr(writer, e)
}

// What stands before the block of a `for`.
fn write_for(writer: &mut Writer, name: &Name, e: &Expr, indent: &Indent) -> Result<(), AllocError>
    ensures { OnOk result (writer.new ≡ writer.old ++ canonical.indent indent.now ++ codes "for " ++ name.now ++ codes " in " ++ canonical.expr e.now) }
{
    indent.write(writer)?;
    writer.add(b"for ")?;
    writer.add(name.as_slice())?;
    writer.add(b" in ")?;
    write_expr(writer, e)
}

// What stands before the block of an `if`.
fn write_if(writer: &mut Writer, e: &Expr, indent: &Indent) -> Result<(), AllocError>
    ensures { OnOk result (writer.new ≡ writer.old ++ canonical.indent indent.now ++ codes "if " ++ canonical.expr e.now) }
{
    indent.write(writer)?;
    writer.add(b"if ")?;
    write_expr(writer, e)
}

/// Adds a statement behind the blanks of its line.
#[cycle(statement)]
#[tactic(auto, unfolding(script_tree::specs::Folds::fold_block, script_tree::specs::Folds::fold_statement))]
pub fn write_statement(
    writer: &mut Writer,
    statement: &Statement,
    indent: &Indent,
) -> Result<(), AllocError>
    ensures { OnOk result (writer.new ≡ writer.old ++ fold_statement canonical.block_lines statement.now indent.now) }
{
    match statement {
        Statement::Let(name, e) => write_let(writer, name, e, indent),
        Statement::Set(name, e) => write_set(writer, name, e, indent),
        Statement::While(e, body) => {
            write_while(writer, e, indent)?;
            write_body(writer, body.get(), indent)
        }
        Statement::For(name, e, body) => {
            write_for(writer, name, e, indent)?;
            write_body(writer, body.get(), indent)
        }
        Statement::If(e, block, other) => {
            write_if(writer, e, indent)?;
            match other {
                None => write_body(writer, block.get(), indent),
                Some(other) => {
                    write_then(writer, block.get(), indent)?;
                    write_body(writer, other.get(), indent)
                }
            }
        }
        Statement::Return(e) => write_return(writer, e, indent),
        Statement::Raise(e) => write_raise(writer, e, indent),
        Statement::Write(output, content) => write_output(writer, output, content, indent),
        Statement::Print(e) => write_printed(writer, e, indent),
        Statement::Checkpoint => write_checkpoint(writer, indent),
        Statement::Call(call) => write_call_line(writer, call, indent),
    }
}

// A block behind its head, and the end of its line.
#[cycle(statement)]
fn write_body(writer: &mut Writer, body: &Block, indent: &Indent) -> Result<(), AllocError>
    ensures { OnOk result (writer.new ≡ writer.old ++ codes " " ++ canonical.block body.now indent.now ++ 10 ∷ []) }
{
    writer.add(b" ")?;
    write_block(writer, body, indent)?;
    writer.add(b"\n")
}

// A block that an `else` follows.
#[cycle(statement)]
fn write_then(writer: &mut Writer, block: &Block, indent: &Indent) -> Result<(), AllocError>
    ensures { OnOk result (writer.new ≡ writer.old ++ codes " " ++ canonical.block block.now indent.now ++ codes " else") }
{
    writer.add(b" ")?;
    write_block(writer, block, indent)?;
    writer.add(b" else")
}

/// Adds a block: its `{`, its lines, and its `}` under the start of the line.
#[cycle(statement)]
#[tactic(auto, unfolding(script_tree::specs::Folds::fold_block, script_tree::specs::Folds::fold_statement))]
pub fn write_block(writer: &mut Writer, block: &Block, indent: &Indent) -> Result<(), AllocError>
    ensures { OnOk result (writer.new ≡ writer.old ++ canonical.block block.now indent.now) }
{
    let deeper = indent.deeper()?;
    writer.add(b"{\n")?;
    write_statements(writer, block.statements.as_slice(), &deeper)?;
    indent.write(writer)?;
    writer.add(b"}")
}

#[cycle(statement)]
fn write_statements(
    writer: &mut Writer,
    statements: &[Statement],
    indent: &Indent,
) -> Result<(), AllocError>
    ensures { OnOk result (writer.new ≡ writer.old ++ flat_map (λ lines. lines indent.now) (map (fold_statement canonical.block_lines) statements.now)) }
{
    for statement in statements {
        write_statement(writer, statement, indent)?;
    }
    Ok(())
}
