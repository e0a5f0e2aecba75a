//! The text of expressions.

ghost use Rattle.std.specs.Prelude.{◌≡◌, ◌++◌, OnOk, codes, map};
ghost use Rattle.script_tree.specs.Canonical as canonical;
ghost use Rattle.script_tree.specs.Folds.{fold_atom, fold_comp, fold_conj, fold_post, fold_sum, fold_term, fold_unary};

use crate::parts::{
    write_compare, write_number, write_sign, write_sum_op, write_term_op, write_text,
};
use script_tree::tree::{Atom, CallExpr, Comp, Conj, Expr, Post, Sum, Term, Unary};
use std::alloc::AllocError;
use text_writer::Writer;

/// Adds an expression.
#[cycle(expression)]
#[tactic(auto, unfolding(script_tree::specs::Folds::fold_expr, script_tree::specs::Folds::fold_conj))]
pub fn write_expr(writer: &mut Writer, e: &Expr) -> Result<(), AllocError>
    ensures { OnOk result (writer.new ≡ writer.old ++ canonical.expr e.now) }
{
    write_conj(writer, &e.first)?;
    for other in e.others.as_slice() {
        writer.add(b" or ")?;
        write_conj(writer, other)?;
    }
    Ok(())
}

#[cycle(expression)]
#[tactic(auto, unfolding(script_tree::specs::Folds::fold_conj, script_tree::specs::Folds::fold_comp))]
fn write_conj(writer: &mut Writer, e: &Conj) -> Result<(), AllocError>
    ensures { OnOk result (writer.new ≡ writer.old ++ fold_conj canonical.expr_text e.now) }
{
    write_comp(writer, &e.first)?;
    for other in e.others.as_slice() {
        writer.add(b" and ")?;
        write_comp(writer, other)?;
    }
    Ok(())
}

#[cycle(expression)]
#[tactic(auto, unfolding(script_tree::specs::Folds::fold_comp, script_tree::specs::Folds::fold_sum, script_tree::specs::Folds::fold_compared))]
fn write_comp(writer: &mut Writer, e: &Comp) -> Result<(), AllocError>
    ensures { OnOk result (writer.new ≡ writer.old ++ fold_comp canonical.expr_text e.now) }
{
    write_sum(writer, &e.left)?;
    if let Some(test) = &e.test {
        write_compare(writer, test.op)?;
        return write_sum(writer, &test.right);
    }
    Ok(())
}

#[cycle(expression)]
#[tactic(auto, unfolding(script_tree::specs::Folds::fold_sum, script_tree::specs::Folds::fold_term, script_tree::specs::Folds::fold_added))]
fn write_sum(writer: &mut Writer, e: &Sum) -> Result<(), AllocError>
    ensures { OnOk result (writer.new ≡ writer.old ++ fold_sum canonical.expr_text e.now) }
{
    write_term(writer, &e.first)?;
    for other in e.others.as_slice() {
        write_sum_op(writer, other.op)?;
        write_term(writer, &other.term)?;
    }
    Ok(())
}

#[cycle(expression)]
#[tactic(auto, unfolding(script_tree::specs::Folds::fold_term, script_tree::specs::Folds::fold_unary, script_tree::specs::Folds::fold_factor))]
fn write_term(writer: &mut Writer, e: &Term) -> Result<(), AllocError>
    ensures { OnOk result (writer.new ≡ writer.old ++ fold_term canonical.expr_text e.now) }
{
    write_unary(writer, &e.first)?;
    for other in e.others.as_slice() {
        write_term_op(writer, other.op)?;
        write_unary(writer, &other.unary)?;
    }
    Ok(())
}

#[cycle(expression)]
#[tactic(auto, unfolding(script_tree::specs::Folds::fold_unary, script_tree::specs::Folds::fold_post))]
fn write_unary(writer: &mut Writer, e: &Unary) -> Result<(), AllocError>
    ensures { OnOk result (writer.new ≡ writer.old ++ fold_unary canonical.expr_text e.now) }
{
    write_sign(writer, e.op)?;
    write_post(writer, &e.post)
}

#[cycle(expression)]
#[tactic(auto, unfolding(script_tree::specs::Folds::fold_post, script_tree::specs::Folds::fold_atom, script_tree::specs::Folds::fold_expr))]
fn write_post(writer: &mut Writer, e: &Post) -> Result<(), AllocError>
    ensures { OnOk result (writer.new ≡ writer.old ++ fold_post canonical.expr_text e.now) }
{
    write_atom(writer, &e.atom)?;
    for index in e.indices.as_slice() {
        writer.add(b"[")?;
        write_expr(writer, index)?;
        writer.add(b"]")?;
    }
    Ok(())
}

#[cycle(expression)]
#[tactic(auto, unfolding(script_tree::specs::Folds::fold_atom, script_tree::specs::Folds::fold_expr, script_tree::specs::Folds::fold_call))]
fn write_atom(writer: &mut Writer, e: &Atom) -> Result<(), AllocError>
    ensures { OnOk result (writer.new ≡ writer.old ++ fold_atom canonical.expr_text e.now) }
{
    match e {
        Atom::Number(n) => write_number(writer, *n),
        Atom::Text(text) => write_text(writer, text),
        Atom::Nothing => writer.add(b"nothing"),
        Atom::Variable(name) => writer.add(name.as_slice()),
        Atom::BuiltIn(name, arguments) => {
            writer.add(name.as_slice())?;
            write_arguments(writer, arguments.as_slice())
        }
        Atom::Call(call) => write_call(writer, call.get()),
        Atom::Paren(e) => write_paren(writer, e.get()),
        Atom::List(items) => write_items(writer, items.as_slice()),
    }
}

#[cycle(expression)]
fn write_paren(writer: &mut Writer, e: &Expr) -> Result<(), AllocError>
    ensures { OnOk result (writer.new ≡ writer.old ++ canonical.in_parens (canonical.expr e.now)) }
{
    writer.add(b"(")?;
    write_expr(writer, e)?;
    writer.add(b")")
}

#[cycle(expression)]
fn write_items(writer: &mut Writer, items: &[Expr]) -> Result<(), AllocError>
    ensures { OnOk result (writer.new ≡ writer.old ++ codes "[" ++ (canonical.listed (map canonical.expr items.now) ++ codes "]")) }
{
    writer.add(b"[")?;
    write_listed(writer, items)?;
    writer.add(b"]")
}

#[cycle(expression)]
fn write_arguments(writer: &mut Writer, items: &[Expr]) -> Result<(), AllocError>
    ensures { OnOk result (writer.new ≡ writer.old ++ canonical.in_parens (canonical.listed (map canonical.expr items.now))) }
{
    writer.add(b"(")?;
    write_listed(writer, items)?;
    writer.add(b")")
}

// With commas between them.
#[cycle(expression)]
fn write_listed(writer: &mut Writer, items: &[Expr]) -> Result<(), AllocError>
    ensures { OnOk result (writer.new ≡ writer.old ++ canonical.listed (map canonical.expr items.now)) }
{
    if let Some((first, rest)) = items.split_first() {
        write_expr(writer, first)?;
        for item in rest {
            writer.add(b", ")?;
            write_expr(writer, item)?;
        }
    }
    Ok(())
}

// The names behind `to`, where there are any.
#[cycle(expression)]
fn write_to(writer: &mut Writer, names: &[Expr]) -> Result<(), AllocError>
    ensures { OnOk result (writer.new ≡ writer.old ++ canonical.names_part (map canonical.expr names.now)) }
{
    if names.is_empty() {
        return Ok(());
    }
    writer.add(b" to ")?;
    write_arguments(writer, names)
}

/// Adds a call.
#[cycle(expression)]
#[tactic(auto, unfolding(script_tree::specs::Folds::fold_call, script_tree::specs::Folds::fold_expr))]
pub fn write_call(writer: &mut Writer, call: &CallExpr) -> Result<(), AllocError>
    ensures { OnOk result (writer.new ≡ writer.old ++ canonical.call call.now) }
{
    writer.add(b"call ")?;
    writer.add(call.app.as_slice())?;
    write_arguments(writer, call.arguments.as_slice())?;
    write_to(writer, call.names.as_slice())
}
