//! The marks of statements and blocks.

ghost use Rattle.std.specs.Prelude.{◌≡◌, ◌++◌, ◌∷◌, [], OnOk, flat_map, map};
ghost use Rattle.script_tree.specs.Folds.{fold_block, fold_statement};
ghost use Rattle.script_tree.specs.Marks as marks;
ghost use Rattle.script_tree.specs.Marks.{Declares, Other};
ghost use Rattle.script_tree.specs.declared.tree.Statement.TheOpen.{Statement-F};
ghost use Rattle.app_check.specs.Bodies.{names_of};
ghost use Rattle.app_check.specs.Seeing.{seen};

use crate::checker::Checker;
use crate::expression::{see_call, see_expr};
use script_tree::tree::{Block, CallExpr, Expr, Name, Statement};
use std::alloc::AllocError;

#[tactic(auto, using(crate::proofs::Equations::mark_rules))]
fn see_let<'a>(checker: &mut Checker<'a>, name: &'a Name, e: &Expr) -> Result<(), AllocError>
    ensures { OnOk result (checker.new ≡ seen checker.old (marks.statement_marks (Statement-F.Let name.now e.now))) }
{
    checker.pass_other();
    checker.declare(name);
    checker.pass_other();
    see_expr(checker, e);
    checker.make_visible(name)
}

#[tactic(auto, using(crate::proofs::Equations::mark_rules))]
fn see_set(checker: &mut Checker<'_>, name: &Name, e: &Expr)
    ensures { checker.new ≡ seen checker.old (marks.statement_marks (Statement-F.Set name.now e.now)) }
{
    checker.use_variable(name);
    checker.pass_other();
    see_expr(checker, e);
    checker.pass_other();
}

// A word and an expression.
#[tactic(auto, using(crate::proofs::Equations::mark_rules))]
fn see_head(checker: &mut Checker<'_>, e: &Expr)
    ensures { checker.new ≡ seen checker.old (Other ∷ marks.expr e.now) }
{
    checker.pass_other();
    see_expr(checker, e);
}

// What stands before the block of a `for`.
#[tactic(auto, using(crate::proofs::Equations::mark_rules))]
fn see_for(checker: &mut Checker<'_>, name: &Name, e: &Expr)
    ensures { checker.new ≡ seen checker.old (Other ∷ Declares name.now ∷ Other ∷ marks.expr e.now) }
{
    checker.pass_other();
    checker.declare(name);
    checker.pass_other();
    see_expr(checker, e);
}

// A word, an expression, and the end of the line.
#[tactic(auto, using(crate::proofs::Equations::mark_rules))]
fn see_line(checker: &mut Checker<'_>, e: &Expr)
    ensures { checker.new ≡ seen checker.old (Other ∷ marks.expr e.now ++ Other ∷ []) }
{
    checker.pass_other();
    see_expr(checker, e);
    checker.pass_other();
}

#[tactic(auto, using(crate::proofs::Equations::mark_rules))]
fn see_output(checker: &mut Checker<'_>, output: &Expr, content: &Expr)
    ensures { checker.new ≡ seen checker.old (marks.statement_marks (Statement-F.Write output.now content.now)) }
{
    checker.write();
    see_expr(checker, output);
    see_line(checker, content);
}

#[tactic(auto, using(crate::proofs::Equations::mark_rules))]
fn see_printed(checker: &mut Checker<'_>, e: &Expr)
    ensures { checker.new ≡ seen checker.old (marks.statement_marks (Statement-F.Print e.now)) }
{
    checker.main_only();
    see_expr(checker, e);
    checker.pass_other();
}

#[tactic(auto, using(crate::proofs::Equations::mark_rules))]
fn see_checkpoint(checker: &mut Checker<'_>)
    ensures { checker.new ≡ seen checker.old (marks.statement_marks Statement-F.Checkpoint) }
{
    checker.main_only();
    checker.pass_other();
}

#[tactic(auto, using(crate::proofs::Equations::mark_rules))]
fn see_call_line(checker: &mut Checker<'_>, call: &CallExpr)
    ensures { checker.new ≡ seen checker.old (marks.statement_marks (Statement-F.Call call.now)) }
{
    see_call(checker, call);
    checker.pass_other();
}

#[cycle(statement)]
#[tactic(auto, using(crate::proofs::Equations::statement_rules), unfolding(script_tree::specs::Folds::fold_block, script_tree::specs::Folds::fold_statement))]
fn see_statement<'a>(checker: &mut Checker<'a>, statement: &'a Statement) -> Result<(), AllocError>
    ensures { OnOk result (checker.new ≡ seen checker.old (fold_statement marks.block_marks statement.now [])) }
{
    match statement {
        Statement::Let(name, e) => see_let(checker, name, e),
        Statement::Set(name, e) => {
            see_set(checker, name, e);
            Ok(())
        }
        Statement::While(e, body) => {
            see_head(checker, e);
            see_block(checker, body.get(), None)
        }
        Statement::For(name, e, body) => {
            see_for(checker, name, e);
            see_block(checker, body.get(), Some(name))
        }
        Statement::If(e, block, other) => {
            see_head(checker, e);
            match other {
                None => see_block(checker, block.get(), None),
                Some(other) => {
                    see_then(checker, block.get())?;
                    see_block(checker, other.get(), None)
                }
            }
        }
        Statement::Return(e) => {
            see_line(checker, e);
            Ok(())
        }
        Statement::Raise(e) => {
            see_line(checker, e);
            Ok(())
        }
        Statement::Write(output, content) => {
            see_output(checker, output, content);
            Ok(())
        }
        Statement::Print(e) => {
            see_printed(checker, e);
            Ok(())
        }
        Statement::Checkpoint => {
            see_checkpoint(checker);
            Ok(())
        }
        Statement::Call(call) => {
            see_call_line(checker, call);
            Ok(())
        }
    }
}

// A block that an `else` follows.
#[cycle(statement)]
#[tactic(auto, using(crate::proofs::Equations::mark_rules))]
fn see_then<'a>(checker: &mut Checker<'a>, block: &'a Block) -> Result<(), AllocError>
    ensures { OnOk result (checker.new ≡ seen checker.old (marks.block block.now ++ Other ∷ [])) }
{
    see_block(checker, block, None)?;
    checker.pass_other();
    Ok(())
}

/// Sees a block, in which a name may be visible from its start.
#[cycle(statement)]
#[tactic(auto, using(crate::proofs::Equations::statement_rules), unfolding(script_tree::specs::Folds::fold_block, script_tree::specs::Folds::fold_statement))]
pub fn see_block<'a>(
    checker: &mut Checker<'a>,
    block: &'a Block,
    name: Option<&'a Name>,
) -> Result<(), AllocError>
    ensures { OnOk result (checker.new ≡ seen checker.old (fold_block marks.block_marks block.now (names_of name.entry))) }
{
    checker.open_block(name)?;
    see_statements(checker, block.statements.as_slice())?;
    checker.close_block();
    Ok(())
}

#[cycle(statement)]
#[tactic(auto, using(crate::proofs::Equations::statement_rules), unfolding(script_tree::specs::Folds::fold_block, script_tree::specs::Folds::fold_statement))]
fn see_statements<'a>(
    checker: &mut Checker<'a>,
    statements: &'a [Statement],
) -> Result<(), AllocError>
    ensures { OnOk result (checker.new ≡ seen checker.old (flat_map (λ s. s []) (map (fold_statement marks.block_marks) statements.now))) }
{
    for statement in statements {
        see_statement(checker, statement)?;
    }
    Ok(())
}
