//! The marks of expressions.

ghost use Rattle.std.specs.Prelude.{◌≡◌, ◌++◌, map};
ghost use Rattle.script_tree.specs.Folds.{fold_atom, fold_comp, fold_conj, fold_post, fold_sum, fold_term, fold_unary};
ghost use Rattle.script_tree.specs.Marks as marks;
ghost use Rattle.app_check.specs.Seeing.{seen};

use crate::checker::Checker;
use script_tree::tree::{Atom, CallExpr, Comp, Conj, Expr, Post, Sum, Term, Unary, UnaryOp};

/// Sees an expression.
#[cycle(expression)]
#[tactic(auto, using(crate::proofs::Equations::expr_rules), unfolding(script_tree::specs::Folds::fold_expr, script_tree::specs::Folds::fold_conj))]
pub fn see_expr(checker: &mut Checker<'_>, e: &Expr)
    ensures { checker.new ≡ seen checker.old (marks.expr e.now) }
{
    see_conj(checker, &e.first);
    for other in e.others.as_slice() {
        checker.pass_other();
        see_conj(checker, other);
    }
}

#[cycle(expression)]
#[tactic(auto, using(crate::proofs::Equations::expr_rules), unfolding(script_tree::specs::Folds::fold_conj, script_tree::specs::Folds::fold_comp))]
fn see_conj(checker: &mut Checker<'_>, e: &Conj)
    ensures { checker.new ≡ seen checker.old (fold_conj marks.expr_marks e.now) }
{
    see_comp(checker, &e.first);
    for other in e.others.as_slice() {
        checker.pass_other();
        see_comp(checker, other);
    }
}

#[cycle(expression)]
#[tactic(auto, using(crate::proofs::Equations::expr_rules), unfolding(script_tree::specs::Folds::fold_comp, script_tree::specs::Folds::fold_sum, script_tree::specs::Folds::fold_compared))]
fn see_comp(checker: &mut Checker<'_>, e: &Comp)
    ensures { checker.new ≡ seen checker.old (fold_comp marks.expr_marks e.now) }
{
    see_sum(checker, &e.left);
    if let Some(test) = &e.test {
        checker.pass_other();
        see_sum(checker, &test.right);
    }
}

#[cycle(expression)]
#[tactic(auto, using(crate::proofs::Equations::expr_rules), unfolding(script_tree::specs::Folds::fold_sum, script_tree::specs::Folds::fold_term, script_tree::specs::Folds::fold_added))]
fn see_sum(checker: &mut Checker<'_>, e: &Sum)
    ensures { checker.new ≡ seen checker.old (fold_sum marks.expr_marks e.now) }
{
    see_term(checker, &e.first);
    for other in e.others.as_slice() {
        checker.pass_other();
        see_term(checker, &other.term);
    }
}

#[cycle(expression)]
#[tactic(auto, using(crate::proofs::Equations::expr_rules), unfolding(script_tree::specs::Folds::fold_term, script_tree::specs::Folds::fold_unary, script_tree::specs::Folds::fold_factor))]
fn see_term(checker: &mut Checker<'_>, e: &Term)
    ensures { checker.new ≡ seen checker.old (fold_term marks.expr_marks e.now) }
{
    see_unary(checker, &e.first);
    for other in e.others.as_slice() {
        checker.pass_other();
        see_unary(checker, &other.unary);
    }
}

#[tactic(auto, using(crate::proofs::Equations::expr_rules))]
fn see_sign(checker: &mut Checker<'_>, op: Option<UnaryOp>)
    ensures { checker.new ≡ seen checker.old (marks.sign_part op) }
{
    match op {
        None => {}
        Some(_) => checker.pass_other(),
    }
}

#[cycle(expression)]
#[tactic(auto, using(crate::proofs::Equations::expr_rules), unfolding(script_tree::specs::Folds::fold_unary, script_tree::specs::Folds::fold_post))]
fn see_unary(checker: &mut Checker<'_>, e: &Unary)
    ensures { checker.new ≡ seen checker.old (fold_unary marks.expr_marks e.now) }
{
    see_sign(checker, e.op);
    see_post(checker, &e.post);
}

#[cycle(expression)]
#[tactic(auto, using(crate::proofs::Equations::expr_rules), unfolding(script_tree::specs::Folds::fold_post, script_tree::specs::Folds::fold_atom, script_tree::specs::Folds::fold_expr))]
fn see_post(checker: &mut Checker<'_>, e: &Post)
    ensures { checker.new ≡ seen checker.old (fold_post marks.expr_marks e.now) }
{
    see_atom(checker, &e.atom);
    for index in e.indices.as_slice() {
        see_paren(checker, index);
    }
}

#[cycle(expression)]
#[tactic(auto, using(crate::proofs::Equations::expr_rules), unfolding(script_tree::specs::Folds::fold_atom, script_tree::specs::Folds::fold_expr, script_tree::specs::Folds::fold_call))]
fn see_atom(checker: &mut Checker<'_>, e: &Atom)
    ensures { checker.new ≡ seen checker.old (fold_atom marks.expr_marks e.now) }
{
    match e {
        Atom::Number(_) => checker.pass_other(),
        Atom::Text(_) => checker.pass_other(),
        Atom::Nothing => checker.pass_other(),
        Atom::Variable(name) => checker.use_variable(name),
        Atom::BuiltIn(name, arguments) => {
            checker.apply_built_in(name, arguments.len());
            see_items(checker, arguments.as_slice());
        }
        Atom::Call(call) => see_call(checker, call.get()),
        Atom::Paren(e) => see_paren(checker, e.get()),
        Atom::List(items) => see_items(checker, items.as_slice()),
    }
}

// Between two brackets.
#[cycle(expression)]
#[tactic(auto, using(crate::proofs::Equations::expr_rules))]
fn see_paren(checker: &mut Checker<'_>, e: &Expr)
    ensures { checker.new ≡ seen checker.old (marks.in_parens (marks.expr e.now)) }
{
    checker.pass_other();
    see_expr(checker, e);
    checker.pass_other();
}

#[cycle(expression)]
#[tactic(auto, using(crate::proofs::Equations::expr_rules))]
fn see_items(checker: &mut Checker<'_>, items: &[Expr])
    ensures { checker.new ≡ seen checker.old (marks.in_parens (marks.listed (map marks.expr items.now))) }
{
    checker.pass_other();
    see_listed(checker, items);
    checker.pass_other();
}

// With commas between them.
#[cycle(expression)]
#[tactic(auto, using(crate::proofs::Equations::expr_rules))]
fn see_listed(checker: &mut Checker<'_>, items: &[Expr])
    ensures { checker.new ≡ seen checker.old (marks.listed (map marks.expr items.now)) }
{
    if let Some((first, rest)) = items.split_first() {
        see_expr(checker, first);
        for item in rest {
            checker.pass_other();
            see_expr(checker, item);
        }
    }
}

// The names behind `to`, where there are any.
#[cycle(expression)]
#[tactic(auto, using(crate::proofs::Equations::expr_rules))]
fn see_to(checker: &mut Checker<'_>, names: &[Expr])
    ensures { checker.new ≡ seen checker.old (marks.names_part (map marks.expr names.now)) }
{
    if names.is_empty() {
        return;
    }
    checker.pass_other();
    see_items(checker, names);
}

/// Sees a call.
#[cycle(expression)]
#[tactic(auto, using(crate::proofs::Equations::expr_rules), unfolding(script_tree::specs::Folds::fold_call, script_tree::specs::Folds::fold_expr))]
pub fn see_call(checker: &mut Checker<'_>, call: &CallExpr)
    ensures { checker.new ≡ seen checker.old (marks.call call.now) }
{
    checker.call();
    checker.call_app(&call.app, call.arguments.len(), call.names.len());
    see_items(checker, call.arguments.as_slice());
    see_to(checker, call.names.as_slice());
}
