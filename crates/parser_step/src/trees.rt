//! Trees from an operand and what stands before it.

ghost use Rattle.std.specs.Prelude.{◌≡◌, IfOk};
ghost use Rattle.parser_model.specs.Reading as spec;

use parser_model::expression_state::Before;
use script_tree::tree::{
    Added, Comp, CompareOp, Compared, Conj, Expr, Factor, Post, Sum, SumOp, Term, TermOp, Unary,
    UnaryOp,
};
use sqlite_items::Items as ListOf;
use std::alloc::{AllocError, Global};

fn term_of(alloc: Global, so_far: Option<(Term, TermOp)>, unary: Unary) -> Result<Term, AllocError>
    ensures { IfOk result (λ x. x ≡ spec.term_of so_far unary) }
{
    match so_far {
        None => Ok(Term {
            first: unary,
            others: ListOf::new(alloc),
        }),
        Some((mut term, op)) => {
            term.others.push(Factor { op, unary })?;
            Ok(term)
        }
    }
}

fn sum_of(alloc: Global, so_far: Option<(Sum, SumOp)>, term: Term) -> Result<Sum, AllocError>
    ensures { IfOk result (λ x. x ≡ spec.sum_of so_far term) }
{
    match so_far {
        None => Ok(Sum {
            first: term,
            others: ListOf::new(alloc),
        }),
        Some((mut sum, op)) => {
            sum.others.push(Added { op, term })?;
            Ok(sum)
        }
    }
}

fn comp_of(so_far: Option<(Sum, CompareOp)>, right: Sum) -> Comp
    ensures { result ≡ spec.comp_of so_far right }
{
    match so_far {
        None => Comp {
            left: right,
            test: None,
        },
        Some((left, op)) => Comp {
            left,
            test: Some(Compared { op, right }),
        },
    }
}

/// The comparison joined by `and` to those before it.
pub fn conj_of(alloc: Global, so_far: Option<Conj>, comp: Comp) -> Result<Conj, AllocError>
    ensures { IfOk result (λ x. x ≡ spec.conj_of so_far comp) }
{
    match so_far {
        None => Ok(Conj {
            first: comp,
            others: ListOf::new(alloc),
        }),
        Some(mut conj) => {
            conj.others.push(comp)?;
            Ok(conj)
        }
    }
}

fn expr_of(alloc: Global, so_far: Option<Expr>, conj: Conj) -> Result<Expr, AllocError>
    ensures { IfOk result (λ x. x ≡ spec.expr_of so_far conj) }
{
    match so_far {
        None => Ok(Expr {
            first: conj,
            others: ListOf::new(alloc),
        }),
        Some(mut expr) => {
            expr.others.push(conj)?;
            Ok(expr)
        }
    }
}

/// The operand with its sign, multiplied to those before it.
pub fn made_term(
    alloc: Global,
    term: Option<(Term, TermOp)>,
    op: Option<UnaryOp>,
    post: Post,
) -> Result<Term, AllocError>
    ensures { IfOk result (λ x. x ≡ spec.made_term term op post) }
{
    term_of(alloc, term, Unary { op, post })
}

/// The term that ends with this operand, added to those before it.
pub fn made_sum(
    alloc: Global,
    sum: Option<(Sum, SumOp)>,
    term: Option<(Term, TermOp)>,
    op: Option<UnaryOp>,
    post: Post,
) -> Result<Sum, AllocError>
    ensures { IfOk result (λ x. x ≡ spec.made_sum sum term op post) }
{
    let term = made_term(alloc, term, op, post)?;
    sum_of(alloc, sum, term)
}

/// The sum that ends with this operand, compared to the one before it.
pub fn made_comp(
    alloc: Global,
    left: Option<(Sum, CompareOp)>,
    sum: Option<(Sum, SumOp)>,
    term: Option<(Term, TermOp)>,
    op: Option<UnaryOp>,
    post: Post,
) -> Result<Comp, AllocError>
    ensures { IfOk result (λ x. x ≡ spec.made_comp left sum term op post) }
{
    let sum = made_sum(alloc, sum, term, op, post)?;
    Ok(comp_of(left, sum))
}

/// The expression that ends with this operand.
#[tactic(auto, unfolding(parser_model::specs::Reading::whole_expr, parser_model::specs::Reading::whole_conj, parser_model::specs::Reading::whole_comp, parser_model::specs::Reading::whole_sum, parser_model::specs::Reading::whole_term))]
pub fn whole_expr(alloc: Global, before: Before, post: Post) -> Result<Expr, AllocError>
    ensures { IfOk result (λ x. x ≡ spec.whole_expr before post) }
{
    let Before {
        ors,
        ands,
        left,
        sum,
        term,
        sign,
    } = before;
    let comp = made_comp(alloc, left, sum, term, sign, post)?;
    let conj = conj_of(alloc, ands, comp)?;
    expr_of(alloc, ors, conj)
}
