//! A token behind an operand.

ghost use Rattle.std.specs.Prelude.{◌≡◌, IfOk};
ghost use Rattle.parser_model.specs.Reading as spec;

use crate::posts::nothing_before;
use crate::trees::{conj_of, made_comp, made_sum, made_term, whole_expr};
use parser_model::expression_state::{Before, Behind, ExprMove, ExprState, OpenBracket};
use script_tree::token::{Keyword, Symbol, Token};
use script_tree::tree::{CompareOp, Post, SumOp, TermOp};
use std::alloc::{AllocError, Global};

/// What a token means behind an operand.
pub fn behind_of(token: &Token) -> Behind
    ensures { result ≡ spec.behind_of token.now }
{
    match token {
        Token::Symbol(Symbol::OpenList) => Behind::Indexes,
        Token::Symbol(Symbol::Times) => Behind::Multiplies(TermOp::Times),
        Token::Symbol(Symbol::Over) => Behind::Multiplies(TermOp::Over),
        Token::Symbol(Symbol::Rest) => Behind::Multiplies(TermOp::Rest),
        Token::Symbol(Symbol::Plus) => Behind::Adds(SumOp::Plus),
        Token::Symbol(Symbol::Minus) => Behind::Adds(SumOp::Minus),
        Token::Symbol(Symbol::Equal) => Behind::Compares(CompareOp::Equal),
        Token::Symbol(Symbol::Differ) => Behind::Compares(CompareOp::Differ),
        Token::Symbol(Symbol::Less) => Behind::Compares(CompareOp::Less),
        Token::Symbol(Symbol::AtMost) => Behind::Compares(CompareOp::AtMost),
        Token::Symbol(Symbol::Greater) => Behind::Compares(CompareOp::Greater),
        Token::Symbol(Symbol::AtLeast) => Behind::Compares(CompareOp::AtLeast),
        Token::Keyword(Keyword::And) => Behind::Ands,
        Token::Keyword(Keyword::Or) => Behind::Ors,
        _ => Behind::Others,
    }
}

#[tactic(auto, unfolding(parser_model::specs::Reading::whole_expr, parser_model::specs::Reading::whole_conj, parser_model::specs::Reading::whole_comp, parser_model::specs::Reading::whole_sum, parser_model::specs::Reading::whole_term))]
fn multiplies(alloc: Global, before: Before, post: Post, op: TermOp) -> Result<ExprMove, AllocError>
    ensures { IfOk result (λ m. m ≡ spec.after before post (Behind.Multiplies op)) }
{
    let Before {
        ors,
        ands,
        left,
        sum,
        term,
        sign,
    } = before;
    let term = Some((made_term(alloc, term, sign, post)?, op));
    Ok(ExprMove::To(ExprState::Operand(Before {
        ors,
        ands,
        left,
        sum,
        term,
        sign: None,
    })))
}

#[tactic(auto, unfolding(parser_model::specs::Reading::whole_expr, parser_model::specs::Reading::whole_conj, parser_model::specs::Reading::whole_comp, parser_model::specs::Reading::whole_sum, parser_model::specs::Reading::whole_term))]
fn adds(alloc: Global, before: Before, post: Post, op: SumOp) -> Result<ExprMove, AllocError>
    ensures { IfOk result (λ m. m ≡ spec.after before post (Behind.Adds op)) }
{
    let Before {
        ors,
        ands,
        left,
        sum,
        term,
        sign,
    } = before;
    let sum = Some((made_sum(alloc, sum, term, sign, post)?, op));
    Ok(ExprMove::To(ExprState::Operand(Before {
        ors,
        ands,
        left,
        sum,
        term: None,
        sign: None,
    })))
}

#[tactic(auto, unfolding(parser_model::specs::Reading::whole_expr, parser_model::specs::Reading::whole_conj, parser_model::specs::Reading::whole_comp, parser_model::specs::Reading::whole_sum, parser_model::specs::Reading::whole_term))]
fn conjoins(alloc: Global, before: Before, post: Post) -> Result<ExprMove, AllocError>
    ensures { IfOk result (λ m. m ≡ spec.after before post Behind.Ands) }
{
    let Before {
        ors,
        ands,
        left,
        sum,
        term,
        sign,
    } = before;
    let comp = made_comp(alloc, left, sum, term, sign, post)?;
    let ands = Some(conj_of(alloc, ands, comp)?);
    Ok(ExprMove::To(ExprState::Operand(Before {
        ors,
        ands,
        left: None,
        sum: None,
        term: None,
        sign: None,
    })))
}

fn disjoins(alloc: Global, before: Before, post: Post) -> Result<ExprMove, AllocError>
    ensures { IfOk result (λ m. m ≡ spec.after before post Behind.Ors) }
{
    let ors = Some(whole_expr(alloc, before, post)?);
    Ok(ExprMove::To(ExprState::Operand(Before {
        ors,
        ands: None,
        left: None,
        sum: None,
        term: None,
        sign: None,
    })))
}

#[tactic(auto, unfolding(parser_model::specs::Reading::whole_expr, parser_model::specs::Reading::whole_conj, parser_model::specs::Reading::whole_comp, parser_model::specs::Reading::whole_sum, parser_model::specs::Reading::whole_term))]
fn compares(
    alloc: Global,
    before: Before,
    post: Post,
    op: CompareOp,
) -> Result<ExprMove, AllocError>
    ensures { IfOk result (λ m. m ≡ spec.compared before post op before.left) }
{
    if before.left.is_some() {
        return Ok(ExprMove::Ends(whole_expr(alloc, before, post)?));
    }
    let Before {
        ors,
        ands,
        left,
        sum,
        term,
        sign,
    } = before;
    let left = Some((made_sum(alloc, sum, term, sign, post)?, op));
    Ok(ExprMove::To(ExprState::Operand(Before {
        ors,
        ands,
        left,
        sum: None,
        term: None,
        sign: None,
    })))
}

/// Behind an operand: an operator, an index, or the expression's end.
pub fn after(
    alloc: Global,
    before: Before,
    post: Post,
    behind: Behind,
) -> Result<ExprMove, AllocError>
    ensures { IfOk result (λ m. m ≡ spec.after before post behind) }
{
    match behind {
        Behind::Indexes => {
            Ok(ExprMove::Open(
                OpenBracket::Index(before, post),
                ExprState::Operand(nothing_before()),
            ))
        }
        Behind::Multiplies(op) => multiplies(alloc, before, post, op),
        Behind::Adds(op) => adds(alloc, before, post, op),
        Behind::Compares(op) => compares(alloc, before, post, op),
        Behind::Ands => conjoins(alloc, before, post),
        Behind::Ors => disjoins(alloc, before, post),
        Behind::Others => Ok(ExprMove::Ends(whole_expr(alloc, before, post)?)),
    }
}
