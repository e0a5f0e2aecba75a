//! A token where an operand is to come.

ghost use Rattle.std.specs.Prelude.{◌≡◌};
ghost use Rattle.parser_model.specs.Reading as spec;

use crate::posts::{bare, nothing_before};
use parser_model::expression_state::{Before, ExprMove, ExprState, Listing, OpenBracket};
use script_tree::token::{Keyword, Symbol, Token};
use script_tree::tree::{Atom, UnaryOp};
use sqlite_items::Items as ListOf;
use std::alloc::Global;

fn operand_word(alloc: Global, before: Before, word: Keyword) -> ExprMove
    ensures { result ≡ spec.operand before (Token.Keyword word) }
{
    match word {
        Keyword::Nothing => ExprMove::To(ExprState::After(before, bare(alloc, Atom::Nothing))),
        Keyword::Call => ExprMove::To(ExprState::CallWord(before)),
        Keyword::App => ExprMove::Stuck,
        Keyword::Cached => ExprMove::Stuck,
        Keyword::Join => ExprMove::Stuck,
        Keyword::Main => ExprMove::Stuck,
        Keyword::Outputs => ExprMove::Stuck,
        Keyword::Let => ExprMove::Stuck,
        Keyword::While => ExprMove::Stuck,
        Keyword::For => ExprMove::Stuck,
        Keyword::In => ExprMove::Stuck,
        Keyword::If => ExprMove::Stuck,
        Keyword::Else => ExprMove::Stuck,
        Keyword::Return => ExprMove::Stuck,
        Keyword::Raise => ExprMove::Stuck,
        Keyword::Write => ExprMove::Stuck,
        Keyword::Print => ExprMove::Stuck,
        Keyword::Checkpoint => ExprMove::Stuck,
        Keyword::To => ExprMove::Stuck,
        Keyword::And => ExprMove::Stuck,
        Keyword::Or => ExprMove::Stuck,
        Keyword::Not => ExprMove::Stuck,
    }
}

fn operand_symbol(alloc: Global, before: Before, symbol: Symbol) -> ExprMove
    ensures { result ≡ spec.operand before (Token.Symbol symbol) }
{
    match symbol {
        Symbol::OpenParen => ExprMove::Open(
            OpenBracket::Paren(before),
            ExprState::Operand(nothing_before()),
        ),
        Symbol::OpenList => {
            ExprMove::Open(
                OpenBracket::Listed(Listing::List(before), ListOf::new(alloc)),
                ExprState::First,
            )
        }
        Symbol::CloseParen => ExprMove::Stuck,
        Symbol::CloseList => ExprMove::Stuck,
        Symbol::OpenBlock => ExprMove::Stuck,
        Symbol::CloseBlock => ExprMove::Stuck,
        Symbol::Comma => ExprMove::Stuck,
        Symbol::Semicolon => ExprMove::Stuck,
        Symbol::Assign => ExprMove::Stuck,
        Symbol::Equal => ExprMove::Stuck,
        Symbol::Differ => ExprMove::Stuck,
        Symbol::Less => ExprMove::Stuck,
        Symbol::AtMost => ExprMove::Stuck,
        Symbol::Greater => ExprMove::Stuck,
        Symbol::AtLeast => ExprMove::Stuck,
        Symbol::Plus => ExprMove::Stuck,
        Symbol::Minus => ExprMove::Stuck,
        Symbol::Times => ExprMove::Stuck,
        Symbol::Over => ExprMove::Stuck,
        Symbol::Rest => ExprMove::Stuck,
    }
}

/// The token where an operand is wanted and no sign may stand.
pub fn operand(alloc: Global, before: Before, token: Token) -> ExprMove
    ensures { result ≡ spec.operand before token }
{
    match token {
        Token::Number(number) => ExprMove::To(ExprState::After(
            before,
            bare(alloc, Atom::Number(number)),
        )),
        Token::Text(text) => ExprMove::To(ExprState::After(before, bare(alloc, Atom::Text(text)))),
        Token::Name(name) => ExprMove::To(ExprState::Named(before, name)),
        Token::Keyword(word) => operand_word(alloc, before, word),
        Token::Symbol(symbol) => operand_symbol(alloc, before, symbol),
    }
}

fn signed(before: Before, op: UnaryOp) -> ExprMove
    ensures { result ≡ spec.signed before op before.sign }
{
    let Before {
        ors,
        ands,
        left,
        sum,
        term,
        sign,
    } = before;
    match sign {
        None => ExprMove::To(ExprState::Operand(Before {
            ors,
            ands,
            left,
            sum,
            term,
            sign: Some(op),
        })),
        Some(_) => ExprMove::Stuck,
    }
}

fn wanted_word(alloc: Global, before: Before, word: Keyword) -> ExprMove
    ensures { result ≡ spec.wanted before (Token.Keyword word) }
{
    match word {
        Keyword::Not => signed(before, UnaryOp::Not),
        _ => operand_word(alloc, before, word),
    }
}

fn wanted_symbol(alloc: Global, before: Before, symbol: Symbol) -> ExprMove
    ensures { result ≡ spec.wanted before (Token.Symbol symbol) }
{
    match symbol {
        Symbol::Minus => signed(before, UnaryOp::Minus),
        _ => operand_symbol(alloc, before, symbol),
    }
}

/// The token where an operand is wanted, with its sign.
pub fn wanted(alloc: Global, before: Before, token: Token) -> ExprMove
    ensures { result ≡ spec.wanted before token }
{
    match token {
        Token::Number(number) => operand(alloc, before, Token::Number(number)),
        Token::Text(text) => operand(alloc, before, Token::Text(text)),
        Token::Name(name) => operand(alloc, before, Token::Name(name)),
        Token::Keyword(word) => wanted_word(alloc, before, word),
        Token::Symbol(symbol) => wanted_symbol(alloc, before, symbol),
    }
}

fn first_symbol(alloc: Global, symbol: Symbol) -> ExprMove
    ensures { result ≡ spec.first (Token.Symbol symbol) }
{
    match symbol {
        Symbol::CloseParen | Symbol::CloseList => ExprMove::Empty,
        _ => wanted_symbol(alloc, nothing_before(), symbol),
    }
}

/// The first token in a bracket: an operand, or the bracket's end.
pub fn first(alloc: Global, token: Token) -> ExprMove
    ensures { result ≡ spec.first token }
{
    match token {
        Token::Number(number) => wanted(alloc, nothing_before(), Token::Number(number)),
        Token::Text(text) => wanted(alloc, nothing_before(), Token::Text(text)),
        Token::Name(name) => wanted(alloc, nothing_before(), Token::Name(name)),
        Token::Keyword(word) => wanted_word(alloc, nothing_before(), word),
        Token::Symbol(symbol) => first_symbol(alloc, symbol),
    }
}

/// The token behind `call`: the app's name.
pub fn call_word(before: Before, token: Token) -> ExprMove
    ensures { result ≡ spec.call_word before token }
{
    match token {
        Token::Name(name) => ExprMove::To(ExprState::CallName(before, name)),
        Token::Number(_) => ExprMove::Stuck,
        Token::Text(_) => ExprMove::Stuck,
        Token::Keyword(_) => ExprMove::Stuck,
        Token::Symbol(_) => ExprMove::Stuck,
    }
}
