//! What has been read of an expression, up to a token.

use script_tree::tree::{CompareOp, Conj, Expr, Name, Post, Sum, SumOp, Term, TermOp, UnaryOp};
use sqlite_items::Items as ListOf;

/// What stands before the next operand of an expression: for each class its part so far, and the operator behind it.
#[derive(Drop)]
pub struct Before {
    pub ors: Option<Expr>,
    pub ands: Option<Conj>,
    pub left: Option<(Sum, CompareOp)>,
    pub sum: Option<(Sum, SumOp)>,
    pub term: Option<(Term, TermOp)>,
    pub sign: Option<UnaryOp>,
}

/// A list of expressions in brackets, and what stands before it.
#[derive(Drop)]
pub enum Listing {
    List(Before),
    Arguments(Before, Name),
    Call(Before, Name),
    Names(Before, Name, ListOf<Expr>),
}

/// An open bracket, and what stands before it.
#[derive(Drop)]
pub enum OpenBracket {
    Paren(Before),
    Index(Before, Post),
    Listed(Listing, ListOf<Expr>),
}

/// The last tokens of what has been read, behind the last open bracket.
#[derive(Drop)]
pub enum ExprState {
    /// An operand is to come.
    Operand(Before),
    /// The first item of a list is to come, or its end.
    First,
    Named(Before, Name),
    CallWord(Before),
    CallName(Before, Name),
    Called(Before, Name, ListOf<Expr>),
    CallTo(Before, Name, ListOf<Expr>),
    After(Before, Post),
}

/// What a token does behind what has been read since the last open bracket.
#[derive(Drop)]
pub enum ExprMove {
    To(ExprState),
    /// A bracket is opened, and more stands behind it.
    Open(OpenBracket, ExprState),
    /// The token ends the expression, and is not a part of it.
    Ends(Expr),
    /// The token may end a list that has no items.
    Empty,
    Stuck,
}

/// What a token may be behind an operand.
#[derive(Clone, Copy)]
pub enum Behind {
    Indexes,
    Multiplies(TermOp),
    Adds(SumOp),
    Compares(CompareOp),
    Ands,
    Ors,
    Others,
}

/// What a token may be behind an item in brackets.
#[derive(Clone, Copy)]
pub enum Closer {
    Round,
    Square,
    Comma,
    Other,
}

/// What a token makes of an expression. The last open bracket stands at the end.
#[derive(Drop)]
pub enum ExprNext {
    Stay(ListOf<OpenBracket>, ExprState),
    /// The token ends the expression, and is not a part of it.
    Done(Expr),
    Stop,
}

/// The same, where the open brackets are changed in place.
#[derive(Drop)]
pub enum ExprStep {
    Stay(ExprState),
    Done(Expr),
    Stop,
}
