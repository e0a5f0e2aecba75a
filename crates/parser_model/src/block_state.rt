//! What has been read of a script, up to a token.

use crate::expression_state::{ExprState, OpenBracket};
use script_tree::tree::{AppDef, Block, CallExpr, Expr, Name, Statement};
use sqlite_items::Items as ListOf;

/// What waits for an expression.
#[derive(Drop)]
pub enum ExprUse {
    Let(Name),
    Set(Name),
    While,
    For(Name),
    If,
    Return,
    Raise,
    Write,
    WriteText(Expr),
    Print,
    Argument(Name, ListOf<Expr>),
    Names(Name, ListOf<Expr>, ListOf<Expr>),
}

/// Where a block that is read belongs.
#[derive(Drop)]
pub enum Head {
    While(Expr),
    For(Name, Expr),
    If(Expr),
    Else(Expr, Block),
}

/// A block that is read, and the statements before it.
#[derive(Drop)]
pub struct Opened {
    pub before: ListOf<Statement>,
    pub head: Head,
}

/// The last tokens of what has been read, behind the last whole statement of a block.
#[derive(Drop)]
pub enum StatementState {
    Begin,
    LetWord,
    LetName(Name),
    SetName(Name),
    ForWord,
    ForName(Name),
    CheckpointWord,
    CallWord,
    CallName(Name),
    CallFirst(Name),
    Called(Name, ListOf<Expr>),
    CallTo(Name, ListOf<Expr>),
    CallEnd(CallExpr),
    IfBlock(Expr, Block),
    ElseWord(Expr, Block),
    Reading(ExprUse, ListOf<OpenBracket>, ExprState),
}

/// The open blocks, the last one at the end, and what has been read in the innermost.
#[derive(Drop)]
pub struct BlockState {
    pub opened: ListOf<Opened>,
    pub before: ListOf<Statement>,
    pub last: StatementState,
}

/// What a token does within a block.
#[derive(Drop)]
pub enum BlockMove {
    Go(StatementState),
    Add(Statement),
    /// A statement ends before the token, which begins the next or ends the block.
    Again(Statement),
    Enter(Head),
    Leave,
    Halt,
}
