//! Reads statements and blocks token by token.

ghost use Rattle.std.specs.Prelude.{◌≡◌, [], ◌∷◌, ◌++◌, IfOk, Some, None};
ghost use Rattle.parser_model.specs.Stages as spec;
ghost use Rattle.parser_model.specs.Reading as reading;
ghost use Rattle.parser_step.specs.Turns.{ending, now_of, closes, is_else, inside_of};

use crate::expressions::step;
use crate::posts::{nothing_before, with_item};
use parser_model::block_state::{BlockMove, ExprUse, Head, Opened, StatementState};
use parser_model::expression_state::{ExprState, ExprStep, OpenBracket};
use script_tree::token::{Keyword, Symbol, Token};
use script_tree::tree::{Block, CallExpr, Expr, Name, Statement};
use sqlite_items::{Boxed, Items as ListOf};
use std::alloc::{AllocError, Global};

/// What an expression ends with.
#[derive(Clone, Copy)]
pub enum End {
    Semicolon,
    Comma,
    Round,
    Brace,
    Other,
}

/// What a token makes of the statements of a block.
#[derive(Drop)]
pub enum Now {
    /// The whole statements of the innermost block, and what has been read behind them.
    In(ListOf<Statement>, StatementState),
    /// The outermost block has ended.
    Out(Block),
    Stuck,
}

/// An expression is to come.
fn read(alloc: Global, wait: ExprUse) -> BlockMove
    ensures { result ≡ spec.read wait }
{
    let focus = ExprState::Operand(nothing_before());
    BlockMove::Go(StatementState::Reading(wait, ListOf::new(alloc), focus))
}

fn begin_word(alloc: Global, word: Keyword) -> BlockMove
    ensures { result ≡ spec.begin (Token.Keyword word) }
{
    match word {
        Keyword::Let => BlockMove::Go(StatementState::LetWord),
        Keyword::While => read(alloc, ExprUse::While),
        Keyword::For => BlockMove::Go(StatementState::ForWord),
        Keyword::If => read(alloc, ExprUse::If),
        Keyword::Return => read(alloc, ExprUse::Return),
        Keyword::Raise => read(alloc, ExprUse::Raise),
        Keyword::Write => read(alloc, ExprUse::Write),
        Keyword::Print => read(alloc, ExprUse::Print),
        Keyword::Checkpoint => BlockMove::Go(StatementState::CheckpointWord),
        Keyword::Call => BlockMove::Go(StatementState::CallWord),
        Keyword::App
        | Keyword::Cached
        | Keyword::Join
        | Keyword::Main
        | Keyword::Outputs
        | Keyword::In
        | Keyword::Else
        | Keyword::To
        | Keyword::And
        | Keyword::Or
        | Keyword::Not
        | Keyword::Nothing => BlockMove::Halt,
    }
}

/// Behind a whole statement.
fn begin(alloc: Global, token: Token) -> BlockMove
    ensures { result ≡ spec.begin token }
{
    match token {
        Token::Symbol(Symbol::CloseBlock) => BlockMove::Leave,
        Token::Name(name) => BlockMove::Go(StatementState::SetName(name)),
        Token::Keyword(word) => begin_word(alloc, word),
        Token::Symbol(_) | Token::Number(_) | Token::Text(_) => BlockMove::Halt,
    }
}

fn let_name(token: Token) -> BlockMove
    ensures { result ≡ spec.if_name (λ x. StatementState.LetName x) token }
{
    match token {
        Token::Name(name) => BlockMove::Go(StatementState::LetName(name)),
        Token::Keyword(_) | Token::Symbol(_) | Token::Number(_) | Token::Text(_) => BlockMove::Halt,
    }
}

fn for_name(token: Token) -> BlockMove
    ensures { result ≡ spec.if_name (λ x. StatementState.ForName x) token }
{
    match token {
        Token::Name(name) => BlockMove::Go(StatementState::ForName(name)),
        Token::Keyword(_) | Token::Symbol(_) | Token::Number(_) | Token::Text(_) => BlockMove::Halt,
    }
}

fn call_name(token: Token) -> BlockMove
    ensures { result ≡ spec.if_name (λ x. StatementState.CallName x) token }
{
    match token {
        Token::Name(name) => BlockMove::Go(StatementState::CallName(name)),
        Token::Keyword(_) | Token::Symbol(_) | Token::Number(_) | Token::Text(_) => BlockMove::Halt,
    }
}

fn call(app: Name, arguments: ListOf<Expr>, names: ListOf<Expr>) -> Statement
    ensures { result ≡ spec.call app arguments names }
{
    Statement::Call(CallExpr {
        app,
        arguments,
        names,
    })
}

fn end_of(token: &Token) -> End
    ensures { ending result ≡ spec.end_of token.now }
{
    match token {
        Token::Symbol(Symbol::Semicolon) => End::Semicolon,
        Token::Symbol(Symbol::Comma) => End::Comma,
        Token::Symbol(Symbol::CloseParen) => End::Round,
        Token::Symbol(Symbol::OpenBlock) => End::Brace,
        _ => End::Other,
    }
}

fn if_assign(act: BlockMove, token: &Token) -> BlockMove
    ensures { result ≡ spec.if_symbol Symbol.Assign act token.now }
{
    match token {
        Token::Symbol(Symbol::Assign) => act,
        _ => BlockMove::Halt,
    }
}

fn if_semicolon(act: BlockMove, token: &Token) -> BlockMove
    ensures { result ≡ spec.if_symbol Symbol.Semicolon act token.now }
{
    match token {
        Token::Symbol(Symbol::Semicolon) => act,
        _ => BlockMove::Halt,
    }
}

fn if_paren(act: BlockMove, token: &Token) -> BlockMove
    ensures { result ≡ spec.if_symbol Symbol.OpenParen act token.now }
{
    match token {
        Token::Symbol(Symbol::OpenParen) => act,
        _ => BlockMove::Halt,
    }
}

fn if_brace(act: BlockMove, token: &Token) -> BlockMove
    ensures { result ≡ spec.if_symbol Symbol.OpenBlock act token.now }
{
    match token {
        Token::Symbol(Symbol::OpenBlock) => act,
        _ => BlockMove::Halt,
    }
}

fn if_in(act: BlockMove, token: &Token) -> BlockMove
    ensures { result ≡ spec.if_in act token.now }
{
    match token {
        Token::Keyword(Keyword::In) => act,
        _ => BlockMove::Halt,
    }
}

/// Behind the arguments of a call.
fn called(alloc: Global, app: Name, arguments: ListOf<Expr>, token: &Token) -> BlockMove
    ensures { result ≡ spec.called app arguments token.now }
{
    match token {
        Token::Keyword(Keyword::To) => BlockMove::Go(StatementState::CallTo(app, arguments)),
        Token::Symbol(Symbol::Semicolon) => BlockMove::Add(call(
            app,
            arguments,
            ListOf::new(alloc),
        )),
        _ => BlockMove::Halt,
    }
}

fn block(statements: ListOf<Statement>) -> Block
    ensures { result ≡ spec.block statements }
{
    Block { statements }
}

/// At `;`.
fn at_semicolon(wait: ExprUse, expression: Expr) -> BlockMove
    ensures { result ≡ spec.ended wait expression spec.Semicolon }
{
    match wait {
        ExprUse::Let(name) => BlockMove::Add(Statement::Let(name, expression)),
        ExprUse::Set(name) => BlockMove::Add(Statement::Set(name, expression)),
        ExprUse::Return => BlockMove::Add(Statement::Return(expression)),
        ExprUse::Raise => BlockMove::Add(Statement::Raise(expression)),
        ExprUse::WriteText(directory) => BlockMove::Add(Statement::Write(directory, expression)),
        ExprUse::Print => BlockMove::Add(Statement::Print(expression)),
        ExprUse::While
        | ExprUse::For(_)
        | ExprUse::If
        | ExprUse::Write
        | ExprUse::Argument(..)
        | ExprUse::Names(..) => BlockMove::Halt,
    }
}

/// At `{`.
fn at_brace(wait: ExprUse, expression: Expr) -> BlockMove
    ensures { result ≡ spec.ended wait expression spec.Brace }
{
    match wait {
        ExprUse::While => BlockMove::Enter(Head::While(expression)),
        ExprUse::For(name) => BlockMove::Enter(Head::For(name, expression)),
        ExprUse::If => BlockMove::Enter(Head::If(expression)),
        ExprUse::Let(_)
        | ExprUse::Set(_)
        | ExprUse::Return
        | ExprUse::Raise
        | ExprUse::Write
        | ExprUse::WriteText(_)
        | ExprUse::Print
        | ExprUse::Argument(..)
        | ExprUse::Names(..) => BlockMove::Halt,
    }
}

fn next_argument(
    alloc: Global,
    app: Name,
    arguments: ListOf<Expr>,
    expression: Expr,
) -> Result<BlockMove, AllocError>
    ensures { IfOk result (λ a. a ≡ spec.ended (ExprUse.Argument app arguments) expression spec.Comma) }
{
    let arguments = with_item(arguments, expression)?;
    Ok(read(alloc, ExprUse::Argument(app, arguments)))
}

fn last_argument(
    app: Name,
    arguments: ListOf<Expr>,
    expression: Expr,
) -> Result<BlockMove, AllocError>
    ensures { IfOk result (λ a. a ≡ spec.ended (ExprUse.Argument app arguments) expression spec.Round) }
{
    let arguments = with_item(arguments, expression)?;
    Ok(BlockMove::Go(StatementState::Called(app, arguments)))
}

fn next_name(
    alloc: Global,
    app: Name,
    arguments: ListOf<Expr>,
    names: ListOf<Expr>,
    expression: Expr,
) -> Result<BlockMove, AllocError>
    ensures { IfOk result (λ a. a ≡ spec.ended (ExprUse.Names app arguments names) expression spec.Comma) }
{
    let names = with_item(names, expression)?;
    Ok(read(alloc, ExprUse::Names(app, arguments, names)))
}

fn last_name(
    app: Name,
    arguments: ListOf<Expr>,
    names: ListOf<Expr>,
    expression: Expr,
) -> Result<BlockMove, AllocError>
    ensures { IfOk result (λ a. a ≡ spec.ended (ExprUse.Names app arguments names) expression spec.Round) }
{
    let names = with_item(names, expression)?;
    Ok(BlockMove::Go(StatementState::CallEnd(CallExpr {
        app,
        arguments,
        names,
    })))
}

/// At `,`.
fn at_comma(alloc: Global, wait: ExprUse, expression: Expr) -> Result<BlockMove, AllocError>
    ensures { IfOk result (λ a. a ≡ spec.ended wait expression spec.Comma) }
{
    match wait {
        ExprUse::Write => Ok(read(alloc, ExprUse::WriteText(expression))),
        ExprUse::Argument(app, arguments) => next_argument(alloc, app, arguments, expression),
        ExprUse::Names(app, arguments, names) => {
            next_name(alloc, app, arguments, names, expression)
        }
        ExprUse::Let(_)
        | ExprUse::Set(_)
        | ExprUse::While
        | ExprUse::For(_)
        | ExprUse::If
        | ExprUse::Return
        | ExprUse::Raise
        | ExprUse::WriteText(_)
        | ExprUse::Print => Ok(BlockMove::Halt),
    }
}

/// At `)`.
fn at_round(wait: ExprUse, expression: Expr) -> Result<BlockMove, AllocError>
    ensures { IfOk result (λ a. a ≡ spec.ended wait expression spec.Round) }
{
    match wait {
        ExprUse::Argument(app, arguments) => last_argument(app, arguments, expression),
        ExprUse::Names(app, arguments, names) => last_name(app, arguments, names, expression),
        ExprUse::Let(_)
        | ExprUse::Set(_)
        | ExprUse::While
        | ExprUse::For(_)
        | ExprUse::If
        | ExprUse::Return
        | ExprUse::Raise
        | ExprUse::Write
        | ExprUse::WriteText(_)
        | ExprUse::Print => Ok(BlockMove::Halt),
    }
}

/// At a token that no expression of a statement stands before.
#[tactic(auto, using(crate::proofs::Ends::other_halts))]
fn at_other(_wait: ExprUse, _expression: Expr) -> BlockMove
    ensures { result ≡ spec.ended _wait _expression spec.Other }
{
    BlockMove::Halt
}

/// An expression has ended, before a token that may end a statement's part.
fn ended(alloc: Global, wait: ExprUse, expression: Expr, end: End) -> Result<BlockMove, AllocError>
    ensures { IfOk result (λ a. a ≡ spec.ended wait expression (ending end)) }
{
    match end {
        End::Semicolon => Ok(at_semicolon(wait, expression)),
        End::Comma => at_comma(alloc, wait, expression),
        End::Round => at_round(wait, expression),
        End::Brace => Ok(at_brace(wait, expression)),
        End::Other => Ok(at_other(wait, expression)),
    }
}

/// One more token of an expression.
fn reading(
    alloc: Global,
    wait: ExprUse,
    frames: ListOf<OpenBracket>,
    focus: ExprState,
    token: Token,
) -> Result<BlockMove, AllocError>
    ensures { IfOk result (λ a. a ≡ spec.goes wait token (reading.step frames focus token)) }
{
    let end = end_of(&token);
    let mut frames = frames;
    match step(alloc, &mut frames, focus, token) {
        Ok(ExprStep::Stay(focus)) => Ok(BlockMove::Go(StatementState::Reading(
            wait, frames, focus,
        ))),
        Ok(ExprStep::Done(expression)) => ended(alloc, wait, expression, end),
        Ok(ExprStep::Stop) => Ok(BlockMove::Halt),
        Err(error) => Err(error),
    }
}

fn closes(token: &Token) -> bool
    ensures { result ≡ closes token.now }
{
    match token {
        Token::Symbol(Symbol::CloseParen) => true,
        _ => false,
    }
}

/// Behind the `(` of a call.
#[tactic(auto, using(crate::proofs::Once::first_rules))]
fn first(alloc: Global, app: Name, token: Token) -> Result<BlockMove, AllocError>
    ensures { IfOk result (λ a. a ≡ spec.first app token) }
{
    if closes(&token) {
        return Ok(BlockMove::Go(StatementState::Called(app, ListOf::new(alloc))));
    }
    let wait = ExprUse::Argument(app, ListOf::new(alloc));
    let focus = ExprState::Operand(nothing_before());
    reading(alloc, wait, ListOf::new(alloc), focus, token)
}

fn if_of(alloc: Global, condition: Expr, block: Block) -> Result<Statement, AllocError>
    ensures { IfOk result (λ x. x ≡ Statement.If condition block None) }
{
    let block = Boxed::new(alloc, block)?;
    Ok(Statement::If(condition, block, None))
}

fn whole_if(alloc: Global, condition: Expr, block: Block) -> Result<BlockMove, AllocError>
    ensures { IfOk result (λ a. a ≡ BlockMove.Again (Statement.If condition block None)) }
{
    let statement = if_of(alloc, condition, block)?;
    Ok(BlockMove::Again(statement))
}

/// Behind the block of an `if`.
fn after_if(
    alloc: Global,
    condition: Expr,
    block: Block,
    token: &Token,
) -> Result<BlockMove, AllocError>
    ensures { IfOk result (λ a. a ≡ spec.after_if condition block token.now) }
{
    match token {
        Token::Keyword(Keyword::Else) => Ok(BlockMove::Go(StatementState::ElseWord(
            condition, block,
        ))),
        _ => whole_if(alloc, condition, block),
    }
}

fn with_statement(
    statements: ListOf<Statement>,
    statement: Statement,
) -> Result<ListOf<Statement>, AllocError>
    ensures { IfOk result (λ all. all ≡ statements ++ statement ∷ []) }
{
    let mut all = statements;
    all.push(statement)?;
    Ok(all)
}

fn while_of(alloc: Global, condition: Expr, block: Block) -> Result<Statement, AllocError>
    ensures { IfOk result (λ x. x ≡ Statement.While condition block) }
{
    let block = Boxed::new(alloc, block)?;
    Ok(Statement::While(condition, block))
}

fn for_of(alloc: Global, variable: Name, list: Expr, block: Block) -> Result<Statement, AllocError>
    ensures { IfOk result (λ x. x ≡ Statement.For variable list block) }
{
    let block = Boxed::new(alloc, block)?;
    Ok(Statement::For(variable, list, block))
}

fn if_else(
    alloc: Global,
    condition: Expr,
    block: Block,
    other: Block,
) -> Result<Statement, AllocError>
    ensures { IfOk result (λ x. x ≡ Statement.If condition block (Some other)) }
{
    let block = Boxed::new(alloc, block)?;
    let other = Boxed::new(alloc, other)?;
    Ok(Statement::If(condition, block, Some(other)))
}

/// Adds a whole statement.
fn added(before: ListOf<Statement>, statement: Statement) -> Result<Now, AllocError>
    ensures { IfOk result (λ n. n ≡ Now.In (before ++ statement ∷ []) StatementState.Begin) }
{
    let before = with_statement(before, statement)?;
    Ok(Now::In(before, StatementState::Begin))
}

fn left_while(
    alloc: Global,
    before: ListOf<Statement>,
    condition: Expr,
    block: Block,
) -> Result<Now, AllocError>
    ensures { IfOk result (λ n. n ≡ Now.In (before ++ Statement.While condition block ∷ []) StatementState.Begin) }
{
    let statement = while_of(alloc, condition, block)?;
    added(before, statement)
}

fn left_for(
    alloc: Global,
    before: ListOf<Statement>,
    variable: Name,
    list: Expr,
    block: Block,
) -> Result<Now, AllocError>
    ensures { IfOk result (λ n. n ≡ Now.In (before ++ Statement.For variable list block ∷ []) StatementState.Begin) }
{
    let statement = for_of(alloc, variable, list, block)?;
    added(before, statement)
}

fn left_else(
    alloc: Global,
    before: ListOf<Statement>,
    condition: Expr,
    block: Block,
    other: Block,
) -> Result<Now, AllocError>
    ensures { IfOk result (λ n. n ≡ Now.In (before ++ Statement.If condition block (Some other) ∷ []) StatementState.Begin) }
{
    let statement = if_else(alloc, condition, block, other)?;
    added(before, statement)
}

/// A block has ended that stands in another one, behind its statements.
fn left(
    alloc: Global,
    opened: &mut ListOf<Opened>,
    before: ListOf<Statement>,
    head: Head,
    block: Block,
) -> Result<Now, AllocError>
    ensures { IfOk result (λ n. now_of opened.new n ≡ spec.In (spec.left opened.old before head block)) }
{
    match head {
        Head::While(condition) => left_while(alloc, before, condition, block),
        Head::For(variable, list) => left_for(alloc, before, variable, list, block),
        Head::If(condition) => Ok(Now::In(before, StatementState::IfBlock(condition, block))),
        Head::Else(condition, first) => left_else(alloc, before, condition, first, block),
    }
}

/// At the `}` of the innermost block.
#[tactic(auto, using(crate::proofs::Splits::split_rules))]
fn leave(
    alloc: Global,
    opened: &mut ListOf<Opened>,
    before: ListOf<Statement>,
) -> Result<Now, AllocError>
    ensures { IfOk result (λ n. now_of opened.new n ≡ spec.leave before (reading.split opened.old)) }
{
    match opened.pop() {
        None => Ok(Now::Out(block(before))),
        Some(
            Opened {
                before: outer,
                head,
            },
        ) => left(alloc, opened, outer, head, block(before)),
    }
}

fn enter(
    alloc: Global,
    opened: &mut ListOf<Opened>,
    before: ListOf<Statement>,
    head: Head,
) -> Result<Now, AllocError>
    ensures { IfOk result (λ n. now_of opened.new n ≡ spec.acted opened.old before (BlockMove.Enter head)) }
{
    opened.push(Opened { before, head })?;
    Ok(Now::In(ListOf::new(alloc), StatementState::Begin))
}

fn gone(before: ListOf<Statement>, last: StatementState) -> Now
    ensures { result ≡ Now.In before last }
{
    Now::In(before, last)
}

fn stuck(_before: ListOf<Statement>) -> Now
    ensures { result ≡ Now.Stuck }
{
    Now::Stuck
}

/// The statement is dropped as one of a list.
fn stuck_behind(before: ListOf<Statement>, statement: Statement) -> Result<Now, AllocError>
    ensures { IfOk result (λ n. n ≡ Now.Stuck) }
{
    let _all = with_statement(before, statement)?;
    Ok(Now::Stuck)
}

fn acted(
    alloc: Global,
    opened: &mut ListOf<Opened>,
    before: ListOf<Statement>,
    act: BlockMove,
) -> Result<Now, AllocError>
    ensures { IfOk result (λ n. now_of opened.new n ≡ spec.acted opened.old before act) }
{
    match act {
        BlockMove::Go(last) => Ok(gone(before, last)),
        BlockMove::Add(statement) => added(before, statement),
        BlockMove::Enter(head) => enter(alloc, opened, before, head),
        BlockMove::Leave => leave(alloc, opened, before),
        BlockMove::Again(statement) => stuck_behind(before, statement),
        BlockMove::Halt => Ok(stuck(before)),
    }
}

/// A statement has ended, before this token.
fn begun(
    alloc: Global,
    opened: &mut ListOf<Opened>,
    before: ListOf<Statement>,
    statement: Statement,
    token: Token,
) -> Result<Now, AllocError>
    ensures { IfOk result (λ n. now_of opened.new n ≡ spec.acted opened.old (before ++ statement ∷ []) (spec.begin token)) }
{
    let act = begin(alloc, token);
    let before = with_statement(before, statement)?;
    acted(alloc, opened, before, act)
}

#[tactic(auto, unfolding(parser_model::specs::Stages::act))]
fn act(alloc: Global, last: StatementState, token: Token) -> Result<BlockMove, AllocError>
    ensures { IfOk result (λ a. a ≡ spec.act last token) }
{
    match last {
        StatementState::Begin => Ok(begin(alloc, token)),
        StatementState::LetWord => Ok(let_name(token)),
        StatementState::LetName(name) => Ok(if_assign(read(alloc, ExprUse::Let(name)), &token)),
        StatementState::SetName(name) => Ok(if_assign(read(alloc, ExprUse::Set(name)), &token)),
        StatementState::ForWord => Ok(for_name(token)),
        StatementState::ForName(name) => Ok(if_in(read(alloc, ExprUse::For(name)), &token)),
        StatementState::CheckpointWord => Ok(if_semicolon(
            BlockMove::Add(Statement::Checkpoint),
            &token,
        )),
        StatementState::CallWord => Ok(call_name(token)),
        StatementState::CallName(name) => Ok(if_paren(
            BlockMove::Go(StatementState::CallFirst(name)),
            &token,
        )),
        StatementState::CallFirst(name) => first(alloc, name, token),
        StatementState::Called(name, arguments) => Ok(called(alloc, name, arguments, &token)),
        StatementState::CallTo(name, arguments) => {
            let wait = ExprUse::Names(name, arguments, ListOf::new(alloc));
            Ok(if_paren(read(alloc, wait), &token))
        }
        StatementState::CallEnd(call) => Ok(if_semicolon(
            BlockMove::Add(Statement::Call(call)),
            &token,
        )),
        StatementState::IfBlock(condition, block) => after_if(alloc, condition, block, &token),
        StatementState::ElseWord(condition, block) => {
            Ok(if_brace(BlockMove::Enter(Head::Else(condition, block)), &token))
        }
        StatementState::Reading(wait, frames, focus) => reading(alloc, wait, frames, focus, token),
    }
}

fn is_else(token: &Token) -> bool
    ensures { result ≡ is_else token.now }
{
    match token {
        Token::Keyword(Keyword::Else) => true,
        _ => false,
    }
}

/// Behind an `if` and its block.
#[tactic(auto, using(crate::proofs::Once::if_rules))]
fn behind_if(
    alloc: Global,
    opened: &mut ListOf<Opened>,
    before: ListOf<Statement>,
    condition: Expr,
    block: Block,
    token: Token,
) -> Result<Now, AllocError>
    ensures { IfOk result (λ n. now_of opened.new n ≡ spec.acted_again opened.old before token (spec.after_if condition block token)) }
{
    if is_else(&token) {
        return Ok(gone(before, StatementState::ElseWord(condition, block)));
    }
    let statement = if_of(alloc, condition, block)?;
    begun(alloc, opened, before, statement, token)
}

/// Behind all but an `if` and its block.
fn behind_other(
    alloc: Global,
    opened: &mut ListOf<Opened>,
    before: ListOf<Statement>,
    last: StatementState,
    token: Token,
) -> Result<Now, AllocError>
    ensures { IfOk result (λ n. now_of opened.new n ≡ spec.acted opened.old before (spec.act last token)) }
{
    let act = act(alloc, last, token)?;
    acted(alloc, opened, before, act)
}

/// One more token of a block.
#[tactic(auto, using(crate::proofs::Once::once_rules))]
pub fn inside_step(
    alloc: Global,
    opened: &mut ListOf<Opened>,
    before: ListOf<Statement>,
    last: StatementState,
    token: Token,
) -> Result<Now, AllocError>
    ensures { IfOk result (λ n. now_of opened.new n ≡ spec.inside_step (inside_of opened.old before last) token) }
{
    match last {
        StatementState::IfBlock(condition, block) => {
            behind_if(alloc, opened, before, condition, block, token)
        }
        last => behind_other(alloc, opened, before, last, token),
    }
}
