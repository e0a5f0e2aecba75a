//! Apps and blocks.

use crate::tests::trees::{alone, built_in, call, items, text, variable};
use flow_base::Text;
use script_tree::tree::{AppDef, Atom, Block, CallExpr, Statement};
use sqlite_items::{Boxed, Items as ListOf};
use std::alloc::{AllocError, Global};

fn one(alloc: Global, statement: Statement) -> Result<Block, AllocError> {
    let mut statements = ListOf::new(alloc);
    statements.push(statement)?;
    Ok(Block { statements })
}

fn parameter(alloc: Global) -> Result<ListOf<Text>, AllocError> {
    let mut parameters = ListOf::new(alloc);
    parameters.push(text(alloc, "a")?)?;
    Ok(parameters)
}

fn raising(alloc: Global) -> Result<Statement, AllocError> {
    let no = Atom::Text(text(alloc, "no")?);
    let block = one(alloc, Statement::Raise(alone(alloc, no)))?;
    Ok(Statement::If(variable(alloc, "b")?, Boxed::new(alloc, block)?, None))
}

fn branching(alloc: Global) -> Result<Statement, AllocError> {
    let block = one(alloc, Statement::Return(variable(alloc, "b")?))?;
    let other = one(alloc, raising(alloc)?)?;
    Ok(Statement::If(
        variable(alloc, "a")?,
        Boxed::new(alloc, block)?,
        Some(Boxed::new(alloc, other)?),
    ))
}

fn repeating(alloc: Global) -> Result<Statement, AllocError> {
    let turn = one(alloc, branching(alloc)?)?;
    Ok(Statement::While(variable(alloc, "a")?, Boxed::new(alloc, turn)?))
}

fn looping_body(alloc: Global) -> Result<Block, AllocError> {
    let mut statements = ListOf::new(alloc);
    statements.push(repeating(alloc)?)?;
    statements.push(Statement::Return(alone(alloc, Atom::Nothing)))?;
    Ok(Block { statements })
}

/// Two nested branches in a loop.
pub fn looping_app(alloc: Global) -> Result<AppDef, AllocError> {
    let mut parameters = parameter(alloc)?;
    parameters.push(text(alloc, "b")?)?;
    Ok(AppDef {
        cached: false,
        join: false,
        name: text(alloc, "f")?,
        parameters,
        outputs: None,
        body: looping_body(alloc)?,
    })
}

fn writing(alloc: Global) -> Result<Statement, AllocError> {
    Ok(Statement::Write(alone(alloc, Atom::Number(1)), variable(alloc, "a")?))
}

fn writing_body(alloc: Global) -> Result<Block, AllocError> {
    let mut statements = ListOf::new(alloc);
    statements.push(writing(alloc)?)?;
    statements.push(Statement::Checkpoint)?;
    Ok(Block { statements })
}

/// An app with outputs.
pub fn cached_app(alloc: Global) -> Result<AppDef, AllocError> {
    Ok(AppDef {
        cached: true,
        join: false,
        name: text(alloc, "g")?,
        parameters: parameter(alloc)?,
        outputs: Some(2),
        body: writing_body(alloc)?,
    })
}

/// An app with nothing in it.
pub fn join_app(alloc: Global) -> Result<AppDef, AllocError> {
    Ok(AppDef {
        cached: false,
        join: true,
        name: text(alloc, "h")?,
        parameters: ListOf::new(alloc),
        outputs: None,
        body: Block {
            statements: ListOf::new(alloc),
        },
    })
}

fn setting(alloc: Global) -> Result<Statement, AllocError> {
    Ok(Statement::Set(text(alloc, "b")?, built_in(alloc)?))
}

fn printing(alloc: Global) -> Result<Statement, AllocError> {
    Ok(Statement::Print(variable(alloc, "b")?))
}

fn each_body(alloc: Global) -> Result<Block, AllocError> {
    let mut statements = ListOf::new(alloc);
    statements.push(setting(alloc)?)?;
    statements.push(printing(alloc)?)?;
    Ok(Block { statements })
}

fn each(alloc: Global) -> Result<Statement, AllocError> {
    let body = Boxed::new(alloc, each_body(alloc)?)?;
    Ok(Statement::For(text(alloc, "b")?, items(alloc)?, body))
}

fn giving(alloc: Global) -> Result<Statement, AllocError> {
    Ok(Statement::Let(text(alloc, "a")?, call(alloc)?))
}

fn calling(alloc: Global) -> Result<Statement, AllocError> {
    Ok(Statement::Call(CallExpr {
        app: text(alloc, "h")?,
        arguments: ListOf::new(alloc),
        names: ListOf::new(alloc),
    }))
}

/// A call with names, a loop and a call without names.
pub fn main_block(alloc: Global) -> Result<Block, AllocError> {
    let mut statements = ListOf::new(alloc);
    statements.push(giving(alloc)?)?;
    statements.push(each(alloc)?)?;
    statements.push(calling(alloc)?)?;
    Ok(Block { statements })
}
