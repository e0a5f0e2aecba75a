//! What has been read of a script, up to a token.

use crate::block_state::BlockState;
use script_tree::tree::{AppDef, Block, Name};
use sqlite_items::Items as ListOf;

/// An app without its body.
#[derive(Drop)]
pub struct AppHead {
    pub cached: bool,
    pub join: bool,
    pub name: Name,
    pub parameters: ListOf<Name>,
    pub outputs: Option<i64>,
}

/// The last tokens of what has been read, behind the last whole app.
#[derive(Drop)]
pub enum DefinitionState {
    Begin,
    CachedWord,
    JoinWord,
    AppWord,
    AppName,
    FirstParameter,
    Parameter(Name),
    NextParameter,
    Parameters,
    OutputsWord,
    HeadEnd,
    Body(BlockState),
    MainWord,
    MainBody(BlockState),
    End(Block),
}

/// The whole apps, and what has been read behind them. The head counts where an app has begun.
#[derive(Drop)]
pub struct ParserState {
    pub apps: ListOf<AppDef>,
    pub head: AppHead,
    pub place: DefinitionState,
}
