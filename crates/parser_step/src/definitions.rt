//! Reads apps and `main` token by token.

ghost use Rattle.std.specs.Prelude.{◌≡◌, [], ◌∷◌, ◌++◌, IfOk, OnOk, Some};
ghost use Rattle.parser_model.specs.Scripts as spec;
ghost use Rattle.parser_model.specs.Stages as stages;
ghost use Rattle.parser_step.specs.Turns.{onward, now_of, turn_of};

use crate::blocks::{Now, inside_step};
use parser_model::block_state::{BlockState, Opened, StatementState};
use parser_model::script_state::{AppHead, DefinitionState, ParserState};
use script_tree::token::{Keyword, Symbol, Token};
use script_tree::tree::{AppDef, Block, Name};
use sqlite_items::Items as ListOf;
use std::alloc::{AllocError, Global};

/// What a token leads to.
#[derive(Drop)]
pub enum Reached {
    DefinitionState(AppHead, DefinitionState),
    /// An app has ended.
    App(AppDef),
    Nothing,
}

fn flagged(alloc: Global, cached: bool, join: bool) -> AppHead
    ensures { result ≡ spec.flagged cached join }
{
    AppHead {
        cached,
        join,
        name: Name::new(alloc),
        parameters: ListOf::new(alloc),
        outputs: None,
    }
}

/// Behind the last whole app.
fn begin(alloc: Global, head: &mut AppHead, token: &Token) -> Option<DefinitionState>
    ensures { onward head.new result ≡ spec.begin head.old token.now }
{
    match token {
        Token::Keyword(Keyword::Cached) => Some(DefinitionState::CachedWord),
        Token::Keyword(Keyword::Join) => {
            *head = flagged(alloc, false, true);
            Some(DefinitionState::JoinWord)
        }
        Token::Keyword(Keyword::App) => {
            *head = flagged(alloc, false, false);
            Some(DefinitionState::AppWord)
        }
        Token::Keyword(Keyword::Main) => Some(DefinitionState::MainWord),
        _ => None,
    }
}

fn behind_cached(alloc: Global, head: &mut AppHead, token: &Token) -> Option<DefinitionState>
    ensures { onward head.new result ≡ spec.behind_cached token.now }
{
    match token {
        Token::Keyword(Keyword::Join) => {
            *head = flagged(alloc, true, true);
            Some(DefinitionState::JoinWord)
        }
        Token::Keyword(Keyword::App) => {
            *head = flagged(alloc, true, false);
            Some(DefinitionState::AppWord)
        }
        _ => None,
    }
}

fn behind_join(alloc: Global, head: &mut AppHead, token: &Token) -> Option<DefinitionState>
    ensures { onward head.new result ≡ spec.behind_join head.old token.now }
{
    match token {
        Token::Keyword(Keyword::App) => {
            *head = flagged(alloc, head.cached, true);
            Some(DefinitionState::AppWord)
        }
        _ => None,
    }
}

fn app_name(alloc: Global, head: &mut AppHead, token: Token) -> Option<DefinitionState>
    ensures { onward head.new result ≡ spec.app_name head.old token }
{
    match token {
        Token::Name(name) => {
            head.name = name;
            head.parameters = ListOf::new(alloc);
            head.outputs = None;
            Some(DefinitionState::AppName)
        }
        Token::Keyword(_) | Token::Symbol(_) | Token::Number(_) | Token::Text(_) => None,
    }
}

fn parameters_open(head: &AppHead, token: &Token) -> Option<DefinitionState>
    ensures { onward head.now result ≡ spec.parameters_open head.now token.now }
{
    match token {
        Token::Symbol(Symbol::OpenParen) => Some(DefinitionState::FirstParameter),
        _ => None,
    }
}

fn clear_parameters(alloc: Global, head: &mut AppHead)
    ensures { head.new ≡ spec.with_parameters head.old [] }
{
    head.parameters = ListOf::new(alloc);
    head.outputs = None;
}

fn first_parameter(alloc: Global, head: &mut AppHead, token: Token) -> Option<DefinitionState>
    ensures { onward head.new result ≡ spec.first_parameter head.old token }
{
    clear_parameters(alloc, head);
    match token {
        Token::Name(name) => Some(DefinitionState::Parameter(name)),
        Token::Symbol(Symbol::CloseParen) => Some(DefinitionState::Parameters),
        Token::Symbol(_) | Token::Keyword(_) | Token::Number(_) | Token::Text(_) => None,
    }
}

fn next_parameter(head: &AppHead, token: Token) -> Option<DefinitionState>
    ensures { onward head.now result ≡ spec.next_parameter head.now token }
{
    match token {
        Token::Name(name) => Some(DefinitionState::Parameter(name)),
        Token::Keyword(_) | Token::Symbol(_) | Token::Number(_) | Token::Text(_) => None,
    }
}

fn add_parameter(head: &mut AppHead, name: Name) -> Result<(), AllocError>
    ensures { OnOk result (head.new ≡ spec.with_parameters head.old (head.old.parameters ++ name ∷ [])) }
{
    head.parameters.push(name)?;
    head.outputs = None;
    Ok(())
}

fn behind_parameter(
    head: &mut AppHead,
    name: Name,
    token: &Token,
) -> Result<Option<DefinitionState>, AllocError>
    ensures { IfOk result (λ place. onward head.new place ≡ spec.behind_parameter head.old name token.now) }
{
    add_parameter(head, name)?;
    match token {
        Token::Symbol(Symbol::Comma) => Ok(Some(DefinitionState::NextParameter)),
        Token::Symbol(Symbol::CloseParen) => Ok(Some(DefinitionState::Parameters)),
        _ => Ok(None),
    }
}

fn block_begins(alloc: Global) -> BlockState
    ensures { result ≡ spec.block_begins }
{
    BlockState {
        opened: ListOf::new(alloc),
        before: ListOf::new(alloc),
        last: StatementState::Begin,
    }
}

fn behind_parameters(alloc: Global, head: &mut AppHead, token: &Token) -> Option<DefinitionState>
    ensures { onward head.new result ≡ spec.behind_parameters head.old token.now }
{
    match token {
        Token::Keyword(Keyword::Outputs) => Some(DefinitionState::OutputsWord),
        Token::Symbol(Symbol::OpenBlock) => {
            head.outputs = None;
            Some(DefinitionState::Body(block_begins(alloc)))
        }
        _ => None,
    }
}

fn behind_outputs(head: &mut AppHead, token: &Token) -> Option<DefinitionState>
    ensures { onward head.new result ≡ spec.behind_outputs head.old token.now }
{
    match token {
        Token::Number(number) => {
            head.outputs = Some(*number);
            Some(DefinitionState::HeadEnd)
        }
        _ => None,
    }
}

fn block_opens(head: &AppHead, place: DefinitionState, token: &Token) -> Option<DefinitionState>
    ensures { onward head.now result ≡ spec.block_opens head.now place token.now }
{
    match token {
        Token::Symbol(Symbol::OpenBlock) => Some(place),
        _ => None,
    }
}

fn app_of(head: AppHead, body: Block) -> AppDef
    ensures { result ≡ spec.app_of head body }
{
    let AppHead {
        cached,
        join,
        name,
        parameters,
        outputs,
    } = head;
    AppDef {
        cached,
        join,
        name,
        parameters,
        outputs,
        body,
    }
}

fn no_head(alloc: Global) -> AppHead
    ensures { result ≡ spec.no_head }
{
    flagged(alloc, false, false)
}

/// Before the first token.
pub fn nothing_read(alloc: Global) -> ParserState
    ensures { result ≡ spec.nothing_read }
{
    ParserState {
        apps: ListOf::new(alloc),
        head: no_head(alloc),
        place: DefinitionState::Begin,
    }
}

/// The tree, where what has been read is a script.
#[tactic(auto, unfolding(parser_model::specs::Scripts::script_ended))]
pub fn script_ended(state: ParserState) -> Option<(ListOf<AppDef>, Block)>
    ensures { result ≡ spec.script_ended state }
{
    let ParserState { apps, place, .. } = state;
    match place {
        DefinitionState::End(main) => Some((apps, main)),
        DefinitionState::Begin
        | DefinitionState::CachedWord
        | DefinitionState::JoinWord
        | DefinitionState::AppWord
        | DefinitionState::AppName
        | DefinitionState::FirstParameter
        | DefinitionState::Parameter(_)
        | DefinitionState::NextParameter
        | DefinitionState::Parameters
        | DefinitionState::OutputsWord
        | DefinitionState::HeadEnd
        | DefinitionState::Body(_)
        | DefinitionState::MainWord
        | DefinitionState::MainBody(_) => None,
    }
}

/// In the block of an app.
fn in_body(head: AppHead, opened: ListOf<Opened>, now: Now) -> Reached
    ensures { turn_of result ≡ spec.in_body head (now_of opened now) }
{
    match now {
        Now::In(before, last) => Reached::DefinitionState(
            head,
            DefinitionState::Body(BlockState {
                opened,
                before,
                last,
            }),
        ),
        Now::Out(body) => Reached::App(app_of(head, body)),
        Now::Stuck => Reached::Nothing,
    }
}

/// In the block of `main`.
fn in_main(head: AppHead, opened: ListOf<Opened>, now: Now) -> Reached
    ensures { turn_of result ≡ spec.in_main head (now_of opened now) }
{
    match now {
        Now::In(before, last) => Reached::DefinitionState(
            head,
            DefinitionState::MainBody(BlockState {
                opened,
                before,
                last,
            }),
        ),
        Now::Out(main) => Reached::DefinitionState(head, DefinitionState::End(main)),
        Now::Stuck => Reached::Nothing,
    }
}

fn add_app(apps: ListOf<AppDef>, app: AppDef) -> Result<ListOf<AppDef>, AllocError>
    ensures { IfOk result (λ all. all ≡ apps ++ app ∷ []) }
{
    let mut all = apps;
    all.push(app)?;
    Ok(all)
}

fn with_app(alloc: Global, apps: ListOf<AppDef>, app: AppDef) -> Result<ParserState, AllocError>
    ensures { IfOk result (λ z. Some z ≡ spec.turned apps (spec.Whole app)) }
{
    let apps = add_app(apps, app)?;
    Ok(ParserState {
        apps,
        head: no_head(alloc),
        place: DefinitionState::Begin,
    })
}

fn turned(
    alloc: Global,
    apps: ListOf<AppDef>,
    reached: Reached,
) -> Result<Option<ParserState>, AllocError>
    ensures { IfOk result (λ z. z ≡ spec.turned apps (turn_of reached)) }
{
    match reached {
        Reached::DefinitionState(head, place) => Ok(Some(ParserState { apps, head, place })),
        Reached::App(app) => Ok(Some(with_app(alloc, apps, app)?)),
        Reached::Nothing => Ok(None),
    }
}

/// With this head, at a place or at none.
fn arrived(head: AppHead, place: Option<DefinitionState>) -> Reached
    ensures { turn_of result ≡ onward head place }
{
    match place {
        Some(place) => Reached::DefinitionState(head, place),
        None => Reached::Nothing,
    }
}

fn at_begin(alloc: Global, head: AppHead, token: Token) -> Reached
    ensures { turn_of result ≡ spec.begin head token }
{
    let mut head = head;
    let place = begin(alloc, &mut head, &token);
    arrived(head, place)
}

fn at_cached(alloc: Global, head: AppHead, token: Token) -> Reached
    ensures { turn_of result ≡ spec.behind_cached token }
{
    let mut head = head;
    let place = behind_cached(alloc, &mut head, &token);
    arrived(head, place)
}

fn at_join(alloc: Global, head: AppHead, token: Token) -> Reached
    ensures { turn_of result ≡ spec.behind_join head token }
{
    let mut head = head;
    let place = behind_join(alloc, &mut head, &token);
    arrived(head, place)
}

fn at_app(alloc: Global, head: AppHead, token: Token) -> Reached
    ensures { turn_of result ≡ spec.app_name head token }
{
    let mut head = head;
    let place = app_name(alloc, &mut head, token);
    arrived(head, place)
}

fn at_name(head: AppHead, token: Token) -> Reached
    ensures { turn_of result ≡ spec.parameters_open head token }
{
    let place = parameters_open(&head, &token);
    arrived(head, place)
}

fn at_first_parameter(alloc: Global, head: AppHead, token: Token) -> Reached
    ensures { turn_of result ≡ spec.first_parameter head token }
{
    let mut head = head;
    let place = first_parameter(alloc, &mut head, token);
    arrived(head, place)
}

fn at_parameter(head: AppHead, name: Name, token: Token) -> Result<Reached, AllocError>
    ensures { IfOk result (λ r. turn_of r ≡ spec.behind_parameter head name token) }
{
    let mut head = head;
    let place = behind_parameter(&mut head, name, &token)?;
    Ok(arrived(head, place))
}

fn at_next_parameter(head: AppHead, token: Token) -> Reached
    ensures { turn_of result ≡ spec.next_parameter head token }
{
    let place = next_parameter(&head, token);
    arrived(head, place)
}

fn at_parameters(alloc: Global, head: AppHead, token: Token) -> Reached
    ensures { turn_of result ≡ spec.behind_parameters head token }
{
    let mut head = head;
    let place = behind_parameters(alloc, &mut head, &token);
    arrived(head, place)
}

fn at_outputs(head: AppHead, token: Token) -> Reached
    ensures { turn_of result ≡ spec.behind_outputs head token }
{
    let mut head = head;
    let place = behind_outputs(&mut head, &token);
    arrived(head, place)
}

fn at_block(head: AppHead, place: DefinitionState, token: Token) -> Reached
    ensures { turn_of result ≡ spec.block_opens head place token }
{
    let place = block_opens(&head, place, &token);
    arrived(head, place)
}

fn at_body(
    alloc: Global,
    head: AppHead,
    inside: BlockState,
    token: Token,
) -> Result<Reached, AllocError>
    ensures { IfOk result (λ r. turn_of r ≡ spec.in_body head (stages.inside_step inside token)) }
{
    let BlockState {
        opened,
        before,
        last,
    } = inside;
    let mut opened = opened;
    let now = inside_step(alloc, &mut opened, before, last, token)?;
    Ok(in_body(head, opened, now))
}

fn at_main(
    alloc: Global,
    head: AppHead,
    inside: BlockState,
    token: Token,
) -> Result<Reached, AllocError>
    ensures { IfOk result (λ r. turn_of r ≡ spec.in_main head (stages.inside_step inside token)) }
{
    let BlockState {
        opened,
        before,
        last,
    } = inside;
    let mut opened = opened;
    let now = inside_step(alloc, &mut opened, before, last, token)?;
    Ok(in_main(head, opened, now))
}

#[tactic(auto, unfolding(parser_model::specs::Scripts::turn))]
fn turn(
    alloc: Global,
    head: AppHead,
    place: DefinitionState,
    token: Token,
) -> Result<Reached, AllocError>
    ensures { IfOk result (λ r. turn_of r ≡ spec.turn head place token) }
{
    match place {
        DefinitionState::Begin => Ok(at_begin(alloc, head, token)),
        DefinitionState::CachedWord => Ok(at_cached(alloc, head, token)),
        DefinitionState::JoinWord => Ok(at_join(alloc, head, token)),
        DefinitionState::AppWord => Ok(at_app(alloc, head, token)),
        DefinitionState::AppName => Ok(at_name(head, token)),
        DefinitionState::FirstParameter => Ok(at_first_parameter(alloc, head, token)),
        DefinitionState::Parameter(name) => at_parameter(head, name, token),
        DefinitionState::NextParameter => Ok(at_next_parameter(head, token)),
        DefinitionState::Parameters => Ok(at_parameters(alloc, head, token)),
        DefinitionState::OutputsWord => Ok(at_outputs(head, token)),
        DefinitionState::HeadEnd => Ok(at_block(
            head,
            DefinitionState::Body(block_begins(alloc)),
            token,
        )),
        DefinitionState::Body(inside) => at_body(alloc, head, inside, token),
        DefinitionState::MainWord => Ok(at_block(
            head,
            DefinitionState::MainBody(block_begins(alloc)),
            token,
        )),
        DefinitionState::MainBody(inside) => at_main(alloc, head, inside, token),
        DefinitionState::End(_) => Ok(Reached::Nothing),
    }
}

/// One more token of a script.
#[tactic(auto, unfolding(parser_model::specs::Scripts::script_step))]
pub fn script_step(
    alloc: Global,
    state: ParserState,
    token: Token,
) -> Result<Option<ParserState>, AllocError>
    ensures { IfOk result (λ z. z ≡ spec.script_step state token) }
{
    let ParserState { apps, head, place } = state;
    let reached = turn(alloc, head, place, token)?;
    turned(alloc, apps, reached)
}
