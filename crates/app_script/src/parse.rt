//! Reads a script from its text.

ghost use Rattle.std.specs.Prelude.{◌≡◌, ◌≤◌, length};
ghost use Rattle.script_tree.specs.Grammar as grammar;
ghost use Rattle.app_script.specs.Parsing.{Parses, Steps};

use crate::lexer::{LexFault, Lexer, PlacedToken};
use parser_model::script_state::ParserState;
use parser_step::definitions::{nothing_read, script_ended, script_step};
use script_tree::SyntaxFault;
use script_tree::script::Script;
use script_tree::token::{Symbol, Token};
use sqlite_items::Items as ListOf;
use std::alloc::{AllocError, Global};
use thiserror::Error;

/// The most bytes of a text: 1 MiB.
const MAX_TEXT: usize = 1_048_576;
/// How many brackets may be open at once.
const MAX_NESTING: u32 = 64;

/// Why a text is no script.
#[derive(Debug, Drop, Error)]
pub enum ParseFault {
    /// What is wrong, and its place in bytes from 0.
    #[error("parse {kind} at {place}", kind = .kind.number())]
    Refused { kind: SyntaxFault, place: u32 },
    #[error("out of memory")]
    NoMemory,
}

impl From<AllocError> for ParseFault {
    ghost use Rattle.std.specs.Prelude.{◌≡◌};
    ghost use Rattle.app_script.specs.declared.parse.ParseFault.TheVariants.{NoMemory};

    ghost from_gives = { λ _ e. e ≡ NoMemory };

    fn from(_: AllocError) -> ParseFault {
        ParseFault::NoMemory
    }
}

impl From<LexFault> for ParseFault {
    ghost use Rattle.std.specs.Prelude.{◌≡◌};
    ghost use Rattle.app_script.specs.Parsing.{fault_of};

    ghost from_gives = { λ fault given. given ≡ fault_of fault };

    fn from(fault: LexFault) -> ParseFault {
        match fault {
            LexFault::Refused { kind, place } => ParseFault::Refused { kind, place },
            LexFault::NoMemory => ParseFault::NoMemory,
        }
    }
}

/// How many brackets are open behind a token.
fn nesting_after(depth: u32, token: &Token) -> u32
    requires { depth ≤ grammar.max_nesting }
    ensures { result ≡ grammar.nesting_after depth token.now }
{
    match token {
        Token::Symbol(Symbol::OpenParen | Symbol::OpenList | Symbol::OpenBlock) => depth + 1,
        Token::Symbol(Symbol::CloseParen | Symbol::CloseList | Symbol::CloseBlock) => {
            depth.saturating_sub(1)
        }
        _ => depth,
    }
}

/// The script of a text, or its first fault from the left; at one place the one of the smaller
/// number is told.
pub fn parse(alloc: Global, bytes: &[u8]) -> Result<Script, ParseFault>
    ensures { Parses bytes.now result }
{
    if bytes.len() > MAX_TEXT {
        return Err(ParseFault::Refused {
            kind: SyntaxFault::TooLong,
            place: MAX_TEXT as u32,
        });
    }
    read(alloc, bytes)
}

/// The same, of a text that isn't too long.
fn read(alloc: Global, bytes: &[u8]) -> Result<Script, ParseFault>
    requires { length bytes.now ≤ grammar.max_text }
    ensures { Parses bytes.now result }
{
    let mut lexer = Lexer::new(bytes);
    let mut places = ListOf::new(alloc);
    let mut depth = 0;
    let mut state = nothing_read(alloc);
    while let Some(PlacedToken { place, token }) = lexer.next(alloc)? {
        depth = nesting_after(depth, &token);
        state = stepped(alloc, state, place, token)?;
        if depth > MAX_NESTING {
            return Err(ParseFault::Refused {
                kind: SyntaxFault::TooDeep,
                place,
            });
        }
        places.push(place)?;
    }
    match script_ended(state) {
        Some((apps, main)) => Ok(Script::of(apps, main, places)),
        None => Err(ParseFault::Refused {
            kind: SyntaxFault::Unexpected,
            place: bytes.len() as u32,
        }),
    }
}

/// What has been read with one more token, if a script goes on with it.
fn stepped(
    alloc: Global,
    state: ParserState,
    place: u32,
    token: Token,
) -> Result<ParserState, ParseFault>
    ensures { Steps state place token result }
{
    match script_step(alloc, state, token)? {
        Some(next) => Ok(next),
        None => Err(ParseFault::Refused {
            kind: SyntaxFault::Unexpected,
            place,
        }),
    }
}
