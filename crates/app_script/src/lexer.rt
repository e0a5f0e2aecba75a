//! The tokens of a text, one at a time.

ghost use Rattle.std.specs.Prelude.{◌≡◌, ◌<◌, ◌≤◌, ◌^◌, ◌+◌, ◌∷◌, [], ◌++◌, length, drop, IfOk, OnOk};
ghost use Rattle.std.specs.List.{prefix_len};
ghost use Rattle.script_tree.specs.Grammar.{max_text};
ghost use Rattle.script_tree.specs.Lexing.{is_in_comment};
ghost use Rattle.app_script.specs.Lexer as spec;
ghost use Rattle.app_script.specs.declared.lexer.LexFault.TheVariants.{NoMemory};

use crate::piece::{PieceFault, front_piece, is_blank, is_in_comment};
use script_tree::SyntaxFault;
use script_tree::token::Token;
use std::alloc::{AllocError, Global};
use std::marker::Model;
use thiserror::Error;

/// Why a text has no further token.
#[derive(Debug, Drop, Error)]
pub enum LexFault {
    /// A piece that is no token, at its first byte, or a byte that a comment can't hold.
    #[error("fault {kind} at byte {place}", kind = .kind.number())]
    Refused { kind: SyntaxFault, place: u32 },
    #[error("out of memory")]
    NoMemory,
}

impl From<AllocError> for LexFault {
    ghost from_gives = { λ _ e. e ≡ NoMemory };

    fn from(_: AllocError) -> LexFault {
        LexFault::NoMemory
    }
}

/// A token, and the place of its first byte.
#[derive(Drop)]
pub struct PlacedToken {
    pub place: u32,
    pub token: Token,
}

/// A text that is read token by token. Contracts see what is left of it, and the place of that.
#[derive(Drop)]
pub struct Lexer<'a> {
    text: &'a [u8],
    place: u32,
}

impl<'a> Model for Lexer<'a> {
    ghost use Rattle.std.specs.Prelude.{◌+◌, ◌≤◌, length};
    ghost use Rattle.script_tree.specs.Grammar.{max_text};
    ghost use Rattle.app_script.specs.Unread.{Unread};

    ghost Value = { Unread };

    ghost view = { λ l. record { place = l.place; text = l.text.now } };

    ghost invariant = { λ l. l.place + length l.text.now ≤ max_text };
}

/// How many bytes that a comment may hold stand at the front.
fn comment_len(text: &[u8]) -> usize
    ensures value { result ≡ prefix_len is_in_comment text.now }
    ensures within { result ≤ length text.now }
{
    text.iter().take_while(|byte| is_in_comment(**byte)).count()
}

fn ends_line(text: &[u8]) -> bool
    ensures { result ≡ spec.ends_line text.now }
{
    matches!(text, [] | [b'\n', ..])
}

/// How many bytes `#` and the comment behind it take, or how many stand before one that it may not
/// hold.
fn comment_gap(comment: &[u8]) -> Result<usize, usize>
    requires { length comment.now < 2 ^ 63 }
    ensures gap { spec.IsGap result (35 ∷ comment.now) }
    ensures takes { IfOk result (λ n. 1 ≤ n) }
{
    let len = comment_len(comment);
    if ends_line(&comment[len..]) {
        Ok(1 + len)
    } else {
        Err(1 + len)
    }
}

/// How many bytes the blank or the comment at the front takes; 0 where a piece begins there.
fn gap_part(text: &[u8]) -> Result<usize, usize>
    requires { length text.now < 2 ^ 63 }
    ensures gap { spec.IsGap result text.now }
    ensures piece { spec.IsGapPart result text.now }
{
    match text {
        [first, ..] if is_blank(*first) => Ok(1),
        [b'#', comment @ ..] => comment_gap(comment),
        _ => Ok(0),
    }
}

/// How many bytes of blanks and comments stand at the front, or how many before a wrong byte.
fn gap(text: &[u8]) -> Result<usize, usize>
    requires { length text.now < 2 ^ 63 }
    ensures gap { spec.IsGap result text.now }
    ensures whole { spec.IsWholeGap result text.now }
{
    let mut len = 0;
    loop {
        match gap_part(&text[len..]) {
            Ok(0) => return Ok(len),
            Ok(taken) => len += taken,
            Err(before) => return Err(len + before),
        }
    }
}

impl<'a> Lexer<'a> {
    /// Reads a text from its first byte.
    pub fn new(text: &'a [u8]) -> Lexer<'a>
        requires { length text.now ≤ max_text }
        ensures { result ≡ record { place = 0; text = text.entry.now } }
    {
        Lexer { text, place: 0 }
    }

    /// The next token with its place, or none at the end of the text.
    pub fn next(&mut self, alloc: Global) -> Result<Option<PlacedToken>, LexFault>
        ensures next { spec.IsNext result self.old self.new }
        ensures shorter { spec.IsShorter result self.old self.new }
    {
        match gap(self.text) {
            Ok(len) => {
                self.advance(len);
                self.token(alloc)
            }
            Err(len) => Err(LexFault::Refused {
                kind: SyntaxFault::WrongByte,
                place: self.place + len as u32,
            }),
        }
    }

    fn advance(&mut self, len: usize)
        requires { len ≤ length self.old.text }
        ensures { self.new ≡ record { place = self.old.place + len; text = drop len self.old.text } }
    {
        self.text = &self.text[len..];
        self.place += len as u32;
    }

    /// The token at the front, where no blank and no comment is.
    fn token(&mut self, alloc: Global) -> Result<Option<PlacedToken>, LexFault>
        requires { spec.BeginsPiece self.old.text }
        ensures next { spec.IsNext result self.old self.new }
        ensures shorter { spec.IsShorter result self.old self.new }
    {
        if self.text.is_empty() {
            return Ok(None);
        }
        let place = self.place;
        match front_piece(alloc, self.text) {
            Ok((token, len)) => {
                self.advance(len);
                Ok(Some(PlacedToken { place, token }))
            }
            Err(PieceFault::Refused(kind)) => Err(LexFault::Refused { kind, place }),
            Err(PieceFault::NoMemory) => Err(LexFault::NoMemory),
        }
    }
}

#[cfg(test)]
mod tests;
