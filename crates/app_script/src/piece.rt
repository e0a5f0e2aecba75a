//! The piece at the front of a text: a token, or what is wrong there.

ghost use Rattle.std.specs.Prelude.{◌≡◌, ◌<◌, ◌≤◌, ◌^◌, true, length, map, All, IfOk, IfSome};
ghost use Rattle.std.specs.List.{prefix_len};
ghost use Rattle.flow_base.specs.TextBytes.{IsTextByte};
ghost use Rattle.script_tree.specs.Lexing as lexing;
ghost use Rattle.script_tree.specs.BuiltIns as tables;
ghost use Rattle.app_script.specs.Pieces as spec;
ghost use Rattle.app_script.specs.declared.piece.PieceFault.TheVariants.{NoMemory};

use flow_base::Text;
use script_tree::SyntaxFault;
use script_tree::token::{Keyword, Symbol, Token};
use std::alloc::{AllocError, AllocFailed, Global};

/// The most bytes of a name.
const MAX_NAME: usize = 64;

const KEYWORDS: [(&[u8], Keyword); 22] = [
    (b"app", Keyword::App),
    (b"cached", Keyword::Cached),
    (b"join", Keyword::Join),
    (b"main", Keyword::Main),
    (b"outputs", Keyword::Outputs),
    (b"let", Keyword::Let),
    (b"while", Keyword::While),
    (b"for", Keyword::For),
    (b"in", Keyword::In),
    (b"if", Keyword::If),
    (b"else", Keyword::Else),
    (b"return", Keyword::Return),
    (b"raise", Keyword::Raise),
    (b"write", Keyword::Write),
    (b"print", Keyword::Print),
    (b"checkpoint", Keyword::Checkpoint),
    (b"call", Keyword::Call),
    (b"to", Keyword::To),
    (b"and", Keyword::And),
    (b"or", Keyword::Or),
    (b"not", Keyword::Not),
    (b"nothing", Keyword::Nothing),
];

const SYMBOLS: [(&[u8], Symbol); 20] = [
    (b"==", Symbol::Equal),
    (b"!=", Symbol::Differ),
    (b"<=", Symbol::AtMost),
    (b">=", Symbol::AtLeast),
    (b"(", Symbol::OpenParen),
    (b")", Symbol::CloseParen),
    (b"[", Symbol::OpenList),
    (b"]", Symbol::CloseList),
    (b"{", Symbol::OpenBlock),
    (b"}", Symbol::CloseBlock),
    (b",", Symbol::Comma),
    (b";", Symbol::Semicolon),
    (b"=", Symbol::Assign),
    (b"<", Symbol::Less),
    (b">", Symbol::Greater),
    (b"+", Symbol::Plus),
    (b"-", Symbol::Minus),
    (b"*", Symbol::Times),
    (b"/", Symbol::Over),
    (b"%", Symbol::Rest),
];

/// A token, and how many bytes it takes.
pub type Piece = (Token, usize);

/// Why there is no piece.
#[derive(Debug, Drop)]
pub enum PieceFault {
    /// What stands there is no token.
    Refused(SyntaxFault),
    NoMemory,
}

impl From<AllocError> for PieceFault {
    ghost from_gives = { λ _ e. e ≡ NoMemory };

    fn from(_: AllocError) -> PieceFault {
        PieceFault::NoMemory
    }
}

impl<T: Drop> From<AllocFailed<T>> for PieceFault {
    ghost from_gives = { λ _ e. e ≡ NoMemory };

    fn from(_: AllocFailed<T>) -> PieceFault {
        PieceFault::NoMemory
    }
}

/// What stands at the front of a text behind its quote.
#[derive(Clone, Copy)]
enum Part {
    /// The closing quote.
    End,
    /// A byte, and how many bytes spell it.
    Byte(u8, usize),
}

/// Whether the byte separates tokens.
pub fn is_blank(byte: u8) -> bool
    ensures { result ≡ lexing.is_blank byte }
{
    matches!(byte, b'\t' | b'\n' | b'\r' | b' ')
}

fn is_printable(byte: u8) -> bool
    ensures { result ≡ lexing.is_printable byte }
{
    matches!(byte, 32..=126)
}

/// Whether a comment may hold the byte.
pub fn is_in_comment(byte: u8) -> bool
    ensures { result ≡ lexing.is_in_comment byte }
{
    byte == b'\t' || byte == b'\r' || is_printable(byte)
}

fn begins_name(byte: u8) -> bool
    ensures { result ≡ lexing.begins_name byte }
{
    byte.is_ascii_alphabetic() || byte == b'_'
}

fn is_in_name(byte: u8) -> bool
    ensures { result ≡ lexing.is_in_name byte }
{
    begins_name(byte) || byte.is_ascii_digit()
}

/// How many bytes of names stand at the front.
fn run_len(text: &[u8]) -> usize
    ensures { result ≡ prefix_len lexing.is_in_name text.now }
{
    text.iter().take_while(|byte| is_in_name(**byte)).count()
}

fn word_in(table: &[(&[u8], Keyword)], run: &[u8]) -> Option<Keyword>
    ensures { result ≡ tables.lookup (map (λ e. (e.0.now, e.1)) table.now) run.now }
{
    for (spelling, word) in table {
        if *spelling == run {
            return Some(*word);
        }
    }
    None
}

fn keyword(run: &[u8]) -> Option<Keyword>
    ensures { result ≡ tables.lookup lexing.keywords run.now }
{
    word_in(&KEYWORDS, run)
}

/// Whether the text begins with the symbol's spelling.
fn begins_with(text: &[u8], spelling: &[u8]) -> bool
    ensures value { result ≡ lexing.begins_with spelling.now text.now }
    ensures within { result ≡ true → length spelling.now ≤ length text.now }
{
    text.starts_with(spelling)
}

fn symbol_in(table: &[(&[u8], Symbol)], text: &[u8]) -> Result<(Symbol, usize), SyntaxFault>
    ensures { spec.symbol_of result ≡ lexing.symbol_piece (map (λ e. (e.0.now, e.1)) table.now) text.now }
{
    for (spelling, symbol) in table {
        if begins_with(text, spelling) {
            return Ok((*symbol, spelling.len()));
        }
    }
    if begins_with(text, b"!") {
        Err(SyntaxFault::WrongToken)
    } else {
        Err(SyntaxFault::WrongByte)
    }
}

fn symbol(text: &[u8]) -> Result<(Symbol, usize), SyntaxFault>
    ensures { spec.symbol_of result ≡ lexing.symbol_piece lexing.symbols text.now }
{
    symbol_in(&SYMBOLS, text)
}

/// The value of a run of digits, where it is below 2^64.
fn digits_value(run: &[u8]) -> Option<u64>
    ensures { result ≡ spec.value_below (2 ^ 64) run.now }
{
    let mut value: u64 = 0;
    for digit in run {
        if !digit.is_ascii_digit() {
            return None;
        }
        value = value
            .checked_mul(10)?
            .checked_add(u64::from(*digit - b'0'))?;
    }
    Some(value)
}

/// The number that a run spells.
fn number_of(run: &[u8]) -> Option<i64>
    ensures { result ≡ spec.number_of run.now }
{
    match run {
        [] | [b'0', _, ..] => None,
        _ => i64::try_from(digits_value(run)?).ok(),
    }
}

fn escaped(byte: u8) -> Option<u8>
    ensures { result ≡ lexing.escaped byte }
{
    match byte {
        b'n' => Some(b'\n'),
        b'"' | b'\\' => Some(byte),
        _ => None,
    }
}

fn front_part(rest: &[u8]) -> Option<Part>
    ensures value { result ≡ spec.part rest.now }
    ensures within { IfSome result (spec.IsPartWithin (length rest.now)) }
{
    match rest {
        [b'"', ..] => Some(Part::End),
        [b'\\'] => None,
        [b'\\', escape, ..] => Some(Part::Byte(escaped(*escape)?, 2)),
        [byte, ..] if is_printable(*byte) => Some(Part::Byte(*byte, 1)),
        _ => None,
    }
}

/// The text up to its closing quote, and how many bytes spell it with the quote.
fn text_end(alloc: Global, mut rest: &[u8]) -> Result<(Text, usize), PieceFault>
    requires { length rest.now < 2 ^ 63 }
    ensures value { spec.IsTextEnd result (lexing.text_end rest.entry.now) }
    ensures within { IfOk result (λ p. p.1 ≤ length rest.entry.now) }
{
    let mut bytes = Vec::new(alloc);
    let mut len = 0;
    while let Some(part) = front_part(rest) {
        match part {
            Part::End => return Ok((Text::from_bytes(bytes), len + 1)),
            Part::Byte(byte, taken) => {
                bytes.push(byte)?;
                len += taken;
                rest = &rest[taken..];
            }
        }
    }
    Err(PieceFault::Refused(SyntaxFault::WrongToken))
}

fn name_piece(alloc: Global, run: &[u8]) -> Result<Piece, PieceFault>
    requires { All IsTextByte run.now }
    ensures { spec.IsPiece result (lexing.name_piece run.now) }
{
    if run.len() > MAX_NAME {
        return Err(PieceFault::Refused(SyntaxFault::WrongToken));
    }
    let token = match keyword(run) {
        Some(word) => Token::Keyword(word),
        None => Token::Name(Text::from_bytes(Vec::from_slice(alloc, run)?)),
    };
    Ok((token, run.len()))
}

fn number_piece(run: &[u8]) -> Result<Piece, PieceFault>
    ensures { spec.IsPiece result (lexing.number_piece run.now) }
{
    match number_of(run) {
        Some(value) => Ok((Token::Number(value), run.len())),
        None => Err(PieceFault::Refused(SyntaxFault::WrongNumber)),
    }
}

fn text_piece(alloc: Global, rest: &[u8]) -> Result<Piece, PieceFault>
    requires { length rest.now < 2 ^ 63 }
    ensures { spec.IsPiece result (lexing.text_piece (lexing.text_end rest.now)) }
{
    let (text, len) = text_end(alloc, rest)?;
    Ok((Token::Text(text), 1 + len))
}

fn symbol_piece(text: &[u8]) -> Result<Piece, PieceFault>
    ensures { spec.IsPiece result (lexing.symbol_piece lexing.symbols text.now) }
{
    match symbol(text) {
        Ok((symbol, len)) => Ok((Token::Symbol(symbol), len)),
        Err(kind) => Err(PieceFault::Refused(kind)),
    }
}

/// The piece at the front of a text that begins with no blank and no comment.
pub fn front_piece(alloc: Global, text: &[u8]) -> Result<Piece, PieceFault>
    requires { length text.now < 2 ^ 63 }
    ensures { spec.IsPiece result (lexing.piece text.now) }
{
    match text {
        [] => Err(PieceFault::Refused(SyntaxFault::WrongByte)),
        [first, ..] if begins_name(*first) => name_piece(alloc, &text[..run_len(text)]),
        [first, ..] if first.is_ascii_digit() => number_piece(&text[..run_len(text)]),
        [b'"', rest @ ..] => text_piece(alloc, rest),
        _ => symbol_piece(text),
    }
}
