//! What is left of a log that is read from its front.

ghost use Rattle.std.specs.Prelude.{◌≡◌, ◌^◌, ◌≤◌, true, length, All, IfOk, IfSome};
ghost use Rattle.std.specs.List.{prefix_len, list_all};
ghost use Rattle.flow_base.specs.TextBytes.{IsTextByte};
ghost use Rattle.script_tree.specs.Lexing as lexing;
ghost use Rattle.event_log.specs.Reading as reading;
ghost use Rattle.event_log.specs.declared.cursor.LineFault.TheVariants.{NoMemory};

use crate::BlockState;
use crate::words::{ScaleWord, block_state_of, is_end_word, is_keyword, scale_word_of, status_of};
use flow_base::{Decision, Path, Text};
use std::alloc::{AllocError, AllocFailed, Global};
use std::marker::Model;
use task_record::Status;

/// The most bytes of a name.
const MAX_NAME: usize = 64;

/// Why no entry is read.
#[derive(Debug, Drop)]
pub enum LineFault {
    /// What stands there is no entry.
    NoEntry,
    NoMemory,
}

impl From<AllocError> for LineFault {
    ghost from_gives = { λ _ e. e ≡ NoMemory };

    fn from(_: AllocError) -> LineFault {
        LineFault::NoMemory
    }
}

impl<T: Drop> From<AllocFailed<T>> for LineFault {
    ghost from_gives = { λ _ e. e ≡ NoMemory };

    fn from(_: AllocFailed<T>) -> LineFault {
        LineFault::NoMemory
    }
}

/// The bytes that are left. Contracts see their list.
#[derive(Drop)]
pub struct Cursor<'a> {
    rest: &'a [u8],
}

impl<'a> Model for Cursor<'a> {
    ghost use Rattle.std.specs.Prelude.{List, ℕ};

    ghost Value = { List ℕ };

    ghost view = { λ c. c.rest.now };
}

/// The value of a run of digits, where it is below 2^64.
fn digits_value(run: &[u8]) -> Option<u64>
    ensures { result ≡ reading.value_below (2 ^ 64) run.now }
{
    let mut value: u64 = 0;
    for digit in run {
        if !digit.is_ascii_digit() {
            return None;
        }
        value = value
            .checked_mul(10)?
            .checked_add(u64::from(*digit - b'0'))?;
    }
    Some(value)
}

/// The number that a word spells, without a leading zero.
fn long_of(word: &[u8]) -> Option<u64>
    ensures { result ≡ reading.long_of word.now }
{
    match word {
        [] | [b'0', _, ..] => None,
        _ => digits_value(word),
    }
}

fn number_of(word: &[u8]) -> Option<u32>
    ensures { result ≡ reading.number_of word.now }
{
    u32::try_from(long_of(word)?).ok()
}

/// How many bytes stand in front of the first blank or newline.
fn word_len(bytes: &[u8]) -> usize
    ensures value { result ≡ prefix_len reading.is_in_word bytes.now }
    ensures within { result ≤ length bytes.now }
{
    bytes
        .iter()
        .take_while(|byte| **byte != b' ' && **byte != b'\n')
        .count()
}

/// How many bytes stand in front of the first dot.
fn part_len(word: &[u8]) -> usize
    ensures value { result ≡ prefix_len reading.is_no_dot word.now }
    ensures within { result ≤ length word.now }
{
    word.iter().take_while(|byte| **byte != b'.').count()
}

fn path_of(alloc: Global, word: &[u8]) -> Result<Path, LineFault>
    ensures { reading.Is (λ p. p) result (reading.path_of word.now) }
{
    let mut path = Path::new(alloc);
    let mut rest = word;
    loop {
        let (part, behind) = rest.split_at(part_len(rest));
        match number_of(part) {
            Some(number) => path.push(number)?,
            None => return Err(LineFault::NoEntry),
        }
        match behind {
            [] => return Ok(path),
            [_, others @ ..] => rest = others,
        }
    }
}

fn begins_name(byte: u8) -> bool
    ensures { result ≡ lexing.begins_name byte }
{
    byte.is_ascii_alphabetic() || byte == b'_'
}

fn is_in_name(byte: u8) -> bool
    ensures { result ≡ lexing.is_in_name byte }
{
    begins_name(byte) || byte.is_ascii_digit()
}

fn are_in_name(bytes: &[u8]) -> bool
    ensures { result ≡ list_all lexing.is_in_name bytes.now }
{
    bytes.iter().all(|byte| is_in_name(*byte))
}

/// Whether each byte may stand in a name where it stands.
fn is_run(word: &[u8]) -> bool
    ensures { result ≡ reading.is_run word.now }
{
    match word {
        [first, others @ ..] => begins_name(*first) && are_in_name(others),
        [] => false,
    }
}

#[tactic(auto, using(crate::proofs::Names::name_text))]
fn is_name(word: &[u8]) -> bool
    ensures value { result ≡ reading.is_name word.now }
    ensures text { result ≡ true → All IsTextByte word.now }
{
    is_run(word) && word.len() <= MAX_NAME && !is_keyword(word)
}

/// A text of these bytes.
fn text_of(alloc: Global, bytes: &[u8]) -> Result<Text, AllocError>
    requires { All IsTextByte bytes.now }
    ensures { IfOk result (λ t. t ≡ bytes.now) }
{
    Ok(Text::from_bytes(Vec::from_slice(alloc, bytes)?))
}

fn is_printable(byte: u8) -> bool
    ensures { result ≡ lexing.is_printable byte }
{
    matches!(byte, 32..=126)
}

/// What the escape stands for.
fn escaped(byte: u8) -> Option<u8>
    ensures { result ≡ lexing.escaped byte }
{
    match byte {
        b'n' => Some(b'\n'),
        b'"' | b'\\' => Some(byte),
        _ => None,
    }
}

/// What stands at the front of a text behind its quote.
#[derive(Clone, Copy)]
enum TextPart {
    /// The closing quote.
    End,
    /// A byte, and how many bytes spell it.
    Byte(u8, usize),
}

fn front_part(rest: &[u8]) -> Option<TextPart>
    ensures value { result ≡ reading.part rest.now }
    ensures within { IfSome result (reading.IsPartWithin (length rest.now)) }
{
    match rest {
        [b'"', ..] => Some(TextPart::End),
        [b'\\'] => None,
        [b'\\', escape, ..] => Some(TextPart::Byte(escaped(*escape)?, 2)),
        [byte, ..] if is_printable(*byte) => Some(TextPart::Byte(*byte, 1)),
        _ => None,
    }
}

/// The text up to its closing quote, and what is left behind the quote.
fn text_end(alloc: Global, mut rest: &[u8]) -> Result<(Text, &[u8]), LineFault>
    ensures { reading.Is (λ p. (p.0, p.1.now)) result (reading.text_end rest.entry.now) }
{
    let mut bytes = Vec::new(alloc);
    while let Some(part) = front_part(rest) {
        match part {
            TextPart::End => return Ok((Text::from_bytes(bytes), &rest[1..])),
            TextPart::Byte(byte, taken) => {
                bytes.push(byte)?;
                rest = &rest[taken..];
            }
        }
    }
    Err(LineFault::NoEntry)
}

impl<'a> Cursor<'a> {
    /// A cursor in front of these bytes.
    pub fn new(bytes: &'a [u8]) -> Cursor<'a>
        ensures { result ≡ bytes.entry.now }
    {
        Cursor { rest: bytes }
    }

    /// Whether no byte is left.
    pub fn is_at_end(&self) -> bool
        ensures { result ≡ reading.is_empty self.now }
    {
        self.rest.is_empty()
    }

    /// Goes behind these bytes.
    pub fn skip(&mut self, bytes: &[u8]) -> Result<(), LineFault>
        ensures { reading.Skips result self.new (reading.behind bytes.now self.old) }
    {
        match self.rest.strip_prefix(bytes) {
            Some(rest) => {
                self.rest = rest;
                Ok(())
            }
            None => Err(LineFault::NoEntry),
        }
    }

    /// The bytes up to a blank, a newline or the end.
    pub fn word(&mut self) -> &'a [u8]
        ensures word { result.now ≡ reading.word self.old }
        ensures rest { self.new ≡ reading.behind_word self.old }
    {
        let (word, rest) = self.rest.split_at(word_len(self.rest));
        self.rest = rest;
        word
    }

    /// A blank and a word.
    fn field(&mut self) -> Result<&'a [u8], LineFault>
        ensures { reading.Gives (λ w. w.now) result self.new (reading.field self.old) }
    {
        self.skip(b" ")?;
        Ok(self.word())
    }

    /// A blank and a number below 2^32 without a leading zero; else `NoEntry`.
    pub fn number(&mut self) -> Result<u32, LineFault>
        ensures { reading.Gives (λ n. n) result self.new (reading.number self.old) }
    {
        number_of(self.field()?).ok_or(LineFault::NoEntry)
    }

    /// A blank and a number below 2^64 without a leading zero; else `NoEntry`.
    pub fn long(&mut self) -> Result<u64, LineFault>
        ensures { reading.Gives (λ n. n) result self.new (reading.long self.old) }
    {
        long_of(self.field()?).ok_or(LineFault::NoEntry)
    }

    /// A blank and numbers below 2^32 with a dot between two of them; else `NoEntry`.
    pub fn path(&mut self, alloc: Global) -> Result<Path, LineFault>
        ensures { reading.Gives (λ p. p) result self.new (reading.path self.old) }
    {
        path_of(alloc, self.field()?)
    }

    /// A blank and a name of at most 64 bytes that is no keyword; else `NoEntry`.
    pub fn name(&mut self, alloc: Global) -> Result<Text, LineFault>
        ensures { reading.Gives (λ t. t) result self.new (reading.name self.old) }
    {
        let word = self.field()?;
        if !is_name(word) {
            return Err(LineFault::NoEntry);
        }
        Ok(text_of(alloc, word)?)
    }

    /// A blank and the word for how an attempt ended, `value` or an exception's name; else `NoEntry`.
    pub fn end_word(&mut self, alloc: Global) -> Result<Text, LineFault>
        ensures { reading.Gives (λ t. t) result self.new (reading.end_word self.old) }
    {
        let word = self.field()?;
        if !is_end_word(word) {
            return Err(LineFault::NoEntry);
        }
        Ok(text_of(alloc, word)?)
    }

    /// A blank and the word of a task's status; else `NoEntry`.
    pub fn status(&mut self) -> Result<Status, LineFault>
        ensures { reading.Gives (λ s. s) result self.new (reading.status self.old) }
    {
        status_of(self.field()?).ok_or(LineFault::NoEntry)
    }

    /// A blank and `started`, `failed` or `ended`; else `NoEntry`.
    pub fn block_state(&mut self) -> Result<BlockState, LineFault>
        ensures { reading.Gives (λ s. s) result self.new (reading.block_state self.old) }
    {
        block_state_of(self.field()?).ok_or(LineFault::NoEntry)
    }

    /// A blank and `keep`, or `out` or `in` with a blank and a number behind it; else `NoEntry`.
    pub fn decision(&mut self) -> Result<Decision, LineFault>
        ensures { reading.Gives (λ d. d) result self.new (reading.decision self.old) }
    {
        match scale_word_of(self.field()?) {
            Some(ScaleWord::Keep) => Ok(Decision::Keep),
            Some(ScaleWord::Out) => Ok(Decision::Out(self.number()?)),
            Some(ScaleWord::In) => Ok(Decision::In(self.number()?)),
            None => Err(LineFault::NoEntry),
        }
    }

    /// A blank and a text as a script spells it.
    pub fn text(&mut self, alloc: Global) -> Result<Text, LineFault>
        ensures { reading.Gives (λ t. t) result self.new (reading.text self.old) }
    {
        self.skip(b" \"")?;
        let (text, rest) = text_end(alloc, self.rest)?;
        self.rest = rest;
        Ok(text)
    }
}
