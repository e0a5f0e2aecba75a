ghost use Rattle.std.specs.Prelude.{◌≤◌, length};
ghost use Rattle.script_tree.specs.Grammar.{max_text};

use super::{LexFault, Lexer, PlacedToken};
use crate::parse::ParseFault;
use script_tree::SyntaxFault;
use script_tree::token::Token;
use std::alloc::{AllocError, Global};

const MAX_TEXT: usize = 1_048_576;

/// Each token as it is named in the tests.
fn shown(alloc: Global, token: &Token) -> Result<String, AllocError> {
    match token {
        Token::Keyword(word) => format!(in alloc; "{word:?}"),
        Token::Symbol(symbol) => format!(in alloc; "{symbol:?}"),
        Token::Name(name) => format!(in alloc; "name {}", name.as_str()),
        Token::Number(value) => format!(in alloc; "number {value}"),
        Token::Text(text) => format!(in alloc; "text {}", text.as_str()),
    }
}

/// The tokens of a text with their places, or its fault.
fn answer(alloc: Global, text: &[u8]) -> Result<String, AllocError>
    requires { length text.now ≤ max_text }
{
    let mut lexer = Lexer::new(text);
    let mut all = String::new(alloc);
    // Each turn takes a byte at least.
    for _ in 0..=text.len() {
        match lexer.next(alloc) {
            Ok(None) => break,
            Ok(Some(PlacedToken { place, token })) => {
                let token = shown(alloc, &token)?;
                let entry = format!(in alloc; "{place} {token}, ")?;
                all.push_str(entry.as_str())?;
            }
            Err(LexFault::Refused { kind, place }) => {
                return format!(in alloc; "fault {} at {place}", kind.number());
            }
            Err(LexFault::NoMemory) => return Err(AllocError),
        }
    }
    Ok(all)
}

const LONGEST_NAME: &str =
    "0 name aaaaaaaaaaaaaaaabbbbbbbbbbbbbbbbccccccccccccccccdddddddddddddddd, ";

#[test]
fn tokens_and_faults_of_texts(rt: HostRuntime) -> Result<(), AllocError> {
    let table: [(&[u8], &str); 41] = [
        (b"", ""),
        (b" \t\r\n", ""),
        (
            b"app cached join main",
            "0 App, 4 Cached, 11 Join, 16 Main, ",
        ),
        (
            b"outputs let while for",
            "0 Outputs, 8 Let, 12 While, 18 For, ",
        ),
        (
            b"in if else return raise",
            "0 In, 3 If, 6 Else, 11 Return, 18 Raise, ",
        ),
        (
            b"write print checkpoint",
            "0 Write, 6 Print, 12 Checkpoint, ",
        ),
        (
            b"call to and or not nothing",
            "0 Call, 5 To, 8 And, 12 Or, 15 Not, 19 Nothing, ",
        ),
        (b"app1 _x Let", "0 name app1, 5 name _x, 8 name Let, "),
        (b"let_ a.", "fault 1 at 6"),
        (
            b"aaaaaaaaaaaaaaaabbbbbbbbbbbbbbbbccccccccccccccccdddddddddddddddd",
            LONGEST_NAME,
        ),
        (
            b" aaaaaaaaaaaaaaaabbbbbbbbbbbbbbbbccccccccccccccccdddddddddddddddd_",
            "fault 2 at 1",
        ),
        (
            b"0 7 9223372036854775807",
            "0 number 0, 2 number 7, 4 number 9223372036854775807, ",
        ),
        (b"9223372036854775808", "fault 3 at 0"),
        (b"-9223372036854775808", "fault 3 at 1"),
        (
            b"100000000000000000000000000000000000000000",
            "fault 3 at 0",
        ),
        (b"x 007", "fault 3 at 2"),
        (b"00", "fault 3 at 0"),
        (b"1a", "fault 3 at 0"),
        (b"0x1", "fault 3 at 0"),
        (b"1_", "fault 3 at 0"),
        (b"1\"a\"", "0 number 1, 1 text a, "),
        (b"\"\" \"a b\"", "0 text , 3 text a b, "),
        (b"\"a\\n\\\"\\\\b\"x", "0 text a\n\"\\b, 10 name x, "),
        (b"x \"ab", "fault 2 at 2"),
        (b"\"a\nb\"", "fault 2 at 0"),
        (b"\"a\tb\"", "fault 2 at 0"),
        (b"  \"\\t\"", "fault 2 at 2"),
        (b"\"\\", "fault 2 at 0"),
        (b"\"\xc8\"", "fault 2 at 0"),
        (b"# a\tb\r\nx", "7 name x, "),
        (b"#", ""),
        (b"x # ~", "0 name x, "),
        (b"x #\n# \x01", "fault 1 at 6"),
        (b"# \x7f", "fault 1 at 2"),
        (b"x !", "fault 2 at 2"),
        (b"a!=b", "0 name a, 1 Differ, 3 name b, "),
        (
            b"<= < >= > == = ===",
            "0 AtMost, 3 Less, 5 AtLeast, 8 Greater, 10 Equal, 13 Assign, 15 Equal, 17 Assign, ",
        ),
        (
            b"()[]{},;",
            "0 OpenParen, 1 CloseParen, 2 OpenList, 3 CloseList, 4 OpenBlock, 5 CloseBlock, 6 Comma, 7 Semicolon, ",
        ),
        (b"+-*/%", "0 Plus, 1 Minus, 2 Times, 3 Over, 4 Rest, "),
        (b"x $", "fault 1 at 2"),
        (b"main { } 007", "fault 3 at 9"),
    ];
    for (text, want) in table {
        assert!(rt; text.len() <= MAX_TEXT);
        let got = answer(rt.alloc(), text)?;
        assert_eq!(rt; got.as_str(), want);
    }
    Ok(())
}

#[test]
fn faults_are_shown_by_number_and_place(rt: HostRuntime) -> Result<(), AllocError> {
    let fault = LexFault::Refused {
        kind: SyntaxFault::WrongNumber,
        place: 9,
    };
    let shown = format!(in rt.alloc(); "{fault}")?;
    assert_eq!(rt; shown.as_str(), "fault 3 at byte 9");
    let shown = format!(in rt.alloc(); "{}", ParseFault::from(fault))?;
    assert_eq!(rt; shown.as_str(), "parse 3 at 9");
    Ok(())
}
