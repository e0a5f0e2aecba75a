//! The limits of values and of loops, each met and passed by one.

use crate::shown::{body, given, numbers, writing};
use sqlite_items::Items as ListOf;
use std::test::Fail;

const SPIN: &str = "app spin(n) { let i = 0; while i < n { i = i + 1; } return i; } main { }";

#[test]
fn a_body_makes_a_million_turns(rt: HostRuntime) -> Result<(), Fail> {
    let alloc = rt.alloc();
    let rows = [(1000000, "1000000"), (1000001, "exception BudgetError")];
    for (turns, wanted) in rows {
        let arguments = numbers(alloc, &[turns])?;
        let given = given(alloc, SPIN, &arguments, &ListOf::new(alloc))?;
        assert_eq!(rt; given.as_str(), wanted, "{turns}");
    }
    Ok(())
}

const TURNS: [(&str, &str); 4] = [
    (
        "for i in range(0, 1000) { for j in range(0, 999) { } } return 1;",
        "1",
    ),
    (
        "for i in range(0, 1000) { for j in range(0, 999) { } } for k in [1] { } return 1;",
        "exception BudgetError",
    ),
    (
        "for i in range(0, 1000) { for j in range(0, 999) { } } while 0 { } return 1;",
        "1",
    ),
    (
        "for i in range(0, 1000) { for j in range(0, 999) { } } while 1 / 0 { } return 1;",
        "exception ZeroDivisionError",
    ),
];

#[test]
fn all_loops_of_a_body_share_their_turns(rt: HostRuntime) -> Result<(), Fail> {
    for (text, wanted) in TURNS {
        let given = body(rt.alloc(), text)?;
        assert_eq!(rt; given.as_str(), wanted, "{text}");
    }
    Ok(())
}

const SIZES: [(&str, &str); 11] = [
    (
        "let x = []; let i = 0; while i < 65535 { x = append(x, i); i = i + 1; } return len(x);",
        "65535",
    ),
    (
        "let x = []; let i = 0; while i < 65536 { x = append(x, i); i = i + 1; } return len(x);",
        "exception SizeError",
    ),
    (
        "let x = [1]; let n = 0; while n < 62 { x = [x]; n = n + 1; } return len(x);",
        "1",
    ),
    (
        "let x = [1]; let n = 0; while n < 63 { x = [x]; n = n + 1; } return len(x);",
        "exception SizeError",
    ),
    (
        "let x = [1]; let n = 0; while n < 61 { x = [x]; n = n + 1; } let y = []; y = append(y, x); return len(y);",
        "1",
    ),
    (
        "let x = [1]; let n = 0; while n < 62 { x = [x]; n = n + 1; } let y = []; y = append(y, x); return len(y);",
        "exception SizeError",
    ),
    (
        "let t = \"a\"; let n = 0; while n < 15 { t = t + t; n = n + 1; } return len(t + slice(t, 1, 32768));",
        "65535",
    ),
    (
        "let t = \"a\"; let n = 0; while n < 15 { t = t + t; n = n + 1; } return len(t + t);",
        "exception SizeError",
    ),
    (
        "let t = \"a\"; let n = 0; while n < 15 { t = t + t; n = n + 1; } return len(concat([t, t], \"\"));",
        "exception SizeError",
    ),
    (
        "let t = \"a\"; let n = 0; while n < 15 { t = t + t; n = n + 1; } return len(content(file(slice(t, 0, 32767), t)));",
        "32768",
    ),
    (
        "let t = \"a\"; let n = 0; while n < 15 { t = t + t; n = n + 1; } return file(t, t);",
        "exception SizeError",
    ),
];

#[test]
fn values_have_limits(rt: HostRuntime) -> Result<(), Fail> {
    for (text, wanted) in SIZES {
        let given = body(rt.alloc(), text)?;
        assert_eq!(rt; given.as_str(), wanted, "{text}");
    }
    Ok(())
}

// A file is one unit, the byte of its name and the bytes of its content.
const FILES: [(&str, &str); 2] = [
    (
        "let t = \"a\"; let n = 0; while n < 15 { t = t + t; n = n + 1; } write 0, t + slice(t, 0, 32767); raise \"written\";",
        "exception SizeError",
    ),
    (
        "let t = \"a\"; let n = 0; while n < 15 { t = t + t; n = n + 1; } write 0, t + slice(t, 0, 32766); raise \"written\";",
        "exception AppError \"written\"",
    ),
];

#[test]
fn written_files_have_a_limit(rt: HostRuntime) -> Result<(), Fail> {
    for (text, wanted) in FILES {
        let given = writing(rt.alloc(), text)?;
        assert_eq!(rt; given.as_str(), wanted, "{text}");
    }
    Ok(())
}
