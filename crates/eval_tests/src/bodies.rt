//! Statements with what their bodies give.

use crate::shown::{body, writing};
use std::test::Fail;

const BODIES: [(&str, &str); 29] = [
    ("", "nothing"),
    ("return 1; return 2;", "1"),
    ("let c = a; c = c + b; return c;", "5"),
    (
        "let s = 0; for i in [1, 2, 3] { s = s + i; } return s;",
        "6",
    ),
    ("for i in 5 { } return 1;", "exception TypeError"),
    ("for i in [] { return 9; } return 1;", "1"),
    ("for i in [7, 8] { return i; } return 1;", "7"),
    ("let i = 0; while i < 3 { i = i + 1; } return i;", "3"),
    ("while 1 { return a; }", "2"),
    ("while \"a\" { } return 1;", "exception TypeError"),
    ("while 1 / 0 { } return 1;", "exception ZeroDivisionError"),
    ("if 0 { return 1; } return 2;", "2"),
    ("if 1 { return 1; } else { return 2; }", "1"),
    ("if 0 { return 1; } else { return 2; }", "2"),
    ("if nothing { }", "exception TypeError"),
    ("raise \"why\";", "exception AppError \"why\""),
    ("raise 5;", "exception TypeError"),
    ("raise text(1 / 0);", "exception ZeroDivisionError"),
    ("print 1;", "exception TypeError"),
    ("checkpoint;", "exception TypeError"),
    ("call f(1 / 0, 2);", "exception ZeroDivisionError"),
    ("call f(1, 2) to (1, 1 / 0);", "exception ZeroDivisionError"),
    ("call f(1, 2) to (1);", "exception TypeError"),
    (
        "let x = [1]; let y = x; x = append(x, 2); return [x, y];",
        "[[1, 2], [1]]",
    ),
    ("let x = [1]; x = append(x, len(x)); return x;", "[1, 1]"),
    ("let x = [1]; x = append(x, x); return x;", "[1, [1]]"),
    (
        "let x = 5; x = append(x, 1 / 0); return x;",
        "exception ZeroDivisionError",
    ),
    (
        "let x = 5; x = append(x, 1); return x;",
        "exception TypeError",
    ),
    ("x = append(x, 1 / 0);", "exception TypeError"),
];

const WRITING: [(&str, &str); 13] = [
    ("write 0, \"x\"; return 1;", "1 and file(\"o\", \"x\")"),
    (
        "write 0, \"x\"; write 0, \"y\";",
        "nothing and file(\"o\", \"y\")",
    ),
    ("return 1;", "exception MissingOutputs"),
    ("", "exception MissingOutputs"),
    ("return 1 / 0;", "exception ZeroDivisionError"),
    ("raise \"why\";", "exception AppError \"why\""),
    ("write 1, \"x\";", "exception IndexError"),
    ("write -1, \"x\";", "exception IndexError"),
    ("write 5, 1;", "exception TypeError"),
    ("write 0, 1;", "exception TypeError"),
    ("write \"a\", \"x\";", "exception TypeError"),
    ("write 1 / 0, c;", "exception ZeroDivisionError"),
    ("write 0, \"x\"; write 1, \"y\";", "exception IndexError"),
];

#[test]
fn bodies_give_their_values(rt: HostRuntime) -> Result<(), Fail> {
    for (text, wanted) in BODIES {
        let given = body(rt.alloc(), text)?;
        assert_eq!(rt; given.as_str(), wanted, "{text}");
    }
    Ok(())
}

#[test]
fn outputs_are_files(rt: HostRuntime) -> Result<(), Fail> {
    for (text, wanted) in WRITING {
        let given = writing(rt.alloc(), text)?;
        assert_eq!(rt; given.as_str(), wanted, "{text}");
    }
    Ok(())
}
