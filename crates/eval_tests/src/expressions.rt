//! Expressions with their values and exceptions.

use crate::shown::expression;
use std::test::Fail;

const ARITHMETIC: [(&str, &str); 36] = [
    ("a + b", "5"),
    ("a + b * 2 - 1", "7"),
    ("(a + b) * 2", "10"),
    ("a - b - 4", "-5"),
    ("b - a", "1"),
    ("a * b % 4", "2"),
    ("-a", "-2"),
    ("7 / 2", "3"),
    ("-7 / 2", "-3"),
    ("7 / -2", "-3"),
    ("-7 / -2", "3"),
    ("7 % 2", "1"),
    ("-7 % 2", "-1"),
    ("7 % -2", "1"),
    ("-7 % -2", "-1"),
    ("-9223372036854775807 - 1", "-9223372036854775808"),
    ("(-9223372036854775807 - 1) % -1", "0"),
    ("(-9223372036854775807 - 1) / -1", "exception OverflowError"),
    ("-(-9223372036854775807 - 1)", "exception OverflowError"),
    ("9223372036854775807 + 1", "exception OverflowError"),
    ("9223372036854775807 + 1 - 1", "exception OverflowError"),
    ("-9223372036854775807 - 2", "exception OverflowError"),
    ("4611686018427387904 * 2", "exception OverflowError"),
    ("-4611686018427387904 * 2", "-9223372036854775808"),
    ("1 / 0", "exception ZeroDivisionError"),
    ("1 % 0", "exception ZeroDivisionError"),
    ("1 / 0 + \"a\" * nothing", "exception ZeroDivisionError"),
    ("\"a\" - 1 + 1 / 0", "exception TypeError"),
    ("\"ab\" + \"c\"", "\"abc\""),
    ("[1] + [\"x\", nothing]", "[1, \"x\", nothing]"),
    ("[] + []", "[]"),
    ("1 + \"a\"", "exception TypeError"),
    ("[1] - [1]", "exception TypeError"),
    ("\"a\" * 2", "exception TypeError"),
    ("-\"a\"", "exception TypeError"),
    ("nothing + nothing", "exception TypeError"),
];

const COMPARISONS: [(&str, &str); 28] = [
    ("1 == 1", "1"),
    ("1 == \"1\"", "0"),
    ("1 != \"1\"", "1"),
    ("[1, [2]] == [1, [2]]", "1"),
    ("[1] != [1, 2]", "1"),
    ("[1, 2] == [2, 1]", "0"),
    ("nothing == nothing", "1"),
    ("nothing == 0", "0"),
    ("file(\"a\", \"b\") == file(\"a\", \"b\")", "1"),
    ("file(\"a\", \"b\") == file(\"b\", \"a\")", "0"),
    ("2 < 3", "1"),
    ("3 < 2", "0"),
    ("3 < 3", "0"),
    ("3 <= 3", "1"),
    ("4 <= 3", "0"),
    ("3 > 3", "0"),
    ("4 > 3", "1"),
    ("3 >= 3", "1"),
    ("3 >= 4", "0"),
    ("-1 < 0", "1"),
    ("\"ab\" < \"b\"", "1"),
    ("\"a\" < \"ab\"", "1"),
    ("\"b\" <= \"ab\"", "0"),
    ("\"B\" < \"a\"", "1"),
    ("\"\" < \"\"", "0"),
    ("1 < \"a\"", "exception TypeError"),
    ("[1] < [2]", "exception TypeError"),
    ("nothing <= nothing", "exception TypeError"),
];

const LOGIC: [(&str, &str); 20] = [
    ("1 or nothing", "1"),
    ("0 or nothing", "exception TypeError"),
    ("0 and nothing", "0"),
    ("1 and nothing", "exception TypeError"),
    ("7 and 7", "1"),
    ("0 or 0", "0"),
    ("0 or 7", "1"),
    ("0 or 1 / 0", "exception ZeroDivisionError"),
    ("1 or 1 / 0", "1"),
    ("0 and 1 / 0", "0"),
    ("\"a\" or 1", "exception TypeError"),
    ("nothing and 0", "exception TypeError"),
    ("0 or 0 or 3", "1"),
    ("1 and 0 and nothing", "0"),
    ("1 and 2 and \"3\"", "exception TypeError"),
    ("1 == 1 and 2 == 3 or 4 == 4", "1"),
    ("not 0", "1"),
    ("not 5", "0"),
    ("not \"\"", "exception TypeError"),
    ("not a == b", "0"),
];

const PARTS: [(&str, &str); 20] = [
    ("7", "7"),
    ("\"a\\n\\\"\\\\\"", "\"a\\n\\\"\\\\\""),
    ("nothing", "nothing"),
    ("[]", "[]"),
    ("[a, [b], \"c\"]", "[2, [3], \"c\"]"),
    ("[1 / 0, c]", "exception ZeroDivisionError"),
    ("(a)", "2"),
    ("c", "exception TypeError"),
    ("[5, 6][1]", "6"),
    ("[5, 6][2]", "exception IndexError"),
    ("[5, 6][-1]", "exception IndexError"),
    ("[5][9223372036854775807]", "exception IndexError"),
    ("\"abc\"[1]", "\"b\""),
    ("\"abc\"[3]", "exception IndexError"),
    ("[[1, 2], [3]][0][1]", "2"),
    ("1[0]", "exception TypeError"),
    ("[1][\"0\"]", "exception TypeError"),
    ("nothing[0]", "exception TypeError"),
    ("file(\"a\", \"b\")[0]", "exception TypeError"),
    ("call f(1, 2)", "exception TypeError"),
];

#[test]
fn expressions_give_their_values(rt: HostRuntime) -> Result<(), Fail> {
    let tables: [&[(&str, &str)]; 4] = [&ARITHMETIC, &COMPARISONS, &LOGIC, &PARTS];
    for table in tables {
        for (text, wanted) in table {
            let given = expression(rt.alloc(), text)?;
            assert_eq!(rt; given.as_str(), *wanted, "{text}");
        }
    }
    Ok(())
}
