//! Each built-in with its values and its exceptions.

use crate::shown::expression;
use std::test::Fail;

const SIZES_AND_NUMBERS: [(&str, &str); 26] = [
    ("len(\"abc\")", "3"),
    ("len([])", "0"),
    ("len([1, [2, 3]])", "2"),
    ("len(5)", "exception TypeError"),
    ("len(nothing)", "exception TypeError"),
    ("len(1, 2)", "exception TypeError"),
    ("len()", "exception TypeError"),
    ("len(1 / 0, 2)", "exception ZeroDivisionError"),
    ("text(0)", "\"0\""),
    ("text(-5)", "\"-5\""),
    ("text(-9223372036854775807 - 1)", "\"-9223372036854775808\""),
    ("text(\"5\")", "exception TypeError"),
    ("number(\"007\")", "7"),
    ("number(\"-0\")", "0"),
    ("number(\"9223372036854775807\")", "9223372036854775807"),
    ("number(\"-9223372036854775808\")", "-9223372036854775808"),
    ("number(\"9223372036854775808\")", "exception OverflowError"),
    (
        "number(\"-9223372036854775809\")",
        "exception OverflowError",
    ),
    (
        "number(\"99999999999999999999999999\")",
        "exception OverflowError",
    ),
    ("number(\"\")", "exception ValueError"),
    ("number(\"-\")", "exception ValueError"),
    ("number(\"+1\")", "exception ValueError"),
    ("number(\" 1\")", "exception ValueError"),
    ("number(\"12a\")", "exception ValueError"),
    ("number(5)", "exception TypeError"),
    ("frob(1 / 0)", "exception ZeroDivisionError"),
];

const LISTS: [(&str, &str); 26] = [
    ("slice(\"abcd\", 1, 3)", "\"bc\""),
    ("slice([1, 2, 3], 0, 2)", "[1, 2]"),
    ("slice(\"ab\", 2, 2)", "\"\""),
    ("slice([1], 0, 0)", "[]"),
    ("slice(\"ab\", 2, 1)", "exception IndexError"),
    ("slice(\"ab\", -1, 1)", "exception IndexError"),
    ("slice(\"ab\", 0, 3)", "exception IndexError"),
    ("slice(\"a\", 5, \"b\")", "exception TypeError"),
    ("slice(\"a\", \"b\", 5)", "exception TypeError"),
    ("slice(5, 0, 0)", "exception TypeError"),
    ("range(-1, 2)", "[-1, 0, 1]"),
    ("range(3, 1)", "[]"),
    ("range(3, 3)", "[]"),
    ("len(range(0, 65535))", "65535"),
    ("range(0, 65536)", "exception SizeError"),
    (
        "range(-9223372036854775807, 9223372036854775807)",
        "exception SizeError",
    ),
    ("range(\"a\", 1)", "exception TypeError"),
    ("range(1, \"a\")", "exception TypeError"),
    ("append([1], \"x\")", "[1, \"x\"]"),
    ("append([], [])", "[[]]"),
    ("append(\"a\", 1)", "exception TypeError"),
    ("append(1 / 0, 2)", "exception ZeroDivisionError"),
    ("append(range(0, 65534), 9)[65534]", "9"),
    ("append(range(0, 65535), 9)", "exception SizeError"),
    ("len(append(range(0, 65530), \"abcd\"))", "65531"),
    ("append(range(0, 65530), \"abcde\")", "exception SizeError"),
];

const TEXTS: [(&str, &str); 20] = [
    ("split(\"a,,b\", \",\")", "[\"a\", \"\", \"b\"]"),
    ("split(\"\", \",\")", "[\"\"]"),
    ("split(\",\", \",\")", "[\"\", \"\"]"),
    ("split(\"abc\", \",\")", "[\"abc\"]"),
    ("split(\"a\", \"\")", "exception ValueError"),
    ("split(\"a\", \"xy\")", "exception ValueError"),
    ("split(\"a\", 1)", "exception TypeError"),
    ("split(1, \",\")", "exception TypeError"),
    ("concat([\"a\", \"b\", \"\"], \"-\")", "\"a-b-\""),
    ("concat([\"a\"], \"-\")", "\"a\""),
    ("concat([], \"-\")", "\"\""),
    ("concat([1], \"-\")", "exception TypeError"),
    ("concat(\"a\", \"-\")", "exception TypeError"),
    ("concat([\"a\"], 1)", "exception TypeError"),
    ("file(\"n\", \"c\")", "file(\"n\", \"c\")"),
    ("file(1, \"c\")", "exception TypeError"),
    ("file(\"n\", 1)", "exception TypeError"),
    (
        "name(file(\"n\", \"c\")) + content(file(\"n\", \"c\"))",
        "\"nc\"",
    ),
    ("name(\"n\")", "exception TypeError"),
    ("content(5)", "exception TypeError"),
];

const FUTURES: [(&str, &str); 3] = [
    ("output(1, 0)", "exception TypeError"),
    ("result(1)", "exception TypeError"),
    ("exception(1)", "exception TypeError"),
];

#[test]
fn built_ins_give_their_values(rt: HostRuntime) -> Result<(), Fail> {
    let tables: [&[(&str, &str)]; 4] = [&SIZES_AND_NUMBERS, &LISTS, &TEXTS, &FUTURES];
    for table in tables {
        for (text, wanted) in table {
            let given = expression(rt.alloc(), text)?;
            assert_eq!(rt; given.as_str(), *wanted, "{text}");
        }
    }
    Ok(())
}
