//! The commands `check` and `format`, from words and a script's bytes to a status and what is written.

use crate::calls::call;
use std::alloc::{AllocError, Global};
use std::test::Fail;

/// Texts that are no script, with the lines that tell their faults.
const NO_SCRIPTS: [(&[u8], &[u8]); 33] = [
    (b"main { $ }", b"parsl: script: parse 1 at 7\n"),
    (b"# a\x01", b"parsl: script: parse 1 at 3\n"),
    (b"main { } \xff", b"parsl: script: parse 1 at 9\n"),
    (b"main { } $", b"parsl: script: parse 1 at 9\n"),
    (
        b"main { let a = 1; } ; @",
        b"parsl: script: parse 4 at 20\n",
    ),
    (b"main { print \"abc", b"parsl: script: parse 2 at 13\n"),
    (
        b"main { print \"a\\q\"; }",
        b"parsl: script: parse 2 at 13\n",
    ),
    (
        b"main { print \"a\nb\"; }",
        b"parsl: script: parse 2 at 13\n",
    ),
    (
        b"main { print aaaaaaaaaaaaaaaaaaaaaaaaaaaaaaaaaaaaaaaaaaaaaaaaaaaaaaaaaaaaaaaaa; }",
        b"parsl: script: parse 2 at 13\n",
    ),
    (b"main { print !1; }", b"parsl: script: parse 2 at 13\n"),
    (
        b"main { print 9223372036854775808; }",
        b"parsl: script: parse 3 at 13\n",
    ),
    (
        b"main { print -9223372036854775808; }",
        b"parsl: script: parse 3 at 14\n",
    ),
    (b"main { print 007; }", b"parsl: script: parse 3 at 13\n"),
    (b"main { print 1a; }", b"parsl: script: parse 3 at 13\n"),
    (b"main { } 007", b"parsl: script: parse 3 at 9\n"),
    (b"", b"parsl: script: parse 4 at 0\n"),
    (b"main {\n\n", b"parsl: script: parse 4 at 8\n"),
    (
        b"main { print 1 < 2 < 3; }",
        b"parsl: script: parse 4 at 19\n",
    ),
    (
        b"main { call f() to (); }",
        b"parsl: script: parse 4 at 20\n",
    ),
    (b"main { print - -1; }", b"parsl: script: parse 4 at 15\n"),
    (
        b"main { print not not 1; }",
        b"parsl: script: parse 4 at 17\n",
    ),
    (b"main { print -not 1; }", b"parsl: script: parse 4 at 14\n"),
    (b"main { let let = 1; }", b"parsl: script: parse 4 at 11\n"),
    (
        b"main { print 1; } else { }",
        b"parsl: script: parse 4 at 18\n",
    ),
    (
        b"main { while 1 { } else { } }",
        b"parsl: script: parse 4 at 19\n",
    ),
    (b"main { } main { }", b"parsl: script: parse 4 at 9\n"),
    (b"main { print [1,]; }", b"parsl: script: parse 4 at 16\n"),
    (b"main { 1; } $", b"parsl: script: parse 4 at 7\n"),
    (b"app f() { } ", b"parsl: script: parse 4 at 12\n"),
    (b"main { let a = 1; } 9a", b"parsl: script: parse 3 at 20\n"),
    (b"main { print 1\"a\"; }", b"parsl: script: parse 4 at 14\n"),
    (b"cached main { }", b"parsl: script: parse 4 at 7\n"),
    (
        b"join cached app f() { } main { }",
        b"parsl: script: parse 4 at 5\n",
    ),
];

/// Scripts that break a rule, with the lines that tell the least of their faults.
const WRONG_SCRIPTS: [(&[u8], &[u8]); 39] = [
    (b"main { print x; }", b"parsl: script: check 1 at 13\n"),
    (b"main { x = 1; }", b"parsl: script: check 1 at 7\n"),
    (b"main { print foo(1); }", b"parsl: script: check 1 at 13\n"),
    (b"main { let x = x; }", b"parsl: script: check 1 at 15\n"),
    (
        b"main { if 1 { let a = 1; } print a; }",
        b"parsl: script: check 1 at 33\n",
    ),
    (
        b"main { for i in i { } }",
        b"parsl: script: check 1 at 16\n",
    ),
    (
        b"main { for i in [] { } print i; }",
        b"parsl: script: check 1 at 29\n",
    ),
    (
        b"app f(a) { return b; } main { }",
        b"parsl: script: check 1 at 18\n",
    ),
    (b"main { call f(); }", b"parsl: script: check 2 at 12\n"),
    (
        b"join app g() { return call h(); } main { }",
        b"parsl: script: check 2 at 27\n",
    ),
    (
        b"main { print [call k()]; }",
        b"parsl: script: check 2 at 19\n",
    ),
    (
        b"app f(a) { return a; } main { call f(); }",
        b"parsl: script: check 3 at 35\n",
    ),
    (b"main { print len(); }", b"parsl: script: check 3 at 13\n"),
    (
        b"app f(a) { return result(a, a); } main { }",
        b"parsl: script: check 3 at 18\n",
    ),
    (
        b"app f(a, b, c, d, e, g, h, i, j, k, l, m, n, o, p, q, a) { return a; } main { }",
        b"parsl: script: check 3 at 54\n",
    ),
    (
        b"app f(a) { return a; } app g(a, b) { return a; } main { call g(1); }",
        b"parsl: script: check 3 at 61\n",
    ),
    (
        b"app f() { return call f(); } main { }",
        b"parsl: script: check 4 at 17\n",
    ),
    (
        b"app f() { call g(); return 1; } main { }",
        b"parsl: script: check 4 at 10\n",
    ),
    (
        b"app f() { return [1, call f()]; } main { }",
        b"parsl: script: check 4 at 21\n",
    ),
    (
        b"app f(a) { print a; return a; } main { }",
        b"parsl: script: check 5 at 11\n",
    ),
    (
        b"app f(a) { return result(a); } main { }",
        b"parsl: script: check 5 at 18\n",
    ),
    (
        b"join app f(a) { checkpoint; return a; } main { }",
        b"parsl: script: check 5 at 16\n",
    ),
    (
        b"join app f(a) { return exception(a); } main { }",
        b"parsl: script: check 5 at 23\n",
    ),
    (
        b"main { write \"a\", \"b\"; }",
        b"parsl: script: check 6 at 7\n",
    ),
    (
        b"app f() outputs 0 { return 1; } main { }",
        b"parsl: script: check 6 at 16\n",
    ),
    (
        b"app f() outputs 17 { return 1; } main { }",
        b"parsl: script: check 6 at 16\n",
    ),
    (
        b"join app f() outputs 1 { return 1; } main { }",
        b"parsl: script: check 6 at 13\n",
    ),
    (
        b"app f() outputs 1 { return 1; } main { call f(); }",
        b"parsl: script: check 6 at 44\n",
    ),
    (
        b"app f() { return 1; } main { call f() to (\"a\"); }",
        b"parsl: script: check 6 at 34\n",
    ),
    (
        b"app f() outputs 0 { return 1; } main { call f(); }",
        b"parsl: script: check 6 at 16\n",
    ),
    (
        b"main { let a = 1; let a = 2; }",
        b"parsl: script: check 7 at 22\n",
    ),
    (
        b"app f() { return 1; } app f() { return 2; } main { }",
        b"parsl: script: check 7 at 26\n",
    ),
    (
        b"app f(a, a) { return a; } main { }",
        b"parsl: script: check 7 at 9\n",
    ),
    (
        b"main { let a = 1; for a in [] { } }",
        b"parsl: script: check 7 at 22\n",
    ),
    (
        b"main { let a = 1; if a { let a = 2; } }",
        b"parsl: script: check 7 at 29\n",
    ),
    (
        b"cached join app f() { return 1; } main { }",
        b"parsl: script: check 8 at 7\n",
    ),
    (
        b"app g() { return 1; } cached join app f() { return 1; } main { }",
        b"parsl: script: check 8 at 29\n",
    ),
    (
        b"cached join app f() { return x; } main { }",
        b"parsl: script: check 8 at 7\n",
    ),
    (
        b"app f() { return 1; } app f(a) { return a; } main { call f(1); }",
        b"parsl: script: check 7 at 26\n",
    ),
];

/// Scripts that break no rule, with their canonical texts.
const RIGHT_SCRIPTS: [(&[u8], &[u8]); 10] = [
    (
        b"app f(result) { let exception = result; return exception; } main { }",
        b"app f(result) {\n  let exception = result;\n  return exception;\n}\n\nmain {\n}\n",
    ),
    (
        b"app f() { return 1; } app g(f) { return f; } main { let f = call f(); print result(f); }",
        b"app f() {\n  return 1;\n}\n\napp g(f) {\n  return f;\n}\n\nmain {\n  let f = call f();\n  print result(f);\n}\n",
    ),
    (
        b"main { if 1 { let a = 1; } else { let a = 2; } for a in [] { } let a = 3; }",
        b"main {\n  if 1 {\n    let a = 1;\n  } else {\n    let a = 2;\n  }\n  for a in [] {\n  }\n  let a = 3;\n}\n",
    ),
    (
        b"app f(a, b, c, d, e, g, h, i, j, k, l, m, n, o, p, q) { return a; } main { }",
        b"app f(a, b, c, d, e, g, h, i, j, k, l, m, n, o, p, q) {\n  return a;\n}\n\nmain {\n}\n",
    ),
    (b"main{print 1+2;}", b"main {\n  print 1 + 2;\n}\n"),
    (
        b"cached app f(a,b)outputs 2{write \"x\",a;return b;}join app g(){return call f(1,2)to(\"p\",\"q\");}main{let x=call g();x=x;print x;}",
        b"cached app f(a, b) outputs 2 {\n  write \"x\", a;\n  return b;\n}\n\njoin app g() {\n  return call f(1, 2) to (\"p\", \"q\");\n}\n\nmain {\n  let x = call g();\n  x = x;\n  print x;\n}\n",
    ),
    (
        b"main{if 1{}else{}if 0{let a=1;}while 1<2{checkpoint;}for i in[1,2]{print-i;}}",
        b"main {\n  if 1 {\n  } else {\n  }\n  if 0 {\n    let a = 1;\n  }\n  while 1 < 2 {\n    checkpoint;\n  }\n  for i in [1, 2] {\n    print -i;\n  }\n}\n",
    ),
    (
        b"main { # a comment\n print (1 + 2) * -3 / 4 % 5 == 6 and not 7 or nothing; print [[1], \"a\\n\\\"\\\\\"][0][1]; raise text(len([])); }",
        b"main {\n  print (1 + 2) * -3 / 4 % 5 == 6 and not 7 or nothing;\n  print [[1], \"a\\n\\\"\\\\\"][0][1];\n  raise text(len([]));\n}\n",
    ),
    (b"main{}", b"main {\n}\n"),
    (
        b"app f(){return file(\"n\",\"c\");}\n\n\n app g(x){x=name(x);return content(x);}main{call f();}",
        b"app f() {\n  return file(\"n\", \"c\");\n}\n\napp g(x) {\n  x = name(x);\n  return content(x);\n}\n\nmain {\n  call f();\n}\n",
    ),
];

#[test]
fn a_text_that_is_no_script_is_refused(rt: HostRuntime) -> Result<(), Fail> {
    for (script, line) in NO_SCRIPTS {
        for command in ["check", "format", "run"] {
            let answer = call(rt.alloc(), &[command, "s"], script, 1000)?;
            assert_eq!(rt; answer.status, 3, "{script:?}");
            assert_eq!(rt; answer.out.bytes(), b"".as_slice(), "{script:?}");
            assert_eq!(rt; answer.err.bytes(), line, "{script:?}");
        }
    }
    Ok(())
}

#[test]
fn a_script_that_breaks_a_rule_is_refused(rt: HostRuntime) -> Result<(), Fail> {
    for (script, line) in WRONG_SCRIPTS {
        for command in ["check", "format", "run"] {
            let answer = call(rt.alloc(), &[command, "s"], script, 1000)?;
            assert_eq!(rt; answer.status, 3, "{script:?}");
            assert_eq!(rt; answer.out.bytes(), b"".as_slice(), "{script:?}");
            assert_eq!(rt; answer.err.bytes(), line, "{script:?}");
        }
    }
    Ok(())
}

#[test]
fn a_right_script_is_accepted_and_formatted_once(rt: HostRuntime) -> Result<(), Fail> {
    for (script, text) in RIGHT_SCRIPTS {
        let checked = call(rt.alloc(), &["check", "s"], script, 1000)?;
        assert_eq!(rt; checked.status, 0, "{script:?}");
        assert_eq!(rt; checked.out.bytes(), b"ok\n".as_slice(), "{script:?}");
        let formatted = call(rt.alloc(), &["format", "s"], script, 1000)?;
        assert_eq!(rt; formatted.status, 0, "{script:?}");
        assert_eq!(rt; formatted.out.bytes(), text, "{script:?}");
        let again = call(rt.alloc(), &["format", "s"], formatted.out.bytes(), 1000)?;
        assert_eq!(rt; again.out.bytes(), text, "{script:?}");
    }
    Ok(())
}

// `main { print `, the brackets, a middle, the closing brackets and ` }`.
fn nested(
    alloc: Global,
    open: &str,
    middle: &str,
    close: &str,
    depth: usize,
) -> Result<String, AllocError> {
    let mut text = String::from_str(alloc, "main { print ")?;
    for _ in 0..depth {
        text.push_str(open)?;
    }
    text.push_str(middle)?;
    for _ in 0..depth {
        text.push_str(close)?;
    }
    text.push_str("; }")?;
    Ok(text)
}

#[test]
fn at_most_64_brackets_are_open(rt: HostRuntime) -> Result<(), Fail> {
    for (open, middle, close, depth, status, err) in [
        ("(", "1", ")", 63, 0, b"".as_slice()),
        ("[", "1", "]", 63, 0, b""),
        ("(", "1", ")", 64, 3, b"parsl: script: parse 5 at 76\n"),
        ("[", "1", "]", 64, 3, b"parsl: script: parse 5 at 76\n"),
        ("(", "1(", ")", 63, 3, b"parsl: script: parse 4 at 77\n"),
        ("f(", "1", ")", 64, 3, b"parsl: script: parse 5 at 140\n"),
    ] {
        let script = nested(rt.alloc(), open, middle, close, depth)?;
        let answer = call(
            rt.alloc(),
            &["check", "s"],
            script.as_str().as_bytes(),
            1000,
        )?;
        assert_eq!(rt; answer.status, status, "{script:?}");
        assert_eq!(rt; answer.err.bytes(), err, "{script:?}");
    }
    Ok(())
}

// A text with a run of one byte in it.
fn padded(
    alloc: Global,
    front: &[u8],
    byte: u8,
    count: usize,
    back: &[u8],
) -> Result<Vec<u8>, AllocError> {
    let mut text = Vec::from_slice(alloc, front)?;
    for _ in 0..count {
        text.push(byte)?;
    }
    text.extend_from_slice(back)?;
    Ok(text)
}

#[test]
fn a_text_has_at_most_1048576_bytes(rt: HostRuntime) -> Result<(), Fail> {
    for (front, blanks, status, err) in [
        (b"main".as_slice(), 1_048_568, 0, b"".as_slice()),
        (
            b"main",
            1_048_569,
            3,
            b"parsl: script: parse 6 at 1048576\n",
        ),
        (b"$", 1_048_572, 3, b"parsl: script: parse 6 at 1048576\n"),
        (
            b"main {",
            2_000_000,
            3,
            b"parsl: script: parse 6 at 1048576\n",
        ),
    ] {
        let script = padded(rt.alloc(), front, b' ', blanks, b"{  }")?;
        let answer = call(rt.alloc(), &["check", "s"], script.as_slice(), 1000)?;
        assert_eq!(rt; answer.status, status);
        assert_eq!(rt; answer.err.bytes(), err);
    }
    Ok(())
}

#[test]
fn a_cached_app_has_at_most_16384_bytes(rt: HostRuntime) -> Result<(), Fail> {
    for (front, count, status, err) in [
        (
            b"cached app f() { return \"".as_slice(),
            16_352,
            0,
            b"".as_slice(),
        ),
        (
            b"cached app f() { return \"",
            16_353,
            3,
            b"parsl: script: check 9 at 11\n",
        ),
        (
            b"cached app f() {return\"",
            16_353,
            3,
            b"parsl: script: check 9 at 11\n",
        ),
        (
            b"cached app f(a) outputs 1 { return \"",
            16_353,
            3,
            b"parsl: script: check 9 at 11\n",
        ),
        (b"app f() { return \"", 20_000, 0, b""),
    ] {
        let script = padded(rt.alloc(), front, b'a', count, b"\"; } main { }")?;
        let answer = call(rt.alloc(), &["check", "s"], script.as_slice(), 1000)?;
        assert_eq!(rt; answer.status, status);
        assert_eq!(rt; answer.err.bytes(), err);
    }
    Ok(())
}
