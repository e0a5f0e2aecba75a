//! Whole scripts, run and evaluated: the head of the report is the same, and is what the rules say.

use crate::calls::call;
use std::alloc::{AllocError, Global};
use std::test::Fail;

const APPS: &[u8] =
    b"app add(a, b) { return a + b; } app div(a, b) { return a / b; } app total(items) { let sum = 0; for item in items { sum = sum + item; } return sum; } app one(t) outputs 2 { write 0, t; return 1; } app both(t) outputs 2 { write 0, t; write 1, t + \"!\"; return len(t); } app shown(f) { return name(f) + \"=\" + content(f); } app fail(t) { raise t; } app nested(n) { let l = []; while n > 0 { l = [l]; n = n - 1; } return n; } ";

// A main, the status of its run and the report before the log.
type Row = (&'static [u8], u8, &'static [u8]);

const ROWS: [Row; 17] = [
    (
        b"let f = call div(1, 0); let g = call div(8, 2); call add(f, g); call add(f, 1);",
        0,
        b"task 1 div exception ZeroDivisionError\ntask 2 div value 4\ntask 3 add exception DependencyError 1\ntask 4 add exception DependencyError 1\nmain ended\n",
    ),
    (
        b"let f = call div(1, 0); let g = call div(2, 0); call add(f, f); call total([g, f, g]);",
        0,
        b"task 1 div exception ZeroDivisionError\ntask 2 div exception ZeroDivisionError\ntask 3 add exception DependencyError 1\ntask 4 total exception DependencyError 2 1\nmain ended\n",
    ),
    (
        b"let f = call one(\"x\") to (\"a\", \"b\"); call add(output(f, 0), 1);",
        0,
        b"task 1 one exception MissingOutputs\ntask 2 add exception DependencyError 1\nmain ended\n",
    ),
    (
        b"let f = call div(1, 0); if exception(f) == \"ZeroDivisionError\" { call div(9, 3); } call div(6, 2); print result(f); print 1;",
        1,
        b"task 1 div exception ZeroDivisionError\ntask 2 div value 3\ntask 3 div value 3\nmain raised ZeroDivisionError\n",
    ),
    (
        b"let f = call both(\"ab\") to (\"m\", \"n\"); let g = call shown(output(f, 1)); print result(g); print result(output(f, 0)); print content(result(output(f, 0)));",
        0,
        b"print \"n=ab!\"\nprint file(\"m\", \"ab\")\nprint \"ab\"\ntask 1 both value 2 outputs [file(\"m\", \"ab\"), file(\"n\", \"ab!\")]\ntask 2 shown value \"n=ab!\"\nmain ended\n",
    ),
    (
        b"let f = call div(1, 0); call total([[f]]); call add(f, [[f]]);",
        0,
        b"task 1 div exception ZeroDivisionError\ntask 2 total exception TypeError\ntask 3 add exception TypeError\nmain ended\n",
    ),
    (
        b"call nested(63); call nested(64);",
        0,
        b"task 1 nested value 0\ntask 2 nested exception SizeError\nmain ended\n",
    ),
    (
        b"for i in range(0, 3) { let f = call add(i, 10); print result(f); checkpoint; }",
        0,
        b"print 10\nprint 11\nprint 12\ntask 1 add value 10\ntask 2 add value 11\ntask 3 add value 12\nmain ended\n",
    ),
    (
        b"let n = 0; while n < 20 { n = result(call add(n, 7)); } print n;",
        0,
        b"print 21\ntask 1 add value 7\ntask 2 add value 14\ntask 3 add value 21\nmain ended\n",
    ),
    (
        b"let f = call add(1, 1); let g = call both(\"x\") to (\"a\", \"b\"); print f; print [output(g, 1), f];",
        0,
        b"print future 1\nprint [output 2 1, future 1]\ntask 1 add value 2\ntask 2 both value 1 outputs [file(\"a\", \"x\"), file(\"b\", \"x!\")]\nmain ended\n",
    ),
    (
        b"print 1; raise \"enough\"; print 2;",
        1,
        b"print 1\nmain raised AppError \"enough\"\n",
    ),
    (
        b"print exception(call add(1, 2)); let f = call fail(\"no\"); print exception(f);",
        0,
        b"print \"\"\nprint \"AppError\"\ntask 1 add value 3\ntask 2 fail exception AppError \"no\"\nmain ended\n",
    ),
    (
        b"call add(9223372036854775807, 1); return 5; print 1;",
        0,
        b"task 1 add exception OverflowError\nmain ended\n",
    ),
    (
        b"let a = call add(1, 1); let b = call add(a, 10); let c = call add(a, 20); let d = call add(b, c); print [result(d), result(b)];",
        0,
        b"print [34, 12]\ntask 1 add value 2\ntask 2 add value 12\ntask 3 add value 22\ntask 4 add value 34\nmain ended\n",
    ),
    (
        b"let fs = []; for i in range(0, 4) { fs = append(fs, call add(i, i)); } print result(call total(fs));",
        0,
        b"print 12\ntask 1 add value 0\ntask 2 add value 2\ntask 3 add value 4\ntask 4 add value 6\ntask 5 total value 12\nmain ended\n",
    ),
    (
        b"let f = call both(\"x\") to (\"a\", \"b\"); call shown(output(f, 0)); call shown(output(f, 1)); call total([1, output(f, 0)]);",
        0,
        b"task 1 both value 1 outputs [file(\"a\", \"x\"), file(\"b\", \"x!\")]\ntask 2 shown value \"a=x\"\ntask 3 shown value \"b=x!\"\ntask 4 total exception TypeError\nmain ended\n",
    ),
    (
        b"let f = call div(1, 0); let g = call add(f, 1); let h = call add(g, 1); print exception(h); print result(g);",
        1,
        b"print \"DependencyError\"\ntask 1 div exception ZeroDivisionError\ntask 2 add exception DependencyError 1\ntask 3 add exception DependencyError 2\nmain raised DependencyError 1\n",
    ),
];

fn script(alloc: Global, main: &[u8]) -> Result<Vec<u8>, AllocError> {
    let mut script = Vec::from_slice(alloc, APPS)?;
    script.extend_from_slice(b"main { ")?;
    script.extend_from_slice(main)?;
    script.extend_from_slice(b" }")?;
    Ok(script)
}

#[test]
fn a_run_and_an_evaluation_have_one_head(rt: HostRuntime) -> Result<(), Fail> {
    let alloc = rt.alloc();
    for (main, status, head) in ROWS {
        let script = script(alloc, main)?;
        let evaluated = call(alloc, &["seq", "s"], &script, 1000)?;
        assert_eq!(rt; evaluated.out.bytes(), head, "{main:?}");
        assert_eq!(rt; evaluated.status, status, "{main:?}");
        let run = call(alloc, &["run", "s"], &script, 4000)?;
        assert_eq!(rt; run.status, status, "{main:?}");
        assert!(rt; run.out.bytes().starts_with(head), "{main:?}");
        assert!(rt;
            run.out.bytes()[head.len()..].starts_with(b"log "),
            "{main:?}"
        );
        assert!(rt; run.out.bytes().ends_with(b"\nend\n"), "{main:?}");
        assert_eq!(rt; run.err.bytes(), b"".as_slice(), "{main:?}");
    }
    Ok(())
}
