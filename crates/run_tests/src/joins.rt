//! Scripts with join apps, run and evaluated: the head of the report is the same, and is what the rules say.

use crate::calls::call;
use std::alloc::{AllocError, Global};
use std::test::Fail;

const APPS: &[u8] = b"app add(a, b) { return a + b; }
app div(a, b) { return a / b; }
app total(items) { let sum = 0; for item in items { sum = sum + item; } return sum; }
app same(v) { return v; }
app nop() { }
app one(t) outputs 1 { write 0, t; return t; }
join app none() { return []; }
join app five() { return 5; }
join app void() { }
join app fails() { raise \"no\"; }
join app late() { call add(1, 1); raise \"late\"; }
join app divides(n) { return 1 / n; }
join app bad() { return call div(1, 0); }
join app inner() { return call bad(); }
join app half_bad() { let f = call div(1, 0); let g = call add(1, 1); return [g, f]; }
join app two_bad() { let f = call div(1, 0); let g = call div(2, 0); return [g, f, g]; }
join app unused() { call div(1, 0); return call add(2, 3); }
join app depends() { let f = call div(1, 0); return call add(f, 1); }
join app pass(f) { return call add(f, 1); }
join app back(f) { return f; }
join app twice(n) { let f = call add(n, n); return [f, f]; }
join app pair(a, b) { return [call add(a, b), call add(b, 1)]; }
join app chain(n) { let f = call add(n, 1); let g = call add(f, 1); return g; }
join app mixed() { return [call add(1, 2), 3]; }
join app nested() { return [[call add(1, 2)]]; }
join app empty_inside() { return [[]]; }
join app out() { let f = call one(\"x\") to (\"a\"); return output(f, 0); }
join app outs() { let f = call one(\"x\") to (\"a\"); return [output(f, 0)]; }
join app writes() { return call one(\"x\") to (\"a\"); }
join app reads() { let f = call one(\"x\") to (\"a\"); return call same(output(f, 0)); }
join app nothing_much() { return call nop(); }
join app lists() { return [call none(), call twice(3)]; }
join app again() { let f = call twice(2); return call total(f); }
join app many() { let fs = []; for i in range(0, 11) { fs = append(fs, call add(i, 0)); } return fs; }
join app sum_of(n) { let fs = []; for i in range(0, n) { fs = append(fs, call add(i, i)); } return call total(fs); }
join app count(n) { if n == 0 { return call add(0, 7); } return call count(n - 1); }
join app halve(items) { let n = len(items) / 2; return [call total(slice(items, 0, n)), call total(slice(items, n, len(items)))]; }
join app down() { return call down(); }
join app large(t) { let f = call same(t); return [f, f]; }
";

// A main, the status of its run and the report before the log.
type Row = (&'static [u8], u8, &'static [u8]);

const ROWS: [Row; 35] = [
    (b"call none();", 0, b"task 1 none value []\nmain ended\n"),
    (
        b"call five();",
        0,
        b"task 1 five exception TypeError\nmain ended\n",
    ),
    (
        b"call void();",
        0,
        b"task 1 void exception TypeError\nmain ended\n",
    ),
    (
        b"call fails();",
        0,
        b"task 1 fails exception AppError \"no\"\nmain ended\n",
    ),
    (
        b"call late();",
        0,
        b"task 1 late exception AppError \"late\"\ntask 1.1 add value 2\nmain ended\n",
    ),
    (
        b"call divides(0); call divides(1);",
        0,
        b"task 1 divides exception ZeroDivisionError\ntask 2 divides exception TypeError\nmain ended\n",
    ),
    (
        b"call bad();",
        0,
        b"task 1 bad exception JoinError 1.1\ntask 1.1 div exception ZeroDivisionError\nmain ended\n",
    ),
    (
        b"call halve([1, 2, 3, 4, 5, 6, 7, 8]); call five(); call bad();",
        0,
        b"task 1 halve value [10, 26]\ntask 1.1 total value 10\ntask 1.2 total value 26\ntask 2 five exception TypeError\ntask 3 bad exception JoinError 3.1\ntask 3.1 div exception ZeroDivisionError\nmain ended\n",
    ),
    (
        b"call inner();",
        0,
        b"task 1 inner exception JoinError 1.1\ntask 1.1 bad exception JoinError 1.1.1\ntask 1.1.1 div exception ZeroDivisionError\nmain ended\n",
    ),
    (
        b"call half_bad();",
        0,
        b"task 1 half_bad exception JoinError 1.1\ntask 1.1 div exception ZeroDivisionError\ntask 1.2 add value 2\nmain ended\n",
    ),
    (
        b"call two_bad();",
        0,
        b"task 1 two_bad exception JoinError 1.2 1.1\ntask 1.1 div exception ZeroDivisionError\ntask 1.2 div exception ZeroDivisionError\nmain ended\n",
    ),
    (
        b"call unused();",
        0,
        b"task 1 unused value 5\ntask 1.1 div exception ZeroDivisionError\ntask 1.2 add value 5\nmain ended\n",
    ),
    (
        b"call depends();",
        0,
        b"task 1 depends exception JoinError 1.2\ntask 1.1 div exception ZeroDivisionError\ntask 1.2 add exception DependencyError 1.1\nmain ended\n",
    ),
    (
        b"let f = call add(1, 2); let g = call pass(f); call add(g, f);",
        0,
        b"task 1 add value 3\ntask 2 pass value 4\ntask 2.1 add value 4\ntask 3 add value 7\nmain ended\n",
    ),
    (
        b"let f = call bad(); call add(f, 1); call pass(f);",
        0,
        b"task 1 bad exception JoinError 1.1\ntask 1.1 div exception ZeroDivisionError\ntask 2 add exception DependencyError 1\ntask 3 pass exception DependencyError 1\nmain ended\n",
    ),
    (
        b"call back(call add(1, 2));",
        0,
        b"task 1 add value 3\ntask 2 back exception TypeError\nmain ended\n",
    ),
    (
        b"call twice(4);",
        0,
        b"task 1 twice value [8, 8]\ntask 1.1 add value 8\nmain ended\n",
    ),
    (
        b"call pair(call add(1, 2), call add(3, 4));",
        0,
        b"task 1 add value 3\ntask 2 add value 7\ntask 3 pair value [10, 8]\ntask 3.1 add value 10\ntask 3.2 add value 8\nmain ended\n",
    ),
    (
        b"call chain(5);",
        0,
        b"task 1 chain value 7\ntask 1.1 add value 6\ntask 1.2 add value 7\nmain ended\n",
    ),
    (
        b"call mixed();",
        0,
        b"task 1 mixed exception TypeError\ntask 1.1 add value 3\nmain ended\n",
    ),
    (
        b"call nested();",
        0,
        b"task 1 nested exception TypeError\ntask 1.1 add value 3\nmain ended\n",
    ),
    (
        b"call empty_inside();",
        0,
        b"task 1 empty_inside exception TypeError\nmain ended\n",
    ),
    (
        b"call out();",
        0,
        b"task 1 out exception TypeError\ntask 1.1 one value \"x\" outputs [file(\"a\", \"x\")]\nmain ended\n",
    ),
    (
        b"call outs();",
        0,
        b"task 1 outs exception TypeError\ntask 1.1 one value \"x\" outputs [file(\"a\", \"x\")]\nmain ended\n",
    ),
    (
        b"call writes();",
        0,
        b"task 1 writes value \"x\"\ntask 1.1 one value \"x\" outputs [file(\"a\", \"x\")]\nmain ended\n",
    ),
    (
        b"call reads();",
        0,
        b"task 1 reads value file(\"a\", \"x\")\ntask 1.1 one value \"x\" outputs [file(\"a\", \"x\")]\ntask 1.2 same value file(\"a\", \"x\")\nmain ended\n",
    ),
    (
        b"call nothing_much();",
        0,
        b"task 1 nothing_much value nothing\ntask 1.1 nop value nothing\nmain ended\n",
    ),
    (
        b"call lists();",
        0,
        b"task 1 lists value [[], [6, 6]]\ntask 1.1 none value []\ntask 1.2 twice value [6, 6]\ntask 1.2.1 add value 6\nmain ended\n",
    ),
    (
        b"call again();",
        0,
        b"task 1 again value 8\ntask 1.1 twice value [4, 4]\ntask 1.1.1 add value 4\ntask 1.2 total value 8\nmain ended\n",
    ),
    (
        b"call many();",
        0,
        b"task 1 many value [0, 1, 2, 3, 4, 5, 6, 7, 8, 9, 10]\ntask 1.1 add value 0\ntask 1.2 add value 1\ntask 1.3 add value 2\ntask 1.4 add value 3\ntask 1.5 add value 4\ntask 1.6 add value 5\ntask 1.7 add value 6\ntask 1.8 add value 7\ntask 1.9 add value 8\ntask 1.10 add value 9\ntask 1.11 add value 10\nmain ended\n",
    ),
    (
        b"call sum_of(3);",
        0,
        b"task 1 sum_of value 6\ntask 1.1 add value 0\ntask 1.2 add value 2\ntask 1.3 add value 4\ntask 1.4 total value 6\nmain ended\n",
    ),
    (
        b"call count(2); call none();",
        0,
        b"task 1 count value 7\ntask 1.1 count value 7\ntask 1.1.1 count value 7\ntask 1.1.1.1 add value 7\ntask 2 none value []\nmain ended\n",
    ),
    (
        b"let f = call add(1, 2); call halve([[f]]);",
        0,
        b"task 1 add value 3\ntask 2 halve exception TypeError\nmain ended\n",
    ),
    // main waits for a join, and then for a task that takes the value of one of its calls
    (
        b"let v = result(call twice(4)); print v; let f = call add(v[1], 1); print result(f);",
        0,
        b"print [8, 8]\nprint 9\ntask 1 twice value [8, 8]\ntask 1.1 add value 8\ntask 2 add value 9\nmain ended\n",
    ),
    (
        b"let f = call bad(); print exception(f); print result(f); print 1;",
        1,
        b"print \"JoinError\"\ntask 1 bad exception JoinError 1.1\ntask 1.1 div exception ZeroDivisionError\nmain raised JoinError 1.1\n",
    ),
];

fn script(alloc: Global, main: &[u8]) -> Result<Vec<u8>, AllocError> {
    let mut script = Vec::from_slice(alloc, APPS)?;
    script.extend_from_slice(b"main { ")?;
    script.extend_from_slice(main)?;
    script.extend_from_slice(b" }")?;
    Ok(script)
}

// Whether this is the head, with a log behind it.
fn is_report(report: &[u8], head: &[u8]) -> bool {
    match report.strip_prefix(head) {
        Some(log) => log.starts_with(b"log ") && log.ends_with(b"\nend\n"),
        None => false,
    }
}

#[test]
fn a_run_and_an_evaluation_with_joins_have_one_head(rt: HostRuntime) -> Result<(), Fail> {
    let alloc = rt.alloc();
    for (main, status, head) in ROWS {
        let script = script(alloc, main)?;
        let evaluated = call(alloc, &["seq", "s"], &script, 2000)?;
        assert_eq!(rt; evaluated.out.bytes(), head, "{main:?}");
        assert_eq!(rt; evaluated.status, status, "{main:?}");
        let run = call(alloc, &["run", "s"], &script, 8000)?;
        assert_eq!(rt; run.status, status, "{main:?}");
        assert!(rt; is_report(run.out.bytes(), head), "{main:?}");
        assert_eq!(rt; run.err.bytes(), b"".as_slice(), "{main:?}");
    }
    Ok(())
}

// Adds a path of so many ones.
fn add_ones(text: &mut Vec<u8>, count: usize) -> Result<(), AllocError> {
    text.push(b'1')?;
    for _ in 1..count {
        text.extend_from_slice(b".1")?;
    }
    Ok(())
}

// A join that calls itself: 64 tasks, of which the last one's path has no room for a call.
fn head_of_down(alloc: Global) -> Result<Vec<u8>, AllocError> {
    let mut head = Vec::new(alloc);
    for count in 1..65 {
        head.extend_from_slice(b"task ")?;
        add_ones(&mut head, count)?;
        head.extend_from_slice(b" down exception ")?;
        if count < 64 {
            head.extend_from_slice(b"JoinError ")?;
            add_ones(&mut head, count + 1)?;
        } else {
            head.extend_from_slice(b"DepthError")?;
        }
        head.push(b'\n')?;
    }
    head.extend_from_slice(b"main ended\n")?;
    Ok(head)
}

#[test]
fn a_path_has_at_most_64_numbers(rt: HostRuntime) -> Result<(), Fail> {
    let alloc = rt.alloc();
    let script = script(alloc, b"call down();")?;
    let head = head_of_down(alloc)?;
    let evaluated = call(alloc, &["seq", "s"], &script, 40_000)?;
    assert_eq!(rt; evaluated.out.bytes(), head.as_slice());
    let run = call(alloc, &["run", "s"], &script, 80_000)?;
    assert!(rt; run.out.bytes().starts_with(head.as_slice()));
    assert_eq!(rt; run.status, 0);
    Ok(())
}

// A list of two texts, each of 32,766 bytes, has 65,535 units; with a byte more in each it has 65,537.
#[test]
fn a_list_of_values_has_at_most_65536_units(rt: HostRuntime) -> Result<(), Fail> {
    let alloc = rt.alloc();
    for (main, head) in [
        (
            b"let t = \"a\"; for i in range(0, 15) { t = t + t; } call large(slice(t, 0, 32766));".as_slice(),
            b"task 1 large value [\"aaa".as_slice(),
        ),
        (
            b"let t = \"a\"; for i in range(0, 15) { t = t + t; } call large(slice(t, 0, 32767));",
            b"task 1 large exception SizeError\n",
        ),
    ] {
        let script = script(alloc, main)?;
        for command in ["seq", "run"] {
            let answer = call(alloc, &[command, "s"], &script, 200_000)?;
            assert!(rt; answer.out.bytes().starts_with(head), "{main:?}");
            assert_eq!(rt; answer.status, 0);
        }
    }
    Ok(())
}
