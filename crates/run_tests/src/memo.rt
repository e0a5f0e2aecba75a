//! Calls of cached apps: which of them are launched, and which take their value from the memo.

use crate::calls::call;
use std::test::Fail;

// A script and the output of its run.
type Row = (&'static [u8], &'static [u8]);

const ROWS: [Row; 7] = [
    // The second call is made once the first has settled.
    (
        b"cached app twice(n) { return n + n; } main { let a = call twice(3); print result(a); let b = call twice(3); print result(b); }",
        b"print 6\nprint 6\ntask 1 twice value 6\ntask 2 twice value 6\nmain ended\nlog 10\nsubmit 1 twice\nlaunch 1 try 1\nstart 1 try 1 manager 1\nended 1 try 1 manager 1 value\nstored 1\nsettled 1 exec_done\nsubmit 2 twice\nmemo 2\nsettled 2 memo_done\nend\n",
    ),
    // Both calls are launched before either value is stored.
    (
        b"cached app twice(n) { return n + n; } main { let a = call twice(3); let b = call twice(3); print [result(a), result(b)]; }",
        b"print [6, 6]\ntask 1 twice value 6\ntask 2 twice value 6\nmain ended\nlog 12\nsubmit 1 twice\nsubmit 2 twice\nlaunch 1 try 1\nlaunch 2 try 1\nstart 1 try 1 manager 1\nended 1 try 1 manager 1 value\nstart 2 try 1 manager 1\nended 2 try 1 manager 1 value\nstored 1\nsettled 1 exec_done\nsettled 2 exec_done\nend\n",
    ),
    // The second call is of a future that has the value.
    (
        b"app same(n) { return n; } cached app twice(n) { return n + n; } main { let a = call twice(3); let s = call same(3); let b = call twice(s); print [result(a), result(b)]; }",
        b"print [6, 6]\ntask 1 twice value 6\ntask 2 same value 3\ntask 3 twice value 6\nmain ended\nlog 15\nsubmit 1 twice\nsubmit 2 same\nsubmit 3 twice\nlaunch 1 try 1\nlaunch 2 try 1\nstart 1 try 1 manager 1\nended 1 try 1 manager 1 value\nstart 2 try 1 manager 1\nended 2 try 1 manager 1 value\nstored 1\nsettled 1 exec_done\nsettled 2 exec_done\nmemo 3\nsettled 3 memo_done\nend\n",
    ),
    // An exception is not stored.
    (
        b"cached app half(n) { if n % 2 == 1 { raise \"odd\"; } return n / 2; } main { let a = call half(3); print exception(a); let b = call half(3); print exception(b); }",
        b"print \"AppError\"\nprint \"AppError\"\ntask 1 half exception AppError \"odd\"\ntask 2 half exception AppError \"odd\"\nmain ended\nlog 11\nsubmit 1 half\nlaunch 1 try 1\nstart 1 try 1 manager 1\nended 1 try 1 manager 1 AppError\nsettled 1 failed\nsubmit 2 half\nlaunch 2 try 1\nstart 2 try 1 manager 1\nended 2 try 1 manager 1 AppError\nsettled 2 failed\nend\n",
    ),
    // Apps with equal bodies and other names share nothing.
    (
        b"cached app one(n) { return n; } cached app other(n) { return n; } main { print result(call one(1)); print result(call other(1)); }",
        b"print 1\nprint 1\ntask 1 one value 1\ntask 2 other value 1\nmain ended\nlog 13\nsubmit 1 one\nlaunch 1 try 1\nstart 1 try 1 manager 1\nended 1 try 1 manager 1 value\nstored 1\nsettled 1 exec_done\nsubmit 2 other\nlaunch 2 try 1\nstart 2 try 1 manager 1\nended 2 try 1 manager 1 value\nstored 2\nsettled 2 exec_done\nend\n",
    ),
    // The files are stored with the value, by the names of the outputs.
    (
        b"cached app note(t) outputs 1 { write 0, t; return len(t); } main { let f = call note(\"ab\") to (\"m\"); print result(f); let g = call note(\"ab\") to (\"m\"); print result(output(g, 0)); let h = call note(\"ab\") to (\"n\"); print result(output(h, 0)); }",
        b"print 2\nprint file(\"m\", \"ab\")\nprint file(\"n\", \"ab\")\ntask 1 note value 2 outputs [file(\"m\", \"ab\")]\ntask 2 note value 2 outputs [file(\"m\", \"ab\")]\ntask 3 note value 2 outputs [file(\"n\", \"ab\")]\nmain ended\nlog 16\nsubmit 1 note\nlaunch 1 try 1\nstart 1 try 1 manager 1\nended 1 try 1 manager 1 value\nstored 1\nsettled 1 exec_done\nsubmit 2 note\nmemo 2\nsettled 2 memo_done\nsubmit 3 note\nlaunch 3 try 1\nstart 3 try 1 manager 1\nended 3 try 1 manager 1 value\nstored 3\nsettled 3 exec_done\nend\n",
    ),
    // The calls of a join take what main's calls stored.
    (
        b"cached app twice(n) { return n + n; } join app both(n) { let a = call twice(n); return call twice(a); } main { print result(call twice(5)); print result(call twice(10)); print result(call both(5)); }",
        b"print 10\nprint 20\nprint 20\ntask 1 twice value 10\ntask 2 twice value 20\ntask 3 both value 20\ntask 3.1 twice value 10\ntask 3.2 twice value 20\nmain ended\nlog 22\nsubmit 1 twice\nlaunch 1 try 1\nstart 1 try 1 manager 1\nended 1 try 1 manager 1 value\nstored 1\nsettled 1 exec_done\nsubmit 2 twice\nlaunch 2 try 1\nstart 2 try 1 manager 1\nended 2 try 1 manager 1 value\nstored 2\nsettled 2 exec_done\nsubmit 3 both\njoin 3\nsubmit 3.1 twice\nsubmit 3.2 twice\nmemo 3.1\nsettled 3.1 memo_done\nmemo 3.2\nsettled 3.2 memo_done\nsettled 3 exec_done\nend\n",
    ),
];

#[test]
fn a_value_is_stored_and_taken_by_its_key(rt: HostRuntime) -> Result<(), Fail> {
    for (script, out) in ROWS {
        let run = call(rt.alloc(), &["run", "s"], script, 2000)?;
        assert_eq!(rt; run.status, 0, "{script:?}");
        assert_eq!(rt; run.out.bytes(), out, "{script:?}");
        assert_eq!(rt; run.err.bytes(), b"".as_slice(), "{script:?}");
        let evaluated = call(rt.alloc(), &["seq", "s"], script, 1000)?;
        assert_eq!(rt; evaluated.status, 0, "{script:?}");
        assert!(rt; out.starts_with(evaluated.out.bytes()), "{script:?}");
        assert!(rt;
            out[evaluated.out.bytes().len()..].starts_with(b"log "),
            "{script:?}"
        );
    }
    Ok(())
}

// 254 arguments of 65,536 units, whose tasks fail and store nothing, and the call of a cached app. Its argument and its
// key have 65,518 units each, the values 1 each, the canonical text of the app 34 bytes: 256 times 65,536 in all.
const FITS: &[u8] =
    b"app fail(t) { raise \"no\"; } cached app one(t) { return 1; } main { let t = \"a\"; for i in range(0, 15) { t = t + t; } t = t + slice(t, 0, 32767); for i in range(0, 254) { call fail(t); } call one(slice(t, 0, 65517)); }";

// One byte more in the argument and in the key.
const PASSES: &[u8] =
    b"app fail(t) { raise \"no\"; } cached app one(t) { return 1; } main { let t = \"a\"; for i in range(0, 15) { t = t + t; } t = t + slice(t, 0, 32767); for i in range(0, 254) { call fail(t); } call one(slice(t, 0, 65518)); }";

#[test]
fn a_run_stores_the_keys_too(rt: HostRuntime) -> Result<(), Fail> {
    for (command, script, status, err) in [
        ("run", FITS, 0, b"".as_slice()),
        ("seq", PASSES, 0, b""),
        ("run", PASSES, 10, b"parsl: store limit 16777216\n"),
    ] {
        let answer = call(rt.alloc(), &[command, "s"], script, 100_000)?;
        assert_eq!(rt; answer.status, status, "{command}");
        assert_eq!(rt; answer.err.bytes(), err, "{command}");
    }
    Ok(())
}
