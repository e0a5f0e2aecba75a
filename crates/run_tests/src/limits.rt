//! The limits of a run: of its calls, and of the units that it stores.

use crate::calls::call;
use std::test::Fail;

const TASK_LIMIT: &[u8] = b"parsl: task limit 100000\n";

const STORE_LIMIT: &[u8] = b"parsl: store limit 16777216\n";

#[test]
fn an_evaluation_has_at_most_100000_calls(rt: HostRuntime) -> Result<(), Fail> {
    for (script, status, end, err) in [
        (
            b"app add(a, b) { return a + b; } main { let n = 0; while n < 100000 { call add(1, 2); n = n + 1; } }".as_slice(),
            0,
            b"task 100000 add value 3\nmain ended\n".as_slice(),
            b"".as_slice(),
        ),
        (
            b"app add(a, b) { return a + b; } main { let n = 0; while n < 100001 { call add(1, 2); n = n + 1; } }",
            10,
            b"",
            TASK_LIMIT,
        ),
    ] {
        let answer = call(rt.alloc(), &["seq", "s"], script, 3_000_000)?;
        assert_eq!(rt; answer.status, status);
        assert!(rt; answer.out.bytes().ends_with(end));
        assert_eq!(rt; answer.err.bytes(), err);
    }
    Ok(())
}

// Scripts around a text of 65,535 bytes, which has 65,536 units: 256 of them are what a run may store.
const LARGE: [(&[u8], u8, &[u8]); 6] = [
    // 256 printed values
    (
        b"main { let t = \"a\"; for i in range(0, 15) { t = t + t; } t = t + slice(t, 0, 32767); for i in range(0, 256) { print t; } }",
        0,
        b"",
    ),
    // and a unit more
    (
        b"main { let t = \"a\"; for i in range(0, 15) { t = t + t; } t = t + slice(t, 0, 32767); for i in range(0, 256) { print t; } print 1; }",
        10,
        STORE_LIMIT,
    ),
    // 128 arguments and as many values
    (
        b"app same(t) { return t; } main { let t = \"a\"; for i in range(0, 15) { t = t + t; } t = t + slice(t, 0, 32767); for i in range(0, 128) { call same(t); } }",
        0,
        b"",
    ),
    // and a unit for each print
    (
        b"app same(t) { return t; } main { let t = \"a\"; for i in range(0, 15) { t = t + t; } t = t + slice(t, 0, 32767); for i in range(0, 128) { print result(call same(t)) == t; } }",
        10,
        STORE_LIMIT,
    ),
    // 255 arguments, whose tasks fail and store nothing, and a call whose file and value fill the rest
    (
        b"app fail(t) { raise \"no\"; } app put(t) outputs 1 { write 0, t; return 1; } main { let t = \"a\"; for i in range(0, 15) { t = t + t; } t = t + slice(t, 0, 32767); for i in range(0, 255) { call fail(t); } call put(slice(t, 0, 32765)) to (\"a\"); }",
        0,
        b"",
    ),
    // and one byte more in both
    (
        b"app fail(t) { raise \"no\"; } app put(t) outputs 1 { write 0, t; return 1; } main { let t = \"a\"; for i in range(0, 15) { t = t + t; } t = t + slice(t, 0, 32767); for i in range(0, 255) { call fail(t); } call put(slice(t, 0, 32766)) to (\"a\"); }",
        10,
        STORE_LIMIT,
    ),
];

#[test]
fn a_run_and_an_evaluation_store_at_most_16777216_units(rt: HostRuntime) -> Result<(), Fail> {
    for (script, status, err) in LARGE {
        for command in ["seq", "run"] {
            let answer = call(rt.alloc(), &[command, "s"], script, 18_000_000)?;
            assert_eq!(rt; answer.status, status, "{command} {script:?}");
            assert_eq!(rt; answer.err.bytes(), err, "{command} {script:?}");
            assert!(rt;
                answer.out.bytes().is_empty() == (status == 10),
                "{command} {script:?}"
            );
        }
    }
    Ok(())
}

#[test]
fn a_list_and_the_arguments_of_a_call_have_at_most_65536_units(
    rt: HostRuntime,
) -> Result<(), Fail> {
    for (script, status, end) in [
        (
            b"main { let n = 0; for i in range(0, 65535) { n = n + 1; } print n; }".as_slice(),
            0,
            b"print 65535\nmain ended\n".as_slice(),
        ),
        (
            b"main { for i in range(0, 65536) { print i; } }",
            1,
            b"main raised SizeError\n",
        ),
        (
            b"app text_of(n) { let t = \"a\"; for i in range(0, 15) { t = t + t; } return slice(t, 0, n); } app count(l) { return len(l); } main { let f = call text_of(32768); let g = call text_of(32764); let h = call text_of(32765); call count([f, g, 1]); call count([f, h, 1]); call count([f, f]); }",
            0,
            b"task 4 count value 3\ntask 5 count exception SizeError\ntask 6 count exception SizeError\nmain ended\n",
        ),
    ] {
        for command in ["seq", "run"] {
            let answer = call(rt.alloc(), &[command, "s"], script, 200_000)?;
            assert_eq!(rt; answer.status, status, "{command}");
            assert!(rt; ends_or_has(answer.out.bytes(), end), "{command}");
        }
    }
    Ok(())
}

// Whether the bytes end so, or go on so before their log.
fn ends_or_has(bytes: &[u8], end: &[u8]) -> bool {
    if bytes.ends_with(end) {
        return true;
    }
    for at in 0..bytes.len() {
        if bytes[at..].starts_with(b"\nlog ") {
            return bytes[..at + 1].ends_with(end);
        }
    }
    false
}
