//! Runs of 20,000 calls: a chain, a fan-out, a fan-in and a tree.

use crate::calls::watched;
use parsl_engine::Ledger;
use std::test::Fail;

const CHAIN: &[u8] =
    b"app next(x) { return x + 1; } main { let x = call next(0); let made = 1; while made < 20000 { x = call next(x); made = made + 1; } print result(x); }";

const FAN_OUT: &[u8] =
    b"app next(x) { return x + 1; } main { let first = call next(0); let last = first; let made = 1; while made < 20000 { last = call next(first); made = made + 1; } print result(last); }";

const FAN_IN: &[u8] =
    b"app next(x) { return x + 1; } app total(items) { let sum = 0; for item in items { sum = sum + item; } return sum; } main { let all = []; let made = 1; while made < 20000 { all = append(all, call next(made)); made = made + 1; } print result(call total(all)); }";

// Each join has two calls and a sum of them: 5,000 leaves, and 15,000 calls above them but two.
const TREE: &[u8] =
    b"app next(x) { return x + 1; } app add(a, b) { return a + b; } join app walk(first, last) { if last - first <= 1 { return call next(first); } let half = first + (last - first) / 2; let left = call walk(first, half); let right = call walk(half, last); return call add(left, right); } main { print result(call walk(0, 5000)); }";

#[test]
fn runs_of_20000_calls_settle_each_once(rt: HostRuntime) -> Result<(), Fail> {
    let alloc = rt.alloc();
    for (script, out, calls) in [
        (CHAIN, b"print 20000\n".as_slice(), 20_000),
        (FAN_OUT, b"print 2\n", 20_000),
        (FAN_IN, b"print 200009999\n", 20_000),
        (TREE, b"print 12502500\n", 19_998),
    ] {
        let mut monitors = Vec::new(alloc);
        monitors.push(Ledger::new(alloc))?;
        let answer = watched(alloc, &["run", "s"], script, 6_000_000, &mut monitors)?;
        assert_eq!(rt; answer.status, 0);
        assert!(rt; answer.out.bytes().starts_with(out));
        for monitor in &monitors {
            assert_eq!(rt; monitor.settlements().len(), calls);
        }
    }
    Ok(())
}
