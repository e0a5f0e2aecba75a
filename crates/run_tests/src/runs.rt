//! Whole runs, from words and a script's bytes to a status, the output and the line on err.

use crate::calls::call;
use flow_base::{Exception, Text};
use std::alloc::{AllocError, Global};
use std::test::Fail;

const SUM: &[u8] =
    b"app add(a, b) {\n  return a + b;\n}\n\nmain {\n  let x = call add(1, 2);\n  let y = call add(x, 10);\n  print result(y);\n}\n";

const SUM_OUT: &[u8] =
    b"print 13\ntask 1 add value 3\ntask 2 add value 13\nmain ended\nlog 11\nsubmit 1 add\nsubmit 2 add\nlaunch 1 try 1\nstart 1 try 1 manager 1\nended 1 try 1 manager 1 value\nsettled 1 exec_done\nlaunch 2 try 1\nstart 2 try 1 manager 1\nended 2 try 1 manager 1 value\nsettled 2 exec_done\nend\n";

const DIAMOND: &[u8] =
    b"app add(a, b) { return a + b; } main { let a = call add(1, 1); let b = call add(a, 10); let c = call add(a, 20); let d = call add(b, c); }";

const DIAMOND_OUT: &[u8] =
    b"task 1 add value 2\ntask 2 add value 12\ntask 3 add value 22\ntask 4 add value 34\nmain ended\nlog 21\nsubmit 1 add\nsubmit 2 add\nsubmit 3 add\nsubmit 4 add\nlaunch 1 try 1\nstart 1 try 1 manager 1\nended 1 try 1 manager 1 value\nsettled 1 exec_done\nlaunch 2 try 1\nlaunch 3 try 1\nstart 2 try 1 manager 1\nended 2 try 1 manager 1 value\nstart 3 try 1 manager 1\nended 3 try 1 manager 1 value\nsettled 2 exec_done\nsettled 3 exec_done\nlaunch 4 try 1\nstart 4 try 1 manager 1\nended 4 try 1 manager 1 value\nsettled 4 exec_done\nend\n";

#[test]
fn a_run_prints_its_report(rt: HostRuntime) -> Result<(), Fail> {
    for (script, out) in [
        (SUM, SUM_OUT),
        (DIAMOND, DIAMOND_OUT),
        (b"main { }", b"main ended\nlog 1\nend\n"),
        (b"main { print 1; }", b"print 1\nmain ended\nlog 1\nend\n"),
    ] {
        let answer = call(rt.alloc(), &["run", "s"], script, 1000)?;
        assert_eq!(rt; answer.status, 0, "{script:?}");
        assert_eq!(rt; answer.out.bytes(), out, "{script:?}");
        assert_eq!(rt; answer.err.bytes(), b"".as_slice(), "{script:?}");
    }
    Ok(())
}

#[test]
fn words_are_read_or_refused(rt: HostRuntime) -> Result<(), Fail> {
    for (words, status, err) in [
        (["run", "s"].as_slice(), 0, b"".as_slice()),
        (["run", "t"].as_slice(), 6, b"parsl: read: t\n"),
        (["run", "-"].as_slice(), 6, b"parsl: read: -\n"),
        (["seq", "s"].as_slice(), 0, b""),
        (["seq", "t"].as_slice(), 6, b"parsl: read: t\n"),
        (["check", "t"].as_slice(), 6, b"parsl: read: t\n"),
        (["format", "t"].as_slice(), 6, b"parsl: read: t\n"),
        (["check", "-s"].as_slice(), 2, b"parsl: words\n"),
        (["run", "-s"].as_slice(), 2, b"parsl: words\n"),
        (["run", ""].as_slice(), 2, b"parsl: words\n"),
        (["runs", "s"].as_slice(), 2, b"parsl: words\n"),
        (["run", "s", "s"].as_slice(), 2, b"parsl: words\n"),
        (["run"].as_slice(), 2, b"parsl: words\n"),
        ([].as_slice(), 2, b"parsl: words\n"),
    ] {
        let answer = call(rt.alloc(), words, b"main { }", 1000)?;
        assert_eq!(rt; answer.status, status, "{words:?}");
        assert_eq!(rt; answer.err.bytes(), err, "{words:?}");
    }
    Ok(())
}

#[test]
fn a_sink_without_room_has_the_first_bytes(rt: HostRuntime) -> Result<(), Fail> {
    for (room, out) in [(0, b"".as_slice()), (10, b"print 13\nt")] {
        let answer = call(rt.alloc(), &["run", "s"], SUM, room)?;
        assert_eq!(rt; answer.status, 7);
        assert_eq!(rt; answer.out.bytes(), out);
        assert_eq!(rt; answer.err.bytes(), b"parsl: write\n".as_slice());
    }
    Ok(())
}

fn copied(alloc: Global) -> Result<Exception, AllocError> {
    Exception::AppError(Text::of(alloc, "no")?).copy(alloc)
}

#[test]
fn an_exception_is_copied_with_its_text(rt: HostRuntime) -> Result<(), Fail> {
    match copied(rt.alloc())? {
        Exception::AppError(text) => assert_eq!(rt; text.as_str(), "no"),
        _ => panic!(rt; "another exception"),
    }
    Ok(())
}
