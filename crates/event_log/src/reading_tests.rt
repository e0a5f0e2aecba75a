//! What is read as a log, and the first line that is no entry.

use crate::{LogFault, print_log, read_log};
use std::alloc::Global;
use std::test::Fail;

const EVERY_KIND: &str = "submit 1.12 add
join 1
memo 2
launch 1 try 1
dispatch 1 try 1 manager 2
start 1 try 1 manager 2
ended 1 try 1 manager 2 value
ended 1 try 2 manager 2 DependencyError
held 1 try 1 manager 2
losttry 1 try 1 manager 2
stored 1
settled 1 exec_done
block 1 started
block 2 failed
block 1 ended
register 1 block 1 slots 4
refused 2 \"a \\\"b\\\" \\\\ c\\nd\"
tick 18446744073709551615
tick 0
beat 1
silent 1
lost 1
drain 1
drained 1
hold 4294967295
scale keep
scale out 0
scale in 3
checkpoint 17
end
";

#[test]
fn a_log_of_every_kind_is_read_and_printed(rt: HostRuntime) -> Result<(), Fail> {
    let alloc = rt.alloc();
    let entries = read_log(alloc, EVERY_KIND.as_bytes())
        .ok()
        .ok_or("it is a log")?;
    assert_eq!(rt; entries.len(), 30);
    let text = String::from_utf8(print_log(alloc, &entries)?)?;
    assert_eq!(rt; text.as_str(), EVERY_KIND);
    Ok(())
}

// The number of the first bad line, 0 where there is none.
fn bad_line(alloc: Global, text: &str) -> u64 {
    match read_log(alloc, text.as_bytes()) {
        Err(LogFault::BadEntry { line }) => line,
        _ => 0,
    }
}

#[test]
fn first_bad_lines(rt: HostRuntime) {
    for (text, line) in [
        ("", 0),
        ("end\n", 0),
        ("tick 05\n", 1),
        ("tick 0\ntick 1", 2),
        ("tick 0\n\n", 2),
        ("tick  0\n", 1),
        (" tick 0\n", 1),
        ("tick 0 \n", 1),
        ("tick +1\n", 1),
        ("tick 18446744073709551616\n", 1),
        ("beat 4294967296\n", 1),
        ("beat 1 2\n", 1),
        ("end 1\n", 1),
        ("join 1.\n", 1),
        ("join .1\n", 1),
        ("join 0\n", 0),
        ("join 1.02\n", 1),
        ("join\n", 1),
        ("submit 1 let\n", 1),
        ("submit 1 9a\n", 1),
        ("launch 1 try\n", 1),
        ("launch 1 try01\n", 1),
        ("settled 1 done\n", 1),
        ("block 1 gone\n", 1),
        ("ended 1 try 1 manager 1 Value\n", 1),
        ("scale out\n", 1),
        ("scale keep 1\n", 1),
        ("refused 1 \"a\n\"\n", 1),
        ("refused 1 \"a\\t\"\n", 1),
        ("refused 1 a\n", 1),
        ("end\r\n", 1),
    ] {
        assert_eq!(rt; bad_line(rt.alloc(), text), line, "{text:?}");
    }
}
