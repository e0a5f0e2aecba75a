//! Calls of the top call with words, one script and sinks in memory.

use flow_base::{MemShelf, MemSink, Word, Words};
use parsl_engine::{Ledger, parsl_top};
use std::alloc::{AllocError, Global};

fn words_of(alloc: Global, words: &[&str]) -> Result<Words, AllocError> {
    let mut all = Words::new(alloc);
    for word in words {
        all.push(Word::of(alloc, word)?)?;
    }
    Ok(all)
}

/// What a call answers: its status, what it printed and what it wrote to err.
#[derive(Drop)]
pub struct Answer {
    pub status: u8,
    pub out: MemSink,
    pub err: MemSink,
}

/// A call where the shelf has the script under the name `s`, and out has room for so many bytes.
pub fn call(alloc: Global, words: &[&str], script: &[u8], room: u64) -> Result<Answer, AllocError> {
    watched(alloc, words, script, room, &mut Vec::new(alloc))
}

/// The same, watched by these monitors.
pub fn watched(
    alloc: Global,
    words: &[&str],
    script: &[u8],
    room: u64,
    monitors: &mut Vec<Ledger>,
) -> Result<Answer, AllocError> {
    let words = words_of(alloc, words)?;
    let mut shelf = MemShelf::new(alloc);
    shelf.put("s", script)?;
    let mut out = MemSink::with_room(alloc, room)?;
    let mut err = MemSink::with_room(alloc, 100)?;
    let status = parsl_top(alloc, &words, &mut shelf, &mut out, &mut err, monitors);
    Ok(Answer { status, out, err })
}
