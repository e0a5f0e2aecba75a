//! Sinks, shelves and values at work.

use crate::{
    HostShelf, HostSink, Items, MemShelf, MemSink, Path, Shelf, ShelfFault, Text, Value, Word,
    write_whole,
};
use std::alloc::{AllocError, Global};
use std::fs;
use std::io::Cursor;
use std::test::Fail;

const OUTPUT: &[u8] = b"print 13\ntask 1 add value 3\n";

// What a sink with so much room holds after a write, and a point behind it where the write failed.
fn held(alloc: Global, room: u64) -> Result<Vec<u8>, AllocError> {
    let mut sink = MemSink::with_room(alloc, room)?;
    let failed = write_whole(&mut sink, OUTPUT).is_err();
    let mut held = sink.bytes().to_vec(alloc)?;
    if failed {
        held.push(b'.')?;
    }
    Ok(held)
}

#[test]
fn a_sink_in_memory_holds_what_it_has_room_for(rt: HostRuntime) -> Result<(), Fail> {
    for (room, shown) in [
        (0, b".".as_slice()),
        (10, b"print 13\nt."),
        (28, OUTPUT),
        (1000, OUTPUT),
    ] {
        assert_eq!(rt; held(rt.alloc(), room)?.as_slice(), shown);
    }
    Ok(())
}

// What a vector holds after a write, and a point behind it where the write failed.
fn passed_on(alloc: Global) -> Result<Vec<u8>, AllocError> {
    let mut bytes = Vec::new(alloc);
    if write_whole(&mut HostSink::new(&mut bytes), OUTPUT).is_err() {
        bytes.push(b'.')?;
    }
    Ok(bytes)
}

#[test]
fn a_sink_over_a_writer_passes_bytes_on(rt: HostRuntime) -> Result<(), Fail> {
    assert_eq!(rt; passed_on(rt.alloc())?.as_slice(), OUTPUT);
    Ok(())
}

// Whether a writer with room for ten bytes fails.
fn fails_with_room_for_ten(output: &[u8]) -> bool {
    let mut full = HostSink::new(Cursor::new([0u8; 10]));
    write_whole(&mut full, output).is_err()
}

#[test]
fn a_writer_that_takes_no_byte_fails(rt: HostRuntime) -> Result<(), Fail> {
    for (output, fails) in [
        (b"".as_slice(), false),
        (b"main ended", false),
        (OUTPUT, true),
    ] {
        assert_eq!(rt; fails_with_room_for_ten(output), fails);
    }
    Ok(())
}

// The bytes that a read gives, or the word of its fault.
fn read_shown<S: Shelf>(
    shelf: &mut S,
    alloc: Global,
    name: &str,
    limit: u64,
) -> Result<Vec<u8>, AllocError> {
    match shelf.read(name, limit) {
        Ok(bytes) => Ok(bytes),
        Err(ShelfFault::Failed) => b"failed".to_vec(alloc),
        Err(ShelfFault::NoMemory) => Err(AllocError),
    }
}

// The second call of this shelf fails.
fn filled(alloc: Global) -> Result<MemShelf, AllocError> {
    let mut shelf = MemShelf::new(alloc);
    shelf.put("notes", b"one")?;
    shelf.put("script", b"main { }")?;
    shelf.put("notes", b"two\n")?;
    shelf.fail(2)?;
    Ok(shelf)
}

#[test]
fn a_shelf_in_memory_fails_the_calls_that_it_was_given(rt: HostRuntime) -> Result<(), Fail> {
    let mut shelf = filled(rt.alloc())?;
    for (name, limit, shown) in [
        ("script", 100, b"main { }".as_slice()),
        ("script", 100, b"failed"),
        ("script", 4, b"main"),
        ("other", 4, b"failed"),
    ] {
        assert_eq!(rt;
            read_shown(&mut shelf, rt.alloc(), name, limit)?.as_slice(),
            shown
        );
    }
    Ok(())
}

#[test]
fn a_shelf_in_memory_tells_what_it_holds(rt: HostRuntime) -> Result<(), Fail> {
    let shelf = filled(rt.alloc())?;
    for (name, held, safe) in [
        ("notes", Some(b"two\n".as_slice()), Some(4)),
        ("script", Some(b"main { }"), Some(8)),
        ("other", None, None),
    ] {
        assert_eq!(rt; shelf.held(name), held);
        assert_eq!(rt; shelf.safe(name), safe);
    }
    Ok(())
}

#[test]
fn a_shelf_over_files_reads_the_first_bytes(rt: HostRuntime) -> Result<(), Fail> {
    fs::write(&rt, "my notes", "one\ntwo\n")?;
    let mut shelf = HostShelf::new(rt.alloc(), &rt);
    for (name, limit, shown) in [
        ("my notes", 100, b"one\ntwo\n".as_slice()),
        ("my notes", 5, b"one\nt"),
        ("my other notes", 5, b"failed"),
    ] {
        assert_eq!(rt;
            read_shown(&mut shelf, rt.alloc(), name, limit)?.as_slice(),
            shown
        );
    }
    Ok(())
}

// So many blanks, and a point behind them.
fn blanks(alloc: Global, count: usize) -> Result<Vec<u8>, AllocError> {
    let mut bytes = Vec::from_elem(alloc, b' ', count)?;
    bytes.push(b'.')?;
    Ok(bytes)
}

// How many bytes a read gives, and whether the last is a point.
fn read_length<S: Shelf>(shelf: &mut S, name: &str, limit: u64) -> (usize, bool) {
    match shelf.read(name, limit) {
        Ok(bytes) => (bytes.len(), bytes.last() == Some(&b'.')),
        Err(_) => (0, false),
    }
}

#[test]
fn a_shelf_over_files_reads_no_byte_past_the_limit(rt: HostRuntime) -> Result<(), Fail> {
    let mut shelf = HostShelf::new(rt.alloc(), &rt);
    for (count, limit, length, ended) in [
        (3, 5, 4, true),
        (4, 5, 5, true),
        (5, 5, 5, false),
        (1_048_576, 1_048_577, 1_048_577, true),
        (1_048_577, 1_048_577, 1_048_577, false),
    ] {
        fs::write(&rt, "my script", blanks(rt.alloc(), count)?)?;
        assert_eq!(rt;
            read_length(&mut shelf, "my script", limit),
            (length, ended)
        );
    }
    Ok(())
}

fn ab(alloc: Global) -> Result<Text, AllocError> {
    let mut text = Text::new(alloc);
    text.push(b'a')?;
    text.push(b'b')?;
    Ok(text)
}

fn written(alloc: Global) -> Result<Value, AllocError> {
    let mut content = ab(alloc)?;
    content.append(&ab(alloc)?)?;
    Ok(Value::File {
        name: ab(alloc)?,
        content,
    })
}

// [file("ab", "abab"), nothing]
fn inner(alloc: Global) -> Result<Items, AllocError> {
    let mut items = Items::new(alloc);
    items.push(written(alloc)?)?;
    items.push(Value::Nothing)?;
    Ok(items)
}

// [-1, "ab", [file("ab", "abab"), nothing]]
fn nested(alloc: Global) -> Result<Items, AllocError> {
    let mut items = Items::new(alloc);
    items.push(Value::Int(-1))?;
    items.push(Value::Text(ab(alloc)?))?;
    items.push(Value::List(inner(alloc)?))?;
    Ok(items)
}

fn with_output(alloc: Global) -> Result<Items, AllocError> {
    let mut items = nested(alloc)?;
    items.push(Value::Output {
        path: Path::new(alloc),
        index: 0,
    })?;
    Ok(items)
}

#[derive(Clone, Copy)]
enum Sample {
    Empty,
    Nested,
    Copied,
    WithOutput,
}

fn value_of(alloc: Global, sample: Sample) -> Result<Value, AllocError> {
    match sample {
        Sample::Empty => Ok(Value::List(Items::new(alloc))),
        Sample::Nested => Ok(Value::List(nested(alloc)?)),
        Sample::Copied => Value::List(nested(alloc)?).copy(alloc),
        Sample::WithOutput => Ok(Value::List(with_output(alloc)?)),
    }
}

// Its units, its levels, and whether it is plain.
fn measures(alloc: Global, sample: Sample) -> Result<(u64, u32, bool), AllocError> {
    let value = value_of(alloc, sample)?;
    Ok((value.size(), value.levels(), value.is_plain()))
}

#[test]
fn values_are_measured(rt: HostRuntime) -> Result<(), Fail> {
    for (sample, units, levels, plain) in [
        (Sample::Empty, 1, 1, true),
        (Sample::Nested, 14, 3, true),
        (Sample::Copied, 14, 3, true),
        (Sample::WithOutput, 15, 3, false),
    ] {
        assert_eq!(rt; measures(rt.alloc(), sample)?, (units, levels, plain));
    }
    Ok(())
}

fn grandchild(alloc: Global) -> Result<Path, AllocError> {
    Path::new(alloc).child(alloc, 3)?.child(alloc, 12)
}

#[test]
fn the_numbers_of_a_path(rt: HostRuntime) -> Result<(), Fail> {
    let path = grandchild(rt.alloc())?;
    for (place, number) in [(0, Some(3)), (1, Some(12)), (2, None)] {
        assert_eq!(rt; path.get(place), number);
    }
    Ok(())
}

#[test]
fn a_word_keeps_its_text(rt: HostRuntime) -> Result<(), Fail> {
    assert_eq!(rt; Word::of(rt.alloc(), "größe")?.as_str(), "größe");
    Ok(())
}
