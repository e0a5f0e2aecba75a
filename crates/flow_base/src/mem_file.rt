//! A file and a call of a shelf in memory.

ghost use Rattle.std.specs.Prelude.{◌≡◌, ◌<◌, IfOk, OnOk, OnErr, IfSome, MatchOption, None, option_map, bytes_eq, take, length};
ghost use Rattle.std.specs.Option.{option_copied};
ghost use Rattle.flow_base.specs.MemShelf.{NamedFile, First, stand_of, stands_of};
ghost use Rattle.flow_base.specs.Shelf.{ShelfCall, Same, Stand, put};

use crate::shelf::CallKind;
use std::alloc::{AllocError, Global};
use std::marker::Model;

/// A named file.
#[derive(Drop)]
pub struct MemFile {
    name: String,
    held: Vec<u8>,
    safe: u64,
}

impl Model for MemFile {
    ghost use Rattle.std.specs.Prelude.{string_bytes};
    ghost use Rattle.flow_base.specs.MemShelf.{NamedFile};

    ghost Value = { NamedFile };

    ghost view = { λ f. record { name = string_bytes f.name; held = f.held.items; safe = f.safe } };
}

impl MemFile {
    /// A file that holds these bytes, all of them safe.
    pub fn of(alloc: Global, name: &str, bytes: &[u8]) -> Result<MemFile, AllocError>
        ensures { IfOk result (λ file. file ≡ record { name = name.now; held = bytes.now; safe = length bytes.now }) }
    {
        Ok(MemFile {
            name: String::from_str(alloc, name)?,
            held: bytes.to_vec(alloc)?,
            safe: bytes.len() as u64,
        })
    }

    /// Whether this is its name.
    pub fn has_name(&self, name: &str) -> bool
        ensures { result ≡ bytes_eq self.now.name name.now }
    {
        self.name.as_str() == name
    }

    /// The bytes that it holds.
    pub fn held(&self) -> &[u8]
        ensures { result.now ≡ self.now.held }
    {
        &self.held
    }

    /// How many of its bytes are safe.
    pub fn safe(&self) -> u64
        ensures { result ≡ self.now.safe }
    {
        self.safe
    }

    /// Its first bytes, at most `limit` of them.
    pub fn first(&self, alloc: Global, limit: u64) -> Result<Vec<u8>, AllocError>
        ensures { IfOk result (λ bytes. bytes.items ≡ take limit self.now.held) }
    {
        let count = self.held.len().min(limit as usize);
        self.held[..count].to_vec(alloc)
    }

    /// Gives it these bytes, all of them safe.
    fn replace(&mut self, bytes: Vec<u8>)
        ensures { self.new ≡ record { name = self.old.name; held = bytes.items; safe = length bytes.items } }
    {
        self.safe = bytes.len() as u64;
        self.held = bytes;
    }
}

/// The place of the first file of that name.
fn place_of(files: &[MemFile], name: &str) -> Option<usize>
    ensures at { MatchOption result (stands_of files.now name.now ≡ None) (λ place. First files.now name.now place) }
    ensures below { IfSome result (λ place. place < length files.now) }
{
    for (place, file) in files.iter().enumerate() {
        if file.has_name(name) {
            return Some(place);
        }
    }
    None
}

fn file_at<'a>(files: &'a [MemFile], place: usize, name: &str) -> &'a MemFile
    requires found { First files.now name.now place }
    requires below { place < length files.now }
    ensures { stands_of files.now name.now ≡ Some (stand_of result.now) }
{
    &files[place]
}

/// The first file of that name.
pub fn file_named<'a>(files: &'a [MemFile], name: &str) -> Option<&'a MemFile>
    ensures { option_map stand_of (option_copied result) ≡ stands_of files.now name.now }
{
    match place_of(files, name) {
        Some(place) => Some(file_at(files, place, name)),
        None => None,
    }
}

fn replace_at(files: &mut [MemFile], place: usize, name: &str, bytes: Vec<u8>)
    requires found { First files.old name.now place }
    requires below { place < length files.old }
    ensures { Same (put (stands_of files.old) name.now (record { held = bytes.items; safe = length bytes.items })) (stands_of files.new) }
{
    let file = &mut files[place];
    file.replace(bytes);
}

fn add_file(files: &mut Vec<MemFile>, name: &str, file: MemFile) -> Result<(), AllocError>
    requires new { stands_of files.old.items name.now ≡ None }
    requires named { file.name ≡ name.now }
    ensures ok { OnOk result (Same (put (stands_of files.old.items) name.now (stand_of file)) (stands_of files.new.items)) }
    ensures err { OnErr result (files.new.items ≡ files.old.items) }
{
    files.push(file)?;
    Ok(())
}

/// Gives a name these bytes, all of them safe, in place of what it had.
pub fn put_file(
    alloc: Global,
    files: &mut Vec<MemFile>,
    name: &str,
    bytes: &[u8],
) -> Result<(), AllocError>
    ensures ok { OnOk result (Same (put (stands_of files.old.items) name.now (record { held = bytes.now; safe = length bytes.now })) (stands_of files.new.items)) }
    ensures err { OnErr result (files.new.items ≡ files.old.items) }
{
    match place_of(files, name) {
        Some(place) => {
            let copy = bytes.to_vec(alloc)?;
            replace_at(files, place, name, copy);
            Ok(())
        }
        None => {
            let file = MemFile::of(alloc, name, bytes)?;
            add_file(files, name, file)
        }
    }
}

/// A call that was Ok or failed.
#[derive(Drop)]
pub struct NotedCall {
    kind: CallKind,
    name: String,
    failed: bool,
}

impl Model for NotedCall {
    ghost use Rattle.std.specs.Prelude.{string_bytes};
    ghost use Rattle.flow_base.specs.Shelf.{ShelfCall};

    ghost Value = { ShelfCall };

    ghost view = { λ c. record { kind = c.kind; name = string_bytes c.name; failed = c.failed } };
}

impl NotedCall {
    /// A call for a name.
    pub fn of(
        alloc: Global,
        kind: CallKind,
        name: &str,
        failed: bool,
    ) -> Result<NotedCall, AllocError>
        ensures { IfOk result (λ call. call ≡ record { kind = kind; name = name.now; failed = failed }) }
    {
        Ok(NotedCall {
            kind,
            name: String::from_str(alloc, name)?,
            failed,
        })
    }
}
