//! A shelf of named files that only grow.

ghost use Rattle.std.specs.Prelude.{Bool};
ghost use Rattle.flow_base.specs.Shelf.{ShelfState, Reads};

/// What a call of a shelf does.
#[derive(Clone, Copy, Debug, PartialEq, Eq)]
pub enum CallKind {
    Read,
}

/// Why a call of a shelf gives nothing.
#[derive(Clone, Copy, Debug, PartialEq, Eq)]
pub enum ShelfFault {
    /// The name isn't there, or the files failed. The count of faults rose.
    Failed,
    NoMemory,
}

/// Files by name. A stop leaves, of each, the first bytes that are held, and no fewer than the safe ones.
pub trait Shelf {
    /// Whether it tells what it holds and which calls it had.
    ghost tells: { Bool };

    /// What stands under each name, the calls so far, and how often it failed.
    ghost state: { Self → ShelfState };

    /// The first `limit` bytes of a file, or all where there are fewer.
    fn read(&mut self, name: &str, limit: u64) -> Result<Vec<u8>, ShelfFault>
        ensures { Reads tells name.now limit (state self.old) result (state self.new) };
}
