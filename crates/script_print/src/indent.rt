//! The blanks before lines.

ghost use Rattle.std.specs.Prelude.{◌≡◌, ◌++◌, ◌+◌, IfOk, OnOk};
ghost use Rattle.script_tree.specs.Canonical as canonical;

use std::alloc::{AllocError, Global};
use std::marker::Model;
use text_writer::Writer;

/// The blanks before each line of a block. Contracts see how many blocks are round it.
#[derive(Drop)]
pub struct Indent {
    alloc: Global,
    depth: usize,
    blanks: Vec<u8>,
}

impl Model for Indent {
    ghost use Rattle.std.specs.Prelude.{◌≡◌, ℕ};
    ghost use Rattle.script_tree.specs.Canonical as canonical;

    ghost Value = { ℕ };

    ghost view = { λ i. i.depth };

    ghost invariant = { λ i. i.blanks.items ≡ canonical.indent i.depth };
}

impl Indent {
    /// No block is round it.
    pub fn none(alloc: Global) -> Indent
        ensures { result ≡ 0 }
    {
        Indent {
            alloc,
            depth: 0,
            blanks: Vec::new(alloc),
        }
    }

    /// One block more is round it.
    pub fn deeper(&self) -> Result<Indent, AllocError>
        ensures { IfOk result (λ i. i ≡ self.now + 1) }
    {
        let mut blanks = Vec::new(self.alloc);
        blanks.extend_from_slice(b"  ")?;
        blanks.extend_from_slice(self.blanks.as_slice())?;
        Ok(Indent {
            alloc: self.alloc,
            depth: self.depth + 1,
            blanks,
        })
    }

    /// Adds the blanks.
    pub fn write(&self, writer: &mut Writer) -> Result<(), AllocError>
        ensures { OnOk result (writer.new ≡ writer.old ++ canonical.indent self.now) }
    {
        writer.add(self.blanks.as_slice())
    }
}
