//! The blocks that are open.

ghost use Rattle.std.specs.Prelude.{◌≡◌, [], ◌∷◌, drop, OnOk};
ghost use Rattle.app_check.specs.Seeing.{innermost};

use std::alloc::{AllocError, Global};
use std::marker::Model;

/// For each open block how many names were visible where it began. Contracts see the innermost first.
#[derive(Drop)]
pub struct Outer {
    counts: Vec<usize>,
}

impl Model for Outer {
    ghost use Rattle.std.specs.Prelude.{List, ℕ, reverse};

    ghost Value = { List ℕ };

    ghost view = { λ o. reverse o.counts.items };
}

impl Outer {
    /// No block is open.
    pub fn new(alloc: Global) -> Outer
        ensures { result ≡ [] }
    {
        Outer {
            counts: Vec::new(alloc),
        }
    }

    /// A block begins.
    pub fn push(&mut self, count: usize) -> Result<(), AllocError>
        ensures { OnOk result (self.new ≡ count ∷ self.old) }
    {
        self.counts.push(count)?;
        Ok(())
    }

    /// The innermost block ends. The count is 0 where none is open.
    pub fn pop(&mut self) -> usize
        ensures count { result ≡ innermost self.old }
        ensures rest { self.new ≡ drop 1 self.old }
    {
        match self.counts.pop() {
            None => 0,
            Some(count) => count,
        }
    }

    /// No block is open.
    pub fn clear(&mut self)
        ensures { self.new ≡ [] }
    {
        self.counts.clear();
    }
}
