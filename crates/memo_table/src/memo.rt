//! The table of what calls gave.

ghost use Rattle.std.specs.Prelude.{◌≡◌, [], OnErr, OnOk};
ghost use Rattle.std.specs.Option.{option_copied};
ghost use Rattle.memo_table.specs.Table.{found, with_saved};

use crate::key::Key;
use crate::saved::Saved;
use indexmap::IndexMap;
use std::alloc::{AllocError, Global};
use std::marker::Model;

/// What calls of cached apps gave, by their keys, each key once. Contracts see the list in the order of storing.
#[derive(Drop)]
pub struct Memo {
    // Hashed by digests. Equal digests of two keys can't matter, since the whole keys are compared.
    entries: IndexMap<Key, Saved>,
}

impl Model for Memo {
    ghost use Rattle.std.specs.Coded.{codes};
    ghost use Rattle.flow_base.specs.contracts.value.Value as value;
    ghost use Rattle.memo_table.specs.Table.{MemoView};

    ghost Value = { MemoView };

    ghost coded = { Prim.hlevel (codes, value.the_row.coded) };

    ghost view = { λ m. m.entries.entries };
}

impl Memo {
    /// A memo in which nothing is stored.
    pub fn new(alloc: Global) -> Memo
        ensures { result ≡ [] }
    {
        Memo {
            entries: IndexMap::new(alloc),
        }
    }

    /// What was stored of this key, or none where the whole key isn't stored. It takes no memory.
    pub fn look(&self, key: &Key) -> Option<&Saved>
        ensures { option_copied result ≡ found self.now key.now }
    {
        self.entries.get(key)
    }

    /// Stores what a call of this key gave. A key that is there keeps what it has. At want of memory the memo stays as it
    /// was.
    pub fn store(&mut self, key: Key, saved: Saved) -> Result<(), AllocError>
        ensures ok { OnOk result (self.new ≡ with_saved self.old key saved) }
        ensures err { OnErr result (self.new ≡ self.old) }
    {
        if self.look(&key).is_some() {
            return Ok(());
        }
        self.entries.insert(key, saved)?;
        Ok(())
    }
}
