//! The words of a command line.

ghost use Rattle.std.specs.Prelude.{◌≡◌, IfOk};

use sqlite_items::Items as ListOf;
use std::alloc::{AllocError, Global};
use std::marker::Model;

/// One word. Contracts see its UTF-8 bytes.
#[derive(Drop)]
pub struct Word {
    text: String,
}

/// The words of a command line, without the program's name.
pub type Words = ListOf<Word>;

impl Model for Word {
    ghost use Rattle.std.specs.Prelude.{List, ℕ, string_bytes};

    ghost Value = { List ℕ };

    ghost view = { λ w. string_bytes w.text };
}

impl Word {
    /// A word of this text.
    pub fn of(alloc: Global, text: &str) -> Result<Word, AllocError>
        ensures { IfOk result (λ word. word ≡ text.now) }
    {
        Ok(Word {
            text: String::from_str(alloc, text)?,
        })
    }

    /// Its text.
    pub fn as_str(&self) -> &str
        ensures { result.now ≡ self.now }
    {
        self.text.as_str()
    }
}
