//! Texts.

ghost use Rattle.std.specs.Prelude.{◌≡◌, ◌↔◌, ◌++◌, ◌∷◌, [], length, bytes_eq, slice_get, All, IsTrue, IfOk, OnOk, OnErr};
ghost use Rattle.flow_base.specs.TextBytes.{IsTextByte};

use sqlite_items::Items as ListOf;
use std::alloc::{AllocError, Global};
use std::marker::Model;

/// Bytes, each a newline or printable ASCII. Contracts see the list of its bytes.
#[derive(Drop)]
pub struct Text {
    text: String,
}

/// A list of names.
pub type Names = ListOf<Text>;

/// Equal names, in the same order.
pub fn copy_names(alloc: Global, names: &[Text]) -> Result<Names, AllocError>
    ensures { IfOk result (λ copies. copies ≡ names.now) }
{
    let mut copies = ListOf::new(alloc);
    for name in names {
        copies.push(name.copy(alloc)?)?;
    }
    Ok(copies)
}

/// Whether both are the same names.
pub fn same_names(names: &[Text], others: &[Text]) -> bool
    ensures { IsTrue result ↔ (names.now ≡ others.now) }
{
    if names.len() != others.len() {
        return false;
    }
    for i in 0..names.len() {
        if !names[i].same(&others[i]) {
            return false;
        }
    }
    true
}

impl Model for Text {
    ghost use Rattle.std.specs.Prelude.{List, ℕ, All, string_bytes};
    ghost use Rattle.flow_base.specs.TextBytes.{IsTextByte};

    ghost Value = { List ℕ };

    ghost view = { λ t. string_bytes t.text };

    ghost invariant = { λ t. All IsTextByte (string_bytes t.text) };
}

impl Text {
    /// The empty text.
    pub fn new(alloc: Global) -> Text
        ensures { result ≡ [] }
    {
        Text {
            text: String::new(alloc),
        }
    }

    /// A text of these bytes.
    pub fn of(alloc: Global, text: &str) -> Result<Text, AllocError>
        requires { All IsTextByte text.now }
        ensures { IfOk result (λ t. t ≡ text.now) }
    {
        Ok(Text {
            text: String::from_str(alloc, text)?,
        })
    }

    /// An equal text.
    pub fn copy(&self, alloc: Global) -> Result<Text, AllocError>
        ensures { IfOk result (λ t. t ≡ self.now) }
    {
        Ok(Text {
            text: String::from_str(alloc, self.text.as_str())?,
        })
    }

    /// Whether both have the same bytes.
    pub fn same(&self, other: &Text) -> bool
        ensures { result ≡ bytes_eq self.now other.now }
    {
        self.text.as_str() == other.text.as_str()
    }

    /// Adds the other's bytes at the end.
    pub fn append(&mut self, other: &Text) -> Result<(), AllocError>
        ensures ok { OnOk result (self.new ≡ self.old ++ other.now) }
        ensures err { OnErr result (self.new ≡ self.old) }
    {
        self.text.push_str(other.text.as_str())
    }

    /// Adds a byte at the end.
    pub fn push(&mut self, byte: u8) -> Result<(), AllocError>
        requires { IsTextByte byte }
        ensures ok { OnOk result (self.new ≡ self.old ++ byte ∷ []) }
        ensures err { OnErr result (self.new ≡ self.old) }
    {
        self.text.push(char::from(byte))
    }

    /// The byte at a place, counted from 0.
    pub fn get(&self, place: usize) -> Option<u8>
        ensures { result ≡ slice_get self.now place }
    {
        self.text.as_bytes().get(place).copied()
    }

    /// How many bytes it has.
    pub fn len(&self) -> usize
        ensures { result ≡ length self.now }
    {
        self.text.len()
    }

    /// Whether it has none.
    pub fn is_empty(&self) -> bool
        ensures { result ≡ bytes_eq self.now [] }
    {
        self.text.is_empty()
    }

    /// Its bytes.
    pub fn as_slice(&self) -> &[u8]
        ensures value { result.now ≡ self.now }
        ensures text { All IsTextByte self.now }
    {
        self.text.as_bytes()
    }

    /// Its bytes as a string.
    pub fn as_str(&self) -> &str
        ensures { result.now ≡ self.now }
    {
        self.text.as_str()
    }

    /// The text that has these bytes.
    pub fn from_bytes(bytes: Vec<u8>) -> Text
        requires { All IsTextByte bytes.items }
        ensures { result ≡ bytes.items }
    {
        Text {
            text: String::from_utf8(bytes).unwrap(),
        }
    }
}
