//! Text that grows.

ghost use Rattle.std.specs.Prelude.{◌≡◌, ◌++◌, ◌∷◌, [], OnOk, map};
ghost use Rattle.std.specs.Fmt.{decimal, signed_decimal};
ghost use Rattle.text_writer.specs.Written.{quoted, path_text, behind, escaped};

use flow_base::{Path, Text};
use itoa::Buffer;
use std::alloc::{AllocError, Global};
use std::marker::Model;

/// Bytes that grow at their end. Contracts see their list.
#[derive(Drop)]
pub struct Writer {
    bytes: Vec<u8>,
}

impl Model for Writer {
    ghost use Rattle.std.specs.Prelude.{List, ℕ};

    ghost Value = { List ℕ };

    ghost view = { λ w. w.bytes.items };
}

impl Writer {
    /// No bytes yet.
    pub fn new(alloc: Global) -> Writer
        ensures { result ≡ [] }
    {
        Writer {
            bytes: Vec::new(alloc),
        }
    }

    /// All that was written.
    pub fn into_bytes(self) -> Vec<u8>
        ensures { result.items ≡ self }
    {
        self.bytes
    }

    /// Adds these bytes.
    pub fn add(&mut self, bytes: &[u8]) -> Result<(), AllocError>
        ensures { OnOk result (self.new ≡ self.old ++ bytes.now) }
    {
        self.bytes.extend_from_slice(bytes)
    }

    /// Adds a number in decimal.
    pub fn number(&mut self, n: u32) -> Result<(), AllocError>
        ensures { OnOk result (self.new ≡ self.old ++ decimal n) }
    {
        self.add(Buffer::new().format(n).as_bytes())
    }

    /// Adds a number of up to 20 digits in decimal.
    pub fn long(&mut self, n: u64) -> Result<(), AllocError>
        ensures { OnOk result (self.new ≡ self.old ++ decimal n) }
    {
        self.add(Buffer::new().format(n).as_bytes())
    }

    /// Adds a number in decimal, with `-` before it where it is below 0.
    pub fn signed(&mut self, n: i64) -> Result<(), AllocError>
        ensures { OnOk result (self.new ≡ self.old ++ signed_decimal n) }
    {
        self.add(Buffer::new().format(n).as_bytes())
    }

    fn escape(&mut self, byte: u8) -> Result<(), AllocError>
        ensures { OnOk result (self.new ≡ self.old ++ escaped byte) }
    {
        match byte {
            b'\n' => self.add(b"\\n"),
            b'"' => self.add(b"\\\""),
            b'\\' => self.add(b"\\\\"),
            _ => self.add(&[byte]),
        }
    }

    /// Adds a text as a script spells it.
    pub fn quote(&mut self, text: &Text) -> Result<(), AllocError>
        ensures { OnOk result (self.new ≡ self.old ++ quoted text.now) }
    {
        self.add(b"\"")?;
        for byte in text.as_slice() {
            self.escape(*byte)?;
        }
        self.add(b"\"")
    }

    /// Adds a path, as `1.2`.
    pub fn path(&mut self, path: &Path) -> Result<(), AllocError>
        ensures { OnOk result (self.new ≡ self.old ++ path_text path.now) }
    {
        match path.as_slice().split_first() {
            None => Ok(()),
            Some((first, rest)) => {
                self.number(*first)?;
                self.further_numbers(rest)
            }
        }
    }

    // Each behind a dot.
    fn further_numbers(&mut self, numbers: &[u32]) -> Result<(), AllocError>
        ensures { OnOk result (self.new ≡ self.old ++ behind (46 ∷ []) (map decimal numbers.now)) }
    {
        for number in numbers {
            self.add(b".")?;
            self.number(*number)?;
        }
        Ok(())
    }
}
