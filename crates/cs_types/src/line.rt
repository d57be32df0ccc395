ghost use Rattle.std.specs.Prelude.{◌≡◌, ◌+◌, ◌∷◌, ◌++◌, ◌<◌, ◌≤◌, ◌↔◌, ◌^◌, [], ℕ, length, take, decimal, IfOk, OnOk, OnErr, IsTrue};

use crate::Bytes;
use cs_base::{Items, Memory};
use itoa::Buffer;
use std::alloc::Global;
use std::marker::Model;

/// Bytes of output, in the making. Each call adds its bytes whole, or changes nothing where memory is missing. It
/// keeps its allocator.
#[derive(Debug, Drop)]
pub struct Line {
    bytes: Vec<u8>,
}

impl Model for Line {
    ghost use Rattle.std.specs.Prelude.{List, ℕ};

    ghost Value = { List ℕ };

    ghost view = { λ line. line.bytes.items };
}

impl Line {
    /// The empty line. It takes no memory.
    pub fn new(alloc: Global) -> Line
        ensures { result ≡ [] }
    {
        Line {
            bytes: Vec::new(alloc),
        }
    }

    /// The line of these bytes. It takes no memory.
    pub fn from_vec(bytes: Vec<u8>) -> Line
        ensures { result ≡ bytes.items }
    {
        Line { bytes }
    }

    /// The bytes as a vector. It takes no memory.
    pub fn into_vec(self) -> Vec<u8>
        ensures { result.items ≡ self }
    {
        let Line { bytes } = self;
        bytes
    }

    /// The bytes as a list. It takes no memory.
    pub fn into_bytes(self) -> Bytes
        ensures { result ≡ self }
    {
        Items::from_vec(self.into_vec())
    }

    /// The bytes as a slice.
    pub fn as_slice(&self) -> &[u8]
        ensures { result.now ≡ self.now }
    {
        self.bytes.as_slice()
    }

    /// The number of bytes.
    pub fn len(&self) -> usize
        ensures { result ≡ length self.now }
    {
        self.bytes.len()
    }

    /// Whether there is no byte.
    pub fn is_empty(&self) -> bool
        ensures { IsTrue result ↔ (self.now ≡ []) }
    {
        self.bytes.is_empty()
    }

    /// Takes all bytes away, and keeps their room.
    pub fn clear(&mut self)
        ensures { self.new ≡ [] }
    {
        self.bytes.clear();
    }

    /// Keeps the first bytes alone, so that a printer of several parts can take back what it added.
    pub fn truncate(&mut self, len: usize)
        ensures { self.new ≡ take len self.old }
    {
        self.bytes.truncate(len);
    }

    /// Adds a byte. After `Memory` nothing has changed.
    pub fn push(&mut self, byte: u8) -> Result<(), Memory>
        ensures ok { OnOk result (self.new ≡ self.old ++ byte ∷ []) }
        ensures err { OnErr result (self.new ≡ self.old) }
    {
        self.bytes.push(byte)?;
        Ok(())
    }

    /// Adds bytes. After `Memory` nothing has changed.
    pub fn append(&mut self, bytes: &[u8]) -> Result<(), Memory>
        ensures ok { OnOk result (self.new ≡ self.old ++ bytes.now) }
        ensures err { OnErr result (self.new ≡ self.old) }
    {
        self.bytes.extend_from_slice(bytes)?;
        Ok(())
    }

    /// Adds five pieces. After `Memory` nothing has changed.
    pub(crate) fn append_pieces(
        &mut self,
        a: &[u8],
        b: &[u8],
        c: &[u8],
        d: &[u8],
        e: &[u8],
    ) -> Result<(), Memory>
        requires { length a.now + length b.now + length c.now + length d.now + length e.now < 2 ^ 32 }
        ensures ok { OnOk result (self.new ≡ self.old ++ a.now ++ b.now ++ c.now ++ d.now ++ e.now) }
        ensures err { OnErr result (self.new ≡ self.old) }
    {
        let bytes = &mut self.bytes;
        bytes.reserve(a.len() + b.len() + c.len() + d.len() + e.len())?;
        bytes.extend_from_slice(a)?;
        bytes.extend_from_slice(b)?;
        bytes.extend_from_slice(c)?;
        bytes.extend_from_slice(d)?;
        bytes.extend_from_slice(e)?;
        Ok(())
    }

    /// Adds a number in decimal digits. After `Memory` nothing has changed.
    pub fn append_number(&mut self, number: u64) -> Result<(), Memory>
        ensures ok { OnOk result (self.new ≡ self.old ++ decimal number) }
        ensures err { OnErr result (self.new ≡ self.old) }
    {
        let mut buffer = Buffer::new();
        self.append(buffer.format(number).as_bytes())
    }

    /// A line equal to this one.
    pub fn copy(&self) -> Result<Line, Memory>
        ensures { IfOk result (λ copied. copied ≡ self.now) }
    {
        Ok(Line {
            bytes: self.bytes.clone()?,
        })
    }
}
