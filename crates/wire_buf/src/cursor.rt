//! Reading fields from the front of bytes.

ghost use Rattle.std.specs.Prelude.{◌≡◌, ◌==◌, ◌<◌, ◌≤◌, length, take, drop, is_some, if◌then◌else◌, MatchOption, SomeIff};
ghost use Rattle.byteorder.specs.Endian.{big_number};

use byteorder::{BigEndian, ByteOrder};
use std::marker::Model;

/// What is left to read of some bytes. Contracts see it as the list of the bytes left.
#[derive(Drop)]
pub struct Cursor<'a> {
    left: &'a [u8],
}

impl<'a> Model for Cursor<'a> {
    ghost use Rattle.std.specs.Prelude.{List, ℕ};

    ghost Value = { List ℕ };

    ghost view = { λ c. c.left.now };
}

impl<'a> Cursor<'a> {
    /// A cursor before all of the bytes.
    pub fn new(bytes: &'a [u8]) -> Cursor<'a>
        ensures { result ≡ bytes.now }
    {
        Cursor { left: bytes }
    }

    /// Whether no byte is left.
    pub fn is_empty(&self) -> bool
        ensures { result ≡ (length self.now == 0) }
    {
        self.left.is_empty()
    }

    /// The next byte. None, and the cursor unchanged, exactly where no byte is left.
    pub fn u8(&mut self) -> Option<u8>
        ensures value { SomeIff result (1 ≤ length self.old) (big_number 1 self.old) }
        ensures left { self.new ≡ (if is_some result then drop 1 self.old else self.old) }
    {
        let field = self.take(1)?;
        Some(field[0])
    }

    /// The next two bytes. None, and the cursor unchanged, exactly where fewer are left.
    pub fn u16(&mut self) -> Option<u16>
        ensures value { SomeIff result (2 ≤ length self.old) (big_number 2 self.old) }
        ensures left { self.new ≡ (if is_some result then drop 2 self.old else self.old) }
    {
        let field = self.take(2)?;
        Some(BigEndian::read_u16(field))
    }

    /// The next three bytes. None, and the cursor unchanged, exactly where fewer are left.
    pub fn u24(&mut self) -> Option<u32>
        ensures value { SomeIff result (3 ≤ length self.old) (big_number 3 self.old) }
        ensures left { self.new ≡ (if is_some result then drop 3 self.old else self.old) }
    {
        let field = self.take(3)?;
        Some(BigEndian::read_u24(field))
    }

    /// The next four bytes. None, and the cursor unchanged, exactly where fewer are left.
    pub fn u32(&mut self) -> Option<u32>
        ensures value { SomeIff result (4 ≤ length self.old) (big_number 4 self.old) }
        ensures left { self.new ≡ (if is_some result then drop 4 self.old else self.old) }
    {
        let field = self.take(4)?;
        Some(BigEndian::read_u32(field))
    }

    /// The next eight bytes. None, and the cursor unchanged, exactly where fewer are left.
    pub fn u64(&mut self) -> Option<u64>
        ensures value { SomeIff result (8 ≤ length self.old) (big_number 8 self.old) }
        ensures left { self.new ≡ (if is_some result then drop 8 self.old else self.old) }
    {
        let field = self.take(8)?;
        Some(BigEndian::read_u64(field))
    }

    /// The next n bytes as they are. None, and the cursor unchanged, exactly where fewer are left.
    pub fn take(&mut self, n: usize) -> Option<&'a [u8]>
        ensures value { MatchOption result (length self.old < n)
            (λ taken. (n ≤ length self.old) × (taken.now ≡ take n self.old)) }
        ensures left { self.new ≡ (if is_some result then drop n self.old else self.old) }
    {
        if self.left.len() < n {
            return None;
        }
        let (taken, left) = self.left.split_at(n);
        self.left = left;
        Some(taken)
    }
}
