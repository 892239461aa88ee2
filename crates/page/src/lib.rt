// What a program prints, gathered before it is written: bytes in a fixed room, without a heap.
#![tactic(auto)]

ghost use Rattle.std.specs.Prelude.{◌≡◌, List, ℕ, ◌+◌, ◌<◌, ◌≤◌, [], ◌∷◌, ◌++◌, take, length};

use std::fmt;
use std::marker::Model;

// A page with room for N bytes; in a clause it is the list of the bytes written so far.
#[derive(Drop)]
pub struct Page<const N: usize> {
    bytes: [u8; N],
    end: usize,
}

impl<const N: usize> Model for Page<N> {
    ghost use Rattle.std.specs.Prelude.{List, ℕ, take, ◌≤◌, length};

    ghost Value = { List ℕ };

    ghost view = { λ p. take p.end p.bytes };

    ghost invariant = { λ p. p.end ≤ N };
}

impl<const N: usize> Page<N> {
    // An empty page.
    pub fn new() -> Self
        ensures { result ≡ [] }
    {
        Page {
            bytes: [0; N],
            end: 0,
        }
    }

    // The page is empty again: what stood on it is not told any more.
    pub fn clear(&mut self)
        ensures { self.new ≡ [] }
    {
        self.end = 0;
    }

    // All that was written.
    pub fn written(&self) -> &[u8]
        ensures { result.now ≡ self.now }
    {
        &self.bytes[..self.end]
    }

    // One byte behind those before, unless there is no room.
    pub fn push(&mut self, byte: u8)
        ensures cut { self.new ≡ take N (self.old ++ byte ∷ []) }
        ensures whole { length self.old < N → self.new ≡ self.old ++ byte ∷ [] }
    {
        if self.end < N {
            self.bytes[self.end] = byte;
            self.end += 1;
        }
    }

    // Some bytes behind those before; what has no room is cut.
    pub fn put(&mut self, bytes: &[u8])
        ensures cut { self.new ≡ take N (self.old ++ bytes.now) }
        ensures whole { length self.old + length bytes.now ≤ N → self.new ≡ self.old ++ bytes.now }
    {
        // What the page holds is within its room, also where no byte follows.
        let _ = &self.bytes;
        for &byte in bytes {
            self.push(byte);
        }
    }
}

// Text is put like any bytes, so that a page can be the target of `write!`.
impl<const N: usize> fmt::Write for Page<N> {
    ghost write_str_gives = { λ before text after. after ≡ take N (before ++ text) };

    fn write_str(&mut self, s: &str) -> fmt::Result {
        self.put(s.as_bytes());
        Ok(())
    }
}
