// Bytes that a program means to write, kept until all of them are there.
ghost use Rattle.std.specs.Prelude.{◌≤◌, ◌-◌, ◌≡◌, ◌∷◌, [], length, take, drop, IfSome, IfNone};
ghost use Rattle.show_pages.specs.Kept.{count, kept, OverFull, Puts};

use crate::visible::{self, Characters};

// The bytes from one offset to another, as far as they are there.
pub fn part(bytes: &[u8], from: usize, to: usize) -> &[u8]
    ensures between { result.now ≡ drop from (take to bytes.now) }
    ensures there { length result.now ≤ length bytes.now - from }
    ensures asked { length result.now ≤ to - from }
{
    bytes.get(from..to.min(bytes.len())).unwrap_or(&[])
}

// A buffer and how many of its bytes are kept: one more than there is room for says that some are lost, and such a page is not written. The
// buffer is lent and no String, as no message may run out of memory, and how much room there is plays a part.
#[derive(Drop)]
pub struct Page<'a> {
    bytes: &'a mut [u8],
    len: usize,
}

impl<'a> Page<'a> {
    pub fn new(bytes: &'a mut [u8]) -> Page<'a>
        ensures { kept result ≡ [] }
    {
        Page { bytes, len: 0 }
    }

    // All that was put, or nothing where some of it is lost.
    pub fn whole(&self) -> Option<&[u8]>
        ensures all { IfSome result (λ s. s.now ≡ kept self.now) }
        ensures none_lost { IfSome result (λ s. length s.now ≡ count self.now) }
        ensures lost { IfNone result (OverFull self.now) }
    {
        self.bytes.get(..self.len)
    }

    // What there was room for.
    pub fn kept(&self) -> &[u8]
        ensures { result.now ≡ kept self.now }
    {
        part(self.bytes, 0, self.len)
    }

    // How many bytes are kept, to go back to.
    pub fn len(&self) -> usize
        ensures { result ≡ count self.now }
    {
        self.len
    }

    // Leaves what was put behind so many bytes.
    pub fn truncate(&mut self, len: usize)
        ensures { kept self.new ≡ take len (kept self.old) }
    {
        self.len = len.min(self.len);
    }

    pub fn put(&mut self, byte: u8)
        ensures { Puts self.old self.new (byte ∷ []) }
    {
        if self.len < self.bytes.len() {
            self.bytes[self.len] = byte;
            self.len += 1;
        } else {
            self.len = self.bytes.len() + 1;
        }
    }

    pub fn put_all(&mut self, bytes: &[u8])
        ensures { Puts self.old self.new bytes.now }
    {
        for byte in bytes {
            self.put(*byte);
        }
    }

    pub fn put_str(&mut self, words: &str)
        ensures { Puts self.old self.new words.now }
    {
        self.put_all(words.as_bytes());
    }

    // A number in decimal.
    pub fn put_number(&mut self, number: usize) {
        let mut digits = [0u8; 20];
        let k = io::decimal(number as u64, &mut digits);
        self.put_all(&digits[..k]);
    }

    // Bytes as a person can see them.
    pub fn put_visible(&mut self, bytes: &[u8]) {
        for character in Characters(bytes) {
            visible::put_character(self, character);
        }
    }

    // What a person wrote, between backquotes. Of more than 40 bytes the first 40 stand for it.
    pub fn put_quoted(&mut self, bytes: &[u8]) {
        self.put(b'`');
        self.put_visible(part(bytes, 0, 40));
        self.put_str(if 40 < bytes.len() { "..`" } else { "`" });
    }
}
