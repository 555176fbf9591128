// Sets of bytes.

ghost use Rattle.std.specs.Prelude.{◌≡◌, ◌↔◌, IsTrue, ◌==◌, ◌||◌, ◌&&◌, nat_le, not, [], length};
ghost use Rattle.cs_pattern_parts.specs.Items.Members.{has, bytes_where, IsByteSet};

use std::marker::Model;

/// A set of bytes, which contracts see as the one list of its members, ascending.
#[derive(Debug, Drop)]
pub struct ByteSet {
    words: [u64; 4],
}

impl Model for ByteSet {
    ghost use Rattle.std.specs.Prelude.{ℕ, List};
    ghost use Rattle.cs_pattern_parts.specs.Items.Bits.{bytes_of};
    ghost use Rattle.cs_pattern_parts.specs.Items.Members.{IsByteSet};

    ghost Value = { List ℕ };

    ghost view = { λ s. bytes_of s.words };

    ghost invariant = { λ s. IsByteSet (bytes_of s.words) };
}

impl ByteSet {
    /// The empty set.
    pub fn new() -> ByteSet
        ensures { result ≡ [] }
    {
        ByteSet { words: [0; 4] }
    }

    /// Whether the byte is a member.
    pub fn contains(&self, byte: u8) -> bool
        ensures { result ≡ has self.now byte }
    {
        let word = self.words[byte as usize / 64];
        (word >> (byte % 64)) & 1 == 1
    }

    /// Makes the byte a member.
    pub fn insert(&mut self, byte: u8)
        ensures { self.new ≡ bytes_where (λ b. (b == byte) || has self.old b) }
    {
        self.words[byte as usize / 64] |= 1 << (byte % 64);
    }

    /// Makes each byte from the first through the last a member.
    pub fn insert_range(&mut self, first: u8, last: u8)
        ensures { self.new
            ≡ bytes_where (λ b. (nat_le first b && nat_le b last) || has self.old b) }
    {
        let _words = &self.words;
        for index in first as u16..last as u16 + 1 {
            self.insert(index as u8);
        }
    }

    /// The members of either set.
    pub fn union(&self, other: &ByteSet) -> ByteSet
        ensures { result ≡ bytes_where (λ b. has self.now b || has other.now b) }
    {
        let [a, b, c, d] = self.words;
        let [e, f, g, h] = other.words;
        ByteSet {
            words: [a | e, b | f, c | g, d | h],
        }
    }

    /// The bytes, of all 256, that are no members.
    pub fn complement(&self) -> ByteSet
        ensures { result ≡ bytes_where (λ b. not (has self.now b)) }
    {
        let mut others = ByteSet::new();
        for index in 0..256u16 {
            let byte = index as u8;
            if !self.contains(byte) {
                others.insert(byte);
            }
        }
        others
    }

    /// How many members the set has.
    pub fn len(&self) -> usize
        ensures count { result ≡ length self.now }
        ensures set { IsByteSet self.now }
    {
        let mut count = 0;
        let _words = &self.words;
        for index in 0..256u16 {
            if self.contains(index as u8) {
                count += 1;
            }
        }
        count
    }

    /// Whether there is no member.
    pub fn is_empty(&self) -> bool
        ensures { IsTrue result ↔ (self.now ≡ []) }
    {
        let _words = &self.words;
        for index in 0..256u16 {
            if self.contains(index as u8) {
                return false;
            }
        }
        true
    }

    /// The same set.
    pub fn duplicate(&self) -> ByteSet
        ensures { result ≡ self.now }
    {
        ByteSet { words: self.words }
    }
}
