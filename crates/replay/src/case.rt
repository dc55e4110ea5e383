// Reading a case. It is words of eight bytes, the lowest first, at places that its kind fixes; a list in it is two words, the place of its
// first byte and its length, in bytes or in words. Every place is looked at before it is read, so any bytes are a case: past the end a
// word is 0 and a list of bytes is empty. What a call is lent has room for a list of the original's; one that is longer than the room is
// taken for empty.
ghost use Rattle.std.specs.Prelude.{◌≤◌};

use std::array;

// The room for a list of bytes.
pub(crate) const BYTES: usize = 4096;

#[derive(Clone, Copy)]
pub(crate) struct Case<'a> {
    pub(crate) bytes: &'a [u8],
}

impl<'a> Case<'a> {
    // The word at a place.
    pub(crate) fn word(self, at: usize) -> u64 {
        self.bytes.get(at..).map_or(0, first_word)
    }

    // The length at a place; 0 where the room is less.
    pub(crate) fn length(self, at: usize, room: usize) -> usize
        ensures { result ≤ room }
    {
        within(self.word(at), room)
    }

    // The word at a place, as one of fewer bits: its low half, its low byte, and whether it is not 0.
    pub(crate) fn half(self, at: usize) -> u32 {
        (self.word(at) & 0xffff_ffff) as u32
    }

    pub(crate) fn byte(self, at: usize) -> u8 {
        (self.word(at) & 0xff) as u8
    }

    pub(crate) fn flag(self, at: usize) -> bool {
        self.word(at) != 0
    }

    // The position at a place, where it stands in its offset form.
    pub(crate) fn place(self, at: usize) -> i64 {
        position::position(self.word(at))
    }

    // The words from a place on.
    pub(crate) fn words<const N: usize>(self, at: usize) -> [u64; N] {
        array::from_fn(|i| self.word(nth(at, i)))
    }

    // The low bytes of the words from a place on.
    pub(crate) fn low_bytes<const N: usize>(self, at: usize) -> [u8; N] {
        array::from_fn(|i| self.byte(nth(at, i)))
    }

    // The list of bytes whose two words are at a place.
    pub(crate) fn bytes(self, at: usize) -> &'a [u8] {
        let [from, length] = self.words::<2>(at);
        self.bytes
            .get(from as usize..)
            .and_then(|rest| rest.get(..length as usize))
            .unwrap_or(&[])
    }

    // The list of words whose two words are at a place: where its first is, and how many they are; 0 where the room is less.
    pub(crate) fn list(self, at: usize, room: usize) -> (usize, usize)
        ensures { result.1 ≤ room }
    {
        let [from, length] = self.words::<2>(at);
        (from as usize, within(length, room))
    }
}

// A length; 0 where the room is less.
fn within(length: u64, room: usize) -> usize
    ensures { result ≤ room }
{
    let length = length as usize;
    if length <= room { length } else { 0 }
}

// The word that bytes begin with; 0 where they are too few.
fn first_word(bytes: &[u8]) -> u64 {
    bytes
        .first_chunk()
        .map_or(0, |word| u64::from_le_bytes(*word))
}

// The place of a word, by that of the first and its index.
pub(crate) fn nth(first: usize, index: usize) -> usize {
    first.wrapping_add(index.wrapping_mul(8))
}
