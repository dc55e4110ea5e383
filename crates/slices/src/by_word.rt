// Bytes filled and copied a word at a time, and what is left at their end one by one.
ghost use Rattle.std.specs.Prelude.{◌≡◌, ◌+◌, ◌-◌, ◌≤◌, length, get_or, replicate};
ghost use Rattle.slices.specs.Inner.Filled.{altered};

use crate::word;

// Sets each byte.
pub fn fill(bytes: &mut [u8], value: u8)
    ensures { bytes.new ≡ replicate (length bytes.old) value }
{
    let word = word::of_byte(value);
    let words = bytes.len() / 8;
    for turn in 0..words {
        let at = 8 * turn;
        word::store(&mut bytes[at..at + 8], word);
    }
    for byte in &mut bytes[8 * words..] {
        *byte = value;
    }
}

// Makes the bytes those of another slice.
fn copy(to: &mut [u8], from: &[u8])
    requires { length to.old ≡ length from.now }
    ensures { to.new ≡ from.now }
{
    let words = from.len() / 8;
    for turn in 0..words {
        let at = 8 * turn;
        word::store(&mut to[at..at + 8], word::read(&from[at..at + 8]));
    }
    for k in 8 * words..from.len() {
        to[k] = from[k];
    }
}

// Copies the first bytes, as many as `count`, onto those from `at` on.
pub fn repeat(bytes: &mut [u8], count: usize, at: usize)
    requires { (count ≤ at) × (at + count ≤ length bytes.old) }
    ensures { bytes.new ≡ altered (λ k b. get_or bytes.old (k - at) 0) at (at + count) bytes.old }
{
    let (front, back) = bytes.split_at_mut(at);
    copy(&mut back[..count], &front[..count]);
}
