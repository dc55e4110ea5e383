// The limits of a picture (RULES, Limits).
// specs/Limits.antt has the same limits for the contracts. Where a function needs a number to be within one, or not to be 0, its contract asks for
// it, and no type holds it: such a number is computed with in the next line, where a type of it would be taken off again, so it is no plainer.
#![tactic(auto)]

ghost use Rattle.std.specs.Prelude.{◌≡◌};
ghost use Rattle.limits.specs.Limits.{size_sound, symbols_sound};

// The largest side in pixels.
pub const MAX_SIDE: u64 = 4096;

// The largest alphabet, blank included.
pub const MAX_SYMBOLS: u64 = 64;

// The most cells that bins may cover: 2^50. The largest product with a side, (2k + 1) × width for a cell k, is then below 2^63.
pub const MAX_CELLS: u64 = 0x4_0000_0000_0000;

// Whether width and height are sides of a picture. Two numbers: a struct of them would be made by the caller and taken apart here.
pub fn size_sound(width: u64, height: u64) -> bool
    ensures { result ≡ size_sound width height }
{
    (1..=MAX_SIDE).contains(&width) && (1..=MAX_SIDE).contains(&height)
}

// Whether a number is the count of an alphabet.
pub fn symbols_sound(symbols: u64) -> bool
    ensures { result ≡ symbols_sound symbols }
{
    (1..=MAX_SYMBOLS).contains(&symbols)
}
