// The index bytes of a picture (RULES, Rows). specs/Index.antt has the same numbers.

// A blank cell or an empty bin: paper.
pub const BACKGROUND: u8 = 0;

// The least ink that a row draws.
pub const INK_MIN: u8 = 8;

// The greatest ink: that of a full bin and of the highest symbol.
pub const INK_MAX: u8 = 64;

// How far ink rises from a share of 0 to a share of 1.
pub const INK_RANGE: u8 = INK_MAX - INK_MIN;

// Paper that the head passed over during a sampled row: swept.
pub const HEAD_RANGE: u8 = 254;

// The head.
pub const HEAD: u8 = 255;
