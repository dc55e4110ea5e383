// Tape positions. A public call takes and gives a position as an i64; all else works on its offset form,
// the position + 2^63 as a u64, which keeps the order. `offset` and `position` are the project's only signed arithmetic.
// That each undoes the other and that the order is kept is proved in proofs/Laws.antt.
#![tactic(auto)]

ghost use Rattle.std.specs.Prelude.{◌≡◌, ◌&&◌};
ghost use Rattle.position.specs.Position.{offset_of, position_of, in_domain, in_reach};

// The offset forms of -L and L, L being 2^62: the ends of the domain (RULES, Tape).
pub const LOWEST: u64 = 0x4000_0000_0000_0000;

pub const HIGHEST: u64 = 0xc000_0000_0000_0000;

// The offset form of 0.
const ZERO: u64 = 0x8000_0000_0000_0000;

// The offset form of a position.
pub fn offset(position: i64) -> u64
    ensures { result ≡ offset_of position }
{
    ZERO.wrapping_add_signed(position)
}

// The position that has an offset form.
pub fn position(offset: u64) -> i64
    ensures { result ≡ position_of offset }
{
    offset.wrapping_sub(ZERO).cast_signed()
}

// Whether a position is within ±L.
pub fn in_domain(position: u64) -> bool
    ensures { result ≡ in_domain position }
{
    (LOWEST..=HIGHEST).contains(&position)
}

// Whether two positions are within ±L.
pub fn both_in_domain(a: u64, b: u64) -> bool
    ensures { result ≡ (in_domain a && in_domain b) }
{
    in_domain(a) && in_domain(b)
}

// Whether the head, and as many cells on either side of it, are within ±L: no sum is made that could wrap.
pub fn in_reach(head: u64, left: u64, right: u64) -> bool
    ensures { result ≡ in_reach head left right }
{
    in_domain(head) && left <= head - LOWEST && right <= HIGHEST - head
}
