// A float to its byte, the ink of a share, and the shade of a bin and of a symbol (RULES, Rows).
// The contracts cite specs/; what other crates may say of shares and shades is proved in proofs/Shares.antt and proofs/Shades.antt,
// and how true the ink of a bin is to its tally (specs/Grey.antt) in proofs/Grey.antt. Bounds of one number are clauses, as limits says.
#![tactic(auto)]

pub mod index;

ghost use Rattle.std.specs.Prelude.{◌≡◌, ◌-◌, ◌<◌, ◌≤◌, max};
ghost use Rattle.limits.specs.Limits.{max_symbols, max_cells};
ghost use Rattle.shade.specs.Byte.{byte_of};
ghost use Rattle.shade.specs.Share.{tally_share, symbol_share};
ghost use Rattle.shade.specs.Inner.Share.{IsShare};
ghost use Rattle.shade.specs.Shade.{ink_of, tally_shade, symbol_shade};

use index::{BACKGROUND, INK_MIN, INK_RANGE};

// The byte nearest to x, halves going away from zero; 0 below 0 and at a NaN, 255 above 255.
// Twice x is exact and x + 0.5 is not: 1/2 - 2^-54 has to give 0. `saturating_f64_to_u8(x.round())` is the same for every x. It was proved in this
// place and measured: a bin's shade took 17 ns in the place of 8.5, and a row in bins asks for one at each pixel.
pub fn byte(x: f64) -> u8
    ensures { result ≡ byte_of x }
{
    // A NaN fails each comparison.
    if x > 0.0 {
        if x < 255.0 {
            let twice = std::num::truncating_f64_to_u64(x * 2.0);
            ((twice + 1) / 2) as u8
        } else {
            255
        }
    } else {
        0
    }
}

// The ink of a share.
#[tactic(auto, unfolding(crate::specs::Shade::ink_of))]
pub fn ink(share: f64) -> u8
    requires { IsShare share }
    ensures { result ≡ ink_of share }
{
    INK_MIN + byte(share * f64::from(INK_RANGE))
}

// The written share of a bin in a window of `cells` cells.
pub fn tally_share(tally: u64, cells: u64) -> f64
    requires { (tally ≤ cells) × (0 < cells) × (cells ≤ max_cells) }
    ensures { result ≡ tally_share tally cells }
{
    (tally as f64) / (cells as f64)
}

// The highest symbol of an alphabet; 1 where it has a blank alone.
fn top_symbol(symbols: u32) -> u32
    ensures { result ≡ max 1 (symbols - 1) }
{
    symbols.saturating_sub(1).max(1)
}

// The share of a symbol in an alphabet of `symbols`.
#[tactic(auto, unfolding(crate::specs::Share::share))]
pub fn symbol_share(symbol: u8, symbols: u32) -> f64
    requires { (symbol < symbols) × (symbols ≤ max_symbols) }
    ensures { result ≡ symbol_share symbol symbols }
{
    f64::from(symbol) / f64::from(top_symbol(symbols))
}

// The index byte of a bin. A tally above 0 is ink, however small its share. `symbol_shade` has the same form over other numbers: what both
// have in common is one test.
pub fn tally_shade(tally: u64, cells: u64) -> u8
    requires { (tally ≤ cells) × (cells ≤ max_cells) }
    ensures { result ≡ tally_shade tally cells }
{
    if tally == 0 {
        BACKGROUND
    } else {
        ink(tally_share(tally, cells))
    }
}

// The index byte of a cell.
pub fn symbol_shade(symbol: u8, symbols: u32) -> u8
    requires { (symbol < symbols) × (symbols ≤ max_symbols) }
    ensures { result ≡ symbol_shade symbol symbols }
{
    if symbol == 0 {
        BACKGROUND
    } else {
        ink(symbol_share(symbol, symbols))
    }
}
