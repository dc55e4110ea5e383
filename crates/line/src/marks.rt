// What goes over the shades of a line: swept over paper, then the head over anything (RULES, Rows).
ghost use Rattle.std.specs.Prelude.{◌≡◌, length, map};
ghost use Rattle.std.specs.Int.{w64, to_le_bytes};
ghost use Rattle.shade.specs.Index as byte;
ghost use Rattle.line.specs.Inner.Altered.{altered_on, Within};
ghost use Rattle.line.specs.Line.{swept_over};
ghost use Rattle.line.specs.Inner.Swept.{swept_pixels};

use columns::{Pair, Window};

// A byte with swept over it.
fn swept_over(value: u8) -> u8
    ensures { result ≡ swept_over value }
{
    if value == shade::index::BACKGROUND {
        shade::index::HEAD_RANGE
    } else {
        value
    }
}

// Swept over eight pixels: each byte at 0 becomes 254. Each has its highest bit set before 1 is taken from it, so that none borrows from the next. It lacks
// that bit afterwards, and lacked it before, exactly if it was 0. Twice 0x80 - 0x01 is 254.
fn mark_word(pixels: u64) -> u64
    ensures { to_le_bytes w64 result ≡ map (λ b. swept_over b) (to_le_bytes w64 pixels) }
{
    let low = (pixels | 0x8080_8080_8080_8080) - 0x0101_0101_0101_0101;
    let paper = !(low | pixels) & 0x8080_8080_8080_8080;
    pixels | ((paper - (paper >> 7)) << 1)
}

// Swept over all of the pixels: eight at a time, and one by one those behind the last whole word.
fn mark_swept(pixels: &mut [u8])
    ensures { pixels.new ≡ map (λ b. swept_over b) pixels.old }
{
    let words = pixels.len() / 8;
    for turn in 0..words {
        let eight = &mut pixels[8 * turn..8 * turn + 8];
        slices::word::store(eight, mark_word(slices::word::read(eight)));
    }
    for byte in &mut pixels[8 * words..] {
        *byte = swept_over(*byte);
    }
}

// The pixels of a swept pair that may be missing.
pub(crate) fn swept_pixels(window: Window, swept: Option<Pair>) -> Option<Pair>
    ensures { result ≡ swept_pixels window.columns swept }
{
    window.swept(swept?)
}

// Swept over the pixels found.
#[tactic(auto, using(crate::proofs::Altered::altered_nothing))]
pub(crate) fn draw_swept(line: &mut [u8], pixels: Option<Pair>)
    requires { Within pixels (length line.old) }
    ensures { line.new ≡ altered_on swept_over pixels line.old }
{
    if let Some(pixels) = pixels {
        mark_swept(&mut line[pixels.low as usize..pixels.high as usize + 1]);
    }
}

// The head over the pixels found. `draw_swept` has the same test, and a step of its own: it looks at each byte, where this one fills. A function
// over both would take that step as a closure, with clauses that are longer than the test.
#[tactic(auto, using(crate::proofs::Altered::altered_nothing))]
pub(crate) fn draw_head(line: &mut [u8], pixels: Option<Pair>)
    requires { Within pixels (length line.old) }
    ensures { line.new ≡ altered_on (λ b. byte.head) pixels line.old }
{
    if let Some(pixels) = pixels {
        slices::by_word::fill(
            &mut line[pixels.low as usize..pixels.high as usize + 1],
            shade::index::HEAD,
        );
    }
}
