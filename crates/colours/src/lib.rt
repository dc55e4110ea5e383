// The colours of a picture (RULES, Colours): what an index byte means, mixes, a palette's table, and colouring.
// The contracts cite specs/. proofs/Whole.antt shows that the float mix of an ink is the rules' whole number, and proofs/LightRule.antt
// that the ready table of LIGHT keeps that rule.
#![tactic(auto)]

mod ready;

ghost use Rattle.std.specs.Prelude.{◌≡◌, ℕ, ◌*◌, ◌<◌, ◌≤◌, [], length, slice_index_or};
ghost use Rattle.colours.specs.declared.Rgb.{Rgb};
ghost use Rattle.colours.specs.Mix.{held_of, channel_of, blend_of, rounded_of, mix_of};
ghost use Rattle.colours.specs.Meanings.{meaning_of, meaning_said, meaning_values, colour_of, colour_at};
ghost use Rattle.colours.specs.Palettes.{light, dark};
ghost use Rattle.colours.specs.Table.{painted, pixel};
ghost use Rattle.colours.specs.Inner.Table.{colours_of};
ghost use Rattle.refusal.specs.Checks.{allowed_by};
ghost use Rattle.colours.specs.Rgba.{output_refusal, rgba_out};

use ready::LIGHT_COLOURS;
use refusal::{Refusal, require};
use shade::index::{BACKGROUND, HEAD, HEAD_RANGE, INK_MAX};

#[derive(Clone, Copy, Debug, PartialEq, Eq)]
pub struct Rgb {
    pub red: u8,
    pub green: u8,
    pub blue: u8,
}

// A mix before it is rounded. Not one generic struct for this and `Rgb`: the two would be two types in the definitions all the same, one of whole
// numbers and one of floats, and no function is written for both.
#[derive(Clone, Copy, Debug, PartialEq)]
pub struct Channels {
    pub red: f64,
    pub green: f64,
    pub blue: f64,
}

#[derive(Clone, Copy, Debug, PartialEq, Eq)]
pub struct Palette {
    pub background: Rgb,
    pub ink: Rgb,
    pub accent: Rgb,
}

// The meanings of an index byte. Ink has its share, and swept paper its tint.
#[derive(Clone, Copy, Debug, PartialEq)]
pub enum Meaning {
    Paper,
    Ink(f64),
    Spare,
    Swept(f64),
    Head,
}

// How strongly swept paper is tinted with the accent.
const HEAD_RANGE_TINT: f64 = 0.35;

// The palette of the light theme: white paper, near-black ink, blue head. The themes are two constants, of other numbers throughout.
pub fn light() -> Palette
    ensures { result ≡ light }
{
    Palette {
        background: Rgb {
            red: 0xff,
            green: 0xff,
            blue: 0xff,
        },
        ink: Rgb {
            red: 0x11,
            green: 0x11,
            blue: 0x11,
        },
        accent: Rgb {
            red: 0x21,
            green: 0x5c,
            blue: 0xaf,
        },
    }
}

// The palette of the dark theme: near-black paper, near-white ink, lighter blue head.
pub fn dark() -> Palette
    ensures { result ≡ dark }
{
    Palette {
        background: Rgb {
            red: 0x0e,
            green: 0x0e,
            blue: 0x0e,
        },
        ink: Rgb {
            red: 0xf1,
            green: 0xf1,
            blue: 0xf1,
        },
        accent: Rgb {
            red: 0x7b,
            green: 0xa7,
            blue: 0xf0,
        },
    }
}

// t held to 0..1. A NaN fails each comparison, and gives 0: `clamp` would keep it, and `max` may keep a -0.
fn held(t: f64) -> f64
    ensures { result ≡ held_of t }
{
    if t > 0.0 {
        if t < 1.0 { t } else { 1.0 }
    } else {
        0.0
    }
}

// One channel of a mix, not rounded to a byte yet.
#[tactic(auto, unfolding(crate::specs::Mix::channel_of))]
fn channel(a: u8, b: u8, t: f64) -> f64
    ensures { result ≡ channel_of a b t }
{
    let x = f64::from(a);
    let y = f64::from(b);
    x + (y - x) * t
}

#[tactic(auto, unfolding(crate::specs::Mix::blend_of))]
fn blend(from: Rgb, to: Rgb, t: f64) -> Channels
    ensures { result ≡ blend_of from to t }
{
    let h = held(t);
    Channels {
        red: channel(from.red, to.red, h),
        green: channel(from.green, to.green, h),
        blue: channel(from.blue, to.blue, h),
    }
}

#[tactic(auto, unfolding(crate::specs::Mix::rounded_of))]
fn rounded(c: Channels) -> Rgb
    ensures { result ≡ rounded_of c }
{
    Rgb {
        red: shade::byte(c.red),
        green: shade::byte(c.green),
        blue: shade::byte(c.blue),
    }
}

// The colour t of the way from one colour to another, for any t. In line, so that a table's pixels stay out of memory until they are whole.
#[inline]
#[tactic(auto, unfolding(crate::specs::Mix::mix_of))]
pub fn mix(from: Rgb, to: Rgb, t: f64) -> Rgb
    ensures { result ≡ mix_of from to t }
{
    rounded(blend(from, to, t))
}

// What an index byte means.
pub fn meaning_of(index: u8) -> Meaning
    ensures { let said = meaning_said result in
        (result ≡ meaning_of index) × (said.0 ≤ index) × (index ≤ said.1) × (said.2 ≡ meaning_values index) }
{
    // Ink comes before the two numbers above it: a match tries its numbers before its ranges, and most pixels of a mark are ink.
    match index {
        BACKGROUND => Meaning::Paper,
        1..=INK_MAX => Meaning::Ink(f64::from(index) / f64::from(INK_MAX)),
        _ => match index {
            HEAD_RANGE => Meaning::Swept(HEAD_RANGE_TINT),
            HEAD => Meaning::Head,
            _ => Meaning::Spare,
        },
    }
}

// The colour of a meaning. Spare is coloured as ink.
pub fn colour(palette: Palette, meaning: Meaning) -> Rgb
    ensures { result ≡ colour_of palette meaning }
{
    match meaning {
        Meaning::Paper => palette.background,
        Meaning::Ink(share) => mix(palette.background, palette.ink, share),
        Meaning::Spare => palette.ink,
        Meaning::Swept(tint) => mix(palette.background, palette.accent, tint),
        Meaning::Head => palette.accent,
    }
}

// The colour of an index byte.
#[tactic(auto, unfolding(crate::specs::Meanings::colour_at))]
fn colour_of_byte(palette: Palette, index: u8) -> Rgb
    ensures { result ≡ colour_at palette index }
{
    colour(palette, meaning_of(index))
}

// The colours of all index bytes in LIGHT, which stand ready: three bytes to a colour, and no list of colours, since the rules ask for a constant of
// 768 bytes (RULES, Colours). `ready_colour` alone reads them by place.
pub fn light_colours() -> [u8; 768]
    ensures { result ≡ colours_of (colour_at light) }
{
    LIGHT_COLOURS
}

// The colour of an index byte in LIGHT.
fn ready_colour(colours: &[u8; 768], index: u8) -> Rgb
    requires { colours.now ≡ colours_of (colour_at light) }
    ensures { result ≡ colour_at light index }
{
    let at = usize::from(index) * 3;
    Rgb {
        red: colours[at],
        green: colours[at + 1],
        blue: colours[at + 2],
    }
}

// The pixel of a colour.
fn pixel(c: Rgb) -> [u8; 4]
    ensures { result ≡ pixel c }
{
    [c.red, c.green, c.blue, 255]
}

// The pixels of all index bytes, by the colour of each. By a loop: the closure that `array::from_fn` takes would have to say in clauses of its
// own what it asks and answers, since a check reads neither off a generic one, and that is longer than the loop.
fn table_by<F: Fn(u8) -> Rgb>(colour: F) -> [[u8; 4]; 256]
    ghost colour_of_byte: { ℕ → Rgb }
    requires callable { F.IsAlwaysCallable colour }
    requires computes { (i : ℕ) (c : Rgb) → i < 256 → F.post colour i c → c ≡ colour_of_byte i }
    ensures { (i : ℕ) → i < 256 → slice_index_or result i [] ≡ pixel (colour_of_byte i) }
{
    let mut table = [[0; 4]; 256];
    for index in 0..=255 {
        table[usize::from(index)] = pixel(colour(index));
    }
    table
}

// The pixels of all index bytes in a palette.
fn colour_table(palette: Palette) -> [[u8; 4]; 256]
    ensures { (i : ℕ) → i < 256 → slice_index_or result i [] ≡ pixel (colour_at palette i) }
{
    if palette == light() {
        let colours = light_colours();
        table_by(|index| ready_colour(&colours, index))
    } else {
        table_by(|index| colour_of_byte(palette, index))
    }
}

// Writes the pixel of each index byte. By place, since nothing is known of what was written through `chunks_exact_mut`.
fn paint(index: &[u8], palette: Palette, out: &mut [u8])
    requires { length out.old ≡ 4 * length index.now }
    ensures { out.new ≡ painted (λ i. pixel (colour_at palette i)) index.now }
{
    let table = colour_table(palette);
    for (i, byte) in index.iter().enumerate() {
        let at = i * 4;
        out[at..at + 4].copy_from_slice(&table[usize::from(*byte)]);
    }
}

// Colours a picture: red, green, blue and 255 for each index byte.
pub fn rgba(index: &[u8], palette: Palette, out: &mut [u8]) -> Result<(), Refusal>
    ensures value { result ≡ allowed_by (output_refusal (length index.now) (length out.old)) }
    ensures out_after { out.new ≡ rgba_out palette index.now out.old }
{
    require(
        index.len().checked_mul(4) == Some(out.len()),
        Refusal::OutputLength,
    )?;
    paint(index, palette, out);
    Ok(())
}
