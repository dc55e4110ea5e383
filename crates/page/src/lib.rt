// A picture as a page of text (RULES, Page): a line of 80 characters and a line feed for each drawn row.
#![tactic(auto)]

ghost use Rattle.std.specs.Prelude.{◌≡◌, ◌&&◌, cond, ltb, eqb, ◌+◌, ◌*◌, ◌%◌, ◌≤◌, length, slice_index};
ghost use Rattle.slices.specs.Tabulate.{tabulate};
ghost use Rattle.refusal.specs.Checks.{answer_by, allowed_by};
ghost use Rattle.page.specs.Page.{character_of, step_character, line_character, page_of, page_refusal, page_out};

use grid::Grid;
use grid::soundness::SoundGrid;
use refusal::{Refusal, require};
use shade::index::{BACKGROUND, HEAD, HEAD_RANGE, INK_MAX};

// The widest picture that goes beside its steps.
const WIDTH: u64 = 59;

// The characters of a step, the place of the first pixel's character, and the bytes of a line.
const STEP: usize = 20;

const PIXELS: usize = STEP + 1;

const LINE: usize = 81;

// The sound grid, or the refusal of a grid and of the lengths of its index and of the page, 15, 7, 17 or 18.
#[tactic(auto, unfolding(crate::specs::Page::page_refusal))]
fn check(grid: Grid, index: usize, page: usize) -> Result<SoundGrid, Refusal>
    ensures { result ≡ answer_by (page_refusal grid index page) grid }
{
    let sound = grid.checked()?;
    require(sound.index_fits(index), Refusal::IndexLength)?;
    require(grid.width <= WIDTH, Refusal::PageWidth)?;
    let bytes = LINE as u64 * grid.progress.done;
    require(page as u64 == bytes, Refusal::PageLength)?;
    Ok(sound)
}

// The character of an index byte.
fn character(index: u8) -> u8
    ensures { result ≡ character_of index }
{
    match index {
        BACKGROUND => b'.',
        1..=INK_MAX => b'1' + (index - 1) / 16,
        HEAD_RANGE => b'-',
        HEAD => b'@',
        _ => b'4',
    }
}

// Character k of a step, of which the digits behind it are gone: a space where no digit is left, but for the last.
fn digit(left: u64, k: usize) -> u8
    ensures { result ≡ cond (eqb left 0 && ltb k 19) 32 (48 + left % 10) }
{
    if left == 0 && k < STEP - 1 {
        b' '
    } else {
        b'0' + (left % 10) as u8
    }
}

// Writes a step, right-aligned, onto its 20 places. By hand, since `write!` may fail by its contract, and this cannot; by place, since after a
// loop over `places.iter_mut().enumerate().rev()` a proof knows nothing of the places.
fn put_step(places: &mut [u8], step: u64)
    requires { length places.old ≡ STEP }
    ensures { places.new ≡ tabulate (step_character step) STEP }
{
    let mut left = step;
    for k in (0..STEP).rev() {
        places[k] = digit(left, k);
        left /= 10;
    }
}

// Writes a line: the step, a space, a character for each pixel, spaces, and a line feed. By place, since after a loop over the line's
// `iter_mut().zip(pixels)` a proof knows nothing of the line.
fn put_line(line: &mut [u8], step: u64, pixels: &[u8])
    requires long { length line.old ≡ LINE }
    requires narrow { length pixels.now ≤ WIDTH }
    ensures { line.new ≡ tabulate (line_character step (length pixels.now) (slice_index pixels.now)) LINE }
{
    line.fill(b' ');
    put_step(&mut line[..STEP], step);
    for (x, pixel) in pixels.iter().enumerate() {
        line[PIXELS + x] = character(*pixel);
    }
    line[LINE - 1] = b'\n';
}

// Writes the lines of the drawn rows. By row, since after a loop over `page.chunks_exact_mut(LINE)` a proof knows nothing of the page.
fn put_lines(sound: SoundGrid, index: &[u8], page: &mut [u8])
    requires whole { length index.now ≡ sound.width * sound.height }
    requires narrow { (sound.width ≤ WIDTH) × (length page.old ≡ LINE * sound.progress.done) }
    ensures { page.new ≡ page_of sound index.now }
{
    let grid = sound.grid;
    let width = grid.width as usize;
    let band = grid.row_px as usize * width;
    for row in 0..grid.progress.done as usize {
        let at = row * LINE;
        let from = row * band;
        let pixels = &index[from..from + width];
        let step = grid.step(row as u64);
        put_line(&mut page[at..at + LINE], step, pixels);
    }
}

// Writes a picture's page: a line of 81 bytes for each drawn row.
#[tactic(auto, unfolding(crate::specs::Page::page_refusal))]
pub fn write(grid: Grid, index: &[u8], page: &mut [u8]) -> Result<(), Refusal>
    ensures value { result ≡ allowed_by (page_refusal grid (length index.now) (length page.old)) }
    ensures page_after { page.new ≡ page_out grid index.now page.old }
{
    let sound = check(grid, index.len(), page.len())?;
    put_lines(sound, index, page);
    Ok(())
}
