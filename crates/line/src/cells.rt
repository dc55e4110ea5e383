// A row in cells: how many are written, and the shades of their pixels. That the pixels of all cells are on the line is asked of a line that is lent:
// a type of line, `px` and `x0` that held it would hold a `&mut` slice. Bounds of one number (`px`, an alphabet) are clauses, as limits says.
ghost use Rattle.std.specs.Prelude.{◌≡◌, ℕ, ◌+◌, ◌*◌, ◌≤◌, ◌<◌, ltb, length, get_or, replicate};
ghost use Rattle.limits.specs.Limits.{max_symbols};
ghost use Rattle.columns.specs.Bins.{written_in};
ghost use Rattle.slices.specs.Inner.Filled.{altered};
ghost use Rattle.line.specs.Inner.Shading.{cell_byte, cell_shade};
ghost use Rattle.shade.specs.Shade.{symbol_shade};

// How many symbols are written. Of `filter` and `count` the check finds no proof, so a chain of both would be no plainer.
pub(crate) fn count_written(symbols: &[u8]) -> u64
    ensures { result ≡ written_in (length symbols.now) (λ k. ltb 0 (get_or symbols.now k 0)) }
{
    let mut sum = 0;
    for &symbol in symbols {
        sum += u64::from(0 < symbol);
    }
    sum
}

// The shade of each symbol of an alphabet.
fn shade_symbols(shades: &mut [u8], alphabet: u32)
    requires { (alphabet ≤ max_symbols) × (alphabet ≤ length shades.old) }
    ensures { shades.new ≡ altered (λ s b. symbol_shade s alphabet) 0 alphabet shades.old }
{
    for (symbol, byte) in shades[..alphabet as usize].iter_mut().enumerate() {
        *byte = shade::symbol_shade(symbol as u8, alphabet);
    }
}

// The shades of symbols, a pixel each.
fn draw_pixels(pixels: &mut [u8], symbols: &[u8], shades: &[u8])
    requires { (length pixels.old ≡ length symbols.now) × ((k : ℕ) → get_or symbols.now k 0 < length shades.now) }
    ensures { (k : ℕ) → k < length symbols.now → get_or pixels.new k 0 ≡ get_or shades.now (get_or symbols.now k 0) 0 }
{
    for (k, pixel) in pixels.iter_mut().enumerate() {
        *pixel = shades[usize::from(symbols[k])];
    }
}

// Sets the first `px` pixels, those of a cell, in whole words where the line has room for them. What a word sets beyond the cell is set again by the next
// cell, or by the margin. Most cells are a word or two, and need no loop.
fn fill_cell(pixels: &mut [u8], px: usize, value: u8)
    requires { px ≤ length pixels.old }
    ensures { (k : ℕ) → k < px → get_or pixels.new k 0 ≡ value }
{
    let word = slices::word::of_byte(value);
    if px <= 8 && 8 <= pixels.len() {
        slices::word::store(&mut pixels[..8], word);
    } else if px <= 16 && 16 <= pixels.len() {
        slices::word::store(&mut pixels[..8], word);
        slices::word::store(&mut pixels[8..16], word);
    } else {
        let whole = px.div_ceil(8) * 8;
        let end = if whole <= pixels.len() { whole } else { px };
        slices::by_word::fill(&mut pixels[..end], value);
    }
}

// The cells of a line, `px` pixels each from pixel `x0` on; what stands beside them is set afterwards. The pixel is counted beside the symbols: after a
// loop over `chunks_exact_mut(px)`, zipped with them, a proof knows nothing of the line.
fn fill_cells(line: &mut [u8], symbols: &[u8], shades: &[u8], px: usize, x0: usize)
    requires { (x0 + length symbols.now * px ≤ length line.old) × (0 < px) × ((k : ℕ) → get_or symbols.now k 0 < length shades.now) }
    ensures { let drawn = symbols.now in
        let byte : ℕ → ℕ = λ s. get_or shades.now s 0 in
        (x : ℕ) → x0 ≤ x → x < x0 + length drawn * px → get_or line.new x 0 ≡ cell_byte byte (length drawn) px x0 drawn x }
{
    if px == 1 {
        draw_pixels(&mut line[x0..x0 + symbols.len()], symbols, shades);
        return;
    }
    let mut x = x0;
    for &symbol in symbols {
        fill_cell(&mut line[x..], px, shades[usize::from(symbol)]);
        x += px;
    }
}

// A line's bytes: each symbol's shade on `px` pixels from pixel `x0` on, paper beside them.
fn draw_cells(line: &mut [u8], symbols: &[u8], shades: &[u8], px: usize, x0: usize)
    requires { (x0 + length symbols.now * px ≤ length line.old) × (0 < px) × ((k : ℕ) → get_or symbols.now k 0 < length shades.now) }
    ensures { let drawn = symbols.now in
        let byte : ℕ → ℕ = λ s. get_or shades.now s 0 in
        line.new ≡ altered (λ x b. cell_byte byte (length drawn) px x0 drawn x) 0 (length line.old) line.old }
{
    fill_cells(line, symbols, shades, px, x0);
    slices::by_word::fill(&mut line[..x0], shade::index::BACKGROUND);
    slices::by_word::fill(
        &mut line[x0 + symbols.len() * px..],
        shade::index::BACKGROUND,
    );
}

// A line's shades: each symbol's on `px` pixels from pixel `x0` on, paper beside them.
pub(crate) fn shade_cells(line: &mut [u8], symbols: &[u8], alphabet: u32, px: usize, x0: usize)
    requires { (x0 + length symbols.now * px ≤ length line.old) × (0 < px) × (alphabet ≤ max_symbols) × ((k : ℕ) → get_or symbols.now k 0 < alphabet) }
    ensures { let drawn = symbols.now in
        line.new ≡ altered (λ x b. cell_shade (length drawn) px x0 alphabet drawn x) 0 (length line.old) line.old }
{
    // A place for each symbol of the largest alphabet.
    let mut shades = [0; 64];
    shade_symbols(&mut shades, alphabet);
    draw_cells(line, symbols, &shades, px, x0);
}
