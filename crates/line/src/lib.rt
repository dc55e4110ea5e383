// A row's line (RULES, Rows): its tallies or symbols, its shades, what goes over them, copies of it, and the written cells beside it.
//
// What a function asks of the lengths of line, store and tallies is asked of lent slices: a type that held it would hold `&mut` slices, and a
// contract would speak of what they were lent at. Bounds of one number are clauses, as limits says.
#![tactic(auto)]

mod bins;
mod cells;
pub mod copying;
mod marks;
pub mod outside;
mod sides;

ghost use Rattle.std.specs.Prelude.{◌≡◌, true, ℕ, ◌+◌, ◌*◌, ◌≤◌, ◌<◌, length};
ghost use Rattle.limits.specs.Limits.{max_side, max_symbols};
ghost use Rattle.shade.specs.Index as byte;
ghost use Rattle.shade.specs.Shade.{tally_shade};
ghost use Rattle.tape.specs.Tape.{symbols_from};
ghost use Rattle.columns.specs.Window.{sound_in};
ghost use Rattle.columns.specs.Inner.Usable.{Usable};
ghost use Rattle.columns.specs.Pixels.{end_pixel, head_at};
ghost use Rattle.columns.specs.Bins as bin;
ghost use Rattle.slices.specs.Inner.Filled.{altered};
ghost use Rattle.line.specs.Inner.Altered.{altered_on};
ghost use Rattle.grid.specs.Memory.{stored_cells};
ghost use Rattle.line.specs.Line.{written, tallies_in, row_tallies, row_symbols, row_units, shade_at, swept_over};
ghost use Rattle.line.specs.Inner.Swept.{swept_pixels};

use columns::{Columns, Pair, Window};
use tape::SoundTape;

// A row in bins: its tallies, the shades of its line and its units. `Usable` is asked of three numbers here, since the lent tallies say how many bins
// there are; a window would say it a second time.
fn shade_in_bins(
    tape: &SoundTape<'_>,
    line: &mut [u8],
    tallies: &mut [u64],
    first: u64,
    cells: u64,
) -> u64
    requires { Usable (Columns.Bins first cells (length tallies.old)) × (length tallies.old ≤ length line.old) }
    ensures value { let width = length tallies.old in
        let columns = Columns.Bins first cells width in
        result ≡ row_units columns tape.now.tape }
    ensures line_after { let width = length tallies.old in
        let shade : ℕ → ℕ = λ v. tally_shade (bin.tally width cells (λ k. written tape.now.tape (first + k)) v) cells in
        line.new ≡ altered (λ v b. shade v) 0 width line.old }
    ensures tallies_after { let width = length tallies.old in
        let columns = Columns.Bins first cells width in
        tallies.new ≡ row_tallies columns tape.now.tape }
{
    bins::row_tallies(tape, &mut *tallies, first, cells);
    bins::shade_bins(line, &*tallies, cells);
    columns::tallies::units(&*tallies)
}

// A row in cells: its symbols, the shades of its line and its units.
fn shade_in_cells(
    tape: &SoundTape<'_>,
    line: &mut [u8],
    store: &mut [u8],
    first: u64,
    px: usize,
    x0: usize,
) -> u64
    requires { (0 < px) × (x0 + length store.old * px ≤ length line.old) × (tape.now.count ≤ max_symbols) }
    ensures value { let cells = length store.old in
        let columns = Columns.Cells first cells px x0 in
        result ≡ row_units columns tape.now.tape }
    ensures line_after { let cells = length store.old in
        let columns = Columns.Cells first cells px x0 in
        line.new ≡ altered (λ x b. shade_at columns tape.now.count tape.now.tape x) 0 (length line.old) line.old }
    ensures store_after { let cells = length store.old in
        store.new ≡ symbols_from tape.now.tape first cells }
{
    tape.fill_window(first, &mut *store);
    cells::shade_cells(line, &*store, tape.symbols as u32, px, x0);
    cells::count_written(&*store)
}

// What goes over the shades of a line: swept, then the head.
pub fn mark_line(line: &mut [u8], window: Window, head: u64, swept: Option<Pair>)
    requires { end_pixel window.columns ≤ length line.old }
    ensures { line.new ≡ altered_on (λ b. byte.head) (head_at window.columns head) (altered_on swept_over (swept_pixels window.columns swept) line.old) }
{
    marks::draw_swept(line, marks::swept_pixels(window, swept));
    marks::draw_head(line, window.head(head));
}

// A row's symbols or tallies, the shades of its line and its units.
pub fn shade_row(
    tape: &SoundTape<'_>,
    columns: Columns,
    width: u64,
    line: &mut [u8],
    store: &mut [u8],
    tallies: &mut [u64],
) -> u64
    requires sound { (1 ≤ width) × (width ≤ max_side) × (sound_in width columns ≡ true) × (width ≤ length line.old) × (tape.now.count ≤ max_symbols) }
    requires lent { (length store.old ≡ stored_cells columns) × (length tallies.old ≡ tallies_in columns) }
    ensures value { result ≡ row_units columns tape.now.tape }
    ensures line_after { line.new ≡ altered (λ x b. shade_at columns tape.now.count tape.now.tape x) 0 width line.old }
    ensures store_after { store.new ≡ row_symbols columns tape.now.tape }
    ensures tallies_after { tallies.new ≡ row_tallies columns tape.now.tape }
{
    let line = &mut line[..width as usize];
    match columns {
        Columns::Cells { first, px, x0, .. } => shade_in_cells(
            tape,
            &mut *line,
            &mut *store,
            first,
            px as usize,
            x0 as usize,
        ),
        Columns::Bins { first, cells, .. } => shade_in_bins(
            tape,
            &mut *line,
            &mut *tallies,
            first,
            cells,
        ),
    }
}
