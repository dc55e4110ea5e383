// Drawing a row that is not refused (RULES, Rows). The lent slices and their lengths are parameters and clauses, as in line; grid and tape are two, since
// each is read for itself, and a struct of both would be taken apart here.
ghost use Rattle.std.specs.Prelude.{◌≡◌, ◌+◌, ◌*◌, ◌≤◌, ◌<◌, ◌++◌, length, drop};
ghost use Rattle.line.specs.Altered.{repeated};
ghost use Rattle.grid.specs.Memory.{stored_cells};
ghost use Rattle.rows.specs.RowCall.{drawn_index, drawn_store};
ghost use Rattle.line.specs.Line.{tallies_in, row_tallies, row_symbols, row_units, line_of};

use columns::Pair;
use grid::soundness::SoundGrid;
use tape::SoundTape;

// A row's lines, from its first on: that is shaded, marked and copied down. The row's symbols or tallies and its units besides.
fn draw_lines(
    sound: SoundGrid,
    tape: &SoundTape<'_>,
    swept: Option<Pair>,
    band: &mut [u8],
    store: &mut [u8],
    tallies: &mut [u64],
) -> u64
    requires room { sound.row_px * sound.width ≤ length band.old }
    requires lent { (length store.old ≡ stored_cells sound.columns) × (length tallies.old ≡ tallies_in sound.columns) }
    requires alphabet { tape.now.count ≡ sound.symbols }
    ensures value { result ≡ row_units sound.columns tape.now.tape }
    ensures band_after { let lines = repeated sound.row_px (line_of sound tape.now.tape swept) in
        band.new ≡ lines ++ drop (sound.row_px * sound.width) band.old }
    ensures store_after { store.new ≡ row_symbols sound.columns tape.now.tape }
    ensures tallies_after { tallies.new ≡ row_tallies sound.columns tape.now.tape }
{
    let grid = sound.grid;
    let units = line::shade_row(tape, grid.columns, grid.width, band, store, tallies);
    line::mark_line(band, sound.window(), tape.head.position, swept);
    line::copying::copy_down(band, grid.width as usize, grid.row_px as usize);
    units
}

// Draws the next row of a picture whose call was not refused: onto its lines of the index and its part of the store.
pub(crate) fn draw_row(
    sound: SoundGrid,
    index: &mut [u8],
    store: &mut [u8],
    tallies: &mut [u64],
    tape: &SoundTape<'_>,
    swept: Option<Pair>,
) -> u64
    requires room { (sound.progress.done < sound.rows) × (length index.old ≡ sound.width * sound.height) }
    requires lent { (length store.old ≡ sound.rows * stored_cells sound.columns) × (length tallies.old ≡ tallies_in sound.columns) }
    requires alphabet { tape.now.count ≡ sound.symbols }
    ensures value { result ≡ row_units sound.columns tape.now.tape }
    ensures index_after { index.new ≡ drawn_index sound tape.now.tape swept index.old }
    ensures store_after { store.new ≡ drawn_store sound tape.now.tape store.old }
    ensures tallies_after { tallies.new ≡ row_tallies sound.columns tape.now.tape }
{
    let grid = sound.grid;
    let count = grid::memory::stored_cells(grid.columns);
    let at = (grid.progress.done * grid.row_px * grid.width) as usize;
    let from = (grid.progress.done * count) as usize;
    let to = from + count as usize;
    draw_lines(
        sound,
        tape,
        swept,
        &mut index[at..],
        &mut store[from..to],
        tallies,
    )
}
