// The calls of the crate spacetime under names that C can call (include/spacetime.h), each with the same promise.
// tools/exports.sh writes this file.
#![tactic(auto)]

ghost use Rattle.std.specs.Prelude.{◌≡◌, ◌+◌, ◌<◌, ◌∷◌, [], length};
ghost use Rattle.refusal.specs.Numbers.{said_number, answered, put_by, kept_by};
ghost use Rattle.position.specs.Position.{offset_of};
ghost use Rattle.tape.specs.Tape.{tape_of};
ghost use Rattle.tape.specs.Checks.{tape_refusal};
ghost use Rattle.tape.specs.Calls.{get_said, get_call, window_call};
ghost use Rattle.joining.specs.Calls.{join_input, join_call};
ghost use Rattle.colours.specs.Mix.{mix_of};
ghost use Rattle.colours.specs.Rgba.{output_refusal, rgba_out};
ghost use Rattle.spacetime.specs.Door.{row_words, row_at_door};
ghost use Rattle.spacetime.specs.Bytes.{rgb_at, bytes_of, palette_of};
ghost use Rattle.grid.specs.Orders.{size_of, pair_of, exact_order, overview_order};
ghost use Rattle.grid.specs.Fit.{fit_exact, fit_overview, fit_said};
ghost use Rattle.grid.specs.Opening.{open_input, open_call, open_said, open_grid};
ghost use Rattle.grid.specs.Asking.{row_lines_call, found_values, lines_said, range_call, range_said};
ghost use Rattle.picture.specs.Upright.{upright_call, upright_said};
ghost use Rattle.picture.specs.Equal.{lent, equal_call, equal_said};
ghost use Rattle.picture.specs.Clicks.{locate_call, locate_said};
ghost use Rattle.page.specs.Page.{page_refusal, page_out};
ghost use Rattle.words.specs.Words.{words_of, grid_of, fit_words};

use words::{RECORD_WORDS, Words};

#[unsafe(no_mangle)]
pub extern "C" fn spacetime_get<'a>(
    symbols: u32,
    head: i64,
    cur: u8,
    left_symbols: &'a [u8],
    left_lengths: &'a [u64],
    right_symbols: &'a [u8],
    right_lengths: &'a [u64],
    position: i64,
    symbol: &mut [u8; 1],
) -> u32
    ensures value { let tape = tape_of head cur left_symbols.now left_lengths.now right_symbols.now right_lengths.now in
        let got = get_said (get_call symbols tape (offset_of position)) in
        result ≡ got.0 }
    ensures symbol_after { let tape = tape_of head cur left_symbols.now left_lengths.now right_symbols.now right_lengths.now in
        let got = get_said (get_call symbols tape (offset_of position)) in
        symbol.new ≡ kept_by result symbol.old (got.1 ∷ []) }
{
    spacetime::spacetime_get(
        symbols,
        head,
        cur,
        left_symbols,
        left_lengths,
        right_symbols,
        right_lengths,
        position,
        symbol,
    )
}

#[unsafe(no_mangle)]
pub extern "C" fn spacetime_window<'a>(
    symbols: u32,
    head: i64,
    cur: u8,
    left_symbols: &'a [u8],
    left_lengths: &'a [u64],
    right_symbols: &'a [u8],
    right_lengths: &'a [u64],
    from: i64,
    out: &mut [u8],
) -> u32
    ensures value { let tape = tape_of head cur left_symbols.now left_lengths.now right_symbols.now right_lengths.now in
        result ≡ said_number (tape_refusal symbols tape) }
    ensures out_after { let tape = tape_of head cur left_symbols.now left_lengths.now right_symbols.now right_lengths.now in
        out.new ≡ window_call symbols tape (offset_of from) out.old }
{
    spacetime::spacetime_window(
        symbols,
        head,
        cur,
        left_symbols,
        left_lengths,
        right_symbols,
        right_lengths,
        from,
        out,
    )
}

#[unsafe(no_mangle)]
pub extern "C" fn spacetime_join(
    symbols: u32,
    head: i64,
    cur: u8,
    left_symbols: &mut [u8],
    left_lengths: &mut [u64],
    right_symbols: &mut [u8],
    right_lengths: &mut [u64],
    freed: &mut [u64; 2],
) -> u32
    ensures value { let tape = tape_of head cur left_symbols.old left_lengths.old right_symbols.old right_lengths.old in
        let out = join_call (join_input symbols tape freed.old) in
        result ≡ said_number out.refusal }
    ensures freed_after { let tape = tape_of head cur left_symbols.old left_lengths.old right_symbols.old right_lengths.old in
        let out = join_call (join_input symbols tape freed.old) in
        freed.new ≡ out.freed }
    ensures left_after { let tape = tape_of head cur left_symbols.old left_lengths.old right_symbols.old right_lengths.old in
        let out = join_call (join_input symbols tape freed.old) in
        (left_symbols.new ≡ out.tape.left.symbols) × (left_lengths.new ≡ out.tape.left.lengths) }
    ensures right_after { let tape = tape_of head cur left_symbols.old left_lengths.old right_symbols.old right_lengths.old in
        let out = join_call (join_input symbols tape freed.old) in
        (right_symbols.new ≡ out.tape.right.symbols) × (right_lengths.new ≡ out.tape.right.lengths) }
{
    spacetime::spacetime_join(
        symbols,
        head,
        cur,
        left_symbols,
        left_lengths,
        right_symbols,
        right_lengths,
        freed,
    )
}

#[unsafe(no_mangle)]
pub extern "C" fn spacetime_rgba(index: &[u8], palette: &[u8; 9], out: &mut [u8]) -> u32
    ensures value { result ≡ said_number (output_refusal (length index.now) (length out.old)) }
    ensures out_after { out.new ≡ rgba_out (palette_of palette.now) index.now out.old }
{
    spacetime::spacetime_rgba(index, palette, out)
}

#[unsafe(no_mangle)]
pub extern "C" fn spacetime_mix(from: &[u8; 3], to: &[u8; 3], t: f64, out: &mut [u8; 3])
    ensures { out.new ≡ bytes_of (mix_of (rgb_at from.now 0) (rgb_at to.now 0) t) }
{
    spacetime::spacetime_mix(from, to, t, out)
}

#[unsafe(no_mangle)]
pub extern "C" fn spacetime_open(
    record: &mut [u64; RECORD_WORDS],
    index: &mut [u8],
    store: &mut [u8],
) -> u32
    ensures value { let grid = grid_of «record».old in
        let out = open_call (open_input grid index.old store.old) in
        result ≡ (open_said out.answer).0 }
    ensures record_after { let grid = grid_of «record».old in
        let out = open_call (open_input grid index.old store.old) in
        «record».new ≡ kept_by result «record».old (words_of (open_grid out.answer grid)) }
    ensures index_after { let grid = grid_of «record».old in
        let out = open_call (open_input grid index.old store.old) in
        index.new ≡ out.index }
    ensures store_after { let grid = grid_of «record».old in
        let out = open_call (open_input grid index.old store.old) in
        store.new ≡ out.store }
{
    spacetime::spacetime_open(record, index, store)
}

#[unsafe(no_mangle)]
pub extern "C" fn spacetime_row<'a>(
    record: &mut [u64; RECORD_WORDS],
    index: &mut [u8],
    store: &mut [u8],
    tallies: &mut [u64],
    head: i64,
    cur: u8,
    left_symbols: &'a [u8],
    left_lengths: &'a [u64],
    right_symbols: &'a [u8],
    right_lengths: &'a [u64],
    has_swept: bool,
    swept_low: i64,
    swept_high: i64,
    units: &mut [u64; 1],
) -> u32
    ensures value { let tape = tape_of head cur left_symbols.now left_lengths.now right_symbols.now right_lengths.now in
        let swept = pair_of has_swept swept_low swept_high in
        let left = row_at_door (row_words «record».old index.old store.old tallies.old tape swept) in
        result ≡ left.number }
    ensures record_after { let tape = tape_of head cur left_symbols.now left_lengths.now right_symbols.now right_lengths.now in
        let swept = pair_of has_swept swept_low swept_high in
        let left = row_at_door (row_words «record».old index.old store.old tallies.old tape swept) in
        «record».new ≡ left.words }
    ensures lent_after { let tape = tape_of head cur left_symbols.now left_lengths.now right_symbols.now right_lengths.now in
        let swept = pair_of has_swept swept_low swept_high in
        let left = row_at_door (row_words «record».old index.old store.old tallies.old tape swept) in
        (index.new ≡ left.index) × (store.new ≡ left.store) × (tallies.new ≡ left.tallies) }
    ensures units_after { let tape = tape_of head cur left_symbols.now left_lengths.now right_symbols.now right_lengths.now in
        let swept = pair_of has_swept swept_low swept_high in
        let left = row_at_door (row_words «record».old index.old store.old tallies.old tape swept) in
        units.new ≡ kept_by result units.old (left.units ∷ []) }
{
    spacetime::spacetime_row(
        record,
        index,
        store,
        tallies,
        head,
        cur,
        left_symbols,
        left_lengths,
        right_symbols,
        right_lengths,
        has_swept,
        swept_low,
        swept_high,
        units,
    )
}

#[unsafe(no_mangle)]
pub extern "C" fn spacetime_row_lines(
    record: &[u64; RECORD_WORDS],
    row: u32,
    found: &mut [u64; 4],
) -> u32
    ensures value { let answer = lines_said (row_lines_call (grid_of «record».now) row) in
        result ≡ answer.0 }
    ensures found_after { let answer = lines_said (row_lines_call (grid_of «record».now) row) in
        found.new ≡ kept_by result found.old answer.1 }
{
    spacetime::spacetime_row_lines(record, row, found)
}

#[unsafe(no_mangle)]
pub extern "C" fn spacetime_range(record: &[u64; RECORD_WORDS], cells: &mut [i64; 2]) -> u32
    ensures value { let answer = range_said (range_call (grid_of «record».now)) in
        result ≡ answer.0 }
    ensures cells_after { let answer = range_said (range_call (grid_of «record».now)) in
        cells.new ≡ kept_by result cells.old answer.1 }
{
    spacetime::spacetime_range(record, cells)
}

#[unsafe(no_mangle)]
pub extern "C" fn spacetime_locate(
    record: &[u64; RECORD_WORDS],
    store: &[u8],
    x: u32,
    y: u32,
    found: &mut [u64; 4],
    cells: &mut [i64; 2],
) -> u32
    ensures value { let answer = locate_said (locate_call (grid_of «record».now) store.now x y) in
        result ≡ answer.0 }
    ensures found_after { let answer = locate_said (locate_call (grid_of «record».now) store.now x y) in
        found.new ≡ kept_by result found.old answer.1.0 }
    ensures cells_after { let answer = locate_said (locate_call (grid_of «record».now) store.now x y) in
        cells.new ≡ kept_by result cells.old answer.1.1 }
{
    spacetime::spacetime_locate(record, store, x, y, found, cells)
}

#[unsafe(no_mangle)]
pub extern "C" fn spacetime_fit_overview(
    width: u32,
    height: u32,
    symbols: u32,
    total: u64,
    extent_low: i64,
    extent_high: i64,
    record: &mut [u64; RECORD_WORDS],
) -> u32
    ensures value { let fit = fit_overview (overview_order width height symbols total extent_low extent_high) in
        result ≡ (fit_said fit).0 }
    ensures record_after { let fit = fit_overview (overview_order width height symbols total extent_low extent_high) in
        «record».new ≡ fit_words fit «record».old }
{
    spacetime::spacetime_fit_overview(
        width,
        height,
        symbols,
        total,
        extent_low,
        extent_high,
        record,
    )
}

#[unsafe(no_mangle)]
pub extern "C" fn spacetime_fit_exact(
    width: u32,
    height: u32,
    symbols: u32,
    first_step: u64,
    has_cell_px: bool,
    cell_px: u32,
    heads: &[i64],
    has_written: bool,
    written_low: i64,
    written_high: i64,
    halted: bool,
    record: &mut [u64; RECORD_WORDS],
) -> u32
    ensures value { let size = size_of has_cell_px cell_px in
        let written = pair_of has_written written_low written_high in
        let fit = fit_exact (exact_order width height symbols first_step size heads.now written halted) in
        result ≡ (fit_said fit).0 }
    ensures record_after { let size = size_of has_cell_px cell_px in
        let written = pair_of has_written written_low written_high in
        let fit = fit_exact (exact_order width height symbols first_step size heads.now written halted) in
        «record».new ≡ fit_words fit «record».old }
{
    spacetime::spacetime_fit_exact(
        width,
        height,
        symbols,
        first_step,
        has_cell_px,
        cell_px,
        heads,
        has_written,
        written_low,
        written_high,
        halted,
        record,
    )
}

#[unsafe(no_mangle)]
pub extern "C" fn spacetime_upright<'a>(
    record: &[u64; RECORD_WORDS],
    index: &'a [u8],
    store: &'a [u8],
    column: u32,
    first_row: u32,
    last_row: u32,
    answer: &mut [u64; 1],
) -> u32
    ensures value { let call = upright_call (grid_of «record».now) index.now store.now column first_row last_row in
        result ≡ (upright_said call).0 }
    ensures answer_after { let call = upright_call (grid_of «record».now) index.now store.now column first_row last_row in
        answer.new ≡ kept_by result answer.old (upright_said call).1 }
{
    spacetime::spacetime_upright(record, index, store, column, first_row, last_row, answer)
}

#[unsafe(no_mangle)]
pub extern "C" fn spacetime_page(record: &[u64; RECORD_WORDS], index: &[u8], page: &mut [u8]) -> u32
    ensures value { let grid = grid_of «record».now in
        result ≡ said_number (page_refusal grid (length index.now) (length page.old)) }
    ensures page_after { let grid = grid_of «record».now in
        page.new ≡ page_out grid index.now page.old }
{
    spacetime::spacetime_page(record, index, page)
}

#[unsafe(no_mangle)]
pub extern "C" fn spacetime_equal<'a, 'b>(
    record_a: &[u64; RECORD_WORDS],
    index_a: &'a [u8],
    store_a: &'a [u8],
    record_b: &[u64; RECORD_WORDS],
    index_b: &'b [u8],
    store_b: &'b [u8],
    answer: &mut [u64; 1],
) -> u32
    ensures value { let first = lent (grid_of record_a.now) index_a.now store_a.now in
        let second = lent (grid_of record_b.now) index_b.now store_b.now in
        let call = equal_call first second in
        result ≡ (equal_said call).0 }
    ensures answer_after { let first = lent (grid_of record_a.now) index_a.now store_a.now in
        let second = lent (grid_of record_b.now) index_b.now store_b.now in
        let call = equal_call first second in
        answer.new ≡ kept_by result answer.old (equal_said call).1 }
{
    spacetime::spacetime_equal(
        record_a, index_a, store_a, record_b, index_b, store_b, answer,
    )
}
