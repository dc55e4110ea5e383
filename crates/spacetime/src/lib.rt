// The calls of the interface (include/spacetime.h); the crate spacetime_c gives them to C. Each takes its words apart, calls one
// function of the crates below and says what it answered; nothing else is here. A call answers 0 or the refusal's number, and
// writes only where it answers 0.
#![tactic(auto)]

ghost use Rattle.std.specs.Prelude.{◌≡◌, ◌+◌, ◌<◌, ◌∷◌, [], length};
ghost use Rattle.refusal.specs.Numbers.{said_number, answered, put_by, kept_by};
ghost use Rattle.position.specs.Position.{offset_of};
ghost use Rattle.tape.specs.Tape.{tape_of};
ghost use Rattle.tape.specs.Checks.{tape_refusal};
ghost use Rattle.tape.specs.Calls.{get_said, get_call, window_call};
ghost use Rattle.joining.specs.Calls.{join_input, join_call};
ghost use Rattle.colours.specs.Mix.{mix_of};
ghost use Rattle.colours.specs.Rgba.{output_refusal, rgba_out};
ghost use Rattle.spacetime.specs.Door.{row_words, row_at_door};
ghost use Rattle.spacetime.specs.Bytes.{rgb_at, bytes_of, palette_of};
ghost use Rattle.grid.specs.Orders.{size_of, pair_of, exact_order, overview_order};
ghost use Rattle.grid.specs.Fit.{fit_exact, fit_overview, fit_said};
ghost use Rattle.grid.specs.Opening.{open_input, open_call, open_said, open_grid};
ghost use Rattle.grid.specs.Asking.{row_lines_call, found_values, lines_said, range_call, range_said};
ghost use Rattle.picture.specs.Upright.{upright_call, upright_said};
ghost use Rattle.picture.specs.Equal.{lent, equal_call, equal_said};
ghost use Rattle.picture.specs.Clicks.{locate_call, locate_said};
ghost use Rattle.page.specs.Page.{page_refusal, page_out};
ghost use Rattle.words.specs.Words.{words_of, grid_of, fit_words};

use colours::{Palette, Rgb};
use columns::Pair;
use grid::Grid;
use grid::asking::{Ends, Lines};
use grid::exact::ExactOrder;
use grid::overview::Overview;
use picture::Lent;
use picture::clicks::Location;
use picture::uprights::Strip;
use refusal::Refusal;
use tape::{Head, Tape};
use words::{RECORD_WORDS, Words};

// The number of an answer that gives nothing.
fn number(answer: Result<(), Refusal>) -> u32
    ensures { result ≡ answered answer }
{
    match answer {
        Ok(()) => 0,
        Err(refusal) => u32::from(refusal),
    }
}

// The number of an answer. What it gives is put in a place.
fn put<T: Copy>(answer: Result<T, Refusal>, place: &mut T) -> u32
    ensures value { result ≡ answered answer }
    ensures place_after { place.new ≡ put_by answer place.old }
{
    match answer {
        Ok(given) => {
            *place = given;
            0
        }
        Err(refusal) => u32::from(refusal),
    }
}

// A value as an array of it alone.
fn alone<T: Copy>(value: T) -> [T; 1]
    ensures { result ≡ value ∷ [] }
{
    [value]
}

pub fn spacetime_get<'a>(
    symbols: u32,
    head: i64,
    cur: u8,
    left_symbols: &'a [u8],
    left_lengths: &'a [u64],
    right_symbols: &'a [u8],
    right_lengths: &'a [u64],
    position: i64,
    symbol: &mut [u8; 1],
) -> u32
    ensures value { let tape = tape_of head cur left_symbols.now left_lengths.now right_symbols.now right_lengths.now in
        let got = get_said (get_call symbols tape (offset_of position)) in
        result ≡ got.0 }
    ensures symbol_after { let tape = tape_of head cur left_symbols.now left_lengths.now right_symbols.now right_lengths.now in
        let got = get_said (get_call symbols tape (offset_of position)) in
        symbol.new ≡ kept_by result symbol.old (got.1 ∷ []) }
{
    let tape = Tape::new(
        Head::new(head, cur),
        left_symbols,
        left_lengths,
        right_symbols,
        right_lengths,
    );
    let got = tape.get(u64::from(symbols), position::offset(position));
    put(got.map(alone), symbol)
}

pub fn spacetime_window<'a>(
    symbols: u32,
    head: i64,
    cur: u8,
    left_symbols: &'a [u8],
    left_lengths: &'a [u64],
    right_symbols: &'a [u8],
    right_lengths: &'a [u64],
    from: i64,
    out: &mut [u8],
) -> u32
    ensures value { let tape = tape_of head cur left_symbols.now left_lengths.now right_symbols.now right_lengths.now in
        result ≡ said_number (tape_refusal symbols tape) }
    ensures out_after { let tape = tape_of head cur left_symbols.now left_lengths.now right_symbols.now right_lengths.now in
        out.new ≡ window_call symbols tape (offset_of from) out.old }
{
    let tape = Tape::new(
        Head::new(head, cur),
        left_symbols,
        left_lengths,
        right_symbols,
        right_lengths,
    );
    number(tape.window(u64::from(symbols), position::offset(from), out))
}

#[tactic(auto, unfolding(joining::specs::Calls::join_call))]
pub fn spacetime_join(
    symbols: u32,
    head: i64,
    cur: u8,
    left_symbols: &mut [u8],
    left_lengths: &mut [u64],
    right_symbols: &mut [u8],
    right_lengths: &mut [u64],
    freed: &mut [u64; 2],
) -> u32
    ensures value { let tape = tape_of head cur left_symbols.old left_lengths.old right_symbols.old right_lengths.old in
        let out = join_call (join_input symbols tape freed.old) in
        result ≡ said_number out.refusal }
    ensures freed_after { let tape = tape_of head cur left_symbols.old left_lengths.old right_symbols.old right_lengths.old in
        let out = join_call (join_input symbols tape freed.old) in
        freed.new ≡ out.freed }
    ensures left_after { let tape = tape_of head cur left_symbols.old left_lengths.old right_symbols.old right_lengths.old in
        let out = join_call (join_input symbols tape freed.old) in
        (left_symbols.new ≡ out.tape.left.symbols) × (left_lengths.new ≡ out.tape.left.lengths) }
    ensures right_after { let tape = tape_of head cur left_symbols.old left_lengths.old right_symbols.old right_lengths.old in
        let out = join_call (join_input symbols tape freed.old) in
        (right_symbols.new ≡ out.tape.right.symbols) × (right_lengths.new ≡ out.tape.right.lengths) }
{
    let answer = joining::join(
        u64::from(symbols),
        Head::new(head, cur),
        left_symbols,
        left_lengths,
        right_symbols,
        right_lengths,
    );
    put(answer, freed)
}

// The colour whose three bytes are from a place on.
fn rgb_at(bytes: &[u8], at: usize) -> Rgb
    requires { at + 2 < length bytes.now }
    ensures { result ≡ rgb_at bytes.now at }
{
    Rgb {
        red: bytes[at],
        green: bytes[at + 1],
        blue: bytes[at + 2],
    }
}

fn palette_of(bytes: &[u8; 9]) -> Palette
    ensures { result ≡ palette_of bytes.now }
{
    Palette {
        background: rgb_at(bytes, 0),
        ink: rgb_at(bytes, 3),
        accent: rgb_at(bytes, 6),
    }
}

pub fn spacetime_rgba(index: &[u8], palette: &[u8; 9], out: &mut [u8]) -> u32
    ensures value { result ≡ said_number (output_refusal (length index.now) (length out.old)) }
    ensures out_after { out.new ≡ rgba_out (palette_of palette.now) index.now out.old }
{
    number(colours::rgba(index, palette_of(palette), out))
}

pub fn spacetime_mix(from: &[u8; 3], to: &[u8; 3], t: f64, out: &mut [u8; 3])
    ensures { out.new ≡ bytes_of (mix_of (rgb_at from.now 0) (rgb_at to.now 0) t) }
{
    let mixed = colours::mix(rgb_at(from, 0), rgb_at(to, 0), t);
    *out = [mixed.red, mixed.green, mixed.blue];
}

// The words of a picture's record, where it is the answer.
fn put_record(answer: Result<Grid, Refusal>, record: &mut Words) -> u32
    ensures value { result ≡ answered answer }
    ensures record_after { «record».new ≡ fit_words answer «record».old }
{
    put(answer.map(words::words_of), record)
}

pub fn spacetime_open(record: &mut [u64; RECORD_WORDS], index: &mut [u8], store: &mut [u8]) -> u32
    ensures value { let grid = grid_of «record».old in
        let out = open_call (open_input grid index.old store.old) in
        result ≡ (open_said out.answer).0 }
    ensures record_after { let grid = grid_of «record».old in
        let out = open_call (open_input grid index.old store.old) in
        «record».new ≡ kept_by result «record».old (words_of (open_grid out.answer grid)) }
    ensures index_after { let grid = grid_of «record».old in
        let out = open_call (open_input grid index.old store.old) in
        index.new ≡ out.index }
    ensures store_after { let grid = grid_of «record».old in
        let out = open_call (open_input grid index.old store.old) in
        store.new ≡ out.store }
{
    put_record(
        grid::opening::open(words::grid_of(record), index, store),
        record,
    )
}

#[tactic(auto, unfolding(crate::specs::Door::row_at_door))]
pub fn spacetime_row<'a>(
    record: &mut [u64; RECORD_WORDS],
    index: &mut [u8],
    store: &mut [u8],
    tallies: &mut [u64],
    head: i64,
    cur: u8,
    left_symbols: &'a [u8],
    left_lengths: &'a [u64],
    right_symbols: &'a [u8],
    right_lengths: &'a [u64],
    has_swept: bool,
    swept_low: i64,
    swept_high: i64,
    units: &mut [u64; 1],
) -> u32
    ensures value { let tape = tape_of head cur left_symbols.now left_lengths.now right_symbols.now right_lengths.now in
        let swept = pair_of has_swept swept_low swept_high in
        let left = row_at_door (row_words «record».old index.old store.old tallies.old tape swept) in
        result ≡ left.number }
    ensures record_after { let tape = tape_of head cur left_symbols.now left_lengths.now right_symbols.now right_lengths.now in
        let swept = pair_of has_swept swept_low swept_high in
        let left = row_at_door (row_words «record».old index.old store.old tallies.old tape swept) in
        «record».new ≡ left.words }
    ensures lent_after { let tape = tape_of head cur left_symbols.now left_lengths.now right_symbols.now right_lengths.now in
        let swept = pair_of has_swept swept_low swept_high in
        let left = row_at_door (row_words «record».old index.old store.old tallies.old tape swept) in
        (index.new ≡ left.index) × (store.new ≡ left.store) × (tallies.new ≡ left.tallies) }
    ensures units_after { let tape = tape_of head cur left_symbols.now left_lengths.now right_symbols.now right_lengths.now in
        let swept = pair_of has_swept swept_low swept_high in
        let left = row_at_door (row_words «record».old index.old store.old tallies.old tape swept) in
        units.new ≡ kept_by result units.old (left.units ∷ []) }
{
    let tape = Tape::new(
        Head::new(head, cur),
        left_symbols,
        left_lengths,
        right_symbols,
        right_lengths,
    );
    let swept = grid::fitting::pair_of(has_swept, swept_low, swept_high);
    match rows::row(words::grid_of(record), index, store, tallies, &tape, swept) {
        Ok(drawn) => {
            *record = words::words_of(drawn.grid);
            *units = [drawn.units];
            0
        }
        Err(refusal) => u32::from(refusal),
    }
}

// What is found of a row, as C takes it. A function and no `From`, as in words: the list and what it is made of are of other crates.
fn line_words(lines: Option<Lines>) -> [u64; 4]
    ensures { result ≡ found_values lines }
{
    match lines {
        Some(lines) => [1, lines.step, lines.from, lines.to],
        None => [0, 0, 0, 0],
    }
}

pub fn spacetime_row_lines(record: &[u64; RECORD_WORDS], row: u32, found: &mut [u64; 4]) -> u32
    ensures value { let answer = lines_said (row_lines_call (grid_of «record».now) row) in
        result ≡ answer.0 }
    ensures found_after { let answer = lines_said (row_lines_call (grid_of «record».now) row) in
        found.new ≡ kept_by result found.old answer.1 }
{
    let lines = grid::asking::row_lines(words::grid_of(record), u64::from(row));
    put(lines.map(line_words), found)
}

// Both ends, as C takes them: a function for the same reason.
fn both(ends: Ends) -> [i64; 2]
    ensures { result ≡ ends.low ∷ ends.high ∷ [] }
{
    [ends.low, ends.high]
}

pub fn spacetime_range(record: &[u64; RECORD_WORDS], cells: &mut [i64; 2]) -> u32
    ensures value { let answer = range_said (range_call (grid_of «record».now)) in
        result ≡ answer.0 }
    ensures cells_after { let answer = range_said (range_call (grid_of «record».now)) in
        cells.new ≡ kept_by result cells.old answer.1 }
{
    let range = grid::asking::range(words::grid_of(record));
    put(range.map(both), cells)
}

pub fn spacetime_locate(
    record: &[u64; RECORD_WORDS],
    store: &[u8],
    x: u32,
    y: u32,
    found: &mut [u64; 4],
    cells: &mut [i64; 2],
) -> u32
    ensures value { let answer = locate_said (locate_call (grid_of «record».now) store.now x y) in
        result ≡ answer.0 }
    ensures found_after { let answer = locate_said (locate_call (grid_of «record».now) store.now x y) in
        found.new ≡ kept_by result found.old answer.1.0 }
    ensures cells_after { let answer = locate_said (locate_call (grid_of «record».now) store.now x y) in
        cells.new ≡ kept_by result cells.old answer.1.1 }
{
    let answer = picture::clicks::locate(words::grid_of(record), store, u64::from(x), u64::from(y));
    match answer {
        Ok(
            Some(
                Location::Cell {
                    step,
                    position,
                    symbol,
                },
            ),
        ) => {
            *found = [1, step, 1, u64::from(symbol)];
            *cells = [position, position];
            0
        }
        Ok(Some(Location::Bin { step, from, to })) => {
            *found = [1, step, 0, 0];
            *cells = [from, to];
            0
        }
        Ok(None) => {
            *found = [0, 0, 0, 0];
            *cells = [0, 0];
            0
        }
        Err(refusal) => u32::from(refusal),
    }
}

pub fn spacetime_fit_overview(
    width: u32,
    height: u32,
    symbols: u32,
    total: u64,
    extent_low: i64,
    extent_high: i64,
    record: &mut [u64; RECORD_WORDS],
) -> u32
    ensures value { let fit = fit_overview (overview_order width height symbols total extent_low extent_high) in
        result ≡ (fit_said fit).0 }
    ensures record_after { let fit = fit_overview (overview_order width height symbols total extent_low extent_high) in
        «record».new ≡ fit_words fit «record».old }
{
    let order = Overview {
        width: u64::from(width),
        height: u64::from(height),
        symbols: u64::from(symbols),
        total,
        extent: Pair {
            low: position::offset(extent_low),
            high: position::offset(extent_high),
        },
    };
    put_record(grid::fitting::fit_overview(order), record)
}

pub fn spacetime_fit_exact(
    width: u32,
    height: u32,
    symbols: u32,
    first_step: u64,
    has_cell_px: bool,
    cell_px: u32,
    heads: &[i64],
    has_written: bool,
    written_low: i64,
    written_high: i64,
    halted: bool,
    record: &mut [u64; RECORD_WORDS],
) -> u32
    ensures value { let size = size_of has_cell_px cell_px in
        let written = pair_of has_written written_low written_high in
        let fit = fit_exact (exact_order width height symbols first_step size heads.now written halted) in
        result ≡ (fit_said fit).0 }
    ensures record_after { let size = size_of has_cell_px cell_px in
        let written = pair_of has_written written_low written_high in
        let fit = fit_exact (exact_order width height symbols first_step size heads.now written halted) in
        «record».new ≡ fit_words fit «record».old }
{
    let order = ExactOrder {
        width: u64::from(width),
        height: u64::from(height),
        symbols: u64::from(symbols),
        first_step,
        size: has_cell_px.then_some(cell_px),
        written: grid::fitting::pair_of(has_written, written_low, written_high),
        halted,
    };
    put_record(grid::fitting::fit_exact(order, heads), record)
}

pub fn spacetime_upright<'a>(
    record: &[u64; RECORD_WORDS],
    index: &'a [u8],
    store: &'a [u8],
    column: u32,
    first_row: u32,
    last_row: u32,
    answer: &mut [u64; 1],
) -> u32
    ensures value { let call = upright_call (grid_of «record».now) index.now store.now column first_row last_row in
        result ≡ (upright_said call).0 }
    ensures answer_after { let call = upright_call (grid_of «record».now) index.now store.now column first_row last_row in
        answer.new ≡ kept_by result answer.old (upright_said call).1 }
{
    let lent = Lent {
        grid: words::grid_of(record),
        index,
        store,
    };
    let strip = Strip {
        column: u64::from(column),
        first: u64::from(first_row),
        last: u64::from(last_row),
    };
    put(lent.upright(strip).map(u64::from).map(alone), answer)
}

pub fn spacetime_page(record: &[u64; RECORD_WORDS], index: &[u8], page: &mut [u8]) -> u32
    ensures value { let grid = grid_of «record».now in
        result ≡ said_number (page_refusal grid (length index.now) (length page.old)) }
    ensures page_after { let grid = grid_of «record».now in
        page.new ≡ page_out grid index.now page.old }
{
    number(page::write(words::grid_of(record), index, page))
}

pub fn spacetime_equal<'a, 'b>(
    record_a: &[u64; RECORD_WORDS],
    index_a: &'a [u8],
    store_a: &'a [u8],
    record_b: &[u64; RECORD_WORDS],
    index_b: &'b [u8],
    store_b: &'b [u8],
    answer: &mut [u64; 1],
) -> u32
    ensures value { let first = lent (grid_of record_a.now) index_a.now store_a.now in
        let second = lent (grid_of record_b.now) index_b.now store_b.now in
        let call = equal_call first second in
        result ≡ (equal_said call).0 }
    ensures answer_after { let first = lent (grid_of record_a.now) index_a.now store_a.now in
        let second = lent (grid_of record_b.now) index_b.now store_b.now in
        let call = equal_call first second in
        answer.new ≡ kept_by result answer.old (equal_said call).1 }
{
    let a = Lent {
        grid: words::grid_of(record_a),
        index: index_a,
        store: store_a,
    };
    let b = Lent {
        grid: words::grid_of(record_b),
        index: index_b,
        store: store_b,
    };
    put(a.equals(&b).map(u64::from).map(alone), answer)
}
