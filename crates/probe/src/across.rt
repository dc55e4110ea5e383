// The probes on columns. Columns are handed over as five numbers: `bins`, then first, count, px and x0 of cells, or first, cells and
// width of bins, whose last number is not looked at. Positions are in their offset form.
ghost use Rattle.std.specs.Prelude.{◌≡◌, ◌≤◌, true, false, length, MatchOption};
ghost use Rattle.columns.specs.Inner.Adding.{Takes};
ghost use Rattle.probe.specs.Across.{columns_of, usable_in, asked, answer_of, found_after, most_runs, with_runs, tallies_answer, tallies_after};

use columns::{Columns, Pair, Window};

// No answer of a question about columns has this number: 0 is found, 1 nothing. C asks for a number.
const NO_ANSWER: u32 = 255;

// The most runs that the tallies are asked about at once: no tally then passes 2^62.
const MOST_RUNS: usize = 4096;

fn columns_of(bins: bool, first: u64, cells: u64, size: u64, x0: u64) -> Columns
    ensures { result ≡ columns_of bins first cells size x0 }
{
    if bins {
        Columns::Bins {
            first,
            cells,
            width: size,
        }
    } else {
        Columns::Cells {
            first,
            count: cells,
            px: size,
            x0,
        }
    }
}

// The window of columns that are sound in a picture of a width that is taken.
fn window(columns: Columns, width: u64) -> Option<Window>
    ensures { MatchOption result (usable_in width columns ≡ false) (λ window. (window.columns ≡ columns) × (usable_in width columns ≡ true)) }
{
    if (1..=limits::MAX_SIDE).contains(&width) && columns.is_sound(width) {
        Some(Window { columns })
    } else {
        None
    }
}

// What a question about columns finds: 0 asks for the cells of pixel column `a`, 1 for the pixel columns of a head at `a`, any other
// for those of the swept pair of `a` and `b`. The question is a number since C asks it.
fn ask(window: Window, question: u32, a: u64, b: u64) -> Option<Pair>
    ensures { result ≡ asked question a b window.columns }
{
    match question {
        0 => window.locate(a),
        1 => window.head(a),
        _ => window.swept(Pair { low: a, high: b }),
    }
}

// A question about columns: 0 and what is found, or 1 for nothing.
#[unsafe(no_mangle)]
pub extern "C" fn probe_columns(
    width: u64,
    bins: bool,
    first: u64,
    cells: u64,
    size: u64,
    x0: u64,
    question: u32,
    a: u64,
    b: u64,
    found: &mut [u64; 2],
) -> u32
    ensures value { let columns = columns_of bins first cells size x0 in
        let answer = asked question a b columns in
        result ≡ answer_of width columns answer }
    ensures found_after { let columns = columns_of bins first cells size x0 in
        let answer = asked question a b columns in
        found.new ≡ found_after width columns answer found.old }
{
    let Some(window) = window(columns_of(bins, first, cells, size, x0), width) else {
        return NO_ANSWER;
    };
    let Some(Pair { low, high }) = ask(window, question, a, b) else {
        return 1;
    };
    *found = [low, high];
    0
}

// Adds runs to the tallies. Their two ends, and first and cells, stand apart since C lends and hands them so.
fn add_runs(tallies: &mut [u64], first: u64, cells: u64, low: &[u64], high: &[u64])
    requires { Takes first cells 1 tallies.old × (length low.now ≤ most_runs) × (length high.now ≡ length low.now) }
    ensures { tallies.new ≡ with_runs first cells low.now high.now (length low.now) tallies.old }
{
    for (&low, &high) in low.iter().zip(high) {
        columns::tallies::add_run(&mut *tallies, first, cells, Pair { low, high });
    }
}

// The tallies of runs of positions, in the order in which they are handed over: a run may cover cells that another one covers.
#[unsafe(no_mangle)]
pub extern "C" fn probe_tallies(
    tallies: &mut [u64],
    first: u64,
    cells: u64,
    low: &[u64],
    high: &[u64],
) -> u32
    ensures value { let old = tallies.old in
        let lows = low.now in
        let highs = high.now in
        result ≡ tallies_answer (length old) first cells (length lows) (length highs) }
    ensures tallies_after { let old = tallies.old in
        let lows = low.now in
        let highs = high.now in
        tallies.new ≡ tallies_after first cells lows highs old }
{
    if tallies.len() as u64 <= limits::MAX_SIDE
        && (1..=limits::MAX_CELLS).contains(&cells)
        && first <= u64::MAX - cells
        && low.len() <= MOST_RUNS
        && low.len() == high.len()
    {
        slices::clear(&mut *tallies);
        add_runs(tallies, first, cells, low, high);
        0
    } else {
        NO_ANSWER
    }
}
