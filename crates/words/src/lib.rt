// A record as words, as the interface takes and gives it.
#![tactic(auto)]

ghost use Rattle.std.specs.Prelude.{◌≡◌};
ghost use Rattle.words.specs.Words.{column_words, words_of, columns_at, words_stand, width_at, grid_of};

use columns::Columns;
use grid::{Grid, Progress};

// How many words a record has.
pub const RECORD_WORDS: usize = 17;

pub type Words = [u64; RECORD_WORDS];

// The columns of words.
fn columns_at(words: &Words) -> Columns
    ensures { result ≡ columns_at words.now }
{
    if words[4] == 0 {
        Columns::Cells {
            first: words[5],
            count: words[6],
            px: words[7],
            x0: words[8],
        }
    } else {
        Columns::Bins {
            first: words[5],
            cells: words[6],
            width: words[0],
        }
    }
}

// Whether words stand for a record.
fn stand(words: &Words) -> bool
    ensures { result ≡ words_stand words.now }
{
    words[3] <= 1 && words[4] <= 1 && (words[4] == 0 || (words[7] == 0 && words[8] == 0))
}

// The width of the record that words stand for; 0, which no sound record has, where they stand for none. An `Option` of the record would have to be
// asked in each call that takes one; the check of a record, which each of them makes first, refuses the width 0.
fn width_at(words: &Words) -> u64
    ensures { result ≡ width_at words.now }
{
    if stand(words) { words[0] } else { 0 }
}

// The record that words stand for. A function, and no `From`: a list of numbers and the record are both of other crates.
#[tactic(auto, unfolding(crate::specs::Words::grid_of))]
pub fn grid_of(words: &Words) -> Grid
    ensures { result ≡ grid_of words.now }
{
    Grid {
        width: width_at(words),
        height: words[1],
        symbols: words[2],
        exact: words[3] == 1,
        columns: columns_at(words),
        row_px: words[9],
        rows: words[10],
        first: words[11],
        stride: words[12],
        last: words[13],
        progress: Progress {
            done: words[14],
            left: words[15],
            right: words[16],
        },
    }
}

// The words of columns: cells or bins, first, count or cells, p, left margin.
fn column_words(columns: Columns) -> [u64; 5]
    ensures { result ≡ column_words columns }
{
    match columns {
        Columns::Cells {
            first,
            count,
            px,
            x0,
        } => [0, first, count, px, x0],
        Columns::Bins { first, cells, .. } => [1, first, cells, 0, 0],
    }
}

// The words of a record: a function too, for the same reason.
pub fn words_of(grid: Grid) -> Words
    ensures { result ≡ words_of grid }
{
    let [kind, first, cells, px, x0] = column_words(grid.columns);
    [
        grid.width,
        grid.height,
        grid.symbols,
        u64::from(grid.exact),
        kind,
        first,
        cells,
        px,
        x0,
        grid.row_px,
        grid.rows,
        grid.first,
        grid.stride,
        grid.last,
        grid.progress.done,
        grid.progress.left,
        grid.progress.right,
    ]
}
