// A picture's record (RULES, Fit and Clicks): fitting, opening, and asking for a row and the range.
#![tactic(auto)]

pub mod asking;
pub mod exact;
pub mod extent;
pub mod fitting;
pub mod layouts;
pub mod memory;
pub mod opening;
pub mod overview;
pub mod soundness;

use columns::Columns;

// What a row call changes: the rows done, and how many written cells the last row's tape has left of the window and right of it.
// By default no row is done.
#[derive(Clone, Copy, Debug, Default, PartialEq, Eq, Hash)]
pub struct Progress {
    pub done: u64,
    pub left: u64,
    pub right: u64,
}

// A picture's record, as the Rust's `Grid` with its size, alphabet and progress. Positions are in their offset form.
#[derive(Clone, Copy, Debug, PartialEq, Eq, Hash)]
pub struct Grid {
    pub width: u64,
    pub height: u64,
    pub symbols: u64,
    // Exact, or an overview.
    pub exact: bool,
    pub columns: Columns,
    // Pixel lines a row.
    pub row_px: u64,
    pub rows: u64,
    // The step of row 0, the steps between rows, and the last step shown.
    pub first: u64,
    pub stride: u64,
    pub last: u64,
    pub progress: Progress,
}
