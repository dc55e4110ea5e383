// Calls `row`, `window` and `get` over runs and over slices on the tapes of worked pictures 1 and 4 (RULES), and prints
// whether they agree. A tape here has two joined runs a side, the outer one beside the window or in it.
#![tactic(auto)]

use columns::Pair;
use grid::exact::ExactOrder;
use grid::overview::Overview;
use grid::{Grid, fitting};
use refusal::Refusal;
use rows::Drawn;
use runs::{Run, RunTape};
use std::io;
use tape::{Head, Tape};

#[derive(Clone, Copy)]
struct Sides {
    head: i64,
    cur: u8,
    left: [Run; 2],
    right: [Run; 2],
}

// The memory of a picture, and a window of four symbols.
#[derive(Clone, Copy)]
struct Memory<const PIXELS: usize, const CELLS: usize, const BINS: usize> {
    index: [u8; PIXELS],
    store: [u8; CELLS],
    tallies: [u64; BINS],
    window: [u8; 4],
}

impl<const PIXELS: usize, const CELLS: usize, const BINS: usize> Memory<PIXELS, CELLS, BINS> {
    fn new() -> Self {
        Memory {
            index: [0; PIXELS],
            store: [0; CELLS],
            tallies: [0; BINS],
            window: [9; 4],
        }
    }
}

// What the three calls answer: the next row, the window and the symbol at 0.
#[derive(Clone, Copy)]
struct Answers {
    row: Result<Drawn, Refusal>,
    window: Result<(), Refusal>,
    got: Result<u8, Refusal>,
}

// The three calls over runs: the next row, the symbols from -1 on, and the symbol at 0. Both ways take a tape's sides, a grid and memory, and hand
// all of them on: a struct of the three would be taken apart in each.
fn ask_runs<const PIXELS: usize, const CELLS: usize, const BINS: usize>(
    sides: Sides,
    grid: Grid,
    memory: &mut Memory<PIXELS, CELLS, BINS>,
) -> Answers {
    let tape = RunTape {
        head: sides.head,
        cur: sides.cur,
        left: &sides.left,
        right: &sides.right,
    };
    let mut symbols = [9; 4];
    let mut lengths = [9; 4];
    Answers {
        row: runs::row(
            grid,
            &mut memory.index,
            &mut memory.store,
            &mut memory.tallies,
            &tape,
            &mut symbols,
            &mut lengths,
            None,
        ),
        window: tape.window(2, -1, &mut memory.window, &mut symbols, &mut lengths),
        got: tape.get(2, 0, &mut symbols, &mut lengths),
    }
}

// The same over symbols and lengths.
fn ask_slices<const PIXELS: usize, const CELLS: usize, const BINS: usize>(
    sides: Sides,
    grid: Grid,
    memory: &mut Memory<PIXELS, CELLS, BINS>,
) -> Answers {
    let left_symbols = sides.left.map(|run| run.symbol);
    let left_lengths = sides.left.map(|run| run.length);
    let right_symbols = sides.right.map(|run| run.symbol);
    let right_lengths = sides.right.map(|run| run.length);
    let tape = Tape::new(
        Head::new(sides.head, sides.cur),
        &left_symbols,
        &left_lengths,
        &right_symbols,
        &right_lengths,
    );
    Answers {
        row: rows::row(
            grid,
            &mut memory.index,
            &mut memory.store,
            &mut memory.tallies,
            &tape,
            None,
        ),
        window: tape.window(2, position::offset(-1), &mut memory.window),
        got: tape.get(2, position::offset(0)),
    }
}

fn said(same: bool) -> &'static str {
    if same { "same" } else { "OTHER" }
}

// Draws a row both ways, and prints its units and whether all that is answered and written is the same. The grid after it.
fn compare<const PIXELS: usize, const CELLS: usize, const BINS: usize>(
    rt: &impl Print,
    sides: Sides,
    grid: Grid,
    mut memory: Memory<PIXELS, CELLS, BINS>,
) -> io::Result<Option<Grid>> {
    let mut other = memory;
    let answers = ask_runs(sides, grid, &mut memory);
    let others = ask_slices(sides, grid, &mut other);
    let Ok(Drawn { grid, units }) = answers.row else {
        return Ok(None);
    };
    println!(rt;
        "units {units} {} window {} get {} symbols {} index {} store {} tallies {}",
        said(answers.row == others.row),
        said(answers.window == others.window),
        said(answers.got == others.got),
        said(memory.window == other.window),
        said(memory.index == other.index),
        said(memory.store == other.store),
        said(memory.tallies == other.tallies)
    )?;
    Ok(Some(grid))
}

// Two runs of a side, a symbol with a length each.
fn runs(outer: (u8, u64), inner: (u8, u64)) -> [Run; 2] {
    [outer, inner].map(|(symbol, length)| Run { symbol, length })
}

// Picture 1 with joined sides of two runs: head 0 on symbol 1 and blank around it, then head 1 on blank with a 1 two cells left of it.
// What is written beside the window is not shown.
fn picture_1(rt: &impl Print) -> io::Result<()> {
    let order = ExactOrder {
        width: 8,
        height: 4,
        symbols: 2,
        first_step: 0,
        size: Some(2),
        written: Some(Pair {
            low: position::offset(0),
            high: position::offset(0),
        }),
        halted: false,
    };
    let Ok(fit) = fitting::fit_exact(order, &[0, 1]) else {
        return Ok(());
    };
    let blank = runs((1, 1), (0, 5));
    let row_0 = Sides {
        head: 0,
        cur: 1,
        left: blank,
        right: blank,
    };
    let row_1 = Sides {
        head: 1,
        cur: 0,
        left: runs((1, 1), (0, 1)),
        right: blank,
    };
    let memory = Memory::<32, 8, 0>::new();
    if let Some(next) = compare(rt, row_0, fit, memory)? {
        compare(rt, row_1, next, memory)?;
    }
    Ok(())
}

// Picture 4: cell 2 alone written in the window, the head on it.
fn picture_4(rt: &impl Print) -> io::Result<()> {
    let order = Overview {
        width: 4,
        height: 3,
        symbols: 2,
        total: 5,
        extent: Pair {
            low: position::offset(0),
            high: position::offset(9),
        },
    };
    let Ok(fit) = fitting::fit_overview(order) else {
        return Ok(());
    };
    let blank = runs((1, 1), (0, 20));
    let sides = Sides {
        head: 2,
        cur: 1,
        left: blank,
        right: blank,
    };
    compare(rt, sides, fit, Memory::<12, 0, 4>::new())?;
    Ok(())
}

fn main(rt: HostRuntime) -> io::Result<()> {
    picture_1(&rt)?;
    picture_4(&rt)
}
