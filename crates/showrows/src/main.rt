// Prints worked picture 1 (RULES): the index of each pixel in decimal, one space between, one line per pixel line.
#![tactic(auto)]

use columns::Pair;
use grid::exact::ExactOrder;
use grid::{Grid, fitting, opening};
use refusal::Refusal;
use std::io;
use tape::{Head, Tape};

// The pixels of a line, and of the picture.
const WIDTH: usize = 8;

const PIXELS: usize = 32;

// Draws the picture: W 8, H 4, size 2, step 0, 2 symbols, heads 0 and 1, written 0..0. The program showpage has the same function: a
// crate that gave it to both would have to promise what it draws, in words that are longer than it is.
fn draw(index: &mut [u8; PIXELS]) -> Result<Grid, Refusal> {
    let order = ExactOrder {
        width: 8,
        height: 4,
        symbols: 2,
        first_step: 0,
        size: Some(2),
        written: Some(Pair {
            low: position::offset(0),
            high: position::offset(0),
        }),
        halted: false,
    };
    let mut store = [0; 8];
    let grid = opening::open(fitting::fit_exact(order, &[0, 1])?, index, &mut store)?;
    // Row 0: head 0 on symbol 1.
    let tape = Tape::new(Head::new(0, 1), &[], &[], &[], &[]);
    let grid = rows::row(grid, index, &mut store, &mut [], &tape, None)?.grid;
    // Row 1: head 1 on blank, left run of one 1.
    let tape = Tape::new(Head::new(1, 0), &[1], &[1], &[], &[]);
    Ok(rows::row(grid, index, &mut store, &mut [], &tape, None)?.grid)
}

fn print_line(rt: &impl Print, line: &[u8]) -> io::Result<()> {
    for (x, byte) in line.iter().enumerate() {
        if x > 0 {
            print!(rt; " ")?;
        }
        print!(rt; "{byte}")?;
    }
    println!(rt)
}

fn main(rt: HostRuntime) -> io::Result<()> {
    let mut index = [0; PIXELS];
    if draw(&mut index).is_ok() {
        for line in index.chunks_exact(WIDTH) {
            print_line(&rt, line)?;
        }
    }
    Ok(())
}
