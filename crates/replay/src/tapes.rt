// Cases of a tape. It comes first in them.
use crate::case::{BYTES, Case, nth};

// The room for the lengths of a side's runs.
const RUNS: usize = 64;

// A side of a tape: the symbols and the lengths of its runs, of which there are as many as `runs`.
#[derive(Clone, Copy)]
pub(crate) struct Side<'a> {
    pub(crate) symbols: &'a [u8],
    lengths: [u64; RUNS],
    runs: usize,
}

impl<'a> Side<'a> {
    // The side whose list of symbols is at one place and that of lengths at another.
    fn read(case: Case<'a>, symbols: usize, lengths: usize) -> Self {
        let (first, runs) = case.list(lengths, RUNS);
        let mut room = [0; RUNS];
        for (i, length) in room[..runs].iter_mut().enumerate() {
            *length = case.word(nth(first, i));
        }
        Side {
            symbols: case.bytes(symbols),
            lengths: room,
            runs,
        }
    }

    pub(crate) fn lengths(&self) -> &[u64] {
        self.lengths.get(..self.runs).unwrap_or(&[])
    }
}

// A tape: its head, the symbol under it, and its sides.
#[derive(Clone, Copy)]
pub(crate) struct Tape<'a> {
    pub(crate) head: i64,
    pub(crate) cur: u8,
    pub(crate) left: Side<'a>,
    pub(crate) right: Side<'a>,
}

impl<'a> Tape<'a> {
    // 0 the head, 8 the symbol under it, then the lists of left symbols at 16, right symbols at 32, left lengths at 48 and right lengths
    // at 64.
    pub(crate) fn read(case: Case<'a>) -> Self {
        Tape {
            head: case.place(0),
            cur: case.byte(8),
            left: Side::read(case, 16, 48),
            right: Side::read(case, 32, 64),
        }
    }
}

// 80 the alphabet's count, 88 a position, 96 its symbol.
pub(crate) fn get(case: Case) -> bool {
    let tape = Tape::read(case);
    let mut symbol = [0];
    let number = spacetime::spacetime_get(
        case.half(80),
        tape.head,
        tape.cur,
        tape.left.symbols,
        tape.left.lengths(),
        tape.right.symbols,
        tape.right.lengths(),
        case.place(88),
        &mut symbol,
    );
    number == 0 && symbol[0] == case.byte(96)
}

// 80 the alphabet's count, 88 the first position, 96 the list of symbols.
pub(crate) fn window(case: Case) -> bool {
    let tape = Tape::read(case);
    let mut room = [0; BYTES];
    let out = &mut room[..case.length(104, BYTES)];
    let number = spacetime::spacetime_window(
        case.half(80),
        tape.head,
        tape.cur,
        tape.left.symbols,
        tape.left.lengths(),
        tape.right.symbols,
        tape.right.lengths(),
        case.place(88),
        out,
    );
    number == 0 && *out == *case.bytes(96)
}
