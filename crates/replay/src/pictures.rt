// Cases of a picture.
use crate::case::{BYTES, Case, nth};
use crate::tapes::Tape;
use refusal::Refusal;
use words::RECORD_WORDS;

// The room for heads, one a row, and for tallies, one a bin.
const ROWS: usize = 4096;

const BINS: usize = 64;

// What the cases are about. A fit makes its record the one of the cases after it; opening, rows and locating are lent as much of one index
// and one store as the original has, and leave the rest as it is.
#[derive(Clone, Copy)]
pub(crate) struct Picture {
    record: [u64; RECORD_WORDS],
    index: [u8; BYTES],
    store: [u8; BYTES],
}

impl Picture {
    pub(crate) fn new() -> Self {
        Picture {
            record: [0; RECORD_WORDS],
            index: [0; BYTES],
            store: [0; BYTES],
        }
    }

    // 0 width, 8 height, 16 symbols, 24 first step, 32 and 40 the size, 48, 56 and 64 the written pair, 72 halted, 80 the list of heads,
    // 96 whether the original refuses it, 104 the words of its record.
    pub(crate) fn fit_exact(&mut self, case: Case) -> bool {
        let (first, rows) = case.list(80, ROWS);
        let mut heads = [0; ROWS];
        for (i, head) in heads[..rows].iter_mut().enumerate() {
            *head = case.place(nth(first, i));
        }
        let number = spacetime::spacetime_fit_exact(
            case.half(0),
            case.half(8),
            case.half(16),
            case.word(24),
            case.flag(32),
            case.half(40),
            &heads[..rows],
            case.flag(48),
            case.place(56),
            case.place(64),
            case.flag(72),
            &mut self.record,
        );
        let wanted = (!case.flag(96)).then(|| case.words(104));
        self.is_fitted(number, wanted)
    }

    // 0 width, 8 height, 16 symbols, 24 total, 32 and 40 the extent, 48 whether the original refuses it, 56 the words of its record.
    pub(crate) fn fit_overview(&mut self, case: Case) -> bool {
        let number = spacetime::spacetime_fit_overview(
            case.half(0),
            case.half(8),
            case.half(16),
            case.word(24),
            case.place(32),
            case.place(40),
            &mut self.record,
        );
        let wanted = (!case.flag(48)).then(|| case.words(56));
        self.is_fitted(number, wanted)
    }

    // Whether a fit's number and record are the original's: the words of its record, or none where it refuses, which it does for a size
    // alone.
    fn is_fitted(&self, number: u32, wanted: Option<[u64; RECORD_WORDS]>) -> bool {
        match wanted {
            Some(wanted) => number == 0 && self.record == wanted,
            None => number == u32::from(Refusal::Size),
        }
    }

    // 0 the list of index bytes, 16 that of the store.
    pub(crate) fn open(&mut self, case: Case) -> bool {
        let Picture {
            record,
            index,
            store,
        } = self;
        let index = &mut index[..case.length(8, BYTES)];
        let store = &mut store[..case.length(24, BYTES)];
        let number = spacetime::spacetime_open(record, index, store);
        number == 0 && *index == *case.bytes(0) && *store == *case.bytes(16)
    }

    // The tape; 80, 88 and 96 the swept pair, 104 the list of index bytes, 120 that of the store, 136 how many tallies there are.
    pub(crate) fn row(&mut self, case: Case) -> bool {
        let tape = Tape::read(case);
        let Picture {
            record,
            index,
            store,
        } = self;
        let index = &mut index[..case.length(112, BYTES)];
        let store = &mut store[..case.length(128, BYTES)];
        let mut tallies = [0; BINS];
        let number = spacetime::spacetime_row(
            record,
            index,
            store,
            &mut tallies[..case.length(136, BINS)],
            tape.head,
            tape.cur,
            tape.left.symbols,
            tape.left.lengths(),
            tape.right.symbols,
            tape.right.lengths(),
            case.flag(80),
            case.place(88),
            case.place(96),
            &mut [0],
        );
        number == 0 && *index == *case.bytes(104) && *store == *case.bytes(120)
    }

    // 0 the length of the store, 8 x, 16 y, 24 the four words that are found, 56 the two ends of the cells.
    pub(crate) fn locate(&self, case: Case) -> bool {
        let mut found = [0; 4];
        let mut ends = [0; 2];
        let number = spacetime::spacetime_locate(
            &self.record,
            &self.store[..case.length(0, BYTES)],
            case.half(8),
            case.half(16),
            &mut found,
            &mut ends,
        );
        number == 0 && found == case.words(24) && ends.map(position::offset) == case.words(56)
    }

    // 0 the row, 8 the four words that are found.
    pub(crate) fn row_lines(&self, case: Case) -> bool {
        let mut found = [0; 4];
        let number = spacetime::spacetime_row_lines(&self.record, case.half(0), &mut found);
        number == 0 && found == case.words(8)
    }

    // 0 the two ends of the window.
    pub(crate) fn range(&self, case: Case) -> bool {
        let mut ends = [0; 2];
        let number = spacetime::spacetime_range(&self.record, &mut ends);
        number == 0 && ends.map(position::offset) == case.words(0)
    }
}
