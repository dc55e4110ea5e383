// Tapes whose sides are slices of runs, symbol beside length, nearest the head last (RULES, Tape): `get`, `window` and `row` over
// such a tape. Each checks the runs as they are, takes them apart into two slices that the caller lends, one place a run, the
// left runs first, and calls the function of its name that takes symbols and lengths as two slices. A refused call leaves the
// lent slices as they were, an accepted one leaves in them the runs' symbols and lengths. They stay two parameters: a struct of `&mut`
// fields says in a contract what its fields are lent at, which is no plainer.
#![tactic(auto)]

mod checking;

ghost use Rattle.std.specs.Prelude.{◌≡◌, map, ◌+◌, ◌≤◌, length};
ghost use Rattle.refusal.specs.Checks.{allowed_by, kept_if, said_by};
ghost use Rattle.position.specs.Position.{offset_of};
ghost use Rattle.tape.specs.Checks.{tape_refusal};
ghost use Rattle.tape.specs.Tape.{symbol_at};
ghost use Rattle.tape.specs.Calls.{get_call, get_said, window_call};
ghost use Rattle.line.specs.Line.{row_units};
ghost use Rattle.rows.specs.RowCall.{row_input_refusal, row_input, row_call, row_said};
ghost use Rattle.runs.specs.Runs.{symbol_of, length_of, symbols_of, lengths_of, tape_in, tape_split};

use columns::Pair;
use grid::Grid;
use refusal::Refusal;
use rows::Drawn;
use tape::{Head, Tape};

#[derive(Clone, Copy, Debug, PartialEq, Eq)]
pub struct Run {
    pub symbol: u8,
    pub length: u64,
}

// A tape as it is handed in: where its head is, the symbol under it, and the runs of its sides.
#[derive(Clone, Copy)]
pub struct RunTape<'a> {
    pub head: i64,
    pub cur: u8,
    pub left: &'a [Run],
    pub right: &'a [Run],
}

// The runs' symbols and lengths into two slices of as many places. By place: after a loop over a zip with the `iter_mut` of both a proof knows
// nothing of them.
fn copy_runs(runs: &[Run], symbols: &mut [u8], lengths: &mut [u64])
    requires { (length symbols.old ≡ length runs.now) × (length lengths.old ≡ length runs.now) }
    ensures { (symbols.new ≡ map symbol_of runs.now) × (lengths.new ≡ map length_of runs.now) }
{
    for (i, run) in runs.iter().enumerate() {
        symbols[i] = run.symbol;
        lengths[i] = run.length;
    }
}

impl<'a> RunTape<'a> {
    // Both sides' symbols and lengths into two slices that have one place a run.
    fn copy_to(&self, symbols: &mut [u8], lengths: &mut [u64])
        requires { let runs = length self.now.left.now + length self.now.right.now in
            (length symbols.old ≡ runs) × (length lengths.old ≡ runs) }
        ensures { (symbols.new ≡ symbols_of self.now.left.now self.now.right.now) × (lengths.new ≡ lengths_of self.now.left.now self.now.right.now) }
    {
        let left = self.left.len();
        copy_runs(self.left, &mut symbols[..left], &mut lengths[..left]);
        copy_runs(self.right, &mut symbols[left..], &mut lengths[left..]);
    }

    // The tape of two slices whose first places are the left runs'.
    fn split<'b>(&self, symbols: &'b [u8], lengths: &'b [u64]) -> Tape<'b>
        requires { (length self.now.left.now ≤ length symbols.now) × (length self.now.left.now ≤ length lengths.now) }
        ensures { result ≡ tape_split self.now.head self.now.cur (length self.now.left.now) symbols.now lengths.now }
    {
        let left = self.left.len();
        Tape::new(
            Head::new(self.head, self.cur),
            &symbols[..left],
            &lengths[..left],
            &symbols[left..],
            &lengths[left..],
        )
    }

    // Takes both sides apart for a call on the tape alone, or says why it is refused: 2, 11 or 12.
    #[tactic(auto, using(crate::proofs::Taken::alone_places))]
    fn take_apart(
        &self,
        symbols: u64,
        run_symbols: &mut [u8],
        run_lengths: &mut [u64],
    ) -> Result<(), Refusal>
        ensures value { let tape = tape_in self.now (length run_symbols.old) (length run_lengths.old) in
            result ≡ allowed_by (tape_refusal symbols tape) }
        ensures runs_after { let tape = tape_in self.now (length run_symbols.old) (length run_lengths.old) in
            (run_symbols.new ≡ kept_if (tape_refusal symbols tape) run_symbols.old (symbols_of self.now.left.now self.now.right.now))
            × (run_lengths.new ≡ kept_if (tape_refusal symbols tape) run_lengths.old (lengths_of self.now.left.now self.now.right.now)) }
    {
        self.check_alone(symbols, run_symbols.len(), run_lengths.len())?;
        self.copy_to(run_symbols, run_lengths);
        Ok(())
    }

    // The symbol at a position.
    #[tactic(auto, unfolding(tape::specs::Calls::get_call))]
    pub fn get(
        &self,
        symbols: u32,
        position: i64,
        run_symbols: &mut [u8],
        run_lengths: &mut [u64],
    ) -> Result<u8, Refusal>
        ensures value { let tape = tape_in self.now (length run_symbols.old) (length run_lengths.old) in
            (result ≡ get_call symbols tape (offset_of position)) × (get_said result ≡ said_by (tape_refusal symbols tape) 0 (symbol_at tape (offset_of position))) }
        ensures runs_after { let tape = tape_in self.now (length run_symbols.old) (length run_lengths.old) in
            (run_symbols.new ≡ kept_if (tape_refusal symbols tape) run_symbols.old (symbols_of self.now.left.now self.now.right.now))
            × (run_lengths.new ≡ kept_if (tape_refusal symbols tape) run_lengths.old (lengths_of self.now.left.now self.now.right.now)) }
    {
        let place = position::offset(position);
        let symbols = u64::from(symbols);
        self.take_apart(symbols, &mut *run_symbols, &mut *run_lengths)?;
        self.split(run_symbols, run_lengths).get(symbols, place)
    }

    // The symbols at the positions from `from` on, one for each place of `out`.
    #[tactic(auto, unfolding(tape::specs::Calls::window_call))]
    pub fn window(
        &self,
        symbols: u32,
        from: i64,
        out: &mut [u8],
        run_symbols: &mut [u8],
        run_lengths: &mut [u64],
    ) -> Result<(), Refusal>
        ensures value { let tape = tape_in self.now (length run_symbols.old) (length run_lengths.old) in
            result ≡ allowed_by (tape_refusal symbols tape) }
        ensures out_after { let tape = tape_in self.now (length run_symbols.old) (length run_lengths.old) in
            out.new ≡ window_call symbols tape (offset_of from) out.old }
        ensures runs_after { let tape = tape_in self.now (length run_symbols.old) (length run_lengths.old) in
            (run_symbols.new ≡ kept_if (tape_refusal symbols tape) run_symbols.old (symbols_of self.now.left.now self.now.right.now))
            × (run_lengths.new ≡ kept_if (tape_refusal symbols tape) run_lengths.old (lengths_of self.now.left.now self.now.right.now)) }
    {
        let first = position::offset(from);
        let symbols = u64::from(symbols);
        self.take_apart(symbols, &mut *run_symbols, &mut *run_lengths)?;
        self.split(run_symbols, run_lengths)
            .window(symbols, first, out)
    }
}

// Draws the next row of a picture, as `rows::row` does.
#[tactic(auto, using(crate::proofs::Taken::row_places), unfolding(rows::specs::RowCall::row_call))]
pub fn row(
    grid: Grid,
    index: &mut [u8],
    store: &mut [u8],
    tallies: &mut [u64],
    tape: &RunTape<'_>,
    run_symbols: &mut [u8],
    run_lengths: &mut [u64],
    swept: Option<Pair>,
) -> Result<Drawn, Refusal>
    ensures value { let lent = tape_in tape.now (length run_symbols.old) (length run_lengths.old) in
        let input = row_input grid index.old store.old tallies.old lent swept in
        (result ≡ (row_call input).answer) × (row_said result ≡ said_by (row_input_refusal input) 0 (row_units grid.columns lent)) }
    ensures picture_after { let lent = tape_in tape.now (length run_symbols.old) (length run_lengths.old) in
        let input = row_input grid index.old store.old tallies.old lent swept in
        (index.new ≡ (row_call input).index) × (store.new ≡ (row_call input).store) × (tallies.new ≡ (row_call input).tallies) }
    ensures runs_after { let lent = tape_in tape.now (length run_symbols.old) (length run_lengths.old) in
        let input = row_input grid index.old store.old tallies.old lent swept in
        (run_symbols.new ≡ kept_if (row_input_refusal input) run_symbols.old (symbols_of tape.now.left.now tape.now.right.now))
        × (run_lengths.new ≡ kept_if (row_input_refusal input) run_lengths.old (lengths_of tape.now.left.now tape.now.right.now)) }
{
    tape.check_row(
        grid,
        index.len(),
        store.len(),
        tallies.len(),
        run_symbols.len(),
        run_lengths.len(),
        swept,
    )?;
    tape.copy_to(&mut *run_symbols, &mut *run_lengths);
    rows::row(
        grid,
        index,
        store,
        tallies,
        &tape.split(run_symbols, run_lengths),
        swept,
    )
}
