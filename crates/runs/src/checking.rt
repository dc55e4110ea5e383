// The checks of a tape's runs, made before anything is copied (RULES, Refusals). The lengths of what is lent are numbers of their own: a struct of them
// would be made by the caller and taken apart in the next line, as in rows (checking.rt).
ghost use Rattle.std.specs.Prelude.{◌≡◌, ◌&&◌, ltb, length};
ghost use Rattle.refusal.specs.Checks.{allowed_by};
ghost use Rattle.tape.specs.Checks.{tape_refusal};
ghost use Rattle.tape.specs.Joined.{tape_joined};
ghost use Rattle.tape.specs.Inner.Checks.{runs_refusal};
ghost use Rattle.rows.specs.RowCall.{row_refusal};
ghost use Rattle.runs.specs.Runs.{one_place_each, tape_in};
ghost use Rattle.runs.specs.Inner.Sums.{sum_of, said_by_sums};

use super::{Run, RunTape};
use columns::Pair;
use grid::Grid;
use refusal::{Refusal, require};

// What the checks need of a side's runs: whether each is sound, whether they are joined, and their cells in all, held to what a u64 has.
#[derive(Clone, Copy)]
struct Sum {
    sound: bool,
    joined: bool,
    cells: u64,
}

// What the checks 11, 19 and 12 say of a tape.
#[derive(Clone, Copy)]
struct Said {
    sound: bool,
    joined: bool,
    reach: bool,
}

impl Run {
    // Whether a run has cells, and a symbol of the alphabet.
    fn is_sound(self, count: u64) -> bool
        ensures { result ≡ (ltb 0 self.length && ltb self.symbol count) }
    {
        self.length != 0 && u64::from(self.symbol) < count
    }
}

impl Sum {
    // The sum of a side's runs. Beyond the outermost run lies blank.
    #[tactic(auto, using(crate::proofs::Sums::sound_next, crate::proofs::Sums::joined_next, crate::proofs::Sums::total_next, crate::proofs::Sums::none_left))]
    fn of(runs: &[Run], count: u64) -> Sum
        ensures { result ≡ sum_of count runs.now }
    {
        let mut sound = true;
        let mut joined = true;
        let mut cells = 0u64;
        let mut beyond = 0;
        for run in runs {
            sound &= run.is_sound(count);
            joined &= run.symbol != beyond;
            cells = cells.saturating_add(run.length);
            beyond = run.symbol;
        }
        Sum {
            sound,
            joined,
            cells,
        }
    }
}

impl<'a> RunTape<'a> {
    // Whether lent slices of these lengths have one place for each run of both sides.
    fn one_place_each(&self, symbols: usize, lengths: usize) -> bool
        ensures { result ≡ one_place_each (length self.now.left.now) (length self.now.right.now) symbols lengths }
    {
        self.left.len().checked_add(self.right.len()) == Some(symbols) && lengths == symbols
    }

    // What the checks say of the tape that two lent slices of these lengths are to hold.
    fn said(&self, count: u64, symbols: usize, lengths: usize) -> Said
        ensures { let tape = self.now in
            let fits = one_place_each (length tape.left.now) (length tape.right.now) symbols lengths in
            result ≡ said_by_sums count tape.head tape.cur fits (sum_of count tape.left.now) (sum_of count tape.right.now) }
    {
        let fits = self.one_place_each(symbols, lengths);
        let left = Sum::of(self.left, count);
        let right = Sum::of(self.right, count);
        Said {
            sound: u64::from(self.cur) < count && fits && left.sound && right.sound,
            joined: left.joined && right.joined,
            reach: position::in_reach(position::offset(self.head), left.cells, right.cells),
        }
    }

    // The checks of a call on the tape alone: 2, 11 and 12.
    #[tactic(auto, using(crate::proofs::Taken::alone_refusal_is), unfolding(tape::specs::Checks::tape_refusal))]
    pub(crate) fn check_alone(
        &self,
        count: u64,
        symbols: usize,
        lengths: usize,
    ) -> Result<(), Refusal>
        ensures { result ≡ allowed_by (tape_refusal count (tape_in self.now symbols lengths)) }
    {
        require(limits::symbols_sound(count), Refusal::Symbols)?;
        let said = self.said(count, symbols, lengths);
        require(said.sound, Refusal::Runs)?;
        require(said.reach, Refusal::Reach)
    }

    // The checks of a row call on the tape: 11, 19 and 12.
    #[tactic(auto, using(crate::proofs::Taken::joined_refusal_is))]
    fn check_joined(&self, count: u64, symbols: usize, lengths: usize) -> Result<(), Refusal>
        ensures { let tape = tape_in self.now symbols lengths in
            result ≡ allowed_by (runs_refusal count (tape_joined tape) tape) }
    {
        let said = self.said(count, symbols, lengths);
        require(said.sound, Refusal::Runs)?;
        require(said.joined, Refusal::Unjoined)?;
        require(said.reach, Refusal::Reach)
    }

    // The checks of a row call: those of the memory lent with its grid, of its tape, and of the swept pair.
    #[tactic(auto, using(rows::proofs::RowChecks::by_swept))]
    pub(crate) fn check_row(
        &self,
        grid: Grid,
        index: usize,
        store: usize,
        tallies: usize,
        symbols: usize,
        lengths: usize,
        swept: Option<Pair>,
    ) -> Result<(), Refusal>
        ensures { result ≡ allowed_by (row_refusal grid index store tallies (tape_in self.now symbols lengths) swept) }
    {
        rows::checking::check_memory(grid, index, store, tallies)?;
        self.check_joined(grid.symbols, symbols, lengths)?;
        require(
            rows::checking::swept_sound(grid.exact, swept),
            Refusal::Swept,
        )
    }
}
