// Rows of a picture (RULES, Rows).
#![tactic(auto)]

mod advancing;
pub mod checking;
mod drawing;

ghost use Rattle.std.specs.Prelude.{◌≡◌};
ghost use Rattle.refusal.specs.Checks.{said_by};
ghost use Rattle.line.specs.Line.{row_units};
ghost use Rattle.rows.specs.RowCall.{row_input, row_input_refusal, row_call, row_said};

use columns::Pair;
use grid::Grid;
use refusal::Refusal;
use tape::Tape;

// A picture with one more row: its grid with the row's counts, and the row's units.
#[derive(Clone, Copy, Debug, PartialEq, Eq, Hash)]
pub struct Drawn {
    pub grid: Grid,
    pub units: u64,
}

// Draws the next row of a picture from a tape and, in an overview, the pair of positions that the head swept since the row before. Grid, index,
// store and tallies are parameters of their own, as C lends them: a struct of `&mut` fields says in a contract what they are lent at.
#[tactic(auto, unfolding(crate::specs::RowCall::row_call))]
pub fn row(
    grid: Grid,
    index: &mut [u8],
    store: &mut [u8],
    tallies: &mut [u64],
    tape: &Tape<'_>,
    swept: Option<Pair>,
) -> Result<Drawn, Refusal>
    ensures value { let input = row_input grid index.old store.old tallies.old tape.now swept in
        let out = row_call input in
        (result ≡ out.answer) × (row_said result ≡ said_by (row_input_refusal input) 0 (row_units grid.columns tape.now)) }
    ensures index_after { let input = row_input grid index.old store.old tallies.old tape.now swept in
        let out = row_call input in
        index.new ≡ out.index }
    ensures store_after { let input = row_input grid index.old store.old tallies.old tape.now swept in
        let out = row_call input in
        store.new ≡ out.store }
    ensures tallies_after { let input = row_input grid index.old store.old tallies.old tape.now swept in
        let out = row_call input in
        tallies.new ≡ out.tallies }
{
    let (sound, tape) = checking::check(
        grid,
        index.len(),
        store.len(),
        tallies.len(),
        tape,
        swept,
    )?;
    let units = drawing::draw_row(sound, index, store, tallies, &tape, swept);
    Ok(Drawn {
        grid: Grid {
            progress: advancing::progress_after(sound, &tape),
            ..grid
        },
        units,
    })
}
