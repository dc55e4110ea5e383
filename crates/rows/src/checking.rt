// The checks of a row call (RULES, Refusals, 15, 14, 7 to 9, 11, 19, 12 and 13).
ghost use Rattle.std.specs.Prelude.{◌≡◌};
ghost use Rattle.refusal.specs.Checks.{answer_by};
ghost use Rattle.tape.specs.Inner.Sound.{checked};
ghost use Rattle.rows.specs.RowCall.{swept_sound, row_refusal};
ghost use Rattle.rows.specs.Inner.Memory.{memory_refusal};
ghost use Rattle.line.specs.Line.{tallies_in};

use columns::{Columns, Pair};
use grid::Grid;
use grid::soundness::SoundGrid;
use refusal::{Refusal, require};
use tape::{SoundTape, Tape};

// How many tallies a row has.
fn tallies_in(columns: Columns) -> u64
    ensures { result ≡ tallies_in columns }
{
    match columns {
        Columns::Cells { .. } => 0,
        Columns::Bins { width, .. } => width,
    }
}

// A sound grid with a row left to draw whose memory has these lengths, or the refusal, 15, 14, 7, 8 or 9. The lengths are three numbers, as the
// slices are three: a struct of them would be made by each caller and taken apart here.
#[tactic(auto, unfolding(crate::specs::Inner::Memory::memory_refusal))]
pub fn check_memory(
    grid: Grid,
    index: usize,
    store: usize,
    tallies: usize,
) -> Result<SoundGrid, Refusal>
    ensures { result ≡ answer_by (memory_refusal grid index store tallies) grid }
{
    let sound = grid.checked()?;
    require(grid.progress.done < grid.rows, Refusal::Complete)?;
    require(sound.index_fits(index), Refusal::IndexLength)?;
    require(sound.store_fits(store), Refusal::StoreLength)?;
    require(
        tallies as u64 == tallies_in(grid.columns),
        Refusal::TalliesLength,
    )?;
    Ok(sound)
}

// Whether a swept pair that may be missing is sound: in order, within ±L and given in an overview.
pub fn swept_sound(exact: bool, swept: Option<Pair>) -> bool
    ensures { result ≡ swept_sound exact swept }
{
    swept.is_none_or(|Pair { low, high }| {
        !exact && low <= high && position::both_in_domain(low, high)
    })
}

// The sound grid and the sound tape of a row call, or its refusal.
#[tactic(auto, unfolding(crate::specs::RowCall::row_refusal))]
pub(crate) fn check<'a>(
    grid: Grid,
    index: usize,
    store: usize,
    tallies: usize,
    tape: &Tape<'a>,
    swept: Option<Pair>,
) -> Result<(SoundGrid, SoundTape<'a>), Refusal>
    ensures { result ≡ answer_by (row_refusal grid index store tallies tape.now swept) (grid, checked tape.now grid.symbols) }
{
    let sound = check_memory(grid, index, store, tallies)?;
    let tape = tape.check_joined(grid.symbols)?;
    require(swept_sound(grid.exact, swept), Refusal::Swept)?;
    Ok((sound, tape))
}
