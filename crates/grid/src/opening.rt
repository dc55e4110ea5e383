// Opening a picture: its memory is lent, checked and cleared (RULES, Rows). Grid, index and store stay parameters of their own: a struct of
// `&mut` fields says in a contract what its fields are lent at, which is no plainer. So do their lengths: a struct of them would be made by each
// caller and taken apart in the next line.
ghost use Rattle.std.specs.Prelude.{◌≡◌, [], ◌∷◌};
ghost use Rattle.refusal.specs.Checks.{answer_by, said_by};
ghost use Rattle.grid.specs.Opening.{open_refusal, open_input, open_input_refusal, restarted, open_call, open_said};

use super::soundness::SoundGrid;
use super::{Grid, Progress};
use refusal::{Refusal, require};

// A sound grid whose index and store have these lengths, or the refusal, 15, 7 or 8. Inlined, as `checked` is: a grid handed over in memory took a
// call on a small picture up to twice as long.
#[tactic(auto, unfolding(crate::specs::Opening::open_refusal))]
#[inline(always)]
pub fn check(grid: Grid, index: usize, store: usize) -> Result<SoundGrid, Refusal>
    ensures { result ≡ answer_by (open_refusal grid index store) grid }
{
    let sound = grid.checked()?;
    require(sound.index_fits(index), Refusal::IndexLength)?;
    require(sound.store_fits(store), Refusal::StoreLength)?;
    Ok(sound)
}

// Opens a picture: rows done, the cells left out, index and store become 0.
#[tactic(auto, unfolding(crate::specs::Opening::open_call))]
pub fn open(grid: Grid, index: &mut [u8], store: &mut [u8]) -> Result<Grid, Refusal>
    ensures value { let input = open_input grid index.old store.old in
        let out = open_call input in
        (result ≡ out.answer) × (open_said result ≡ said_by (open_input_refusal input) [] (restarted grid ∷ [])) }
    ensures index_after { let input = open_input grid index.old store.old in
        let out = open_call input in
        index.new ≡ out.index }
    ensures store_after { let input = open_input grid index.old store.old in
        let out = open_call input in
        store.new ≡ out.store }
{
    check(grid, index.len(), store.len())?;
    index.fill(0);
    store.fill(0);
    Ok(Grid {
        progress: Progress::default(),
        ..grid
    })
}
