// The picture (RULES, Clicks and Lists of calls): clicks, uprights and equality. `grid` has its record, and `rows` draws its rows.
// specs/Demand3.antt says what holds of every list of row calls. In contracts a picture, lent or taken, is a `State` of specs/Calls.antt.
#![tactic(auto)]

pub mod clicks;
pub mod equality;
pub mod uprights;

ghost use Rattle.std.specs.Prelude.{◌≡◌};
ghost use Rattle.refusal.specs.Checks.{answer_by};
ghost use Rattle.picture.specs.Equal.{lent_refusal};

use grid::Grid;
use grid::soundness::SoundGrid;
use refusal::Refusal;
use std::marker::Model;

// A picture as it is lent: its record, its index and its store, sound or not.
#[derive(Drop)]
pub struct Lent<'a> {
    pub grid: Grid,
    pub index: &'a [u8],
    pub store: &'a [u8],
}

impl<'a> Model for Lent<'a> {
    ghost use Rattle.picture.specs.Calls.{State};
    ghost use Rattle.picture.specs.Equal.{lent};

    ghost Value = { State };

    ghost view = { λ p. lent p.grid p.index.now p.store.now };
}

// A picture that passed its checks: a sound grid, and index and store of its lengths.
#[derive(Drop)]
pub(crate) struct Taken<'a> {
    grid: SoundGrid,
    index: &'a [u8],
    store: &'a [u8],
}

impl<'a> Model for Taken<'a> {
    ghost use Rattle.std.specs.Prelude.{◌≡◌, ◌*◌, length};
    ghost use Rattle.grid.specs.Memory.{stored_cells};
    ghost use Rattle.picture.specs.Calls.{State};
    ghost use Rattle.picture.specs.Equal.{lent};

    ghost Value = { State };

    ghost view = { λ p. lent p.grid p.index.now p.store.now };

    ghost invariant = { λ p. (length p.index.now ≡ p.grid.width * p.grid.height) × (length p.store.now ≡ p.grid.rows * stored_cells p.grid.columns) };
}

impl<'a> Lent<'a> {
    // The picture, or its refusal: 15, 7 or 8.
    #[inline(always)]
    fn check(&self) -> Result<Taken<'a>, Refusal>
        ensures { result ≡ answer_by (lent_refusal self.now) self.now }
    {
        let grid = grid::opening::check(self.grid, self.index.len(), self.store.len())?;
        Ok(Taken {
            grid,
            index: self.index,
            store: self.store,
        })
    }
}
