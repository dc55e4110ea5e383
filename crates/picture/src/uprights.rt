// Uprights (RULES, Clicks): columns that stand unbroken over some rows, by what each of their pixels says.
ghost use Rattle.std.specs.Prelude.{◌≡◌, true, ◌&&◌, [], ◌∷◌, ◌≤◌, ◌<◌, ltb, leb, length};
ghost use Rattle.refusal.specs.Checks.{said_by};
ghost use Rattle.picture.specs.Upright.{upright_refusal, symbol_says, head_says, pixel_says, column_says, upright_call, number_of, upright_said};

use super::clicks::Location;
use super::{Lent, Taken, clicks};
use colours::Meaning;
use grid::Grid;
use refusal::{Refusal, require};

// What a pixel says of its column, and what a column's pixels say together.
#[derive(Clone, Copy, Debug, PartialEq, Eq, Hash)]
pub enum Verdict {
    Yes,
    No,
    Unknown,
}

// A pixel column over the rows `first` to `last`, both included.
#[derive(Clone, Copy, Debug, PartialEq, Eq, Hash)]
pub struct Strip {
    pub column: u64,
    pub first: u64,
    pub last: u64,
}

impl Strip {
    // Whether the column is one of a picture's, and the rows are drawn.
    fn is_drawn(self, grid: Grid) -> bool
        ensures { result ≡ (ltb self.column grid.width && (leb self.first self.last && ltb self.last grid.progress.done)) }
    {
        self.column < grid.width && self.first <= self.last && self.last < grid.progress.done
    }
}

// What a stored symbol says: yes where it is written.
fn symbol_says(symbol: u8) -> Verdict
    ensures { result ≡ symbol_says symbol }
{
    if 0 < symbol {
        Verdict::Yes
    } else {
        Verdict::No
    }
}

// What a head says, by what its pixel shows beneath it.
fn head_says(beneath: Option<Location>) -> Verdict
    ensures { result ≡ head_says beneath }
{
    match beneath {
        Some(Location::Cell { symbol, .. }) => symbol_says(symbol),
        Some(Location::Bin { .. }) => Verdict::Unknown,
        None => Verdict::No,
    }
}

impl<'a> Taken<'a> {
    // What pixel (x, y) says. The two numbers are two, as in clicks.rt.
    fn pixel_says(&self, x: u64, y: u64) -> Verdict
        requires { (x < self.now.grid.width) × (y < self.now.grid.height) }
        ensures { result ≡ pixel_says self.now.grid self.now.index self.now.store x y }
    {
        let grid = self.grid;
        let at = y * grid.grid.width + x;
        match colours::meaning_of(self.index[at as usize]) {
            Meaning::Paper => Verdict::No,
            Meaning::Ink(_) => Verdict::Yes,
            Meaning::Spare => Verdict::No,
            Meaning::Swept(_) => Verdict::No,
            Meaning::Head => head_says(clicks::shown(self.grid, self.store, x, y)),
        }
    }

    // What the pixels of a column say together in rows that are drawn.
    fn column_says(&self, strip: Strip) -> Verdict
        requires { (strip.column < self.now.grid.width) × (strip.first ≤ strip.last) × (strip.last < self.now.grid.progress.done) }
        ensures { result ≡ column_says self.now.grid self.now.index self.now.store strip.column strip.first strip.last }
    {
        let grid = self.grid;
        let from = strip.first * grid.grid.row_px;
        let lines = (strip.last + 1 - strip.first) * grid.grid.row_px;
        let mut unknown = false;
        for k in 0..lines {
            match self.pixel_says(strip.column, from + k) {
                Verdict::Yes => {}
                Verdict::No => return Verdict::No,
                Verdict::Unknown => unknown = true,
            }
        }
        if unknown {
            Verdict::Unknown
        } else {
            Verdict::Yes
        }
    }
}

impl<'a> Lent<'a> {
    // Whether a column is upright in some rows, or the refusal: 15, 7, 8 or 16.
    #[tactic(auto, unfolding(crate::specs::Upright::upright_call, crate::specs::Upright::upright_refusal))]
    pub fn upright(&self, strip: Strip) -> Result<Verdict, Refusal>
        ensures { let p = self.now in
            let refusal = upright_refusal p.grid (length p.index) (length p.store) strip.column strip.first strip.last in
            let says = column_says p.grid p.index p.store strip.column strip.first strip.last in
            (result ≡ upright_call p.grid p.index p.store strip.column strip.first strip.last) × (upright_said result ≡ said_by refusal [] (number_of says ∷ [])) }
    {
        let taken = self.check()?;
        require(strip.is_drawn(self.grid), Refusal::Upright)?;
        Ok(taken.column_says(strip))
    }
}

// The number of a verdict (RULES, Clicks).
impl From<Verdict> for u64 {
    ghost from_gives = { λ said number. number ≡ number_of said };

    fn from(said: Verdict) -> Self {
        match said {
            Verdict::Yes => 1,
            Verdict::No => 0,
            Verdict::Unknown => 2,
        }
    }
}
