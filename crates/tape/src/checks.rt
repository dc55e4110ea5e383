// The checks of a tape (RULES, Refusals, 2, 11, 12 and 19), for any lengths whatever: no sum is made that could wrap.
ghost use Rattle.std.specs.Prelude.{◌≡◌, ℕ, ◌-◌, ◌^◌, ◌<◌, min, get_or};
ghost use Rattle.refusal.specs.Checks.{answer_by};
ghost use Rattle.tape.specs.Tape.{side_of};
ghost use Rattle.tape.specs.Checks.{side_sound, total, runs_sound, reach_sound, tape_refusal};
ghost use Rattle.tape.specs.Joined.{differing, tape_joined};
ghost use Rattle.tape.specs.Inner.Checks.{Readable, runs_refusal};
ghost use Rattle.tape.specs.Inner.Sound.{checked};

use super::{Side, SoundTape, Tape};
use refusal::{Refusal, require};

// Whether a side's two lists are of one length, no run is empty and each symbol is below `count`. One walk over both lists: by an `all` of each, `get`
// on a tape of 1000 runs took 1.2 times as long.
#[tactic(auto, using(crate::proofs::Each::each_next, crate::proofs::Each::each_past))]
fn side_sound(count: u64, side: Side<'_>) -> bool
    ensures { result ≡ side_sound count (side_of side.entry.symbols.now side.entry.lengths.now) }
{
    let Side { symbols, lengths } = side;
    if symbols.len() != lengths.len() {
        return false;
    }
    for (i, &n) in lengths.iter().enumerate() {
        if n == 0 || count <= u64::from(symbols[i]) {
            return false;
        }
    }
    true
}

// The cells of a side's runs, or the greatest number where they are more. A loop that ends at the first sum that does not fit: by `saturating_add`
// `get` on a tape of 1000 runs took 1.3 times as long, and by `iter().fold` of it longer still.
fn total_held(lengths: &[u64]) -> u64
    ensures { result ≡ min (2 ^ 64 - 1) (total lengths.now) }
{
    let mut sum: u64 = 0;
    for &n in lengths {
        let Some(more) = sum.checked_add(n) else {
            return u64::MAX;
        };
        sum = more;
    }
    sum
}

// Each of a slice's bytes is below 256. It computes nothing.
fn bytes_below(symbols: &[u8])
    ensures { (k : ℕ) → get_or symbols.now k 0 < 256 }
{}

// Whether each run's symbol is another than that of the run beyond it, and the outermost run is not blank.
fn side_joined(symbols: &[u8]) -> bool
    ensures { result ≡ differing 0 symbols.now }
{
    let mut beyond = 0;
    for &symbol in symbols {
        if symbol == beyond {
            return false;
        }
        beyond = symbol;
    }
    true
}

impl<'a> Tape<'a> {
    // Whether both sides are joined.
    pub fn joined(&self) -> bool
        ensures { result ≡ tape_joined self.now }
    {
        side_joined(self.left.symbols) && side_joined(self.right.symbols)
    }

    // 11
    fn runs_sound(&self, count: u64) -> bool
        ensures { result ≡ runs_sound count self.now }
    {
        u64::from(self.head.symbol) < count
            && side_sound(count, self.left)
            && side_sound(count, self.right)
    }

    // 12
    fn reach_sound(&self) -> bool
        ensures { result ≡ reach_sound self.now }
    {
        let left = total_held(self.left.lengths);
        let right = total_held(self.right.lengths);
        position::in_reach(self.head.position, left, right)
    }

    // The tape, or its refusal: 11, 19 or 12. `joined` is what check 19 says; `true` leaves it out, for a call on the tape alone. Without it the list
    // of checks, and what makes a `SoundTape` of the parts, would stand twice. Inlined, as `check` is: handed over in memory, the tape took `window` on
    // short tapes half as long again.
    #[tactic(auto, unfolding(crate::specs::Inner::Checks::runs_refusal))]
    #[inline(always)]
    pub fn check_runs(&self, count: u64, joined: bool) -> Result<SoundTape<'a>, Refusal>
        ensures { result ≡ answer_by (runs_refusal count joined self.now) (checked self.now count) }
    {
        require(self.runs_sound(count), Refusal::Runs)?;
        require(joined, Refusal::Unjoined)?;
        require(self.reach_sound(), Refusal::Reach)?;
        Ok(SoundTape {
            head: self.head,
            left: self.left,
            right: self.right,
            symbols: count,
        })
    }

    // A tape whose runs are known to be readable, checked or not: its alphabet is all bytes. So whoever reads a tape that is no call's need not show
    // more of it than that.
    pub fn readable(&self) -> SoundTape<'a>
        requires { Readable self.now }
        ensures { result ≡ checked self.now 256 }
    {
        bytes_below(self.left.symbols);
        bytes_below(self.right.symbols);
        SoundTape {
            head: self.head,
            left: self.left,
            right: self.right,
            symbols: 256,
        }
    }

    // The tape of a row call, whose alphabet was checked before.
    pub fn check_joined(&self, count: u64) -> Result<SoundTape<'a>, Refusal>
        ensures { result ≡ answer_by (runs_refusal count (tape_joined self.now) self.now) (checked self.now count) }
    {
        self.check_runs(count, self.joined())
    }

    // The tape of a call on it alone, or its refusal: 2, 11 or 12.
    #[tactic(auto, unfolding(crate::specs::Checks::tape_refusal, crate::specs::Inner::Checks::runs_refusal))]
    #[inline(always)]
    pub fn check(&self, symbols: u64) -> Result<SoundTape<'a>, Refusal>
        ensures { result ≡ answer_by (tape_refusal symbols self.now) (checked self.now symbols) }
    {
        require(limits::symbols_sound(symbols), Refusal::Symbols)?;
        self.check_runs(symbols, true)
    }
}
