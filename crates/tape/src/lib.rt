// A tape as runs on both sides of its head (RULES, Tape): its checks, one symbol, a window of symbols. A side's runs
// are two slices, symbols and lengths, nearest the head last, and positions are in their offset form (crate position). `get` and
// `window` are calls of the interface; what they answer is in specs/Calls.antt, the symbol at a position in specs/Tape.antt, when a tape is
// refused in specs/Checks.antt. In contracts a `Tape` is the record of specs/Tape.antt, a `SoundTape` that with the count of its alphabet, and a
// `SoundSide` a `OneSide` of specs/Inner/Sides.antt.
#![tactic(auto)]

pub mod checks;
pub mod reading;
pub mod sides;
pub mod windows;

ghost use Rattle.std.specs.Prelude.{◌≡◌};
ghost use Rattle.refusal.specs.Checks.{allowed_by, said_by};
ghost use Rattle.tape.specs.Tape.{head_from, tape_at, symbol_at};
ghost use Rattle.tape.specs.Checks.{tape_refusal};
ghost use Rattle.tape.specs.Calls.{get_call, get_said, window_call};

use refusal::Refusal;
use std::marker::Model;

// Where the head is, and the symbol under it.
#[derive(Clone, Copy, Debug, PartialEq, Eq, Hash)]
pub struct Head {
    pub position: u64,
    pub symbol: u8,
}

impl Head {
    // The head at a position as a public call is handed it.
    pub fn new(position: i64, symbol: u8) -> Head
        ensures { result ≡ head_from position symbol }
    {
        Head {
            position: position::offset(position),
            symbol,
        }
    }
}

// The runs on one side of the head.
#[derive(Clone, Copy)]
pub struct Side<'a> {
    pub symbols: &'a [u8],
    pub lengths: &'a [u64],
}

// A tape as it is handed in, sound or not.
#[derive(Drop)]
pub struct Tape<'a> {
    pub head: Head,
    pub left: Side<'a>,
    pub right: Side<'a>,
}

impl<'a> Model for Tape<'a> {
    ghost use Rattle.tape.specs.Tape.{Tape, tape_at};

    ghost Value = { Tape };

    ghost view = { λ t. tape_at t.head t.left.symbols.now t.left.lengths.now t.right.symbols.now t.right.lengths.now };
}

// A tape that passed its checks, and the count of its alphabet.
#[derive(Drop)]
pub struct SoundTape<'a> {
    pub head: Head,
    pub left: Side<'a>,
    pub right: Side<'a>,
    pub symbols: u64,
}

impl<'a> Model for SoundTape<'a> {
    ghost use Rattle.tape.specs.Tape.{tape_at};
    ghost use Rattle.tape.specs.Inner.Sound.{Checked, checked, IsSound};

    ghost Value = { Checked };

    ghost view = { λ t. checked (tape_at t.head t.left.symbols.now t.left.lengths.now t.right.symbols.now t.right.lengths.now) t.symbols };

    ghost invariant = { λ t. IsSound (checked (tape_at t.head t.left.symbols.now t.left.lengths.now t.right.symbols.now t.right.lengths.now) t.symbols) };
}

// One side of a sound tape: whether it is the left one, where the head is, and its runs. The two slices are of one length and the positions of all
// cells fit, so what walks such a side does not ask for it. `add_side` of line takes the side by its parts and asks for this
// itself; why stands there.
#[derive(Drop)]
pub struct SoundSide<'a> {
    pub leftward: bool,
    pub head: u64,
    pub runs: Side<'a>,
}

impl<'a> Model for SoundSide<'a> {
    ghost use Rattle.tape.specs.Tape.{side_of};
    ghost use Rattle.tape.specs.Inner.Sides.{OneSide, one_side, ReadableSide};

    ghost Value = { OneSide };

    ghost view = { λ s. one_side s.leftward s.head (side_of s.runs.symbols.now s.runs.lengths.now) };

    ghost invariant = { λ s. ReadableSide (one_side s.leftward s.head (side_of s.runs.symbols.now s.runs.lengths.now)) };
}

impl<'a> Tape<'a> {
    // A tape by its parts, as C hands them over, one slice at a time.
    pub fn new(
        head: Head,
        left_symbols: &'a [u8],
        left_lengths: &'a [u64],
        right_symbols: &'a [u8],
        right_lengths: &'a [u64],
    ) -> Tape<'a>
        ensures { result ≡ tape_at head left_symbols.now left_lengths.now right_symbols.now right_lengths.now }
    {
        Tape {
            head,
            left: Side {
                symbols: left_symbols,
                lengths: left_lengths,
            },
            right: Side {
                symbols: right_symbols,
                lengths: right_lengths,
            },
        }
    }

    // The symbol at a position.
    pub fn get(&self, symbols: u64, position: u64) -> Result<u8, Refusal>
        ensures { (result ≡ get_call symbols self.now position) × (get_said result ≡ said_by (tape_refusal symbols self.now) 0 (symbol_at self.now position)) }
    {
        Ok(self.check(symbols)?.symbol_at(position))
    }

    // The symbols at the positions from `from` on, one for each place of `out`.
    pub fn window(&self, symbols: u64, from: u64, out: &mut [u8]) -> Result<(), Refusal>
        ensures value { result ≡ allowed_by (tape_refusal symbols self.now) }
        ensures out_after { out.new ≡ window_call symbols self.now from out.old }
    {
        self.check(symbols)?.fill_window(from, out);
        Ok(())
    }
}
