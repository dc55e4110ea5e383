// Why a call is refused (RULES, Refusals), in one place for every crate that refuses.
// The lists of checks in specs/ say which refusal a call answers; specs/Checks.antt says what such a list answers, specs/Numbers.antt the
// number of each refusal. A function of checks is a chain of `require`, one line a check.
#![tactic(auto)]

ghost use Rattle.std.specs.Prelude.{◌≡◌, cond, Ok, Err};
ghost use Rattle.refusal.specs.Numbers.{number_of};

use std::error::Error;
use std::fmt;

#[derive(Clone, Copy, Debug, PartialEq, Eq, Hash)]
pub enum Refusal {
    // Whoever orders a picture.
    Size,
    Symbols,
    Position,
    Reversed,
    Heads,
    Cells,
    // Whoever lends memory.
    IndexLength,
    StoreLength,
    TalliesLength,
    OutputLength,
    // Whoever steps the machine.
    Runs,
    Unjoined,
    Reach,
    Swept,
    Complete,
    // Whoever keeps the record.
    Record,
    // Whoever clicks.
    Upright,
    // Whoever prints.
    PageWidth,
    PageLength,
}

impl From<Refusal> for u32 {
    ghost from_gives = { λ refusal number. number ≡ number_of refusal };

    fn from(refusal: Refusal) -> u32 {
        match refusal {
            Refusal::Size => 1,
            Refusal::Symbols => 2,
            Refusal::Position => 3,
            Refusal::Reversed => 4,
            Refusal::Heads => 5,
            Refusal::Cells => 6,
            Refusal::IndexLength => 7,
            Refusal::StoreLength => 8,
            Refusal::TalliesLength => 9,
            Refusal::OutputLength => 10,
            Refusal::Runs => 11,
            Refusal::Reach => 12,
            Refusal::Swept => 13,
            Refusal::Complete => 14,
            Refusal::Record => 15,
            Refusal::Upright => 16,
            Refusal::PageWidth => 17,
            Refusal::PageLength => 18,
            Refusal::Unjoined => 19,
        }
    }
}

impl fmt::Display for Refusal {
    fn fmt<W: fmt::Write>(&self, f: &mut fmt::Formatter<W>) -> fmt::Result {
        f.write_str(match self {
            Refusal::Size => "the picture must be 1 to 4096 pixels wide and high",
            Refusal::Symbols => "an alphabet has 1 to 64 symbols",
            Refusal::Position => "a position is beyond ±2^62",
            Refusal::Reversed => "a pair has its high end first",
            Refusal::Heads => "there are no heads, or more than the picture has rows",
            Refusal::Cells => "bins would cover more than 2^50 cells",
            Refusal::IndexLength => "the index has not one byte for each pixel",
            Refusal::StoreLength => "the store has not one byte for each cell of each row",
            Refusal::TalliesLength => "the tallies are not one for each bin",
            Refusal::OutputLength => "the output has not four bytes for each byte of the index",
            Refusal::Runs =>
                "the runs of a side are unsound, or a symbol is not below the alphabet's count",
            Refusal::Reach => "the tape reaches beyond ±2^62",
            Refusal::Swept => "the swept pair is unsound",
            Refusal::Complete => "all rows are drawn",
            Refusal::Record => "the record is not one that a fit or a row call can give",
            Refusal::Upright => "the column or the rows are not in the drawn picture",
            Refusal::PageWidth => "the picture is too wide for a page",
            Refusal::PageLength => "the page has not 81 bytes for each drawn row",
            Refusal::Unjoined => "neighbouring runs have one symbol, or an outermost run is blank",
        })
    }
}

impl Error for Refusal {}

// Goes on where a test holds.
pub fn require(holds: bool, refusal: Refusal) -> Result<(), Refusal>
    ensures { result ≡ cond holds (Ok tt) (Err refusal) }
{
    if holds { Ok(()) } else { Err(refusal) }
}
