// The kinds of a case, with the numbers that the list has for them.
use std::fmt;

// How many kinds there are.
pub(crate) const KINDS: usize = 11;

#[derive(Clone, Copy, Debug, PartialEq, Eq)]
pub(crate) enum Kind {
    Get = 1,
    Window = 2,
    Mix = 3,
    Rgba = 4,
    FitExact = 5,
    FitOverview = 6,
    Open = 7,
    Row = 8,
    Locate = 9,
    RowLines = 10,
    Range = 11,
}

impl Kind {
    // All kinds, by their numbers.
    pub(crate) const ALL: [Kind; KINDS] = [
        Kind::Get,
        Kind::Window,
        Kind::Mix,
        Kind::Rgba,
        Kind::FitExact,
        Kind::FitOverview,
        Kind::Open,
        Kind::Row,
        Kind::Locate,
        Kind::RowLines,
        Kind::Range,
    ];
}

// A number that no kind has.
#[derive(Clone, Copy, Debug, PartialEq, Eq)]
pub(crate) struct UnknownKind;

impl TryFrom<u64> for Kind {
    type Error = UnknownKind;

    fn try_from(number: u64) -> Result<Self, UnknownKind> {
        Kind::ALL
            .into_iter()
            .find(|kind| *kind as u64 == number)
            .ok_or(UnknownKind)
    }
}

impl fmt::Display for Kind {
    fn fmt<W: fmt::Write>(&self, f: &mut fmt::Formatter<W>) -> fmt::Result {
        f.write_str(match self {
            Kind::Get => "symbols of tapes",
            Kind::Window => "windows of tapes",
            Kind::Mix => "mixes of colours",
            Kind::Rgba => "colours of indices",
            Kind::FitExact => "exact fits",
            Kind::FitOverview => "overview fits",
            Kind::Open => "openings",
            Kind::Row => "rows",
            Kind::Locate => "locations",
            Kind::RowLines => "lines of rows",
            Kind::Range => "ranges",
        })
    }
}
