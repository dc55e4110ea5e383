// What is counted.
use crate::kind::{KINDS, Kind};
use std::{fmt, io};

// How many cases there are, and how many of them differ.
#[derive(Clone, Copy, Default)]
struct Count {
    cases: u64,
    differ: u64,
}

impl Count {
    fn add(&mut self, same: bool) {
        self.cases = self.cases.wrapping_add(1);
        if !same {
            self.differ = self.differ.wrapping_add(1);
        }
    }
}

impl fmt::Display for Count {
    fn fmt<W: fmt::Write>(&self, f: &mut fmt::Formatter<W>) -> fmt::Result {
        write!(f, "{} cases, {} differ", self.cases, self.differ)
    }
}

// The cases of each kind, those of none, and two sums over the list. The kinds are counted in an array, by their numbers: a map would have an
// allocator, and could lack a kind.
#[derive(Clone, Copy, Default)]
pub(crate) struct Counts {
    kinds: [Count; KINDS],
    unknown: Count,
    low: u64,
    high: u64,
}

impl Counts {
    // Adds bytes to the two sums. The second depends on their order.
    pub(crate) fn add(&mut self, bytes: &[u8]) {
        for &byte in bytes {
            self.low = self.low.wrapping_add(u64::from(byte));
            self.high = self.high.wrapping_add(self.low);
        }
    }

    // Counts a case of a kind, or of none.
    pub(crate) fn count(&mut self, kind: Option<Kind>, same: bool) {
        match kind {
            Some(kind) => self.kinds[kind as usize - 1].add(same),
            None => self.unknown.add(same),
        }
    }

    pub(crate) fn print(&self, rt: &impl Print) -> io::Result<()> {
        for (kind, count) in Kind::ALL.iter().zip(&self.kinds) {
            println!(rt; "{kind}: {count}")?;
        }
        println!(rt; "of no kind: {}", self.unknown)?;
        println!(rt; "sums of the list: {} {}", self.low, self.high)
    }
}
