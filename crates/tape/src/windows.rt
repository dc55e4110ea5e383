// Reading a window of a sound tape: the symbols at consecutive positions, written to a lent slice. Each place is written
// once, run by run from the head outwards, so the cost grows with the runs that the window meets and with its places.
ghost use Rattle.std.specs.Prelude.{◌≡◌, ◌-◌, ◌≤◌, min, max, length};
ghost use Rattle.slices.specs.Inner.Filled.{filled};
ghost use Rattle.tape.specs.Inner.Sides.{on_side, side_symbol};
ghost use Rattle.tape.specs.Inner.Windows.{overlaid, outermost};
ghost use Rattle.tape.specs.Tape.{symbols_from};

use super::{Side, SoundSide, SoundTape, sides};

// The window's place of a position, held to 0..n.
fn place(from: u64, position: u64, n: usize) -> usize
    ensures { result ≡ min n (position - from) }
{
    position.saturating_sub(from).min(n as u64) as usize
}

// Sets the places between two.
fn fill_between(out: &mut [u8], near: usize, far: usize, value: u8)
    requires { (near ≤ length out.old) × (far ≤ length out.old) }
    ensures { out.new ≡ filled (min near far) (max near far) value out.old }
{
    slices::fill(out, near.min(far), near.max(far), value);
}

// The window's outermost place on a side. The side is a flag, as in sides.rt.
fn outermost(leftward: bool, n: usize) -> usize
    ensures { result ≡ outermost leftward n }
{
    if leftward { 0 } else { n }
}

impl SoundSide<'_> {
    // The part of the window on this side of the head. By index: what the zip of both slices, reversed, costs a run stands at `cell` in reading.rt.
    // Inlined, for the reason at `check_runs`.
    #[inline(always)]
    fn fill_side(self, from: u64, out: &mut [u8])
        ensures { let s = self.entry in
            out.new ≡ overlaid from (on_side s.leftward s.head) (side_symbol s.leftward s.head s.runs.symbols s.runs.lengths) out.old }
    {
        let SoundSide {
            leftward,
            head,
            runs: Side { symbols, lengths },
        } = self;
        let n = out.len();
        let last = outermost(leftward, n);
        let mut passed = 0;
        let mut near = place(from, sides::edge(leftward, head, 0), n);
        for i in (0..lengths.len()).rev() {
            if near == last {
                return;
            }
            passed += lengths[i];
            let far = place(from, sides::edge(leftward, head, passed), n);
            fill_between(out, near, far, symbols[i]);
            near = far;
        }
        fill_between(out, near, last, 0);
    }
}

impl SoundTape<'_> {
    // The symbols at the positions from `from` on, one for each place of `out`.
    pub fn fill_window(&self, from: u64, out: &mut [u8])
        ensures { out.new ≡ symbols_from self.now.tape from (length out.old) }
    {
        let n = out.len();
        let at = self.head.position;
        self.left().fill_side(from, out);
        slices::fill(
            out,
            place(from, at, n),
            place(from, at + 1, n),
            self.head.symbol,
        );
        self.right().fill_side(from, out);
    }
}
