// The runs of one side of the head, from the head outwards. The walks over them are loops of their own, and no function that is handed a
// closure: of what a closure borrows and changes, a proof knows nothing after such a call. They go by index: a zip of both slices, reversed,
// tests two ends at each run, and a row took up to a fifth longer.
ghost use Rattle.std.specs.Prelude.{◌≡◌, ◌+◌, min, max};
ghost use Rattle.tape.specs.Inner.Sides.{edge, SideFits};

// The positions of a run of `length` cells, behind the `passed` cells that are nearer to the head: the first, and the one behind the last. The side
// is a flag, for the reason in tape (sides.rt).
pub(crate) fn positions(leftward: bool, head: u64, passed: u64, length: u64) -> (u64, u64)
    requires { SideFits leftward head (passed + length) }
    ensures { let near = edge leftward head passed in
        let far = edge leftward head (passed + length) in
        (result.0 ≡ min near far) × (result.1 ≡ max near far) }
{
    if leftward {
        (head - passed - length, head - passed)
    } else {
        (head + 1 + passed, head + 1 + passed + length)
    }
}
