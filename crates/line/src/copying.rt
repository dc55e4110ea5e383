// The lines of a row: its first is written, and the others are copies of it.
ghost use Rattle.std.specs.Prelude.{◌≡◌, ◌*◌, ◌^◌, ◌≤◌, ◌<◌, ◌%◌, length, get_or};
ghost use Rattle.slices.specs.Inner.Filled.{altered};

// Lines are copied together until they are as many bytes: more would not stay in the nearest memory.
const AT_ONCE: usize = 4096;

// How many lines are copied together, after so many were, once `done` lines are there: all of these, or no more than before.
fn next_together(together: usize, done: usize, width: usize) -> usize
    requires { (1 ≤ together) × (together ≤ done) × (done * width < 2 ^ 64) }
    ensures { (1 ≤ result) × (result ≤ done) }
{
    if together * width < AT_ONCE {
        done
    } else {
        together
    }
}

// Copies the first line of `lines` lines onto those below it. Lines that are done are copied together, so that a band of narrow ones takes few copies.
pub fn copy_down(band: &mut [u8], width: usize, lines: usize)
    requires { (0 < width) × (0 < lines) × (lines * width ≤ length band.old) }
    ensures { band.new ≡ altered (λ k b. get_or band.old (k % width) 0) width (lines * width) band.old }
{
    let mut together: usize = 1;
    let mut done: usize = 1;
    while done < lines {
        let more = together.min(lines - done);
        slices::by_word::repeat(band, more * width, done * width);
        done += more;
        together = next_together(together, done, width);
    }
}
