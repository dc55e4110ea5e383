// What a row that is drawn makes of the progress: one more row done, and the written cells that its line leaves out (RULES, Rows).
ghost use Rattle.std.specs.Prelude.{◌≡◌, ◌<◌};
ghost use Rattle.rows.specs.RowCall.{progressed};

use grid::Progress;
use grid::soundness::SoundGrid;
use tape::SoundTape;

// Above every position of a tape.
const ABOVE: u64 = u64::MAX;

// The progress once the row of a tape is drawn. Grid and tape are two, as in drawing.rt.
pub(crate) fn progress_after(sound: SoundGrid, tape: &SoundTape<'_>) -> Progress
    requires { sound.progress.done < sound.rows }
    ensures { result ≡ progressed sound tape.now.tape }
{
    let window = sound.window().range();
    Progress {
        done: sound.grid.progress.done + 1,
        left: line::outside::count_between(tape, 0, window.low),
        right: line::outside::count_between(tape, window.high + 1, ABOVE),
    }
}
