// Joining the runs of a tape (RULES, Joining): each side is rewritten within its own slices, in one pass. What the call answers
// is in specs/Calls.antt, the claim about it in specs/Joining.antt, when a side is joined in tape's specs/Joined.antt.
#![tactic(auto)]

ghost use Rattle.std.specs.Prelude.{◌≡◌, ◌^◌, ◌<◌, ◌≤◌, [], ◌∷◌, length};
ghost use Rattle.refusal.specs.Checks.{answer_by, kept_if};
ghost use Rattle.tape.specs.Checks.{total, tape_refusal};
ghost use Rattle.tape.specs.Tape.{side_of, tape_at};
ghost use Rattle.joining.specs.Runs.{runs_of, joined_of};
ghost use Rattle.joining.specs.Inner.Outer.{OuterBlanks};
ghost use Rattle.joining.specs.Calls.{freed_of, rewritten};

use refusal::Refusal;
use std::hint::select_unpredictable;
use tape::{Head, Tape};

// How many blank runs stand at the outer end.
fn outer_blanks(symbols: &[u8]) -> usize
    ensures { OuterBlanks symbols.now result }
{
    symbols
        .iter()
        .position(|&symbol| symbol != 0)
        .unwrap_or(symbols.len())
}

// Joins the runs of a side within its slices, and answers how many there are then. They stand at the front; what the places after them hold
// is left open. No turn of the loop branches: each stores the nearest run anew. It goes by index, since an iterator over the runs would borrow
// the slices that each turn writes to.
fn gather(symbols: &mut [u8], lengths: &mut [u64]) -> usize
    requires { (length symbols.old ≡ length lengths.old) × (total lengths.old < 2 ^ 64) }
    ensures value { let n = length lengths.old in
        runs_of symbols.new lengths.new result ≡ joined_of (runs_of symbols.old lengths.old n) }
    ensures within { let n = length lengths.old in
        result ≤ n }
    ensures as_long { let n = length lengths.old in
        (length symbols.new ≡ n) × (length lengths.new ≡ n) }
{
    let mut count = 0;
    let mut nearest = 0u8;
    let mut cells = 0;
    for i in outer_blanks(&*symbols)..lengths.len() {
        let symbol = symbols[i];
        let same = symbol == nearest;
        cells = select_unpredictable(same, cells, 0) + lengths[i];
        count = select_unpredictable(same, count, count + 1);
        let at = count - 1;
        symbols[at] = symbol;
        lengths[at] = cells;
        nearest = symbol;
    }
    count
}

// Joins the runs of a side, and answers how many places came free; these hold 0.
fn join_side(symbols: &mut [u8], lengths: &mut [u64]) -> u64
    requires { (length symbols.old ≡ length lengths.old) × (total lengths.old < 2 ^ 64) }
    ensures value { let side = side_of symbols.old lengths.old in
        result ≡ freed_of side }
    ensures symbols_after { let side = side_of symbols.old lengths.old in
        symbols.new ≡ (rewritten side).symbols }
    ensures lengths_after { let side = side_of symbols.old lengths.old in
        lengths.new ≡ (rewritten side).lengths }
{
    let count = gather(&mut *symbols, &mut *lengths);
    let freed = lengths.len() - count;
    symbols[count..].fill(0);
    lengths[count..].fill(0);
    freed as u64
}

// Joins both sides of a tape, and says how many places came free on the left and on the right. The four slices are parameters of their own, as C
// lends them: a struct of `&mut` fields says in a contract what its fields are lent at, which is no plainer.
pub fn join(
    symbols: u64,
    head: Head,
    left_symbols: &mut [u8],
    left_lengths: &mut [u64],
    right_symbols: &mut [u8],
    right_lengths: &mut [u64],
) -> Result<[u64; 2], Refusal>
    ensures value { let tape = tape_at head left_symbols.old left_lengths.old right_symbols.old right_lengths.old in
        result ≡ answer_by (tape_refusal symbols tape) (freed_of tape.left ∷ freed_of tape.right ∷ []) }
    ensures left_after { let tape = tape_at head left_symbols.old left_lengths.old right_symbols.old right_lengths.old in
        let left = kept_if (tape_refusal symbols tape) tape.left (rewritten tape.left) in
        (left_symbols.new ≡ left.symbols) × (left_lengths.new ≡ left.lengths) }
    ensures right_after { let tape = tape_at head left_symbols.old left_lengths.old right_symbols.old right_lengths.old in
        let right = kept_if (tape_refusal symbols tape) tape.right (rewritten tape.right) in
        (right_symbols.new ≡ right.symbols) × (right_lengths.new ≡ right.lengths) }
{
    Tape::new(
        head,
        &*left_symbols,
        &*left_lengths,
        &*right_symbols,
        &*right_lengths,
    )
    .check(symbols)?;
    let left = join_side(left_symbols, left_lengths);
    let right = join_side(right_symbols, right_lengths);
    Ok([left, right])
}
