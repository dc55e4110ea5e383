// Replays a list of the Rust original's answers: the file `answers` of data/, which the program `maker` of rust/ writes. For each case the
// function that the viewer links is called, and what it answers and writes is held to what the original does.
//
// The list is one case after the other: a word that names its kind, a word with its length in bytes, and as many bytes (case.rt). The
// program prints how many cases of each kind there are, how many of them differ, and two sums over the whole list, so that no number of it
// can be changed unseen. It reads the list piece by piece, so that its memory does not grow with the list.
#![tactic(auto)]

mod case;
mod colouring;
mod counts;
mod kind;
mod pictures;
mod tapes;

ghost use Rattle.std.specs.Prelude.{◌≤◌, length, IfOk};

use anyhow::Context;
use case::Case;
use counts::Counts;
use kind::Kind;
use pictures::Picture;
use std::fs::File;
use std::io;
use std::io::Read;

// The most bytes of a case, and of one with its two words before it. A longer one cuts the list short.
const MOST: u64 = 65536;

const ROOM: usize = 65552;

// The list is cut short: it ends within a case, or a case is too long.
#[derive(Clone, Copy, Debug, PartialEq, Eq)]
struct CutShort;

// Whether a case of a kind is answered as the original does.
fn same(kind: Kind, case: Case, picture: &mut Picture) -> bool {
    match kind {
        Kind::Get => tapes::get(case),
        Kind::Window => tapes::window(case),
        Kind::Mix => colouring::mix(case),
        Kind::Rgba => colouring::rgba(case),
        Kind::FitExact => picture.fit_exact(case),
        Kind::FitOverview => picture.fit_overview(case),
        Kind::Open => picture.open(case),
        Kind::Row => picture.row(case),
        Kind::Locate => picture.locate(case),
        Kind::RowLines => picture.row_lines(case),
        Kind::Range => picture.range(case),
    }
}

// Judges a case and counts it; one of no kind differs.
fn judge(kind: u64, case: Case, picture: &mut Picture, counts: &mut Counts) {
    counts.add(case.bytes);
    let kind = Kind::try_from(kind).ok();
    let same = kind.is_some_and(|kind| same(kind, case, picture));
    counts.count(kind, same);
}

// Judges the cases that stand whole in a part of the list. The part after them is left.
fn judge_whole<'a>(
    part: &'a [u8],
    picture: &mut Picture,
    counts: &mut Counts,
) -> Result<&'a [u8], CutShort>
    ensures { IfOk result (λ rest. length rest.now ≤ length part.now) }
{
    let mut rest = part;
    // Where a case begins is known once the one before it is read.
    while let Some((head, behind)) = rest.split_first_chunk::<16>() {
        let [kind, length] = Case { bytes: head }.words::<2>(0);
        if MOST < length {
            counts.add(head);
            return Err(CutShort);
        }
        let Some((bytes, next)) = behind.split_at_checked(length as usize) else {
            break;
        };
        counts.add(head);
        judge(kind, Case { bytes }, picture, counts);
        rest = next;
    }
    Ok(rest)
}

// Judges what is left of a list that has ended: nothing, or a case that is cut short.
fn judge_end(rest: &[u8], counts: &mut Counts) -> Result<(), CutShort> {
    if let Some(head) = rest.first_chunk::<16>() {
        counts.add(head);
    }
    if rest.is_empty() {
        Ok(())
    } else {
        Err(CutShort)
    }
}

// Judges a list: what has been read and not judged stands at the start of the room.
fn judge_all(list: &mut File, counts: &mut Counts) -> io::Result<Result<(), CutShort>> {
    let mut picture = Picture::new();
    let mut room = [0; ROOM];
    let mut held = 0;
    // A proved loop has to end, and nothing says that a list does.
    for _ in 0..u64::MAX {
        let read = list.read(&mut room[held..])?;
        if read == 0 {
            break;
        }
        held += read;
        let Ok(rest) = judge_whole(&room[..held], &mut picture, counts) else {
            return Ok(Err(CutShort));
        };
        let left = rest.len();
        if left < held {
            room.copy_within(held - left..held, 0);
            held = left;
        }
    }
    Ok(judge_end(&room[..held], counts))
}

fn main(rt: HostRuntime) -> anyhow::Result<()> {
    let mut list = File::open(&rt, "answers").context("answers")?;
    let mut counts = Counts::default();
    let judged = judge_all(&mut list, &mut counts)?;
    counts.print(&rt)?;
    if judged.is_err() {
        println!(rt; "the list is cut short")?;
    }
    Ok(())
}
