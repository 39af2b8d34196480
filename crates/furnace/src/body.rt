// The frames of a sleeper: noted when it goes to sleep, compared when it wakes.
ghost use Rattle.std.specs.Prelude.{◌≡◌, ◌+◌, ◌*◌, ◌<◌, ◌≤◌, length, slice_set};
ghost use Rattle.lists.specs.Parts.{part, splice};
ghost use Rattle.furnace.specs.Watch.{frames_fit, note_frames, noted_frames, word_back, frames_back};

use crate::note::{BODIES, FRAMES, MOST_FRAMES};
use crate::watch::{at_most, field};
use heap::value::BITS32;
use memory_tables::frame::{BASE, FRAME_WIDTH, PC};

// From the pc of the last of some frames to their end.
const FROM_PC: usize = FRAME_WIDTH - PC;

// Whether the frames from place `floor` on can be noted: at most two.
pub(crate) fn fit(frames: &[u64], floor: usize, depth: usize) -> bool
    ensures { result ≡ frames_fit frames.now floor depth }
{
    if depth <= floor {
        return false;
    }
    depth - floor <= MOST_FRAMES && depth <= frames.len() / FRAME_WIDTH
}

// Word i replaced.
fn put(notes: &mut [u64], i: usize, v: u64)
    requires { i < length notes.old }
    ensures { notes.new ≡ slice_set notes.old i v }
{
    notes[i] = v;
}

// The n words of the frames from `from` on, written from `to` on.
fn copy(notes: &mut [u64], to: usize, frames: &[u64], from: usize, n: usize)
    requires { (to + n ≤ length notes.old) × (from + n ≤ length frames.now) }
    ensures { notes.new ≡ splice notes.old to (part from n frames.now) }
{
    lists::copy_words(&mut notes[to..to + n], &frames[from..from + n]);
}

// The words of n frames in the note at `at`, with the pc at which the top one sleeps.
pub(crate) fn keep(notes: &mut [u64], at: usize, frames: &[u64], floor: usize, n: usize, pc: u64)
    requires { (at + 29 ≤ length notes.old) × ((0 < n) × ((n ≤ 2) × (floor * 6 + n * 6 ≤ length frames.now))) }
    ensures { notes.new ≡ note_frames frames.now at floor n pc notes.old }
{
    put(notes, at + FRAMES, n as u64);
    copy(
        notes,
        at + BODIES,
        frames,
        floor * FRAME_WIDTH,
        n * FRAME_WIDTH,
    );
    put(notes, at + BODIES + (n * FRAME_WIDTH - FROM_PC), pc);
}

// Whether word p of n frames is as it should be: it was `was`, and is `is`.
pub(crate) fn word_back(
    sent: bool,
    n: usize,
    from: usize,
    to: usize,
    p: usize,
    was: u64,
    is: u64,
) -> bool
    requires { n ≤ 2 }
    ensures { result ≡ word_back sent n from to p was is }
{
    if p % FRAME_WIDTH == BASE {
        return (is as usize).saturating_sub(to) == (was as usize).saturating_sub(from);
    }
    if !sent {
        return is == was;
    }
    let top = (n * FRAME_WIDTH).saturating_sub(FROM_PC);
    if p != top {
        return is == was;
    }
    is == (was % BITS32 + 1) % BITS32
}

// Whether the frames from place `floor` on are those of the note at `at`; the sleeper's own base was `from`, and is `to`.
pub(crate) fn back(
    frames: &[u64],
    floor: usize,
    depth: usize,
    notes: &[u64],
    at: usize,
    sent: bool,
    from: usize,
    to: usize,
) -> bool
    requires { at + 29 ≤ length notes.now }
    ensures { result ≡ frames_back frames.now floor depth notes.now at sent from to }
{
    let n = at_most(MOST_FRAMES, notes[at + FRAMES] as usize);
    if depth.saturating_sub(floor) != n {
        return false;
    }
    for p in 0..n * FRAME_WIDTH {
        let was = notes[at + BODIES + p];
        let is = field(frames, floor, p);
        if !word_back(sent, n, from, to, p, was, is) {
            return false;
        }
    }
    true
}
