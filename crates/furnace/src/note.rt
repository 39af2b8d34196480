// What is noted before a call: who runs, the word that the call sends, and, if it suspends, what the coroutine that runs holds.
ghost use Rattle.std.specs.Prelude.{◌≡◌, ◌+◌, ◌<◌, ◌≤◌, ◌&&◌, length, slice_set};
ghost use Rattle.furnace.specs.Watch.{part_of, seen_in, note_of, note_fits, frames_fit, note, note_frames, noted_at, noted, one_more};

use crate::body;
use crate::watch::{Part, coroutine, floor, innermost, own_base, part_of, sends, top_base};
use memory_world::machine::Machine;
use model::call::Op;

// What was seen before a call: running coroutines, the innermost of them, and the word that the call sends.
#[derive(Clone, Copy)]
pub(crate) struct Seen {
    pub(crate) active: usize,
    pub(crate) coro: u64,
    pub(crate) sent: Option<u64>,
}

// Coroutines woken, and those of them that came back with what they held.
#[derive(Clone, Copy)]
pub(crate) struct Count {
    pub(crate) wakes: u64,
    pub(crate) equal: u64,
}

impl Count {
    pub(crate) fn one_more(self, equal: bool) -> Count
        ensures { result ≡ one_more self equal }
    {
        let wakes = self.wakes.wrapping_add(1);
        if equal {
            return Count {
                wakes,
                equal: self.equal.wrapping_add(1),
            };
        }
        Count {
            wakes,
            equal: self.equal,
        }
    }
}

// How many notes there are, and the words of one. They are: how many words the sleeper holds, which of them waits, its base, the words; how
// many frames it has, and their words.
pub(crate) const NOTES: u64 = 4;

pub(crate) const NOTE_WIDTH: u64 = 32;

pub(crate) const PLACE: usize = 1;

pub(crate) const BASE: usize = 2;

pub(crate) const WORDS: usize = 3;

pub(crate) const FRAMES: usize = 16;

pub(crate) const BODIES: usize = 17;

// As many words and frames can be noted.
pub(crate) const MOST_WORDS: usize = 13;

pub(crate) const MOST_FRAMES: usize = 2;

// Where a coroutine's note begins.
pub(crate) fn note_of(w: u64) -> usize
    ensures { result ≡ note_of w }
{
    ((w % NOTES + 2) % NOTES * NOTE_WIDTH) as usize
}

// Whether there is something to note: the words of the stack from `own` to `height`, with the register r above `top` among them.
fn fits(stack: &[u64], own: usize, top: usize, height: usize, r: usize) -> bool
    ensures { result ≡ note_fits stack.now own top height r }
{
    if height < own {
        return false;
    }
    if stack.len() < height {
        return false;
    }
    let n = height - own;
    if MOST_WORDS < n {
        return false;
    }
    let place = top.saturating_sub(own);
    place < n && r < n - place
}

// The head of the note at `at`.
fn head(notes: &mut [u64], at: usize, n: usize, place: usize, own: usize)
    requires { at + 2 < length notes.old }
    ensures { notes.new ≡ slice_set (slice_set (slice_set notes.old at n) (at + 1) place) (at + 2) own }
{
    notes[at] = n as u64;
    notes[at + PLACE] = place as u64;
    notes[at + BASE] = own as u64;
}

// The note at `at`, of the n words of the stack from `own` on.
fn keep(notes: &mut [u64], at: usize, n: usize, place: usize, stack: &[u64], own: usize)
    requires { (at + 3 + n ≤ length notes.old) × (own + n ≤ length stack.now) }
    ensures { notes.new ≡ note stack.now at n place own notes.old }
{
    head(notes, at, n, place, own);
    let first = at + WORDS;
    lists::copy_words(&mut notes[first..first + n], &stack[own..own + n]);
}

// Whether words and frames can be noted.
fn all_fit(
    stack: &[u64],
    own: usize,
    top: usize,
    height: usize,
    r: usize,
    frames: &[u64],
    floor: usize,
    depth: usize,
) -> bool
    ensures { result ≡ note_fits stack.now own top height r && frames_fit frames.now floor depth }
{
    fits(stack, own, top, height, r) && body::fit(frames, floor, depth)
}

// What the coroutine that runs holds, where the register r of the top frame is to wait.
fn note_at(
    stack: &[u64],
    frames: &[u64],
    chain: &[u64],
    m: Machine,
    r: usize,
    pc: u64,
    notes: &mut [u64],
)
    requires { length notes.old ≡ 128 }
    ensures { notes.new ≡ noted_at stack.now frames.now chain.now m r pc notes.old }
{
    if m.active == 0 {
        return;
    }
    let own = own_base(frames, chain, m);
    let top = top_base(frames, m);
    let low = floor(chain, m.active - 1);
    let height = m.height;
    let depth = m.depth;
    if !all_fit(stack, own, top, height, r, frames, low, depth) {
        return;
    }
    let at = note_of(coroutine(chain, m.active - 1));
    let n = height - own;
    let place = top.saturating_sub(own) + r;
    keep(notes, at, n, place, stack, own);
    body::keep(notes, at, frames, low, depth - low, pc);
}

// That, if the call suspends it.
fn note_own(stack: &[u64], frames: &[u64], chain: &[u64], m: Machine, p: Part, notes: &mut [u64])
    requires { length notes.old ≡ 128 }
    ensures { notes.new ≡ noted stack.now frames.now chain.now m p notes.old }
{
    match p {
        Part::Waits(r, pc) => note_at(stack, frames, chain, m, r as usize, pc as u64, notes),
        _ => {}
    }
}

// Before a call.
pub(crate) fn before(
    stack: &[u64],
    frames: &[u64],
    chain: &[u64],
    m: Machine,
    op: Op,
    notes: &mut [u64],
) -> Seen
    requires { length notes.old ≡ 128 }
    ensures { (result ≡ seen_in stack.now frames.now chain.now m op)
        × (notes.new ≡ noted stack.now frames.now chain.now m (part_of op) notes.old) }
{
    let p = part_of(op);
    note_own(stack, frames, chain, m, p, notes);
    let sent = sends(stack, frames, m, p);
    let coro = innermost(chain, m.active);
    Seen {
        active: m.active,
        coro,
        sent,
    }
}
