// What is seen of a machine's words: whose frames stand on top, what a sleeper held, and whether it came back.
ghost use Rattle.std.specs.Prelude.{◌≡◌, ◌+◌, ◌*◌, ◌<◌, ◌≤◌, length, slice_index};
ghost use Rattle.memory_calls.specs.Codes.{same};
ghost use Rattle.memory_tables.specs.Layout.{base_in};
ghost use Rattle.furnace.specs.Watch.{floor_in, coro_in, innermost, owner_in, top_base, own_base, part_of, sent_by, arriving, at_most, sent_to, all_equal};

use heap::value::Word;
use memory_tables::frame::FRAME_WIDTH;
use memory_tables::{active, frame};
use memory_world::machine::Machine;
use model::call::Op;

// Word k of record i of a table whose records have six words; 0 beyond its end.
pub(crate) fn field(table: &[u64], i: usize, k: usize) -> u64
    ensures { result ≡ slice_index table.now (i * 6 + k) }
{
    let n = table.len();
    if n / FRAME_WIDTH < i {
        return 0;
    }
    let at = i * FRAME_WIDTH;
    if n - at <= k {
        return 0;
    }
    table[at + k]
}

// Of running coroutine i: the place of its body frame.
pub(crate) fn floor(chain: &[u64], i: usize) -> usize
    ensures { result ≡ floor_in chain.now i }
{
    field(chain, i, active::FLOOR) as usize
}

// Its word.
pub(crate) fn coroutine(chain: &[u64], i: usize) -> u64
    ensures { result ≡ coro_in chain.now i }
{
    field(chain, i, 0)
}

// The base of frame i.
pub(crate) fn base(frames: &[u64], i: usize) -> usize
    ensures { result ≡ base_in frames.now i }
{
    field(frames, i, frame::BASE) as usize
}

// A register of the frame whose base is `base`; 0 beyond the stack's end.
pub(crate) fn register(stack: &[u64], base: usize, r: usize) -> u64
    ensures { result ≡ slice_index stack.now (base + r) }
{
    let n = stack.len();
    if n < base {
        return 0;
    }
    if n - base <= r {
        return 0;
    }
    stack[base + r]
}

// n, and at most so much.
pub(crate) fn at_most(most: usize, n: usize) -> usize
    ensures { result ≡ at_most most n }
{
    n.min(most)
}

// The innermost of n running coroutines; nil if there is none.
pub(crate) fn innermost(chain: &[u64], n: usize) -> u64
    ensures { result ≡ innermost chain.now n }
{
    if n == 0 {
        return Word::NIL;
    }
    coroutine(chain, n - 1)
}

// The innermost of n running coroutines to which frame i belongs; nil if it belongs to none.
pub(crate) fn owner(chain: &[u64], n: usize, i: usize) -> u64
    ensures { result ≡ owner_in chain.now n i }
{
    for k in (0..n).rev() {
        if floor(chain, k) <= i {
            return coroutine(chain, k);
        }
    }
    Word::NIL
}

// The base of the top frame.
pub(crate) fn top_base(frames: &[u64], m: Machine) -> usize
    ensures { result ≡ top_base frames.now m }
{
    base(frames, m.depth.saturating_sub(1))
}

// The base of the body frame of the innermost running coroutine: from there on the words of the stack are its own.
pub(crate) fn own_base(frames: &[u64], chain: &[u64], m: Machine) -> usize
    ensures { result ≡ own_base frames.now chain.now m }
{
    base(frames, floor(chain, m.active.saturating_sub(1)))
}

// What a call is to an observer.
#[derive(Clone, Copy)]
pub(crate) enum Part {
    // it suspends the coroutine that runs; this register then waits, at this pc
    Waits(u16, u32),
    // it enters a coroutine, and sends it the word in this register
    Sends(u16),
    // it enters a coroutine, and sends it this word
    Hands(u64),
    Neither,
}

pub(crate) fn part_of(op: Op) -> Part
    ensures { result ≡ part_of op }
{
    match op {
        Op::Yield { pc, dst, .. } => Part::Waits(dst, pc),
        Op::YieldKv { pc, dst, .. } => Part::Waits(dst, pc),
        Op::Await { pc, dst, .. } => Part::Waits(dst, pc),
        Op::Resume { src, .. } => Part::Sends(src),
        Op::IterNext { .. } => Part::Hands(Word::NIL),
        Op::HostEntry { word, .. } => Part::Hands(word),
        _ => Part::Neither,
    }
}

// The word that a call sends to the coroutine that it enters, or none.
pub(crate) fn sends(stack: &[u64], frames: &[u64], m: Machine, p: Part) -> Option<u64>
    ensures { result ≡ sent_by stack.now frames.now m p }
{
    match p {
        Part::Sends(r) => Some(register(stack, top_base(frames, m), r as usize)),
        Part::Hands(x) => Some(x),
        _ => None,
    }
}

// What of it arrives: nothing where the call was answered by a cleanup's start.
pub(crate) fn arrives(n: u64, sent: Option<u64>) -> Option<u64>
    ensures { result ≡ arriving n sent }
{
    if n == 0 { sent } else { None }
}

// Word i of those that a sleeper held, with the sent one at `place`.
fn wanted(held: &[u64], sent: Option<u64>, place: usize, i: usize) -> u64
    requires { i < length held.now }
    ensures { result ≡ slice_index (sent_to sent place held.now) i }
{
    match sent {
        Some(word) => { if i == place { word } else { held[i] } }
        None => held[i],
    }
}

// Whether what came back is what it held, with the sent word where it waited.
pub(crate) fn woke(held: &[u64], sent: Option<u64>, place: usize, back: &[u64]) -> bool
    ensures { result ≡ same (sent_to sent place held.now) back.now }
{
    if held.len() != back.len() {
        return false;
    }
    for (i, &is) in back.iter().enumerate() {
        let want = wanted(held, sent, place, i);
        if want != is {
            return false;
        }
    }
    true
}

// Whether there was a wake, and each came back as it should.
pub(crate) fn all_equal(wakes: u64, equal: u64) -> bool
    ensures { result ≡ all_equal wakes equal }
{
    wakes != 0 && equal == wakes
}
