// A coroutine's slot, field by field: only the words that are asked for are read, and only those that change are written.
ghost use Rattle.std.specs.Prelude.{◌≡◌, ◌<◌, get_or, set};
ghost use Rattle.lists.specs.Chunks.{chunk_at, put_chunk};
ghost use Rattle.heap.specs.Slot.{width, is_set, closing_words, task_words, finalized_words};
ghost use Rattle.heap.specs.Heap.{SlotFits, coro_in};

use crate::layout;
use crate::object::CoroState;
use crate::slot::WIDTH;

// Word k of slot i.
pub(crate) fn word_at(slots: &[u64], i: usize, k: usize) -> u64
    requires { SlotFits slots.now i × (k < width) }
    ensures { result ≡ get_or (chunk_at width slots.now i) k 0 }
{
    let from = i * WIDTH + k;
    slots[from]
}

// Whether word k of slot i is set.
pub(crate) fn flag_at(slots: &[u64], i: usize, k: usize) -> bool
    requires { SlotFits slots.now i × (k < width) }
    ensures { result ≡ is_set (get_or (chunk_at width slots.now i) k 0) }
{
    word_at(slots, i, k) != 0
}

// Word k of slot i replaced.
fn put_word(slots: &mut [u64], i: usize, k: usize, v: u64)
    requires { SlotFits slots.old i × (k < width) }
    ensures { slots.new ≡ put_chunk width slots.old i (set (chunk_at width slots.old i) k v) }
{
    let to = i * WIDTH + k;
    slots[to] = v;
}

// The state of the coroutine at place i.
pub fn state_at(slots: &[u64], i: usize) -> CoroState
    requires { SlotFits slots.now i }
    ensures { result ≡ (coro_in slots.now i).state }
{
    CoroState::of_code(word_at(slots, i, layout::STATE))
}

// Whether it closes.
pub fn closing_at(slots: &[u64], i: usize) -> bool
    requires { SlotFits slots.now i }
    ensures { result ≡ (coro_in slots.now i).closing }
{
    flag_at(slots, i, layout::CLOSING)
}

// Whether it was handed over for a cleanup.
pub fn finalized_at(slots: &[u64], i: usize) -> bool
    requires { SlotFits slots.now i }
    ensures { result ≡ (coro_in slots.now i).finalized }
{
    flag_at(slots, i, layout::FINALIZED)
}

// Whether it is a task.
pub fn task_at(slots: &[u64], i: usize) -> bool
    requires { SlotFits slots.now i }
    ensures { result ≡ (coro_in slots.now i).task }
{
    flag_at(slots, i, layout::TASK)
}

// The row of its saved registers and frames.
pub fn row_at(slots: &[u64], i: usize) -> u64
    requires { SlotFits slots.now i }
    ensures { result ≡ (coro_in slots.now i).row }
{
    word_at(slots, i, layout::ROW)
}

// How many registers are saved there.
pub fn regs_at(slots: &[u64], i: usize) -> u64
    requires { SlotFits slots.now i }
    ensures { result ≡ (coro_in slots.now i).regs }
{
    word_at(slots, i, layout::REGS)
}

// How many frames.
pub fn frames_at(slots: &[u64], i: usize) -> u64
    requires { SlotFits slots.now i }
    ensures { result ≡ (coro_in slots.now i).frames }
{
    word_at(slots, i, layout::FRAMES)
}

// The largest number of registers that it saved so far.
pub fn maxregs_at(slots: &[u64], i: usize) -> u64
    requires { SlotFits slots.now i }
    ensures { result ≡ (coro_in slots.now i).maxregs }
{
    word_at(slots, i, layout::MAXREGS)
}

// The largest number of frames.
pub fn maxframes_at(slots: &[u64], i: usize) -> u64
    requires { SlotFits slots.now i }
    ensures { result ≡ (coro_in slots.now i).maxframes }
{
    word_at(slots, i, layout::MAXFRAMES)
}

// The register that receives the sent word.
pub fn waiting_at(slots: &[u64], i: usize) -> u64
    requires { SlotFits slots.now i }
    ensures { result ≡ (coro_in slots.now i).waiting }
{
    word_at(slots, i, layout::WAITING)
}

// Its key.
pub fn key_at(slots: &[u64], i: usize) -> u64
    requires { SlotFits slots.now i }
    ensures { result ≡ (coro_in slots.now i).key }
{
    word_at(slots, i, layout::KEY)
}

// Its largest integer key so far.
pub fn largest_at(slots: &[u64], i: usize) -> u64
    requires { SlotFits slots.now i }
    ensures { result ≡ (coro_in slots.now i).largest }
{
    word_at(slots, i, layout::LARGEST)
}

// Its result.
pub fn result_at(slots: &[u64], i: usize) -> u64
    requires { SlotFits slots.now i }
    ensures { result ≡ (coro_in slots.now i).result }
{
    word_at(slots, i, layout::RESULT)
}

// The coroutine at place i closes, with a signal: two words.
pub fn put_closing(slots: &mut [u64], i: usize, signal: u64)
    requires { SlotFits slots.old i }
    ensures { slots.new ≡ put_chunk width slots.old i (closing_words signal (chunk_at width slots.old i)) }
{
    let b = i * WIDTH;
    slots[b + layout::CLOSING] = 1;
    slots[b + layout::SIGNAL] = signal;
}

// The coroutine at place i is a task: one word.
pub fn put_task(slots: &mut [u64], i: usize)
    requires { SlotFits slots.old i }
    ensures { slots.new ≡ put_chunk width slots.old i (task_words (chunk_at width slots.old i)) }
{
    put_word(slots, i, layout::TASK, 1);
}

// The coroutine at place i is handed over for a cleanup: one word.
pub fn put_finalized(slots: &mut [u64], i: usize)
    requires { SlotFits slots.old i }
    ensures { slots.new ≡ put_chunk width slots.old i (finalized_words (chunk_at width slots.old i)) }
{
    put_word(slots, i, layout::FINALIZED, 1);
}
