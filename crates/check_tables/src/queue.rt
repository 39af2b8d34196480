// A queue of coroutines: one pass over its words.
ghost use Rattle.std.specs.Prelude.{◌≡◌, ◌||◌, ℕ, ◌<◌, eqb, take};
ghost use Rattle.heap.specs.Heap.{TableFits, slots_of, coro_of};
ghost use Rattle.check_tables.specs.Queue.{by_coro, mark_of, entries_ok, queue_held, bit_at, QueueAsks};

use heap::value::{Obj, Word};
use model::program::MOST_SLOTS;

// Whether a word names a coroutine that is a task, or one that was handed over for a cleanup.
fn is_marked(slots: &[u64], count: usize, task: bool, w: u64) -> bool
    requires { TableFits slots.now count }
    ensures { result ≡ by_coro (mark_of task) (coro_of (slots_of count slots.now) w) }
{
    let Ok(i) = heap::heap::coro_place(slots, count, Word(w)) else {
        return false;
    };
    if task {
        heap::field::task_at(slots, i)
    } else {
        heap::field::finalized_at(slots, i)
    }
}

// Whether bit i of w is set.
pub fn bit(w: u64, i: u64) -> bool
    requires { i < 64 }
    ensures { result ≡ bit_at w i }
{
    (w >> i) % 2 == 1
}

// w with bit i set.
pub fn with_bit(w: u64, i: u64) -> u64
    requires { i < 64 }
    ensures { (j : ℕ) → bit_at result j ≡ eqb j i || bit_at w j }
{
    w | (1 << i)
}

// Whether each of the first n words does, and none stands there twice: a mark for each slot.
fn entries_ok(q: &[u64], n: usize, slots: &[u64], count: usize, task: bool) -> bool
    requires { QueueAsks q.now slots.now n count }
    ensures { result ≡ entries_ok task (slots_of count slots.now) (take n q.now) }
{
    let mut seen = [false; MOST_SLOTS];
    for i in (0..n).rev() {
        let w = q[i];
        if !is_marked(slots, count, task, w) {
            return false;
        }
        let x = Obj(w).slot();
        if seen[x] {
            return false;
        }
        seen[x] = true;
    }
    true
}

// The first n words of a queue, and zeros after them.
pub fn queue_ok(q: &[u64], n: usize, slots: &[u64], count: usize, task: bool) -> bool
    requires { QueueAsks q.now slots.now n count }
    ensures { result ≡ queue_held task (slots_of count slots.now) q.now n }
{
    entries_ok(q, n, slots, count, task) && crate::rest::rest_ok(q, n)
}
