// The running coroutines: those of the chain, each its own.
ghost use Rattle.std.specs.Prelude.{◌≡◌, ◌<◌, length};
ghost use Rattle.heap.specs.Heap.{TableFits, slots_of, coro_of};
ghost use Rattle.check_tables.specs.Queue.{by_coro, in_set};
ghost use Rattle.check_machine.specs.Running.{running, RunningAsks, RunningTold};

use check_tables::queue::{bit, with_bit};
use heap::value::{Obj, Word};
use memory_tables::active::ACTIVE_WIDTH;
use model::program::MOST_SLOTS;

// The bits of a word, and the words of a set of slots: a bit for each.
const BITS: usize = 64;

pub const SET_WIDTH: usize = MOST_SLOTS / BITS;

// Whether a word names a Running coroutine.
fn is_running(slots: &[u64], count: usize, w: u64) -> bool
    requires { TableFits slots.now count }
    ensures { result ≡ by_coro running (coro_of (slots_of count slots.now) w) }
{
    heap::heap::coro(slots, count, Word(w)).is_ok_and(|(_, c)| c.state.is_running())
}

// The set of the n active ones' slots, if each is Running, and none is there twice.
pub fn running(chain: &[u64], n: usize, slots: &[u64], count: usize) -> Option<[u64; SET_WIDTH]>
    requires { RunningAsks chain.now slots.now n count }
    ensures { RunningTold chain.now n (slots_of count slots.now) result }
{
    let mut seen = [0u64; SET_WIDTH];
    for k in 0..n {
        let w = chain[k * ACTIVE_WIDTH];
        if !is_running(slots, count, w) {
            return None;
        }
        let x = Obj(w).slot();
        let at = x / BITS;
        let i = (x % BITS) as u64;
        let v = seen[at];
        if bit(v, i) {
            return None;
        }
        seen[at] = with_bit(v, i);
    }
    Some(seen)
}

// Whether slot i is in the set.
pub(crate) fn in_set(set: &[u64; SET_WIDTH], i: usize) -> bool
    requires { (i < 4096) × (length set.now ≡ 64) }
    ensures { result ≡ in_set set.now i }
{
    let v = set[i / BITS];
    let k = (i % BITS) as u64;
    bit(v, k)
}
