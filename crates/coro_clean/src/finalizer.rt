// coro.rs: start_finalizer. The queue is searched before anything is lent.
ghost use Rattle.std.specs.Prelude.{◌≡◌, ◌≤◌, length, take};
ghost use Rattle.model.specs.Cleanup.{start_finalizer};
ghost use Rattle.memory_world.specs.Lendings.{cleaning, plain};
ghost use Rattle.memory_world.specs.Contract.{Met, Ok, any, every, if_sound, with, of_mut};
ghost use Rattle.coro_clean.specs.Start.{first_of, starts, MayFits, SearchFits, queue, start_none, start_at, StartFits};

use coro_enter::close::set_closing;
use coro_enter::enter::{coro_enter, refusal};
use heap::value::Word;
use machine_state::called::Called;
use machine_state::fuel::{set_finalizing, unbank};
use memory_world::machine::{Machine, Sizes};
use model::coro::Started;
use model::machine::{Driver, Fuel};

// Whether a word names a suspended coroutine that can be entered.
pub(crate) fn may_start(slots: &[u64], m: Machine, sizes: Sizes, v: Word) -> bool
    requires { MayFits slots.now m sizes }
    ensures { result ≡ starts slots.now m sizes v.0 }
{
    match heap::heap::coro_place(slots, m.count, v) {
        Err(_) => false,
        Ok(i) => {
            let c = heap::slot::coro_at(slots, i);
            let s = c.state;
            if !s.is_suspended() {
                return false;
            }
            refusal(m, sizes, c).is_ok()
        }
    }
}

// The index of the first word of the cleanup queue that may start, or their number. Never inlined: within a call's code, the registers that
// the search of a long queue needs are not left.
#[inline(never)]
pub(crate) fn first_start(slots: &[u64], finalize: &[u64], m: Machine, sizes: Sizes) -> usize
    requires { SearchFits slots.now finalize.now m sizes }
    ensures { result ≡ first_of (starts slots.now m sizes) (take m.finalize finalize.now) }
{
    let n = m.finalize;
    let mut i = 0;
    while i < n {
        if may_start(slots, m, sizes, Word(finalize[i])) {
            return i;
        }
        i += 1;
    }
    i
}

// No cleanup starts: the queue is empty.
pub(crate) fn start_none(finalize: &mut [u64], m: Machine, fuel: Fuel) -> Called<Started>
    requires { m.finalize ≤ length finalize.old }
    ensures { every (λ sizes. Met any sizes start_none (queue (of_mut finalize)) (with m fuel) (with result.machine result.fuel) result.answer) }
{
    memory_tables::queue::take_front(finalize, m.finalize, m.finalize);
    let mut n = m;
    n.finalize = 0;
    let did = set_finalizing(n, fuel, false);
    let k = did.machine;
    let f = did.fuel;
    let answer = Started {
        entered: false,
        taken: m.finalize as u64,
    };
    Called {
        machine: k,
        fuel: f,
        answer,
    }
}

// The word at index i and those before it leave the queue, and its coroutine is entered and closes, with nil for a signal.
pub(crate) fn start_at(
    stack: &mut [u64],
    frames: &mut [u64],
    chain: &mut [u64],
    slots: &mut [u64],
    saved_stack: &mut [u64],
    saved_frames: &mut [u64],
    finalize: &mut [u64],
    m: Machine,
    sizes: Sizes,
    fuel: Fuel,
    i: usize,
) -> Called<Started>
    requires { StartFits sizes (cleaning stack.old frames.old chain.old slots.old saved_stack.old saved_frames.old finalize.old plain) m fuel i }
    ensures { Met if_sound sizes (start_at i) (cleaning (of_mut stack) (of_mut frames) (of_mut chain) (of_mut slots) (of_mut saved_stack) (of_mut saved_frames) (of_mut finalize)) (with m fuel) (with result.machine result.fuel) result.answer }
{
    let v = memory_tables::queue::word_at(finalize, i);
    let taken = i + 1;
    memory_tables::queue::take_front(finalize, m.finalize, taken);
    let mut n = m;
    n.finalize = m.finalize - taken;
    let did = coro_enter(
        stack,
        frames,
        chain,
        slots,
        saved_stack,
        saved_frames,
        n,
        sizes,
        Word(v),
        Driver::Finalize,
    );
    let k = did.machine;
    set_closing(slots, k, Word(v), Word::NIL);
    let marked = set_finalizing(k, fuel, true);
    let last = marked.machine;
    let f = marked.fuel;
    let answer = Started {
        entered: true,
        taken: taken as u64,
    };
    Called {
        machine: last,
        fuel: f,
        answer,
    }
}

// coro.rs: start_finalizer.
pub fn start_finalizer(
    stack: &mut [u64],
    frames: &mut [u64],
    chain: &mut [u64],
    slots: &mut [u64],
    saved_stack: &mut [u64],
    saved_frames: &mut [u64],
    finalize: &mut [u64],
    m: Machine,
    sizes: Sizes,
    fuel: Fuel,
) -> Called<Started>
    requires { Ok sizes (cleaning stack.old frames.old chain.old slots.old saved_stack.old saved_frames.old finalize.old plain) (with m fuel) }
    ensures { Met if_sound sizes start_finalizer (cleaning (of_mut stack) (of_mut frames) (of_mut chain) (of_mut slots) (of_mut saved_stack) (of_mut saved_frames) (of_mut finalize)) (with m fuel) (with result.machine result.fuel) result.answer }
{
    let f = unbank(fuel);
    let i = first_start(slots, finalize, m, sizes);
    if i < m.finalize {
        return start_at(
            stack,
            frames,
            chain,
            slots,
            saved_stack,
            saved_frames,
            finalize,
            m,
            sizes,
            f,
            i,
        );
    }
    start_none(finalize, m, f)
}
