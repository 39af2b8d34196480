// coro.rs: exec, Yield, YieldKv and Await. Their operands have been tested.
ghost use Rattle.std.specs.Prelude.{◌≡◌, ◌*◌, ◌≤◌, length};
ghost use Rattle.heap.specs.Heap.{TableFits};
ghost use Rattle.model.specs.Exec.{largest_in, larger_of, yield, yield_key, yield_kv, await};
ghost use Rattle.model.specs.Heap.{coro, dyn_int};
ghost use Rattle.exec_yield.specs.Suspend.{RunFits};
ghost use Rattle.exec_yield.specs.Yielding.{keys_for, YieldFits, YieldKvFits};
ghost use Rattle.memory_world.specs.Lendings.{six, table};
ghost use Rattle.memory_world.specs.Contract.{Met, Reads, every, if_sound, only, with, of_mut, of_ref};

use crate::suspending::suspend;
use coro_create::key::auto_key;
use heap::fault::Fault;
use heap::int::MINUS_ONE;
use heap::object::CoroState;
use heap::value::Word;
use machine_state::called::Called;
use memory_world::machine::{Machine, Sizes};
use model::exec::Step;
use model::machine::Fuel;

// The largest integer key so far of the coroutine that a word names.
fn largest_in(slots: &[u64], m: Machine, v: u64) -> u64
    requires { TableFits slots.now m.count }
    ensures { every (λ sizes. Reads sizes (λ w. largest_in (coro w v)) (table (of_ref slots)) (only m) result) }
{
    match heap::heap::coro_place(slots, m.count, Word(v)) {
        Err(_) => MINUS_ONE,
        Ok(i) => {
            let c = heap::slot::coro_at(slots, i);
            c.largest
        }
    }
}

// 01: "raises the largest if the key is a greater integer"
fn larger_of(largest: u64, n: Option<u64>) -> u64
    ensures { result ≡ larger_of largest n }
{
    match n {
        None => largest,
        Some(k) => {
            if heap::int::less(largest, k) {
                return k;
            }
            largest
        }
    }
}

// conv.rs: dyn_int, the integer that a word is or names.
fn dyn_int(slots: &[u64], m: Machine, v: u64) -> Option<u64>
    requires { TableFits slots.now m.count }
    ensures { every (λ sizes. Reads sizes (λ w. dyn_int w v) (table (of_ref slots)) (only m) result) }
{
    heap::heap::dyn_int(slots, m.count, Word(v))
}

// coro.rs: exec, Await.
pub fn coro_await(
    stack: &mut [u64],
    frames: &mut [u64],
    chain: &mut [u64],
    slots: &mut [u64],
    saved_stack: &mut [u64],
    saved_frames: &mut [u64],
    m: Machine,
    sizes: Sizes,
    fuel: Fuel,
    pc: u64,
    dst: u64,
    src: u64,
) -> Called<Step>
    requires { YieldFits sizes stack.old frames.old chain.old slots.old saved_stack.old saved_frames.old m pc src }
    ensures { Met if_sound sizes (await pc dst src) (six (of_mut stack) (of_mut frames) (of_mut chain) (of_mut slots) (of_mut saved_stack) (of_mut saved_frames)) (with m fuel) (with result.machine result.fuel) result.answer }
{
    if m.active == 0 {
        return Called {
            machine: m,
            fuel,
            answer: Step::Fault(Fault::CannotSuspend),
        };
    }
    let payload = memory_tables::stack::reg(stack, frames, m.height, m.depth, src as usize);
    let state = CoroState::Awaiting;
    suspend(
        stack,
        frames,
        chain,
        slots,
        saved_stack,
        saved_frames,
        m,
        sizes,
        fuel,
        pc,
        state,
        dst,
        payload,
        None,
    )
}

// The key and the largest key that a YieldKv leaves.
fn keyed(slots: &[u64], m: Machine, v: u64, key: u64) -> Option<(u64, u64)>
    requires { TableFits slots.now m.count }
    ensures { every (λ sizes. Reads sizes (keys_for v key) (table (of_ref slots)) (only m) result) }
{
    let n = dyn_int(slots, m, key);
    let so_far = largest_in(slots, m, v);
    let largest = larger_of(so_far, n);
    Some((key, largest))
}

// coro.rs: exec, YieldKv.
pub fn yield_kv(
    stack: &mut [u64],
    frames: &mut [u64],
    chain: &mut [u64],
    slots: &mut [u64],
    saved_stack: &mut [u64],
    saved_frames: &mut [u64],
    m: Machine,
    sizes: Sizes,
    fuel: Fuel,
    pc: u64,
    dst: u64,
    src: u64,
    key: u64,
) -> Called<Step>
    requires { YieldKvFits sizes stack.old frames.old chain.old slots.old saved_stack.old saved_frames.old m pc src key }
    ensures { Met if_sound sizes (yield_kv pc dst src key) (six (of_mut stack) (of_mut frames) (of_mut chain) (of_mut slots) (of_mut saved_stack) (of_mut saved_frames)) (with m fuel) (with result.machine result.fuel) result.answer }
{
    if m.active == 0 {
        return Called {
            machine: m,
            fuel,
            answer: Step::Fault(Fault::CannotSuspend),
        };
    }
    let payload = memory_tables::stack::reg(stack, frames, m.height, m.depth, src as usize);
    let named = memory_tables::stack::reg(stack, frames, m.height, m.depth, key as usize);
    let a = memory_tables::active::active_at(chain, m.active - 1);
    let keys = keyed(slots, m, a.coro, named);
    let state = CoroState::Yielded;
    suspend(
        stack,
        frames,
        chain,
        slots,
        saved_stack,
        saved_frames,
        m,
        sizes,
        fuel,
        pc,
        state,
        dst,
        payload,
        keys,
    )
}

// A yield whose key has been made, or not.
pub(crate) fn yield_key(
    stack: &mut [u64],
    frames: &mut [u64],
    chain: &mut [u64],
    slots: &mut [u64],
    saved_stack: &mut [u64],
    saved_frames: &mut [u64],
    m: Machine,
    sizes: Sizes,
    fuel: Fuel,
    pc: u64,
    dst: u64,
    payload: u64,
    a: Result<(u64, u64), Fault>,
) -> Called<Step>
    requires { RunFits sizes stack.old frames.old chain.old slots.old saved_stack.old saved_frames.old m pc }
    ensures { Met if_sound sizes (λ w. yield_key pc dst payload w a) (six (of_mut stack) (of_mut frames) (of_mut chain) (of_mut slots) (of_mut saved_stack) (of_mut saved_frames)) (with m fuel) (with result.machine result.fuel) result.answer }
{
    match a {
        Ok((key, largest)) => {
            let state = CoroState::Yielded;
            suspend(
                stack,
                frames,
                chain,
                slots,
                saved_stack,
                saved_frames,
                m,
                sizes,
                fuel,
                pc,
                state,
                dst,
                payload,
                Some((key, largest)),
            )
        }
        Err(f) => Called {
            machine: m,
            fuel,
            answer: Step::Fault(f),
        },
    }
}

// coro.rs: exec, Yield.
pub fn coro_yield(
    stack: &mut [u64],
    frames: &mut [u64],
    chain: &mut [u64],
    slots: &mut [u64],
    saved_stack: &mut [u64],
    saved_frames: &mut [u64],
    m: Machine,
    sizes: Sizes,
    fuel: Fuel,
    pc: u64,
    dst: u64,
    src: u64,
) -> Called<Step>
    requires { YieldFits sizes stack.old frames.old chain.old slots.old saved_stack.old saved_frames.old m pc src }
    ensures { Met if_sound sizes (yield pc dst src) (six (of_mut stack) (of_mut frames) (of_mut chain) (of_mut slots) (of_mut saved_stack) (of_mut saved_frames)) (with m fuel) (with result.machine result.fuel) result.answer }
{
    if m.active == 0 {
        return Called {
            machine: m,
            fuel,
            answer: Step::Fault(Fault::CannotSuspend),
        };
    }
    let payload = memory_tables::stack::reg(stack, frames, m.height, m.depth, src as usize);
    let a = memory_tables::active::active_at(chain, m.active - 1);
    let largest = largest_in(slots, m, a.coro);
    let did = auto_key(slots, m, sizes, largest);
    let n = did.machine;
    let key = did.answer;
    yield_key(
        stack,
        frames,
        chain,
        slots,
        saved_stack,
        saved_frames,
        n,
        sizes,
        fuel,
        pc,
        dst,
        payload,
        key,
    )
}
