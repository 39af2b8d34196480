// Whether a Resume meets no refusal.
ghost use Rattle.linked_switch.specs.Enters.{EntersFits, Entering};

use heap::value::Word;
use linked_calls::numbers::{COUNT, DEPTH, DEPTH_LIMIT, HEIGHT, STACK_LIMIT};

// 01's gate, fuel in hand, and what coro_enter tests: the slot of the coroutine that may be entered, and its word.
pub fn may_enter(
    stack: &[u64],
    frames: &[u64],
    slots: &[u64],
    machine: &[u64],
    fuel: u64,
    dst: u64,
    c: u64,
    src: u64,
) -> Option<(usize, u64)>
    requires { EntersFits stack.now frames.now slots.now machine.now }
    ensures { Entering stack.now frames.now slots.now machine.now fuel dst c src result }
{
    if machine[DEPTH] == 0 {
        return None;
    }
    if fuel == 0 {
        return None;
    }
    let base = memory_tables::frame::base_at(frames, (machine[DEPTH] - 1) as usize) as u64;
    if machine[HEIGHT] <= base {
        return None;
    }
    let wide = machine[HEIGHT] - base;
    if wide <= dst {
        return None;
    }
    if wide <= c {
        return None;
    }
    if wide <= src {
        return None;
    }
    let v = stack[(base + c) as usize];
    let Ok(i) = heap::heap::coro_place(slots, machine[COUNT] as usize, Word(v)) else {
        return None;
    };
    let state = heap::field::state_at(slots, i);
    if !state.is_resumable() {
        return None;
    }
    let deep = heap::field::frames_at(slots, i);
    if deep == 0 {
        return None;
    }
    if machine[DEPTH_LIMIT] - machine[DEPTH] < deep {
        return None;
    }
    if machine[STACK_LIMIT] - machine[HEIGHT] < heap::field::regs_at(slots, i) {
        return None;
    }
    Some((i, v))
}
