// Whether a Yield meets no refusal, and its coroutine is driven by a Resume.
ghost use Rattle.linked_switch.specs.Leaves.{LeavesFits, Leaving};

use heap::value::Word;
use linked_calls::numbers::{ACTIVE, COUNT, DEPTH, HEIGHT};
use model::machine::Driver;

// A coroutine that may be suspended: its slot, the register of the Resume that waits for it, its next key and that key's integer.
#[derive(Clone, Copy)]
pub struct Sleeper {
    pub slot: usize,
    pub to: u64,
    pub key: u64,
    pub largest: u64,
}

// 01's gate, fuel in hand, the key, and what coro_suspend tests.
pub fn may_leave(
    frames: &[u64],
    chain: &[u64],
    slots: &[u64],
    machine: &[u64],
    fuel: u64,
    dst: u64,
    src: u64,
) -> Option<Sleeper>
    requires { LeavesFits frames.now chain.now slots.now machine.now }
    ensures { Leaving frames.now chain.now slots.now machine.now fuel dst src result }
{
    if machine[DEPTH] == 0 {
        return None;
    }
    if fuel == 0 {
        return None;
    }
    if machine[ACTIVE] == 0 {
        return None;
    }
    let low = memory_tables::frame::base_at(frames, (machine[DEPTH] - 1) as usize) as u64;
    if machine[HEIGHT] <= low {
        return None;
    }
    let width = machine[HEIGHT] - low;
    if width <= dst {
        return None;
    }
    if width <= src {
        return None;
    }
    let a = memory_tables::active::active_at(chain, (machine[ACTIVE] - 1) as usize);
    let driver = a.driver;
    let Driver::Resume(to) = driver else {
        return None;
    };
    let Ok(slot) = heap::heap::coro_place(slots, machine[COUNT] as usize, Word(a.coro)) else {
        return None;
    };
    if heap::field::closing_at(slots, slot) {
        return None;
    }
    let base = memory_tables::frame::base_at(frames, a.floor as usize) as u64;
    if heap::field::maxregs_at(slots, slot) < machine[HEIGHT] - base {
        return None;
    }
    if heap::field::maxframes_at(slots, slot) < machine[DEPTH] - a.floor {
        return None;
    }
    let largest = heap::int::next_key(heap::field::largest_at(slots, slot))?;
    let key = Word::inline_int(largest)?;
    Some(Sleeper {
        slot,
        to,
        key: key.0,
        largest,
    })
}
