// coro.rs: coro_suspend. What it refuses is tested before anything is lent.
ghost use Rattle.std.specs.Prelude.{◌≡◌, false, ◌-◌, ◌≤◌};
ghost use Rattle.lists.specs.Pick.{pick};
ghost use Rattle.heap.specs.Word.{nil};
ghost use Rattle.model.specs.Coro.{coro_suspend};
ghost use Rattle.coro_suspend.specs.Suspend.{growth_of, key_of, largest_of, ignores, suspended, event_as, shrunk, LeaveFit, MovedOut, Found, SuspendFits};
ghost use Rattle.memory_world.specs.Lendings.{six};
ghost use Rattle.memory_world.specs.Contract.{Met, if_sound, only, of_mut};

use heap::fault::Fault;
use heap::heap::Heap;
use heap::int::larger;
use heap::object::{CoroObj, CoroState};
use heap::value::Word;
use machine_state::called::Did;
use memory_tables::frame::FRAME_WIDTH;
use memory_world::machine::{Machine, Sizes};
use model::coro::Event;
use model::machine::{Active, Driver};

// saturating_sub
fn beyond(n: u64, most: u64) -> u64
    ensures { result ≡ n - most }
{
    if n <= most { 0 } else { n - most }
}

// The bytes that a suspension charges.
pub(crate) fn growth(sizes: Sizes, c: CoroObj, regs: u64, frames: u64) -> u64
    requires { (regs ≤ 1024) × (frames ≤ 128) × (sizes.costs.frame ≤ 65536) }
    ensures { result ≡ growth_of sizes c regs frames }
{
    let costs = sizes.costs;
    let wide = beyond(regs, c.maxregs);
    let deep = beyond(frames, c.maxframes);
    wide * 8 + deep * costs.frame
}

fn key_of(keys: Option<(u64, u64)>, k: u64) -> u64
    ensures { result ≡ key_of keys k }
{
    match keys {
        None => k,
        Some((key, _)) => key,
    }
}

fn largest_of(keys: Option<(u64, u64)>, n: u64) -> u64
    ensures { result ≡ largest_of keys n }
{
    match keys {
        None => n,
        Some((_, largest)) => largest,
    }
}

// Whether a close is ignored: a yield while closing.
fn ignores(s: CoroState, closing: bool) -> bool
    ensures { result ≡ ignores s closing }
{
    if s.is_awaiting() { false } else { closing }
}

fn closing_after(ignored: bool, closing: bool) -> bool
    ensures { result ≡ pick ignored false closing }
{
    if ignored { false } else { closing }
}

fn signal_after(ignored: bool, signal: u64) -> u64
    ensures { result ≡ pick ignored nil signal }
{
    if ignored { Word::NIL } else { signal }
}

// A suspended coroutine, with so many registers and frames saved.
pub(crate) fn suspended(
    s: CoroState,
    regs: u64,
    frames: u64,
    dst: u64,
    payload: u64,
    keys: Option<(u64, u64)>,
    c: CoroObj,
) -> CoroObj
    ensures { result ≡ suspended s regs frames dst payload keys c }
{
    let ignored = ignores(s, c.closing);
    CoroObj {
        state: s,
        closing: closing_after(ignored, c.closing),
        finalized: c.finalized,
        task: c.task,
        seq: c.seq,
        row: c.row,
        regs,
        frames,
        maxregs: larger(c.maxregs, regs),
        maxframes: larger(c.maxframes, frames),
        waiting: dst,
        payload,
        key: key_of(keys, c.key),
        largest: largest_of(keys, c.largest),
        result: c.result,
        signal: signal_after(ignored, c.signal),
    }
}

// What its driver is told.
pub(crate) fn event_of(s: CoroState, payload: u64, closing: bool, key: u64) -> Event
    ensures { result ≡ event_as s payload closing key }
{
    if s.is_awaiting() {
        return Event::Awaiting(payload);
    }
    if closing {
        return Event::CloseIgnored;
    }
    Event::Yielded { payload, key }
}

// The machine's registers and frames from the body up go to an empty row.
pub(crate) fn move_out(
    stack: &mut [u64],
    frames: &mut [u64],
    saved_stack: &mut [u64],
    saved_frames: &mut [u64],
    m: Machine,
    sizes: Sizes,
    row: u64,
    floor: usize,
    base: usize,
)
    requires { LeaveFit stack.old frames.old saved_stack.old saved_frames.old m sizes row floor base }
    ensures { MovedOut stack.old frames.old saved_stack.old saved_frames.old stack.new frames.new saved_stack.new saved_frames.new m sizes row floor base }
{
    let at = (row as usize) * sizes.width;
    memory_tables::rows::leave_stack(stack, m.height, base, saved_stack, at);
    let from = (row as usize) * (sizes.depth * FRAME_WIDTH);
    memory_tables::rows::leave_frames(frames, m.depth, floor, base as u64, saved_frames, from);
}

fn shrunk(m: Machine, base: usize, floor: usize, used: u64) -> Machine
    requires { 1 ≤ m.active }
    ensures { result ≡ shrunk m base floor used }
{
    let mut n = m;
    n.height = base;
    n.depth = floor;
    n.active = m.active - 1;
    n.used = used;
    n
}

// The innermost coroutine `a`, with record c in slot i, is charged and moved out.
pub(crate) fn suspend_found(
    stack: &mut [u64],
    frames: &mut [u64],
    chain: &mut [u64],
    slots: &mut [u64],
    saved_stack: &mut [u64],
    saved_frames: &mut [u64],
    m: Machine,
    sizes: Sizes,
    state: CoroState,
    dst: u64,
    payload: u64,
    keys: Option<(u64, u64)>,
    a: Active,
    i: usize,
    c: CoroObj,
) -> Did<Result<(Driver, Event), Fault>>
    requires { Found sizes stack.old frames.old chain.old slots.old saved_stack.old saved_frames.old m state a i c }
    ensures { Met if_sound sizes (coro_suspend state dst payload keys) (six (of_mut stack) (of_mut frames) (of_mut chain) (of_mut slots) (of_mut saved_stack) (of_mut saved_frames)) (only m) (only result.machine) result.answer }
{
    let floor = a.floor as usize;
    let base = memory_tables::frame::base_at(frames, floor);
    let regs = (m.height - base) as u64;
    let deep = (m.depth - floor) as u64;
    let grow = growth(sizes, c, regs, deep);
    let h = Heap {
        count: m.count,
        slots: sizes.slots,
        used: m.used,
        limit: sizes.memory,
    };
    match h.charge(grow) {
        Err(f) => Did {
            machine: m,
            answer: Err(f),
        },
        Ok(g) => {
            move_out(
                stack,
                frames,
                saved_stack,
                saved_frames,
                m,
                sizes,
                c.row,
                floor,
                base,
            );
            memory_tables::chain::pop_active(chain, m.active);
            let d = suspended(state, regs, deep, dst, payload, keys, c);
            heap::slot::put_sleep(slots, i, d);
            let driver = a.driver;
            let event = event_of(state, payload, c.closing, d.key);
            Did {
                machine: shrunk(m, base, floor, g.used),
                answer: Ok((driver, event)),
            }
        }
    }
}

// coro.rs: coro_suspend.
pub fn coro_suspend(
    stack: &mut [u64],
    frames: &mut [u64],
    chain: &mut [u64],
    slots: &mut [u64],
    saved_stack: &mut [u64],
    saved_frames: &mut [u64],
    m: Machine,
    sizes: Sizes,
    state: CoroState,
    dst: u64,
    payload: u64,
    keys: Option<(u64, u64)>,
) -> Did<Result<(Driver, Event), Fault>>
    requires { SuspendFits sizes stack.old frames.old chain.old slots.old saved_stack.old saved_frames.old m state }
    ensures { Met if_sound sizes (coro_suspend state dst payload keys) (six (of_mut stack) (of_mut frames) (of_mut chain) (of_mut slots) (of_mut saved_stack) (of_mut saved_frames)) (only m) (only result.machine) result.answer }
{
    if m.active == 0 {
        return Did {
            machine: m,
            answer: Err(Fault::CannotSuspend),
        };
    }
    let a = memory_tables::active::active_at(chain, m.active - 1);
    if (m.depth as u64) <= a.floor {
        return Did {
            machine: m,
            answer: Err(Fault::CannotSuspend),
        };
    }
    match heap::heap::coro_place(slots, m.count, Word(a.coro)) {
        Err(_) => Did {
            machine: m,
            answer: Err(Fault::TypeError),
        },
        Ok(i) => {
            let c = heap::slot::coro_at(slots, i);
            suspend_found(
                stack,
                frames,
                chain,
                slots,
                saved_stack,
                saved_frames,
                m,
                sizes,
                state,
                dst,
                payload,
                keys,
                a,
                i,
                c,
            )
        }
    }
}
