// coro.rs: coro_escaped. The body's frame has been popped.
ghost use Rattle.std.specs.Prelude.{◌*◌, ◌≤◌, length};
ghost use Rattle.heap.specs.Heap.{TableFits};
ghost use Rattle.model.specs.Heap.{coro};
ghost use Rattle.model.specs.Coro.{closed_by, fail_to, coro_escaped};
ghost use Rattle.coro_end.specs.Returned.{ReturnFits};
ghost use Rattle.memory_world.specs.Lendings.{none, six, table, plain};
ghost use Rattle.memory_world.specs.Contract.{Met, Reads, any, every, if_rowed, only, with, of_mut, of_ref};

use crate::deliver::stopped;
use crate::last::end_last;
use crate::returned::coro_returned;
use heap::object::CoroState;
use heap::value::Word;
use machine_state::called::Called;
use machine_state::fuel::set_finalizing;
use memory_world::machine::{Machine, Sizes};
use model::machine::{Driver, Fuel, Stop};

// Whether the coroutine that a word names is being closed by this signal.
fn closed_by(slots: &[u64], m: Machine, v: Word, value: u64) -> bool
    requires { TableFits slots.now m.count }
    ensures { every (λ sizes. Reads sizes (λ w. closed_by (coro w v.0) value) (table (of_ref slots)) (only m) result) }
{
    match heap::heap::coro(slots, m.count, v) {
        Err(_) => false,
        Ok((_, c)) => {
            if c.closing {
                return value == c.signal;
            }
            false
        }
    }
}

// Whoever is no frame hears of it, and the unwinding stops there.
fn fail_to(m: Machine, fuel: Fuel, d: Driver, s: Stop) -> Called<bool>
    ensures { every (λ sizes. Met any sizes (fail_to d s) none (with m fuel) (with result.machine result.fuel) result.answer) }
{
    match d {
        Driver::Resume(_) => Called {
            machine: m,
            fuel,
            answer: false,
        },
        Driver::Iter {
            has: _,
            val: _,
            iter: _,
        } => Called {
            machine: m,
            fuel,
            answer: false,
        },
        Driver::Host => {
            let n = stopped(m, s);
            Called {
                machine: n,
                fuel,
                answer: true,
            }
        }
        Driver::Finalize => {
            let did = set_finalizing(m, fuel, false);
            let n = did.machine;
            let f = did.fuel;
            Called {
                machine: n,
                fuel: f,
                answer: true,
            }
        }
    }
}

// A word, raised at pc of function func, escapes the innermost coroutine: it fails, or its close has succeeded.
pub fn coro_escaped(
    stack: &mut [u64],
    frames: &mut [u64],
    chain: &mut [u64],
    slots: &mut [u64],
    saved_stack: &mut [u64],
    saved_frames: &mut [u64],
    m: Machine,
    sizes: Sizes,
    fuel: Fuel,
    value: u64,
    func: u64,
    pc: u64,
) -> Called<bool>
    requires { ReturnFits sizes (six stack.old frames.old chain.old slots.old saved_stack.old saved_frames.old plain) m }
    ensures { Met if_rowed sizes (coro_escaped value func pc) (six (of_mut stack) (of_mut frames) (of_mut chain) (of_mut slots) (of_mut saved_stack) (of_mut saved_frames)) (with m fuel) (with result.machine result.fuel) result.answer }
{
    if m.active == 0 {
        return Called {
            machine: m,
            fuel,
            answer: false,
        };
    }
    let last = memory_tables::active::active_at(chain, m.active - 1);
    let d = last.driver;
    if closed_by(slots, m, Word(last.coro), value) {
        let did = coro_returned(
            stack,
            frames,
            chain,
            slots,
            saved_stack,
            saved_frames,
            m,
            sizes,
            fuel,
            Word::NIL,
        );
        let n = did.machine;
        let f = did.fuel;
        return Called {
            machine: n,
            fuel: f,
            answer: true,
        };
    }
    let s = CoroState::Failed;
    let n = end_last(chain, slots, saved_stack, saved_frames, m, sizes, s, value);
    fail_to(n, fuel, d, Stop::Failed(value, func, pc))
}
