// machine.rs: unwind, a frame without a handler.
ghost use Rattle.memory_world.specs.Lendings.{six, plain};
ghost use Rattle.memory_world.specs.Contract.{Met, if_sound, with, of_mut};
ghost use Rattle.machine_unwind.specs.Turns.{leave};
ghost use Rattle.machine_unwind.specs.Fits.{FrameFits};

use crate::turn::{halted, is_coro, passed};
use coro_end::escaped::coro_escaped;
use machine_state::called::Called;
use machine_state::frame::pop;
use memory_world::machine::{Machine, Sizes};
use model::call::Answer;
use model::machine::Fuel;

// The top frame goes, and a word raised at pc of function func escapes what it was.
pub(crate) fn leave(
    stack: &mut [u64],
    frames: &mut [u64],
    chain: &mut [u64],
    slots: &mut [u64],
    saved_stack: &mut [u64],
    saved_frames: &mut [u64],
    m: Machine,
    sizes: Sizes,
    fuel: Fuel,
    value: u64,
    func: u64,
    pc: u64,
) -> Called<Answer>
    requires { FrameFits sizes (six stack.old frames.old chain.old slots.old saved_stack.old saved_frames.old plain) m fuel }
    ensures { Met if_sound sizes (leave value func pc) (six (of_mut stack) (of_mut frames) (of_mut chain) (of_mut slots) (of_mut saved_stack) (of_mut saved_frames)) (with m fuel) (with result.machine result.fuel) result.answer }
{
    let k = memory_tables::frame::cont_at(frames, m.depth - 1);
    let n = pop(stack, frames, m);
    if !is_coro(k) {
        return Called {
            machine: n,
            fuel,
            answer: passed(k, value),
        };
    }
    let did = coro_escaped(
        stack,
        frames,
        chain,
        slots,
        saved_stack,
        saved_frames,
        n,
        sizes,
        fuel,
        value,
        func,
        pc,
    );
    let machine = did.machine;
    let f = did.fuel;
    let stops = did.answer;
    Called {
        machine,
        fuel: f,
        answer: halted(stops),
    }
}
