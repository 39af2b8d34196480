// machine.rs: unwind, the handler of a frame. program.rs: FuncInfo.
ghost use Rattle.memory_world.specs.Lendings.{top};
ghost use Rattle.memory_world.specs.Contract.{Met, Reads, any, every, only, with, of_mut, of_ref};
ghost use Rattle.model.specs.Machine.{take_handler};
ghost use Rattle.memory_tables.specs.Does.{RegFits};
ghost use Rattle.machine_unwind.specs.Turns.{handler_in};
ghost use Rattle.machine_unwind.specs.Fits.{frame_setup, HandlerFits};

use crate::turn::is_spent;
use coro_clean::charge::charge_plain;
use heap::fault::Fault;
use machine_state::called::Called;
use machine_state::frame::{put, store_pc};
use memory_world::machine::Machine;
use model::call::Answer;
use model::machine::Fuel;
use model::program::Handler;

// The first handler of the top frame's function that covers its pc.
pub(crate) fn handler_in(frames: &[u64], setup: &[u64], m: Machine) -> Option<Handler>
    requires { HandlerFits frames.now setup.now m.depth }
    ensures { every (λ sizes. Reads sizes handler_in (frame_setup (of_ref frames) (of_ref setup)) (only m) result) }
{
    let i = m.depth - 1;
    let f = memory_tables::frame::func_at(frames, i);
    let pc = memory_tables::frame::pc_at(frames, i);
    memory_tables::program::handler_at(setup, f as usize, pc)
}

// A handler is taken for one unit: the frame goes on at its target, with the word in its catch register.
pub(crate) fn take_handler(
    stack: &mut [u64],
    frames: &mut [u64],
    m: Machine,
    fuel: Fuel,
    h: Handler,
    value: u64,
) -> Called<Answer>
    requires { RegFits stack.old frames.old m.height m.depth h.catch }
    ensures { every (λ sizes. Met any sizes (take_handler h value) (top (of_mut stack) (of_mut frames)) (with m fuel) (with result.machine result.fuel) result.answer) }
{
    let did = charge_plain(fuel);
    let f = did.fuel;
    let c = did.answer;
    if is_spent(c) {
        return Called {
            machine: m,
            fuel: f,
            answer: Answer::Refused(Fault::OutOfFuel),
        };
    }
    put(stack, frames, m, h.catch, value);
    store_pc(frames, m, h.target);
    Called {
        machine: m,
        fuel: f,
        answer: Answer::Caught,
    }
}
