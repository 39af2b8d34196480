// machine.rs: unwind's loop, from the top frame down.
ghost use Rattle.memory_world.specs.Lendings.{six_setup, plain};
ghost use Rattle.memory_world.specs.Contract.{Met, if_sound, with, of_mut, of_ref};
ghost use Rattle.machine_unwind.specs.Turns.{turn, search_from};
ghost use Rattle.machine_unwind.specs.Fits.{FrameFits, SearchFits};

use crate::handler::{handler_in, take_handler};
use crate::leave::leave;
use crate::turn::goes_on;
use heap::fault::Fault;
use machine_state::called::Called;
use memory_world::machine::{Machine, Sizes};
use model::call::Answer;
use model::machine::Fuel;

// The top frame takes the word, or is left.
pub(crate) fn turn(
    stack: &mut [u64],
    frames: &mut [u64],
    chain: &mut [u64],
    slots: &mut [u64],
    saved_stack: &mut [u64],
    saved_frames: &mut [u64],
    setup: &[u64],
    m: Machine,
    sizes: Sizes,
    fuel: Fuel,
    value: u64,
    func: u64,
    pc: u64,
) -> Called<Answer>
    requires { FrameFits sizes (six_setup stack.old frames.old chain.old slots.old saved_stack.old saved_frames.old setup.now plain) m fuel }
    ensures { Met if_sound sizes (turn value func pc) (six_setup (of_mut stack) (of_mut frames) (of_mut chain) (of_mut slots) (of_mut saved_stack) (of_mut saved_frames) (of_ref setup)) (with m fuel) (with result.machine result.fuel) result.answer }
{
    match handler_in(frames, setup, m) {
        Some(h) => take_handler(stack, frames, m, fuel, h, value),
        None => leave(
            stack,
            frames,
            chain,
            slots,
            saved_stack,
            saved_frames,
            m,
            sizes,
            fuel,
            value,
            func,
            pc,
        ),
    }
}

// A word, raised at pc of function func, goes from frame to frame until one takes it. The invariant: what is left of the search, done to
// the present world, is the whole search done to the first.
pub(crate) fn search(
    stack: &mut [u64],
    frames: &mut [u64],
    chain: &mut [u64],
    slots: &mut [u64],
    saved_stack: &mut [u64],
    saved_frames: &mut [u64],
    setup: &[u64],
    m: Machine,
    sizes: Sizes,
    fuel: Fuel,
    value: u64,
    func: u64,
    pc: u64,
) -> Called<Answer>
    requires { SearchFits sizes (six_setup stack.old frames.old chain.old slots.old saved_stack.old saved_frames.old setup.now plain) m fuel func pc }
    ensures { Met if_sound sizes (search_from value func pc) (six_setup (of_mut stack) (of_mut frames) (of_mut chain) (of_mut slots) (of_mut saved_stack) (of_mut saved_frames) (of_ref setup)) (with m fuel) (with result.machine result.fuel) result.answer }
{
    let mut n = m;
    let mut f = fuel;
    while n.depth != 0 {
        let did = turn(
            stack,
            frames,
            chain,
            slots,
            saved_stack,
            saved_frames,
            setup,
            n,
            sizes,
            f,
            value,
            func,
            pc,
        );
        n = did.machine;
        f = did.fuel;
        let answer = did.answer;
        if !goes_on(answer) {
            return Called {
                machine: n,
                fuel: f,
                answer,
            };
        }
    }
    Called {
        machine: n,
        fuel: f,
        answer: Answer::Refused(Fault::Throw(value)),
    }
}
