// 01: "Stop run: `abort_coros`, then frames and stack emptied."
ghost use Rattle.std.specs.Prelude.{◌≡◌};
ghost use Rattle.model.specs.Added.{stop_run};
ghost use Rattle.memory_world.specs.Lendings.{six, plain};
ghost use Rattle.memory_world.specs.Contract.{Ok, Met, if_sound, with, of_mut};
ghost use Rattle.machine_added.specs.Stop.{emptied};

use coro_end::abort::abort_coros;
use machine_state::called::Called;
use memory_world::machine::{Machine, Sizes};
use model::call::Answer;
use model::machine::Fuel;

fn emptied(m: Machine) -> Machine
    ensures { result ≡ emptied m }
{
    let mut n = m;
    n.height = 0;
    n.depth = 0;
    n
}

pub fn stop_run(
    stack: &mut [u64],
    frames: &mut [u64],
    chain: &mut [u64],
    slots: &mut [u64],
    saved_stack: &mut [u64],
    saved_frames: &mut [u64],
    m: Machine,
    sizes: Sizes,
    fuel: Fuel,
) -> Called<Answer>
    requires { Ok sizes (six stack.old frames.old chain.old slots.old saved_stack.old saved_frames.old plain) (with m fuel) }
    ensures { Met if_sound sizes stop_run (six (of_mut stack) (of_mut frames) (of_mut chain) (of_mut slots) (of_mut saved_stack) (of_mut saved_frames)) (with m fuel) (with result.machine result.fuel) result.answer }
{
    let did = abort_coros(chain, slots, saved_stack, saved_frames, m, sizes, fuel);
    let n = did.machine;
    let f = did.fuel;
    memory_tables::frames::clear_frames(frames, n.depth);
    memory_tables::stack::cut(stack, n.height, 0);
    Called {
        machine: emptied(n),
        fuel: f,
        answer: Answer::Accepted,
    }
}
