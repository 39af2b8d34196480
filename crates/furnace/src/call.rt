// A call of the story, as the host makes it: a grant rewrites the fuel record, any other goes by its code.
ghost use Rattle.std.specs.Prelude.{◌≡◌};
ghost use Rattle.memory_world.specs.Contract.{at_entry, at_exit, of_mut, of_ref};
ghost use Rattle.memory_step.specs.Step.{step_words};
ghost use Rattle.outer_call.specs.State.{nine, state, gives};

use machine_state::called::Called;
use memory_world::machine::Machine;
use model::call::{Answer, Op};
use model::machine::Fuel;

pub(crate) fn call(
    stack: &mut [u64],
    frames: &mut [u64],
    chain: &mut [u64],
    slots: &mut [u64],
    saved_stack: &mut [u64],
    saved_frames: &mut [u64],
    ready: &mut [u64],
    finalize: &mut [u64],
    setup: &[u64],
    m: Machine,
    fuel: Fuel,
    op: Op,
) -> Called<Answer>
    ensures { gives (nine (of_mut stack) (of_mut frames) (of_mut chain) (of_mut slots) (of_mut saved_stack) (of_mut saved_frames) (of_mut ready) (of_mut finalize) (of_ref setup) at_exit) result ≡ step_words (state (nine (of_mut stack) (of_mut frames) (of_mut chain) (of_mut slots) (of_mut saved_stack) (of_mut saved_frames) (of_mut ready) (of_mut finalize) (of_ref setup) at_entry) m fuel) op }
{
    match op {
        Op::Grant { amount } => outer_grant::call::call(
            stack,
            frames,
            chain,
            slots,
            saved_stack,
            saved_frames,
            ready,
            finalize,
            setup,
            m,
            fuel,
            amount,
        ),
        _ => outer_call::call::call(
            stack,
            frames,
            chain,
            slots,
            saved_stack,
            saved_frames,
            ready,
            finalize,
            setup,
            m,
            fuel,
            op,
        ),
    }
}
