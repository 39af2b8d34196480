// A grant as an outer call. 01: "Outer calls test this".
ghost use Rattle.std.specs.Prelude.{◌≡◌};
ghost use Rattle.model.specs.declared.call.Op.{Op};
ghost use Rattle.memory_world.specs.Contract.{at_entry, of_ref};
ghost use Rattle.memory_step.specs.Step.{step_words};
ghost use Rattle.outer_call.specs.State.{nine, state, gives};

use crate::granted;
use check_machine::whole::sound_words;
use machine_state::called::Called;
use memory_world::machine::Machine;
use model::call::Answer;
use model::machine::Fuel;
use outer_call::call::unsound;

// No word of the machine is written.
pub fn call(
    stack: &[u64],
    frames: &[u64],
    chain: &[u64],
    slots: &[u64],
    saved_stack: &[u64],
    saved_frames: &[u64],
    ready: &[u64],
    finalize: &[u64],
    setup: &[u64],
    m: Machine,
    fuel: Fuel,
    n: u64,
) -> Called<Answer>
    ensures { gives (nine (of_ref stack) (of_ref frames) (of_ref chain) (of_ref slots) (of_ref saved_stack) (of_ref saved_frames) (of_ref ready) (of_ref finalize) (of_ref setup) at_entry) result ≡ step_words (state (nine (of_ref stack) (of_ref frames) (of_ref chain) (of_ref slots) (of_ref saved_stack) (of_ref saved_frames) (of_ref ready) (of_ref finalize) (of_ref setup) at_entry) m fuel) (Op.Grant n) }
{
    if !sound_words(
        stack,
        frames,
        chain,
        slots,
        saved_stack,
        saved_frames,
        ready,
        finalize,
        setup,
        m,
        fuel,
    ) {
        return unsound(m, fuel);
    }
    let did = granted(fuel, m, n);
    let left = did.fuel;
    let answer = did.answer;
    Called {
        machine: m,
        fuel: left,
        answer,
    }
}
