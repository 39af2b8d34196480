// One call in words, on sound words.
ghost use Rattle.memory_world.specs.Contract.{at_entry, at_exit, of_mut, of_ref};
ghost use Rattle.outer_call.specs.State.{nine, state, gives, SoundFits};
ghost use Rattle.outer_run.specs.Run.{Reads};
ghost use Rattle.memory_world.specs.Lendings.{plain};

use machine_state::called::Called;
use memory_calls::call::{Gate, refusal};
use memory_world::machine::{Machine, Sizes};
use model::call::{Answer, Op};
use model::machine::Fuel;
use outer_call::call::sound_call;

// A call, or words that are none: they are refused as the call that their code names, with the machine as it is.
pub fn do_read(
    stack: &mut [u64],
    frames: &mut [u64],
    chain: &mut [u64],
    slots: &mut [u64],
    saved_stack: &mut [u64],
    saved_frames: &mut [u64],
    ready: &mut [u64],
    finalize: &mut [u64],
    setup: &[u64],
    m: Machine,
    sizes: Sizes,
    fuel: Fuel,
    read: Result<Op, Gate>,
) -> Called<Answer>
    requires { SoundFits sizes (state (nine stack.old frames.old chain.old slots.old saved_stack.old saved_frames.old ready.old finalize.old setup.now plain) m fuel) }
    ensures { Reads (state (nine (of_mut stack) (of_mut frames) (of_mut chain) (of_mut slots) (of_mut saved_stack) (of_mut saved_frames) (of_mut ready) (of_mut finalize) (of_ref setup) at_entry) m fuel) read (gives (nine (of_mut stack) (of_mut frames) (of_mut chain) (of_mut slots) (of_mut saved_stack) (of_mut saved_frames) (of_mut ready) (of_mut finalize) (of_ref setup) at_exit) result) }
{
    match read {
        Ok(op) => sound_call(
            stack,
            frames,
            chain,
            slots,
            saved_stack,
            saved_frames,
            ready,
            finalize,
            setup,
            m,
            sizes,
            fuel,
            op,
        ),
        Err(g) => {
            let f = refusal(g, m.depth);
            Called {
                machine: m,
                fuel,
                answer: Answer::Refused(f),
            }
        }
    }
}
