// A call on lent words, whatever they hold. 01: "Outer calls test this".
ghost use Rattle.std.specs.Prelude.{◌≡◌};
ghost use Rattle.memory_world.specs.Contract.{at_entry, at_exit, of_mut, of_ref};
ghost use Rattle.memory_step.specs.Step.{is_sound, step_words};
ghost use Rattle.outer_call.specs.State.{nine, state, gives, SoundFits, Steps};
ghost use Rattle.memory_world.specs.Lendings.{plain};

use check_machine::whole::sound_words;
use heap::fault::Fault;
use machine_state::called::Called;
use memory_world::machine::{Machine, Sizes};
use model::call::{Answer, Op};
use model::machine::Fuel;

// On words that are sound, of a set-up of these sizes: nothing is tested but the call.
pub fn sound_call(
    stack: &mut [u64],
    frames: &mut [u64],
    chain: &mut [u64],
    slots: &mut [u64],
    saved_stack: &mut [u64],
    saved_frames: &mut [u64],
    ready: &mut [u64],
    finalize: &mut [u64],
    setup: &[u64],
    m: Machine,
    sizes: Sizes,
    fuel: Fuel,
    op: Op,
) -> Called<Answer>
    requires { SoundFits sizes (state (nine stack.old frames.old chain.old slots.old saved_stack.old saved_frames.old ready.old finalize.old setup.now plain) m fuel) }
    ensures { Steps (state (nine (of_mut stack) (of_mut frames) (of_mut chain) (of_mut slots) (of_mut saved_stack) (of_mut saved_frames) (of_mut ready) (of_mut finalize) (of_ref setup) at_entry) m fuel) op (gives (nine (of_mut stack) (of_mut frames) (of_mut chain) (of_mut slots) (of_mut saved_stack) (of_mut saved_frames) (of_mut ready) (of_mut finalize) (of_ref setup) at_exit) result) }
{
    machine_step::kept::kept(
        stack,
        frames,
        chain,
        slots,
        saved_stack,
        saved_frames,
        ready,
        finalize,
        setup,
        m,
        sizes,
        fuel,
        op,
    )
}

// Everything as found, and 11.
pub fn unsound(m: Machine, fuel: Fuel) -> Called<Answer>
    ensures { result ≡ record { machine = m; fuel = fuel; answer = Answer.Refused Fault.Unsound } }
{
    Called {
        machine: m,
        fuel,
        answer: Answer::Refused(Fault::Unsound),
    }
}

// On words of which it is known whether they are sound.
fn called(
    ok: bool,
    stack: &mut [u64],
    frames: &mut [u64],
    chain: &mut [u64],
    slots: &mut [u64],
    saved_stack: &mut [u64],
    saved_frames: &mut [u64],
    ready: &mut [u64],
    finalize: &mut [u64],
    setup: &[u64],
    m: Machine,
    fuel: Fuel,
    op: Op,
) -> Called<Answer>
    requires { ok ≡ is_sound (state (nine stack.old frames.old chain.old slots.old saved_stack.old saved_frames.old ready.old finalize.old setup.now plain) m fuel) }
    ensures { gives (nine (of_mut stack) (of_mut frames) (of_mut chain) (of_mut slots) (of_mut saved_stack) (of_mut saved_frames) (of_mut ready) (of_mut finalize) (of_ref setup) at_exit) result ≡ step_words (state (nine (of_mut stack) (of_mut frames) (of_mut chain) (of_mut slots) (of_mut saved_stack) (of_mut saved_frames) (of_mut ready) (of_mut finalize) (of_ref setup) at_entry) m fuel) op }
{
    if !ok {
        return unsound(m, fuel);
    }
    let sizes = memory_world::sizes::sizes(setup);
    sound_call(
        stack,
        frames,
        chain,
        slots,
        saved_stack,
        saved_frames,
        ready,
        finalize,
        setup,
        m,
        sizes,
        fuel,
        op,
    )
}

// Any call but the set-up.
pub fn call(
    stack: &mut [u64],
    frames: &mut [u64],
    chain: &mut [u64],
    slots: &mut [u64],
    saved_stack: &mut [u64],
    saved_frames: &mut [u64],
    ready: &mut [u64],
    finalize: &mut [u64],
    setup: &[u64],
    m: Machine,
    fuel: Fuel,
    op: Op,
) -> Called<Answer>
    ensures { gives (nine (of_mut stack) (of_mut frames) (of_mut chain) (of_mut slots) (of_mut saved_stack) (of_mut saved_frames) (of_mut ready) (of_mut finalize) (of_ref setup) at_exit) result ≡ step_words (state (nine (of_mut stack) (of_mut frames) (of_mut chain) (of_mut slots) (of_mut saved_stack) (of_mut saved_frames) (of_mut ready) (of_mut finalize) (of_ref setup) at_entry) m fuel) op }
{
    let ok = sound_words(
        stack,
        frames,
        chain,
        slots,
        saved_stack,
        saved_frames,
        ready,
        finalize,
        setup,
        m,
        fuel,
    );
    called(
        ok,
        stack,
        frames,
        chain,
        slots,
        saved_stack,
        saved_frames,
        ready,
        finalize,
        setup,
        m,
        fuel,
        op,
    )
}
