// The set-up as a call. 01: "Set-up (fuel 0)"; every rule of the closing list and the room are tested first.
ghost use Rattle.std.specs.Prelude.{◌≡◌, true};
ghost use Rattle.memory_world.specs.Memory.{Lent};
ghost use Rattle.memory_world.specs.Contract.{at_entry, at_exit, of_mut};
ghost use Rattle.memory_world.specs.Words.{lengths_of};
ghost use Rattle.memory_step.specs.Step.{set_up_ok, set_up_words};
ghost use Rattle.outer_call.specs.State.{nine, state, gives};
ghost use Rattle.outer_call.specs.SetUp.{lengths, begins};
ghost use Rattle.memory_world.specs.Lendings.{plain};

use crate::call::unsound;
use machine_state::called::Called;
use memory_tables::layout;
use memory_tables::program::{FUNCTION_WIDTH, NUMBERS_WIDTH};
use memory_world::machine::Machine;
use model::call::Answer;
use model::machine::Fuel;

// Whether the words given are a set-up's, and slices of these lengths are long enough for it.
pub fn allowed(
    given: &[u64],
    stack: usize,
    frames: usize,
    chain: usize,
    slots: usize,
    saved_stack: usize,
    saved_frames: usize,
    ready: usize,
    finalize: usize,
    setup: usize,
) -> bool
    ensures { (M : Lent) → lengths_of M ≡ lengths stack frames chain slots saved_stack saved_frames ready finalize setup → result ≡ set_up_ok given.now M }
{
    if !check_tables::setup::setup_held(given) {
        return false;
    }
    let sizes = memory_world::sizes::sizes(given);
    if !check_tables::room::room_ok(
        sizes,
        stack,
        frames,
        chain,
        slots,
        saved_stack,
        saved_frames,
        ready,
        finalize,
    ) {
        return false;
    }
    let n = given[layout::FUNCTIONS] as usize;
    NUMBERS_WIDTH + n * FUNCTION_WIDTH <= setup
}

// A fresh machine. Zeros may follow the set-up's words; its slice gets these words and zeros to its end, so the same come back either way.
fn begin(
    stack: &mut [u64],
    frames: &mut [u64],
    chain: &mut [u64],
    slots: &mut [u64],
    saved_stack: &mut [u64],
    saved_frames: &mut [u64],
    ready: &mut [u64],
    finalize: &mut [u64],
    setup: &mut [u64],
    given: &[u64],
) -> Called<Answer>
    requires { set_up_ok given.now (nine stack.old frames.old chain.old slots.old saved_stack.old saved_frames.old ready.old finalize.old setup.old plain) ≡ true }
    ensures { gives (nine (of_mut stack) (of_mut frames) (of_mut chain) (of_mut slots) (of_mut saved_stack) (of_mut saved_frames) (of_mut ready) (of_mut finalize) (of_mut setup) at_exit) result ≡ begins (nine (of_mut stack) (of_mut frames) (of_mut chain) (of_mut slots) (of_mut saved_stack) (of_mut saved_frames) (of_mut ready) (of_mut finalize) (of_mut setup) at_entry) given.now }
{
    let n = given[layout::FUNCTIONS] as usize;
    let k = NUMBERS_WIDTH + n * FUNCTION_WIDTH;
    let machine = machine_state::setup::set_up(
        stack,
        frames,
        chain,
        slots,
        saved_stack,
        saved_frames,
        ready,
        finalize,
        setup,
        &given[0..k],
    );
    let fuel = Fuel {
        fuel: 0,
        bank: None,
        ready: false,
    };
    Called {
        machine,
        fuel,
        answer: Answer::Accepted,
    }
}

// What the slices, the numbers and the fuel held is not tested.
pub fn set_up(
    stack: &mut [u64],
    frames: &mut [u64],
    chain: &mut [u64],
    slots: &mut [u64],
    saved_stack: &mut [u64],
    saved_frames: &mut [u64],
    ready: &mut [u64],
    finalize: &mut [u64],
    setup: &mut [u64],
    m: Machine,
    fuel: Fuel,
    given: &[u64],
) -> Called<Answer>
    ensures { gives (nine (of_mut stack) (of_mut frames) (of_mut chain) (of_mut slots) (of_mut saved_stack) (of_mut saved_frames) (of_mut ready) (of_mut finalize) (of_mut setup) at_exit) result ≡ set_up_words (state (nine (of_mut stack) (of_mut frames) (of_mut chain) (of_mut slots) (of_mut saved_stack) (of_mut saved_frames) (of_mut ready) (of_mut finalize) (of_mut setup) at_entry) m fuel) given.now }
{
    if !allowed(
        given,
        stack.len(),
        frames.len(),
        chain.len(),
        slots.len(),
        saved_stack.len(),
        saved_frames.len(),
        ready.len(),
        finalize.len(),
        setup.len(),
    ) {
        return unsound(m, fuel);
    }
    begin(
        stack,
        frames,
        chain,
        slots,
        saved_stack,
        saved_frames,
        ready,
        finalize,
        setup,
        given,
    )
}
