// Calls in words, one after the other, on a machine in words: it is tested once.
ghost use Rattle.std.specs.Prelude.{◌≡◌};
ghost use Rattle.memory_world.specs.Contract.{at_entry, at_exit, of_mut, of_ref};
ghost use Rattle.outer_call.specs.State.{nine};
ghost use Rattle.linked_calls.specs.Host.{host, gave, run_host};
ghost use Rattle.linked_batch.specs.Batch.{BatchFits, Done};
ghost use Rattle.memory_world.specs.Lendings.{plain};

use crate::one::one;
use linked_calls::tested::bvm_sound;
use memory_calls::answer::ANSWER_WIDTH;
use outer_run::list::{count, refuse_list};

// The n calls, on a sound machine.
fn do_list(
    stack: &mut [u64],
    frames: &mut [u64],
    chain: &mut [u64],
    slots: &mut [u64],
    saved_stack: &mut [u64],
    saved_frames: &mut [u64],
    ready: &mut [u64],
    finalize: &mut [u64],
    setup: &[u64],
    machine: &mut [u64],
    fuel: &mut [u64],
    calls: &[u64],
    answers: &mut [u64],
    n: usize,
)
    requires { BatchFits (host (nine stack.old frames.old chain.old slots.old saved_stack.old saved_frames.old ready.old finalize.old setup.now plain) machine.old fuel.old) calls.now answers.old n }
    ensures { Done (host (nine (of_mut stack) (of_mut frames) (of_mut chain) (of_mut slots) (of_mut saved_stack) (of_mut saved_frames) (of_mut ready) (of_mut finalize) (of_ref setup) at_entry) (at_entry (of_mut machine)) (at_entry (of_mut fuel)))
        calls.now answers.old n
        (host (nine (of_mut stack) (of_mut frames) (of_mut chain) (of_mut slots) (of_mut saved_stack) (of_mut saved_frames) (of_mut ready) (of_mut finalize) (of_ref setup) at_exit) (at_exit (of_mut machine)) (at_exit (of_mut fuel))) answers.new }
{
    for i in 0..n {
        one(
            stack,
            frames,
            chain,
            slots,
            saved_stack,
            saved_frames,
            ready,
            finalize,
            setup,
            machine,
            fuel,
            calls,
            answers,
            i,
        );
    }
}

// What `bvm_run` does.
pub fn bvm_batch(
    stack: &mut [u64],
    frames: &mut [u64],
    chain: &mut [u64],
    slots: &mut [u64],
    saved_stack: &mut [u64],
    saved_frames: &mut [u64],
    ready: &mut [u64],
    finalize: &mut [u64],
    setup: &[u64],
    machine: &mut [u64],
    fuel: &mut [u64],
    calls: &[u64],
    answers: &mut [u64],
) -> u64
    ensures { gave (host (nine (of_mut stack) (of_mut frames) (of_mut chain) (of_mut slots) (of_mut saved_stack) (of_mut saved_frames) (of_mut ready) (of_mut finalize) (of_ref setup) at_exit) (at_exit (of_mut machine))
        (at_exit (of_mut fuel))) (at_exit (of_mut answers)) result ≡ run_host (host (nine (of_mut stack) (of_mut frames) (of_mut chain) (of_mut slots) (of_mut saved_stack) (of_mut saved_frames) (of_mut ready) (of_mut finalize) (of_ref setup) at_entry)
        (at_entry (of_mut machine)) (at_entry (of_mut fuel))) calls.now (at_entry (of_mut answers)) }
{
    let n = count(calls.len());
    let ok = bvm_sound(
        stack,
        frames,
        chain,
        slots,
        saved_stack,
        saved_frames,
        ready,
        finalize,
        setup,
        machine,
        fuel,
    );
    if answers.len() / ANSWER_WIDTH < n {
        if ok == 0 {
            return 11;
        }
        return 14;
    }
    if ok == 0 {
        refuse_list(answers, n);
        return 11;
    }
    do_list(
        stack,
        frames,
        chain,
        slots,
        saved_stack,
        saved_frames,
        ready,
        finalize,
        setup,
        machine,
        fuel,
        calls,
        answers,
        n,
    );
    0
}
