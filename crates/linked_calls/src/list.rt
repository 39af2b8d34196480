// Calls in words, one after the other, on a machine in words: it is tested once.
ghost use Rattle.std.specs.Prelude.{◌≡◌};
ghost use Rattle.memory_world.specs.Contract.{at_entry, at_exit, of_mut, of_ref};
ghost use Rattle.outer_call.specs.State.{nine};
ghost use Rattle.linked_calls.specs.Host.{host, gave, passes_test, run_host};
ghost use Rattle.memory_world.specs.Lendings.{plain};

use crate::numbers::{fuel_of, machine_of, put_fuel, put_machine, sizes_of};
use crate::tested::{short, tested};
use memory_calls::answer::ANSWER_WIDTH;
use outer_run::list::{count, refuse_list, run_list};

// On a machine of which it is known whether it is sound.
fn do_run(
    ok: bool,
    stack: &mut [u64],
    frames: &mut [u64],
    chain: &mut [u64],
    slots: &mut [u64],
    saved_stack: &mut [u64],
    saved_frames: &mut [u64],
    ready: &mut [u64],
    finalize: &mut [u64],
    setup: &[u64],
    machine: &mut [u64],
    fuel: &mut [u64],
    calls: &[u64],
    answers: &mut [u64],
) -> u64
    requires { ok ≡ passes_test (host (nine stack.old frames.old chain.old slots.old saved_stack.old saved_frames.old ready.old finalize.old setup.now plain) machine.old fuel.old) }
    ensures { gave (host (nine (of_mut stack) (of_mut frames) (of_mut chain) (of_mut slots) (of_mut saved_stack) (of_mut saved_frames) (of_mut ready) (of_mut finalize) (of_ref setup) at_exit) (at_exit (of_mut machine))
        (at_exit (of_mut fuel))) (at_exit (of_mut answers)) result ≡ run_host (host (nine (of_mut stack) (of_mut frames) (of_mut chain) (of_mut slots) (of_mut saved_stack) (of_mut saved_frames) (of_mut ready) (of_mut finalize) (of_ref setup) at_entry)
        (at_entry (of_mut machine)) (at_entry (of_mut fuel))) calls.now (at_entry (of_mut answers)) }
{
    let n = count(calls.len());
    if answers.len() / ANSWER_WIDTH < n {
        return short(ok);
    }
    if !ok {
        refuse_list(answers, n);
        return 11;
    }
    let m = machine_of(machine);
    let sizes = sizes_of(machine);
    let f = fuel_of(fuel);
    let did = run_list(
        stack,
        frames,
        chain,
        slots,
        saved_stack,
        saved_frames,
        ready,
        finalize,
        setup,
        m,
        sizes,
        f,
        calls,
        answers,
        n,
    );
    let k = did.machine;
    let left = did.fuel;
    put_machine(machine, k);
    put_fuel(fuel, left);
    0
}

pub fn bvm_run(
    stack: &mut [u64],
    frames: &mut [u64],
    chain: &mut [u64],
    slots: &mut [u64],
    saved_stack: &mut [u64],
    saved_frames: &mut [u64],
    ready: &mut [u64],
    finalize: &mut [u64],
    setup: &[u64],
    machine: &mut [u64],
    fuel: &mut [u64],
    calls: &[u64],
    answers: &mut [u64],
) -> u64
    ensures { gave (host (nine (of_mut stack) (of_mut frames) (of_mut chain) (of_mut slots) (of_mut saved_stack) (of_mut saved_frames) (of_mut ready) (of_mut finalize) (of_ref setup) at_exit) (at_exit (of_mut machine))
        (at_exit (of_mut fuel))) (at_exit (of_mut answers)) result ≡ run_host (host (nine (of_mut stack) (of_mut frames) (of_mut chain) (of_mut slots) (of_mut saved_stack) (of_mut saved_frames) (of_mut ready) (of_mut finalize) (of_ref setup) at_entry)
        (at_entry (of_mut machine)) (at_entry (of_mut fuel))) calls.now (at_entry (of_mut answers)) }
{
    let ok = tested(
        stack,
        frames,
        chain,
        slots,
        saved_stack,
        saved_frames,
        ready,
        finalize,
        setup,
        machine,
        fuel,
    );
    do_run(
        ok,
        stack,
        frames,
        chain,
        slots,
        saved_stack,
        saved_frames,
        ready,
        finalize,
        setup,
        machine,
        fuel,
        calls,
        answers,
    )
}
