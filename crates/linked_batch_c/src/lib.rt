// The batch of linked_batch for C and Rust programs to link (docs/ABI.md): it is the library's.
#![tactic(auto)]

ghost use Rattle.std.specs.Prelude.{◌≡◌};
ghost use Rattle.memory_world.specs.Contract.{at_entry, at_exit, of_mut, of_ref};
ghost use Rattle.outer_call.specs.State.{nine};
ghost use Rattle.linked_calls.specs.Host.{host, gave, run_host};

// What `bvm_run` does.
#[unsafe(no_mangle)]
pub extern "C" fn bvm_batch(
    stack: &mut [u64],
    frames: &mut [u64],
    chain: &mut [u64],
    slots: &mut [u64],
    saved_stack: &mut [u64],
    saved_frames: &mut [u64],
    ready: &mut [u64],
    finalize: &mut [u64],
    setup: &[u64],
    machine: &mut [u64],
    fuel: &mut [u64],
    calls: &[u64],
    answers: &mut [u64],
) -> u64
    ensures { gave (host (nine (of_mut stack) (of_mut frames) (of_mut chain) (of_mut slots) (of_mut saved_stack) (of_mut saved_frames) (of_mut ready) (of_mut finalize) (of_ref setup) at_exit) (at_exit (of_mut machine))
        (at_exit (of_mut fuel))) (at_exit (of_mut answers)) result ≡ run_host (host (nine (of_mut stack) (of_mut frames) (of_mut chain) (of_mut slots) (of_mut saved_stack) (of_mut saved_frames) (of_mut ready) (of_mut finalize) (of_ref setup) at_entry)
        (at_entry (of_mut machine)) (at_entry (of_mut fuel))) calls.now (at_entry (of_mut answers)) }
{
    linked_batch::list::bvm_batch(
        stack,
        frames,
        chain,
        slots,
        saved_stack,
        saved_frames,
        ready,
        finalize,
        setup,
        machine,
        fuel,
        calls,
        answers,
    )
}
