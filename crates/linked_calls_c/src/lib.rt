// The functions of linked_calls for C and Rust programs to link (docs/ABI.md): each is the library's of the same name.
#![tactic(auto)]

ghost use Rattle.std.specs.Prelude.{◌≡◌};
ghost use Rattle.memory_world.specs.Contract.{at_entry, at_exit, of_mut, of_ref};
ghost use Rattle.outer_call.specs.State.{nine};
ghost use Rattle.linked_calls.specs.Host.{host, gave, set_up_in, call_in, KeptFits, kept_in, run_host, Granted, look_in, saw, passes_test, one_or};
ghost use Rattle.memory_calls.specs.Call.{op_of};
ghost use Rattle.memory_world.specs.Lendings.{plain};

// A fresh machine.
#[unsafe(no_mangle)]
pub extern "C" fn bvm_set_up(
    stack: &mut [u64],
    frames: &mut [u64],
    chain: &mut [u64],
    slots: &mut [u64],
    saved_stack: &mut [u64],
    saved_frames: &mut [u64],
    ready: &mut [u64],
    finalize: &mut [u64],
    setup: &mut [u64],
    machine: &mut [u64],
    fuel: &mut [u64],
    given: &[u64],
    answer: &mut [u64],
) -> u64
    ensures { gave (host (nine (of_mut stack) (of_mut frames) (of_mut chain) (of_mut slots) (of_mut saved_stack) (of_mut saved_frames) (of_mut ready) (of_mut finalize) (of_mut setup) at_exit) (at_exit (of_mut machine))
        (at_exit (of_mut fuel))) (at_exit (of_mut answer)) result ≡ set_up_in (host (nine (of_mut stack) (of_mut frames) (of_mut chain) (of_mut slots) (of_mut saved_stack) (of_mut saved_frames) (of_mut ready) (of_mut finalize) (of_mut setup) at_entry)
        (at_entry (of_mut machine)) (at_entry (of_mut fuel))) given.now (at_entry (of_mut answer)) }
{
    linked_calls::begin::bvm_set_up(
        stack,
        frames,
        chain,
        slots,
        saved_stack,
        saved_frames,
        ready,
        finalize,
        setup,
        machine,
        fuel,
        given,
        answer,
    )
}

// Any call but the set-up, tested.
#[unsafe(no_mangle)]
pub extern "C" fn bvm_call(
    stack: &mut [u64],
    frames: &mut [u64],
    chain: &mut [u64],
    slots: &mut [u64],
    saved_stack: &mut [u64],
    saved_frames: &mut [u64],
    ready: &mut [u64],
    finalize: &mut [u64],
    setup: &[u64],
    machine: &mut [u64],
    fuel: &mut [u64],
    call: &[u64],
    answer: &mut [u64],
) -> u64
    ensures { gave (host (nine (of_mut stack) (of_mut frames) (of_mut chain) (of_mut slots) (of_mut saved_stack) (of_mut saved_frames) (of_mut ready) (of_mut finalize) (of_ref setup) at_exit) (at_exit (of_mut machine))
        (at_exit (of_mut fuel))) (at_exit (of_mut answer)) result ≡ call_in (host (nine (of_mut stack) (of_mut frames) (of_mut chain) (of_mut slots) (of_mut saved_stack) (of_mut saved_frames) (of_mut ready) (of_mut finalize) (of_ref setup) at_entry)
        (at_entry (of_mut machine)) (at_entry (of_mut fuel))) (op_of call.now) (at_entry (of_mut answer)) }
{
    linked_calls::call::bvm_call(
        stack,
        frames,
        chain,
        slots,
        saved_stack,
        saved_frames,
        ready,
        finalize,
        setup,
        machine,
        fuel,
        call,
        answer,
    )
}

// The same on a machine that is known to be sound, with room for the answer: neither is tested.
#[unsafe(no_mangle)]
pub extern "C" fn bvm_call_unchecked(
    stack: &mut [u64],
    frames: &mut [u64],
    chain: &mut [u64],
    slots: &mut [u64],
    saved_stack: &mut [u64],
    saved_frames: &mut [u64],
    ready: &mut [u64],
    finalize: &mut [u64],
    setup: &[u64],
    machine: &mut [u64],
    fuel: &mut [u64],
    call: &[u64],
    answer: &mut [u64],
) -> u64
    requires { KeptFits (host (nine stack.old frames.old chain.old slots.old saved_stack.old saved_frames.old ready.old finalize.old setup.now plain) machine.old fuel.old) answer.old }
    ensures { gave (host (nine (of_mut stack) (of_mut frames) (of_mut chain) (of_mut slots) (of_mut saved_stack) (of_mut saved_frames) (of_mut ready) (of_mut finalize) (of_ref setup) at_exit) (at_exit (of_mut machine))
        (at_exit (of_mut fuel))) (at_exit (of_mut answer)) result ≡ kept_in (host (nine (of_mut stack) (of_mut frames) (of_mut chain) (of_mut slots) (of_mut saved_stack) (of_mut saved_frames) (of_mut ready) (of_mut finalize) (of_ref setup) at_entry)
        (at_entry (of_mut machine)) (at_entry (of_mut fuel))) (op_of call.now) (at_entry (of_mut answer)) }
{
    linked_calls::call::bvm_call_unchecked(
        stack,
        frames,
        chain,
        slots,
        saved_stack,
        saved_frames,
        ready,
        finalize,
        setup,
        machine,
        fuel,
        call,
        answer,
    )
}

// Calls, one after the other, tested once.
#[unsafe(no_mangle)]
pub extern "C" fn bvm_run(
    stack: &mut [u64],
    frames: &mut [u64],
    chain: &mut [u64],
    slots: &mut [u64],
    saved_stack: &mut [u64],
    saved_frames: &mut [u64],
    ready: &mut [u64],
    finalize: &mut [u64],
    setup: &[u64],
    machine: &mut [u64],
    fuel: &mut [u64],
    calls: &[u64],
    answers: &mut [u64],
) -> u64
    ensures { gave (host (nine (of_mut stack) (of_mut frames) (of_mut chain) (of_mut slots) (of_mut saved_stack) (of_mut saved_frames) (of_mut ready) (of_mut finalize) (of_ref setup) at_exit) (at_exit (of_mut machine))
        (at_exit (of_mut fuel))) (at_exit (of_mut answers)) result ≡ run_host (host (nine (of_mut stack) (of_mut frames) (of_mut chain) (of_mut slots) (of_mut saved_stack) (of_mut saved_frames) (of_mut ready) (of_mut finalize) (of_ref setup) at_entry)
        (at_entry (of_mut machine)) (at_entry (of_mut fuel))) calls.now (at_entry (of_mut answers)) }
{
    linked_calls::list::bvm_run(
        stack,
        frames,
        chain,
        slots,
        saved_stack,
        saved_frames,
        ready,
        finalize,
        setup,
        machine,
        fuel,
        calls,
        answers,
    )
}

// A grant, tested.
#[unsafe(no_mangle)]
pub extern "C" fn bvm_grant(
    stack: &[u64],
    frames: &[u64],
    chain: &[u64],
    slots: &[u64],
    saved_stack: &[u64],
    saved_frames: &[u64],
    ready: &[u64],
    finalize: &[u64],
    setup: &[u64],
    machine: &[u64],
    fuel: &mut [u64],
    answer: &mut [u64],
    amount: u64,
) -> u64
    ensures { Granted (host (nine (of_ref stack) (of_ref frames) (of_ref chain) (of_ref slots) (of_ref saved_stack) (of_ref saved_frames) (of_ref ready) (of_ref finalize) (of_ref setup) at_entry) (at_entry (of_ref machine)) (at_entry (of_mut fuel))) amount (at_entry (of_mut answer)) (at_exit (of_mut fuel)) (at_exit (of_mut answer)) result }
{
    linked_calls::grant::bvm_grant(
        stack,
        frames,
        chain,
        slots,
        saved_stack,
        saved_frames,
        ready,
        finalize,
        setup,
        machine,
        fuel,
        answer,
        amount,
    )
}

// A look, tested.
#[unsafe(no_mangle)]
pub extern "C" fn bvm_look(
    stack: &[u64],
    frames: &[u64],
    chain: &[u64],
    slots: &[u64],
    saved_stack: &[u64],
    saved_frames: &[u64],
    ready: &[u64],
    finalize: &[u64],
    setup: &[u64],
    machine: &[u64],
    fuel: &[u64],
    span: &mut [u64],
) -> u64
    ensures { saw (at_exit (of_mut span)) result ≡ look_in (host (nine (of_ref stack) (of_ref frames) (of_ref chain) (of_ref slots) (of_ref saved_stack) (of_ref saved_frames) (of_ref ready) (of_ref finalize) (of_ref setup) at_entry) (at_entry (of_ref machine)) (at_entry (of_ref fuel))) (at_entry (of_mut span)) }
{
    linked_calls::look::bvm_look(
        stack,
        frames,
        chain,
        slots,
        saved_stack,
        saved_frames,
        ready,
        finalize,
        setup,
        machine,
        fuel,
        span,
    )
}

// 1 if the machine is sound, else 0.
#[unsafe(no_mangle)]
pub extern "C" fn bvm_sound(
    stack: &[u64],
    frames: &[u64],
    chain: &[u64],
    slots: &[u64],
    saved_stack: &[u64],
    saved_frames: &[u64],
    ready: &[u64],
    finalize: &[u64],
    setup: &[u64],
    machine: &[u64],
    fuel: &[u64],
) -> u64
    ensures { result ≡ one_or (passes_test (host (nine (of_ref stack) (of_ref frames) (of_ref chain) (of_ref slots) (of_ref saved_stack) (of_ref saved_frames) (of_ref ready) (of_ref finalize) (of_ref setup) at_entry) (at_entry (of_ref machine)) (at_entry (of_ref fuel)))) }
{
    linked_calls::tested::bvm_sound(
        stack,
        frames,
        chain,
        slots,
        saved_stack,
        saved_frames,
        ready,
        finalize,
        setup,
        machine,
        fuel,
    )
}
