// A call in words, on a machine in words.
ghost use Rattle.std.specs.Prelude.{◌≡◌, ◌≤◌, length};
ghost use Rattle.lists.specs.Parts.{splice};
ghost use Rattle.model.specs.Answer.{number_of};
ghost use Rattle.memory_world.specs.Contract.{at_entry, at_exit, of_mut, of_ref};
ghost use Rattle.memory_calls.specs.Call.{op_of};
ghost use Rattle.memory_calls.specs.Answer.{answer_words};
ghost use Rattle.outer_call.specs.State.{nine};
ghost use Rattle.linked_calls.specs.Host.{host, gave, passes_test, do_in, call_in, DoFits, KeptFits, kept_in};
ghost use Rattle.memory_world.specs.Lendings.{plain};

use crate::numbers::{fuel_of, machine_of, put_fuel, put_machine, sizes_of};
use crate::tested::{short, tested};
use heap::fault::Fault;
use memory_calls::answer::{ANSWER_WIDTH, put_answer};
use memory_calls::call::op_of;
use memory_calls::layout::NUMBER;
use model::call::Answer;

// The answer's words, and its number.
pub(crate) fn tell(answer: &mut [u64], a: Answer) -> u64
    requires { 8 ≤ length answer.old }
    ensures { (answer.new ≡ splice answer.old 0 (answer_words a)) × (result ≡ number_of a) }
{
    put_answer(answer, a);
    answer[NUMBER]
}

// On a machine of which it is known whether it is sound.
fn do_call(
    ok: bool,
    stack: &mut [u64],
    frames: &mut [u64],
    chain: &mut [u64],
    slots: &mut [u64],
    saved_stack: &mut [u64],
    saved_frames: &mut [u64],
    ready: &mut [u64],
    finalize: &mut [u64],
    setup: &[u64],
    machine: &mut [u64],
    fuel: &mut [u64],
    call: &[u64],
    answer: &mut [u64],
) -> u64
    requires { DoFits ok (host (nine stack.old frames.old chain.old slots.old saved_stack.old saved_frames.old ready.old finalize.old setup.now plain) machine.old fuel.old) answer.old }
    ensures { gave (host (nine (of_mut stack) (of_mut frames) (of_mut chain) (of_mut slots) (of_mut saved_stack) (of_mut saved_frames) (of_mut ready) (of_mut finalize) (of_ref setup) at_exit) (at_exit (of_mut machine))
        (at_exit (of_mut fuel))) (at_exit (of_mut answer)) result ≡ do_in ok (host (nine (of_mut stack) (of_mut frames) (of_mut chain) (of_mut slots) (of_mut saved_stack) (of_mut saved_frames) (of_mut ready) (of_mut finalize) (of_ref setup) at_entry)
        (at_entry (of_mut machine)) (at_entry (of_mut fuel))) (op_of call.now) (at_entry (of_mut answer)) }
{
    if !ok {
        return tell(answer, Answer::Refused(Fault::Unsound));
    }
    let m = machine_of(machine);
    let sizes = sizes_of(machine);
    let f = fuel_of(fuel);
    let read = op_of(call);
    let did = outer_run::one::do_read(
        stack,
        frames,
        chain,
        slots,
        saved_stack,
        saved_frames,
        ready,
        finalize,
        setup,
        m,
        sizes,
        f,
        read,
    );
    let n = did.machine;
    let left = did.fuel;
    let a = did.answer;
    put_machine(machine, n);
    put_fuel(fuel, left);
    tell(answer, a)
}

// Any call but the set-up, tested.
pub fn bvm_call(
    stack: &mut [u64],
    frames: &mut [u64],
    chain: &mut [u64],
    slots: &mut [u64],
    saved_stack: &mut [u64],
    saved_frames: &mut [u64],
    ready: &mut [u64],
    finalize: &mut [u64],
    setup: &[u64],
    machine: &mut [u64],
    fuel: &mut [u64],
    call: &[u64],
    answer: &mut [u64],
) -> u64
    ensures { gave (host (nine (of_mut stack) (of_mut frames) (of_mut chain) (of_mut slots) (of_mut saved_stack) (of_mut saved_frames) (of_mut ready) (of_mut finalize) (of_ref setup) at_exit) (at_exit (of_mut machine))
        (at_exit (of_mut fuel))) (at_exit (of_mut answer)) result ≡ call_in (host (nine (of_mut stack) (of_mut frames) (of_mut chain) (of_mut slots) (of_mut saved_stack) (of_mut saved_frames) (of_mut ready) (of_mut finalize) (of_ref setup) at_entry)
        (at_entry (of_mut machine)) (at_entry (of_mut fuel))) (op_of call.now) (at_entry (of_mut answer)) }
{
    let ok = tested(
        stack,
        frames,
        chain,
        slots,
        saved_stack,
        saved_frames,
        ready,
        finalize,
        setup,
        machine,
        fuel,
    );
    if answer.len() < ANSWER_WIDTH {
        return short(ok);
    }
    do_call(
        ok,
        stack,
        frames,
        chain,
        slots,
        saved_stack,
        saved_frames,
        ready,
        finalize,
        setup,
        machine,
        fuel,
        call,
        answer,
    )
}

// The same on a machine that is known to be sound, with room for the answer: neither is tested.
pub fn bvm_call_unchecked(
    stack: &mut [u64],
    frames: &mut [u64],
    chain: &mut [u64],
    slots: &mut [u64],
    saved_stack: &mut [u64],
    saved_frames: &mut [u64],
    ready: &mut [u64],
    finalize: &mut [u64],
    setup: &[u64],
    machine: &mut [u64],
    fuel: &mut [u64],
    call: &[u64],
    answer: &mut [u64],
) -> u64
    requires { KeptFits (host (nine stack.old frames.old chain.old slots.old saved_stack.old saved_frames.old ready.old finalize.old setup.now plain) machine.old fuel.old) answer.old }
    ensures { gave (host (nine (of_mut stack) (of_mut frames) (of_mut chain) (of_mut slots) (of_mut saved_stack) (of_mut saved_frames) (of_mut ready) (of_mut finalize) (of_ref setup) at_exit) (at_exit (of_mut machine))
        (at_exit (of_mut fuel))) (at_exit (of_mut answer)) result ≡ kept_in (host (nine (of_mut stack) (of_mut frames) (of_mut chain) (of_mut slots) (of_mut saved_stack) (of_mut saved_frames) (of_mut ready) (of_mut finalize) (of_ref setup) at_entry)
        (at_entry (of_mut machine)) (at_entry (of_mut fuel))) (op_of call.now) (at_entry (of_mut answer)) }
{
    let sound = true;
    do_call(
        sound,
        stack,
        frames,
        chain,
        slots,
        saved_stack,
        saved_frames,
        ready,
        finalize,
        setup,
        machine,
        fuel,
        call,
        answer,
    )
}
