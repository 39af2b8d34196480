// A grant to a machine in words: it writes the fuel's words and the answer.
ghost use Rattle.std.specs.Prelude.{◌≡◌};
ghost use Rattle.memory_world.specs.Contract.{at_entry, at_exit, of_mut, of_ref};
ghost use Rattle.outer_call.specs.State.{nine};
ghost use Rattle.linked_calls.specs.Host.{host, Granted, DoFits};
ghost use Rattle.memory_world.specs.Lendings.{plain};

use crate::call::tell;
use crate::numbers::{fuel_of, machine_of, put_fuel};
use crate::tested::{short, tested};
use heap::fault::Fault;
use memory_calls::answer::ANSWER_WIDTH;
use model::call::Answer;

// On a machine of which it is known whether it is sound.
fn do_grant(
    ok: bool,
    stack: &[u64],
    frames: &[u64],
    chain: &[u64],
    slots: &[u64],
    saved_stack: &[u64],
    saved_frames: &[u64],
    ready: &[u64],
    finalize: &[u64],
    setup: &[u64],
    machine: &[u64],
    fuel: &mut [u64],
    answer: &mut [u64],
    amount: u64,
) -> u64
    requires { DoFits ok (host (nine stack.now frames.now chain.now slots.now saved_stack.now saved_frames.now ready.now finalize.now setup.now plain) machine.now fuel.old) answer.old }
    ensures { Granted (host (nine (of_ref stack) (of_ref frames) (of_ref chain) (of_ref slots) (of_ref saved_stack) (of_ref saved_frames) (of_ref ready) (of_ref finalize) (of_ref setup) at_entry) (at_entry (of_ref machine)) (at_entry (of_mut fuel))) amount (at_entry (of_mut answer)) (at_exit (of_mut fuel)) (at_exit (of_mut answer)) result }
{
    if !ok {
        return tell(answer, Answer::Refused(Fault::Unsound));
    }
    let m = machine_of(machine);
    let f = fuel_of(fuel);
    let did = outer_grant::granted(f, m, amount);
    let left = did.fuel;
    let a = did.answer;
    put_fuel(fuel, left);
    tell(answer, a)
}

pub fn bvm_grant(
    stack: &[u64],
    frames: &[u64],
    chain: &[u64],
    slots: &[u64],
    saved_stack: &[u64],
    saved_frames: &[u64],
    ready: &[u64],
    finalize: &[u64],
    setup: &[u64],
    machine: &[u64],
    fuel: &mut [u64],
    answer: &mut [u64],
    amount: u64,
) -> u64
    ensures { Granted (host (nine (of_ref stack) (of_ref frames) (of_ref chain) (of_ref slots) (of_ref saved_stack) (of_ref saved_frames) (of_ref ready) (of_ref finalize) (of_ref setup) at_entry) (at_entry (of_ref machine)) (at_entry (of_mut fuel))) amount (at_entry (of_mut answer)) (at_exit (of_mut fuel)) (at_exit (of_mut answer)) result }
{
    let ok = tested(
        stack,
        frames,
        chain,
        slots,
        saved_stack,
        saved_frames,
        ready,
        finalize,
        setup,
        machine,
        fuel,
    );
    if answer.len() < ANSWER_WIDTH {
        return short(ok);
    }
    do_grant(
        ok,
        stack,
        frames,
        chain,
        slots,
        saved_stack,
        saved_frames,
        ready,
        finalize,
        setup,
        machine,
        fuel,
        answer,
        amount,
    )
}
