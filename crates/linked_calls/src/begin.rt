// A fresh machine in words. What the words held is not tested.
ghost use Rattle.std.specs.Prelude.{◌≡◌, ◌≤◌, length, ◌&&◌};
ghost use Rattle.lists.specs.Parts.{splice};
ghost use Rattle.memory_step.specs.Step.{set_up_ok};
ghost use Rattle.outer_call.specs.SetUp.{lengths};
ghost use Rattle.memory_world.specs.Contract.{at_entry, at_exit, of_mut};
ghost use Rattle.outer_call.specs.State.{nine};
ghost use Rattle.linked_calls.specs.Words.{sizes_words};
ghost use Rattle.linked_calls.specs.Host.{Host, host, gave, long, LongAs, BeginFits, begin_in, set_up_in};

use crate::call::tell;
use crate::numbers::{
    CORO_COST, DEPTH_LIMIT, ERROR_COST, FRAME_COST, FUEL_WIDTH, INT_COST, ITER_COST, MACHINE_WIDTH,
    MEMORY, OBJECT_COST, ROW_WIDTH, ROWS, SLOTS, STACK_LIMIT, fuel_of, machine_of, put_fuel,
    put_machine,
};
use crate::tested::short;
use heap::fault::Fault;
use memory_calls::answer::ANSWER_WIDTH;
use memory_world::machine::Sizes;
use model::call::Answer;

// The sizes after the numbers.
fn put_sizes(ws: &mut [u64], sizes: Sizes)
    requires { 25 ≤ length ws.old }
    ensures { ws.new ≡ splice ws.old 13 (sizes_words sizes) }
{
    let c = sizes.costs;
    ws[DEPTH_LIMIT] = sizes.depth as u64;
    ws[STACK_LIMIT] = sizes.stack as u64;
    ws[ROWS] = sizes.rows as u64;
    ws[SLOTS] = sizes.slots as u64;
    ws[MEMORY] = sizes.memory;
    ws[ROW_WIDTH] = sizes.width as u64;
    ws[FRAME_COST] = c.frame;
    ws[CORO_COST] = c.coro;
    ws[OBJECT_COST] = c.object;
    ws[INT_COST] = c.int;
    ws[ERROR_COST] = c.error;
    ws[ITER_COST] = c.iter;
}

// With room for the numbers, the fuel and the answer.
fn begin(
    stack: &mut [u64],
    frames: &mut [u64],
    chain: &mut [u64],
    slots: &mut [u64],
    saved_stack: &mut [u64],
    saved_frames: &mut [u64],
    ready: &mut [u64],
    finalize: &mut [u64],
    setup: &mut [u64],
    machine: &mut [u64],
    fuel: &mut [u64],
    given: &[u64],
    answer: &mut [u64],
) -> u64
    requires { BeginFits machine.old fuel.old answer.old }
    ensures { gave (host (nine (of_mut stack) (of_mut frames) (of_mut chain) (of_mut slots) (of_mut saved_stack) (of_mut saved_frames) (of_mut ready) (of_mut finalize) (of_mut setup) at_exit) (at_exit (of_mut machine))
        (at_exit (of_mut fuel))) (at_exit (of_mut answer)) result ≡ begin_in (host (nine (of_mut stack) (of_mut frames) (of_mut chain) (of_mut slots) (of_mut saved_stack) (of_mut saved_frames) (of_mut ready) (of_mut finalize) (of_mut setup) at_entry)
        (at_entry (of_mut machine)) (at_entry (of_mut fuel))) given.now (at_entry (of_mut answer)) }
{
    let m = machine_of(machine);
    let f = fuel_of(fuel);
    let did = outer_call::set_up::set_up(
        stack,
        frames,
        chain,
        slots,
        saved_stack,
        saved_frames,
        ready,
        finalize,
        setup,
        m,
        f,
        given,
    );
    let k = did.machine;
    let left = did.fuel;
    let a = did.answer;
    let n = tell(answer, a);
    if n != 0 {
        return n;
    }
    let sizes = memory_world::sizes::sizes(given);
    put_machine(machine, k);
    put_sizes(machine, sizes);
    put_fuel(fuel, left);
    n
}

// Whether a set-up of these words is accepted in slices of such lengths.
fn accepts(
    given: &[u64],
    stack: usize,
    frames: usize,
    chain: usize,
    slots: usize,
    saved_stack: usize,
    saved_frames: usize,
    ready: usize,
    finalize: usize,
    setup: usize,
    machine: usize,
    fuel: usize,
) -> bool
    ensures { (h : Host) → LongAs h (lengths stack frames chain slots saved_stack saved_frames ready finalize setup) machine fuel → result ≡ (long h && set_up_ok given.now h.words) }
{
    if machine < MACHINE_WIDTH {
        return false;
    }
    if fuel < FUEL_WIDTH {
        return false;
    }
    outer_call::set_up::allowed(
        given,
        stack,
        frames,
        chain,
        slots,
        saved_stack,
        saved_frames,
        ready,
        finalize,
        setup,
    )
}

pub fn bvm_set_up(
    stack: &mut [u64],
    frames: &mut [u64],
    chain: &mut [u64],
    slots: &mut [u64],
    saved_stack: &mut [u64],
    saved_frames: &mut [u64],
    ready: &mut [u64],
    finalize: &mut [u64],
    setup: &mut [u64],
    machine: &mut [u64],
    fuel: &mut [u64],
    given: &[u64],
    answer: &mut [u64],
) -> u64
    ensures { gave (host (nine (of_mut stack) (of_mut frames) (of_mut chain) (of_mut slots) (of_mut saved_stack) (of_mut saved_frames) (of_mut ready) (of_mut finalize) (of_mut setup) at_exit) (at_exit (of_mut machine))
        (at_exit (of_mut fuel))) (at_exit (of_mut answer)) result ≡ set_up_in (host (nine (of_mut stack) (of_mut frames) (of_mut chain) (of_mut slots) (of_mut saved_stack) (of_mut saved_frames) (of_mut ready) (of_mut finalize) (of_mut setup) at_entry)
        (at_entry (of_mut machine)) (at_entry (of_mut fuel))) given.now (at_entry (of_mut answer)) }
{
    if answer.len() < ANSWER_WIDTH {
        let ok = accepts(
            given,
            stack.len(),
            frames.len(),
            chain.len(),
            slots.len(),
            saved_stack.len(),
            saved_frames.len(),
            ready.len(),
            finalize.len(),
            setup.len(),
            machine.len(),
            fuel.len(),
        );
        return short(ok);
    }
    if machine.len() < MACHINE_WIDTH {
        return tell(answer, Answer::Refused(Fault::Unsound));
    }
    if fuel.len() < FUEL_WIDTH {
        return tell(answer, Answer::Refused(Fault::Unsound));
    }
    begin(
        stack,
        frames,
        chain,
        slots,
        saved_stack,
        saved_frames,
        ready,
        finalize,
        setup,
        machine,
        fuel,
        given,
        answer,
    )
}
