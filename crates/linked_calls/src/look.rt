// Where the registers of the top frame stand: the part that a look hands back ends with the stack.
ghost use Rattle.std.specs.Prelude.{◌≡◌, true};
ghost use Rattle.memory_world.specs.Contract.{at_entry, at_exit, of_mut, of_ref};
ghost use Rattle.outer_call.specs.State.{nine};
ghost use Rattle.linked_calls.specs.Host.{host, passes_test, Spans, look_in, saw};
ghost use Rattle.memory_world.specs.Lendings.{plain};

use crate::numbers::{fuel_of, machine_of};
use crate::tested::{short, tested};
use machine_added::look::Span;

// The words of a span: where it starts and ends.
const SPAN_WIDTH: usize = 2;

const START: usize = 0;

const END: usize = 1;

// On a sound machine.
fn span_in(
    stack: &[u64],
    frames: &[u64],
    chain: &[u64],
    slots: &[u64],
    saved_stack: &[u64],
    saved_frames: &[u64],
    ready: &[u64],
    finalize: &[u64],
    setup: &[u64],
    machine: &[u64],
    fuel: &[u64],
) -> Span
    requires { passes_test (host (nine stack.now frames.now chain.now slots.now saved_stack.now saved_frames.now ready.now finalize.now setup.now plain) machine.now fuel.now) ≡ true }
    ensures { Spans (host (nine (of_ref stack) (of_ref frames) (of_ref chain) (of_ref slots) (of_ref saved_stack) (of_ref saved_frames) (of_ref ready) (of_ref finalize) (of_ref setup) at_entry) (at_entry (of_ref machine)) (at_entry (of_ref fuel))) result }
{
    let m = machine_of(machine);
    let f = fuel_of(fuel);
    let part = outer_call::look::seen(
        true,
        stack,
        frames,
        chain,
        slots,
        saved_stack,
        saved_frames,
        ready,
        finalize,
        setup,
        m,
        f,
    );
    let n = part.len();
    Span {
        start: m.height - n,
        end: m.height,
    }
}

pub fn bvm_look(
    stack: &[u64],
    frames: &[u64],
    chain: &[u64],
    slots: &[u64],
    saved_stack: &[u64],
    saved_frames: &[u64],
    ready: &[u64],
    finalize: &[u64],
    setup: &[u64],
    machine: &[u64],
    fuel: &[u64],
    span: &mut [u64],
) -> u64
    ensures { saw (at_exit (of_mut span)) result ≡ look_in (host (nine (of_ref stack) (of_ref frames) (of_ref chain) (of_ref slots) (of_ref saved_stack) (of_ref saved_frames) (of_ref ready) (of_ref finalize) (of_ref setup) at_entry) (at_entry (of_ref machine)) (at_entry (of_ref fuel))) (at_entry (of_mut span)) }
{
    let ok = tested(
        stack,
        frames,
        chain,
        slots,
        saved_stack,
        saved_frames,
        ready,
        finalize,
        setup,
        machine,
        fuel,
    );
    if span.len() < SPAN_WIDTH {
        return short(ok);
    }
    if !ok {
        span[START] = 0;
        span[END] = 0;
        return 11;
    }
    let s = span_in(
        stack,
        frames,
        chain,
        slots,
        saved_stack,
        saved_frames,
        ready,
        finalize,
        setup,
        machine,
        fuel,
    );
    span[START] = s.start as u64;
    span[END] = s.end as u64;
    0
}
