// One call of a list, on a machine that is known to be sound.
ghost use Rattle.std.specs.Prelude.{◌≡◌, ◌+◌, ◌*◌, ◌≤◌, ◌<◌, length, get_or};
ghost use Rattle.lists.specs.Chunks.{chunk_at, put_chunk};
ghost use Rattle.memory_world.specs.Contract.{at_entry, at_exit, of_mut, of_ref};
ghost use Rattle.memory_calls.specs.Call.{six, op_of};
ghost use Rattle.memory_calls.specs.Answer.{answer_words};
ghost use Rattle.outer_call.specs.State.{nine};
ghost use Rattle.outer_run.specs.Run.{read_in};
ghost use Rattle.linked_calls.specs.Host.{host};
ghost use Rattle.linked_switch.specs.Went.{goes_on};
ghost use Rattle.linked_batch.specs.Batch.{PutFits, SwitchPutFits, Goes, OneFits, One};
ghost use Rattle.memory_world.specs.Lendings.{plain};

use heap::fault::Fault;
use heap::value::MOST32;
use linked_calls::call::bvm_call_unchecked;
use linked_calls::numbers::FUEL;
use linked_switch::answer::goes_on;
use linked_switch::enters::may_enter;
use linked_switch::leaves::may_leave;
use linked_switch::resume::resume_at;
use linked_switch::yielding::yield_at;
use memory_calls::answer::ANSWER_WIDTH;
use memory_calls::call::CALL_WIDTH;
use memory_calls::layout::{RESUME, YIELD};
use model::call::Answer;
use outer_run::list::put_at;

// Word k of call i.
fn word(calls: &[u64], i: usize, k: usize) -> u64
    requires { (i * 6 + 6 ≤ length calls.now) × (k < 6) }
    ensures { result ≡ get_or (chunk_at 6 calls.now i) k 0 }
{
    calls[i * CALL_WIDTH + k]
}

// Answer i: the frame on top goes on.
fn goes_on_at(answers: &mut [u64], i: usize)
    requires { i * 8 + 8 ≤ length answers.old }
    ensures { answers.new ≡ put_chunk 8 answers.old i (answer_words goes_on) }
{
    let from = i * ANSWER_WIDTH;
    let to = from + ANSWER_WIDTH;
    goes_on(&mut answers[from..to]);
}

// Any call, its answer at place i.
fn general_at(
    stack: &mut [u64],
    frames: &mut [u64],
    chain: &mut [u64],
    slots: &mut [u64],
    saved_stack: &mut [u64],
    saved_frames: &mut [u64],
    ready: &mut [u64],
    finalize: &mut [u64],
    setup: &[u64],
    machine: &mut [u64],
    fuel: &mut [u64],
    answers: &mut [u64],
    i: usize,
    n: u64,
    a: u64,
    b: u64,
    c: u64,
    d: u64,
    e: u64,
)
    requires { PutFits (host (nine stack.old frames.old chain.old slots.old saved_stack.old saved_frames.old ready.old finalize.old setup.now plain) machine.old fuel.old) answers.old i }
    ensures { One (host (nine (of_mut stack) (of_mut frames) (of_mut chain) (of_mut slots) (of_mut saved_stack) (of_mut saved_frames) (of_mut ready) (of_mut finalize) (of_ref setup) at_entry) (at_entry (of_mut machine)) (at_entry (of_mut fuel)))
        (op_of (six n a b c d e)) answers.old i
        (host (nine (of_mut stack) (of_mut frames) (of_mut chain) (of_mut slots) (of_mut saved_stack) (of_mut saved_frames) (of_mut ready) (of_mut finalize) (of_ref setup) at_exit) (at_exit (of_mut machine)) (at_exit (of_mut fuel))) answers.new }
{
    let call = [n, a, b, c, d, e];
    let at = i * ANSWER_WIDTH;
    let end = at + ANSWER_WIDTH;
    bvm_call_unchecked(
        stack,
        frames,
        chain,
        slots,
        saved_stack,
        saved_frames,
        ready,
        finalize,
        setup,
        machine,
        fuel,
        &call,
        &mut answers[at..end],
    );
}

// Resume: a register that lies in the top frame has 16 bits.
fn resume_call(
    stack: &mut [u64],
    frames: &mut [u64],
    chain: &mut [u64],
    slots: &mut [u64],
    saved_stack: &mut [u64],
    saved_frames: &mut [u64],
    ready: &mut [u64],
    finalize: &mut [u64],
    setup: &[u64],
    machine: &mut [u64],
    fuel: &mut [u64],
    answers: &mut [u64],
    i: usize,
    pc: u64,
    dst: u64,
    c: u64,
    src: u64,
)
    requires { SwitchPutFits (host (nine stack.old frames.old chain.old slots.old saved_stack.old saved_frames.old ready.old finalize.old setup.now plain) machine.old fuel.old) answers.old i pc }
    ensures { One (host (nine (of_mut stack) (of_mut frames) (of_mut chain) (of_mut slots) (of_mut saved_stack) (of_mut saved_frames) (of_mut ready) (of_mut finalize) (of_ref setup) at_entry) (at_entry (of_mut machine)) (at_entry (of_mut fuel)))
        (op_of (six 6 pc dst c src 0)) answers.old i
        (host (nine (of_mut stack) (of_mut frames) (of_mut chain) (of_mut slots) (of_mut saved_stack) (of_mut saved_frames) (of_mut ready) (of_mut finalize) (of_ref setup) at_exit) (at_exit (of_mut machine)) (at_exit (of_mut fuel))) answers.new }
{
    match may_enter(stack, frames, slots, machine, fuel[FUEL], dst, c, src) {
        Some((k, v)) => {
            resume_at(
                stack,
                frames,
                chain,
                slots,
                saved_stack,
                saved_frames,
                machine,
                fuel,
                pc,
                dst,
                c,
                src,
                v,
                k,
            );
            goes_on_at(answers, i);
        }
        None => general_at(
            stack,
            frames,
            chain,
            slots,
            saved_stack,
            saved_frames,
            ready,
            finalize,
            setup,
            machine,
            fuel,
            answers,
            i,
            RESUME,
            pc,
            dst,
            c,
            src,
            0,
        ),
    }
}

// Yield.
fn yield_call(
    stack: &mut [u64],
    frames: &mut [u64],
    chain: &mut [u64],
    slots: &mut [u64],
    saved_stack: &mut [u64],
    saved_frames: &mut [u64],
    ready: &mut [u64],
    finalize: &mut [u64],
    setup: &[u64],
    machine: &mut [u64],
    fuel: &mut [u64],
    answers: &mut [u64],
    i: usize,
    pc: u64,
    dst: u64,
    src: u64,
)
    requires { SwitchPutFits (host (nine stack.old frames.old chain.old slots.old saved_stack.old saved_frames.old ready.old finalize.old setup.now plain) machine.old fuel.old) answers.old i pc }
    ensures { One (host (nine (of_mut stack) (of_mut frames) (of_mut chain) (of_mut slots) (of_mut saved_stack) (of_mut saved_frames) (of_mut ready) (of_mut finalize) (of_ref setup) at_entry) (at_entry (of_mut machine)) (at_entry (of_mut fuel)))
        (op_of (six 3 pc dst src 0 0)) answers.old i
        (host (nine (of_mut stack) (of_mut frames) (of_mut chain) (of_mut slots) (of_mut saved_stack) (of_mut saved_frames) (of_mut ready) (of_mut finalize) (of_ref setup) at_exit) (at_exit (of_mut machine)) (at_exit (of_mut fuel))) answers.new }
{
    match may_leave(frames, chain, slots, machine, fuel[FUEL], dst, src) {
        Some(s) => {
            yield_at(
                stack,
                frames,
                chain,
                slots,
                saved_stack,
                saved_frames,
                machine,
                fuel,
                pc,
                dst,
                src,
                s.slot,
                s.to,
                s.key,
                s.largest,
            );
            goes_on_at(answers, i);
        }
        None => general_at(
            stack,
            frames,
            chain,
            slots,
            saved_stack,
            saved_frames,
            ready,
            finalize,
            setup,
            machine,
            fuel,
            answers,
            i,
            YIELD,
            pc,
            dst,
            src,
            0,
            0,
        ),
    }
}

// Which route a call takes.
#[derive(Clone, Copy)]
enum Route {
    Resume,
    Yield,
    General,
}

// A pc of 32 bits, and 0 after the operands: what a switch does not test. A register outside the top frame goes the general way.
fn route_of(n: u64, a: u64, d: u64, e: u64) -> Route
    ensures { Goes n a d e result }
{
    if MOST32 < a {
        return Route::General;
    }
    if e != 0 {
        return Route::General;
    }
    if n == RESUME {
        return Route::Resume;
    }
    if n != YIELD {
        return Route::General;
    }
    if d != 0 {
        return Route::General;
    }
    Route::Yield
}

// The call at place i. A last part of fewer than six words is none.
pub(crate) fn one(
    stack: &mut [u64],
    frames: &mut [u64],
    chain: &mut [u64],
    slots: &mut [u64],
    saved_stack: &mut [u64],
    saved_frames: &mut [u64],
    ready: &mut [u64],
    finalize: &mut [u64],
    setup: &[u64],
    machine: &mut [u64],
    fuel: &mut [u64],
    calls: &[u64],
    answers: &mut [u64],
    i: usize,
)
    requires { OneFits (host (nine stack.old frames.old chain.old slots.old saved_stack.old saved_frames.old ready.old finalize.old setup.now plain) machine.old fuel.old) calls.now answers.old i }
    ensures { One (host (nine (of_mut stack) (of_mut frames) (of_mut chain) (of_mut slots) (of_mut saved_stack) (of_mut saved_frames) (of_mut ready) (of_mut finalize) (of_ref setup) at_entry) (at_entry (of_mut machine)) (at_entry (of_mut fuel)))
        (read_in calls.now i) answers.old i
        (host (nine (of_mut stack) (of_mut frames) (of_mut chain) (of_mut slots) (of_mut saved_stack) (of_mut saved_frames) (of_mut ready) (of_mut finalize) (of_ref setup) at_exit) (at_exit (of_mut machine)) (at_exit (of_mut fuel))) answers.new }
{
    if calls.len() - i * CALL_WIDTH < CALL_WIDTH {
        put_at(answers, i, Answer::Refused(Fault::BadOperand));
        return;
    }
    let n = word(calls, i, 0);
    let a = word(calls, i, 1);
    let b = word(calls, i, 2);
    let c = word(calls, i, 3);
    let d = word(calls, i, 4);
    let e = word(calls, i, 5);
    match route_of(n, a, d, e) {
        Route::Resume => resume_call(
            stack,
            frames,
            chain,
            slots,
            saved_stack,
            saved_frames,
            ready,
            finalize,
            setup,
            machine,
            fuel,
            answers,
            i,
            a,
            b,
            c,
            d,
        ),
        Route::Yield => yield_call(
            stack,
            frames,
            chain,
            slots,
            saved_stack,
            saved_frames,
            ready,
            finalize,
            setup,
            machine,
            fuel,
            answers,
            i,
            a,
            b,
            c,
        ),
        Route::General => general_at(
            stack,
            frames,
            chain,
            slots,
            saved_stack,
            saved_frames,
            ready,
            finalize,
            setup,
            machine,
            fuel,
            answers,
            i,
            n,
            a,
            b,
            c,
            d,
            e,
        ),
    }
}
