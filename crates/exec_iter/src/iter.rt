// coro.rs: iter_next. Its operands have been tested.
ghost use Rattle.heap.specs.Heap.{TableFits};
ghost use Rattle.model.specs.Exec.{iter_on, iter_next};
ghost use Rattle.coro_enter.specs.Entry.{AnswerFits};
ghost use Rattle.exec_iter.specs.Iter.{exhausted, stopped, StopFits, NextFits};
ghost use Rattle.memory_world.specs.Lendings.{six, table, top_table};
ghost use Rattle.memory_world.specs.Contract.{Leaves, Met, Reads, any, every, if_sound, only, of_mut, of_ref};

use coro_end::iter::set_done;
use coro_enter::arrival::enter_send;
use heap::fault::Fault;
use heap::object::CoroState;
use heap::value::Word;
use machine_state::called::Did;
use machine_state::coro::coro_state;
use machine_state::frame::put;
use memory_world::machine::{Machine, Sizes};
use model::exec::Step;
use model::machine::Driver;

// Whether the loop is at its end: the iterator is done, or its source, in state s, has returned.
fn exhausted(slots: &[u64], m: Machine, iter: u64, s: CoroState) -> bool
    requires { TableFits slots.now m.count }
    ensures { every (λ sizes. Reads sizes (exhausted iter s) (table (of_ref slots)) (only m) result) }
{
    if heap::kind::is_done(slots, m.count, Word(iter)) {
        return true;
    }
    s.is_returned()
}

// The loop is told so, and its iterator is done.
pub(crate) fn stop(
    stack: &mut [u64],
    frames: &[u64],
    slots: &mut [u64],
    m: Machine,
    has: u64,
    iter: u64,
)
    requires { StopFits stack.old frames.now slots.old m has }
    ensures { every (λ sizes. Leaves any sizes (stopped has iter) (top_table (of_mut stack) (of_ref frames) (of_mut slots)) (only m) (only m)) }
{
    set_done(slots, m, Word(iter));
    put(stack, frames, m, has, 0);
}

// The next word of a source in state s.
pub(crate) fn iter_on(
    stack: &mut [u64],
    frames: &mut [u64],
    chain: &mut [u64],
    slots: &mut [u64],
    saved_stack: &mut [u64],
    saved_frames: &mut [u64],
    m: Machine,
    sizes: Sizes,
    s: CoroState,
    pc: u64,
    has: u64,
    iter: u64,
    val: u64,
    src: u64,
) -> Did<Step>
    requires { AnswerFits sizes stack.old frames.old chain.old slots.old saved_stack.old saved_frames.old m pc has }
    ensures { Met if_sound sizes (iter_on (Ok s) pc has iter val src) (six (of_mut stack) (of_mut frames) (of_mut chain) (of_mut slots) (of_mut saved_stack) (of_mut saved_frames)) (only m) (only result.machine) result.answer }
{
    if exhausted(slots, m, iter, s) {
        stop(stack, frames, slots, m, has, iter);
        return Did {
            machine: m,
            answer: Step::Next,
        };
    }
    if s.is_awaiting() {
        return Did {
            machine: m,
            answer: Step::Fault(Fault::TypeError),
        };
    }
    enter_send(
        stack,
        frames,
        chain,
        slots,
        saved_stack,
        saved_frames,
        m,
        sizes,
        pc,
        src,
        Driver::Iter { has, val, iter },
        Word::NIL,
    )
}

// coro.rs: iter_next, with the words found in `iter` and `src`.
pub fn iter_next(
    stack: &mut [u64],
    frames: &mut [u64],
    chain: &mut [u64],
    slots: &mut [u64],
    saved_stack: &mut [u64],
    saved_frames: &mut [u64],
    m: Machine,
    sizes: Sizes,
    pc: u64,
    has: u64,
    iter: u64,
    val: u64,
    src: u64,
) -> Did<Step>
    requires { NextFits sizes stack.old frames.old chain.old slots.old saved_stack.old saved_frames.old m pc has iter src }
    ensures { Met if_sound sizes (iter_next pc has iter val src) (six (of_mut stack) (of_mut frames) (of_mut chain) (of_mut slots) (of_mut saved_stack) (of_mut saved_frames)) (only m) (only result.machine) result.answer }
{
    let it = memory_tables::stack::reg(stack, frames, m.height, m.depth, iter as usize);
    let v = memory_tables::stack::reg(stack, frames, m.height, m.depth, src as usize);
    match coro_state(slots, m, Word(v)) {
        Err(f) => Did {
            machine: m,
            answer: Step::Fault(f),
        },
        Ok(s) => iter_on(
            stack,
            frames,
            chain,
            slots,
            saved_stack,
            saved_frames,
            m,
            sizes,
            s,
            pc,
            has,
            it,
            val,
            v,
        ),
    }
}
