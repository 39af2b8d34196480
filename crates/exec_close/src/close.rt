// coro.rs: exec, CoroClose. Its operands have been tested.
ghost use Rattle.heap.specs.Heap.{TableFits};
ghost use Rattle.model.specs.Exec.{close_entered, close_in, close_to, coro_close};
ghost use Rattle.heap.specs.declared.object.CoroState.TheVariants.{Returned};
ghost use Rattle.coro_end.specs.Finish.{FinishFits};
ghost use Rattle.coro_enter.specs.Entry.{EntryFits, AnswerFits};
ghost use Rattle.exec_close.specs.Close.{end_created, CloseFits};
ghost use Rattle.memory_world.specs.Lendings.{rows, six, table, plain};
ghost use Rattle.memory_world.specs.Contract.{Leaves, Met, any, every, if_rowed, if_sound, only, of_mut};

use coro_end::finish::finish_coroutine;
use coro_enter::arrival::store_enter;
use coro_enter::close::set_closing;
use heap::fault::Fault;
use heap::object::CoroState;
use heap::value::Word;
use machine_state::called::Did;
use machine_state::coro::coro_state;
use machine_state::frame::put;
use memory_world::machine::{Machine, Sizes};
use model::coro::Entered;
use model::exec::Step;
use model::machine::Driver;

// What an entry to close leads to: the coroutine closes, and its signal is raised where it was suspended.
pub(crate) fn close_entered(
    slots: &mut [u64],
    m: Machine,
    v: u64,
    a: Result<Entered, Fault>,
    signal: u64,
) -> Step
    requires { TableFits slots.old m.count }
    ensures { every (λ sizes. Met any sizes (λ w. close_entered v signal w a) (table (of_mut slots)) (only m) (only m) result) }
{
    match a {
        Ok(_) => {
            set_closing(slots, m, Word(v), signal);
            Step::Unwind(Fault::Throw(signal))
        }
        Err(f) => Step::Fault(f),
    }
}

// A suspended coroutine is entered to close.
pub(crate) fn close_in(
    stack: &mut [u64],
    frames: &mut [u64],
    chain: &mut [u64],
    slots: &mut [u64],
    saved_stack: &mut [u64],
    saved_frames: &mut [u64],
    m: Machine,
    sizes: Sizes,
    pc: u64,
    dst: u64,
    v: u64,
    signal: u64,
) -> Did<Step>
    requires { EntryFits sizes stack.old frames.old chain.old slots.old saved_stack.old saved_frames.old m pc }
    ensures { Met if_sound sizes (close_in pc dst v signal) (six (of_mut stack) (of_mut frames) (of_mut chain) (of_mut slots) (of_mut saved_stack) (of_mut saved_frames)) (only m) (only result.machine) result.answer }
{
    let did = store_enter(
        stack,
        frames,
        chain,
        slots,
        saved_stack,
        saved_frames,
        m,
        sizes,
        pc,
        v,
        Driver::Resume(dst),
    );
    let n = did.machine;
    let a = did.answer;
    let step = close_entered(slots, n, v, a, signal);
    Did {
        machine: n,
        answer: step,
    }
}

// A coroutine that was never entered returns nil.
pub(crate) fn end_created(
    slots: &mut [u64],
    saved_stack: &mut [u64],
    saved_frames: &mut [u64],
    m: Machine,
    sizes: Sizes,
    s: CoroState,
    v: u64,
)
    requires { FinishFits sizes (rows slots.old saved_stack.old saved_frames.old plain) m Returned }
    ensures { Leaves if_rowed sizes (end_created s v) (rows (of_mut slots) (of_mut saved_stack) (of_mut saved_frames)) (only m) (only m) }
{
    if s.is_created() {
        finish_coroutine(
            slots,
            saved_stack,
            saved_frames,
            m,
            sizes,
            Word(v),
            CoroState::Returned,
            Word::NIL,
        );
    }
}

// A coroutine in state s is closed.
pub(crate) fn close_to(
    stack: &mut [u64],
    frames: &mut [u64],
    chain: &mut [u64],
    slots: &mut [u64],
    saved_stack: &mut [u64],
    saved_frames: &mut [u64],
    m: Machine,
    sizes: Sizes,
    s: CoroState,
    pc: u64,
    dst: u64,
    v: u64,
    signal: u64,
) -> Did<Step>
    requires { AnswerFits sizes stack.old frames.old chain.old slots.old saved_stack.old saved_frames.old m pc dst }
    ensures { Met if_sound sizes (close_to (Ok s) pc dst v signal) (six (of_mut stack) (of_mut frames) (of_mut chain) (of_mut slots) (of_mut saved_stack) (of_mut saved_frames)) (only m) (only result.machine) result.answer }
{
    if s.is_suspended() {
        return close_in(
            stack,
            frames,
            chain,
            slots,
            saved_stack,
            saved_frames,
            m,
            sizes,
            pc,
            dst,
            v,
            signal,
        );
    }
    if s.is_running() {
        return Did {
            machine: m,
            answer: Step::Fault(Fault::InvalidCoroState),
        };
    }
    end_created(slots, saved_stack, saved_frames, m, sizes, s, v);
    put(stack, frames, m, dst, Word::NIL);
    Did {
        machine: m,
        answer: Step::Next,
    }
}

// coro.rs: exec, CoroClose.
pub fn coro_close(
    stack: &mut [u64],
    frames: &mut [u64],
    chain: &mut [u64],
    slots: &mut [u64],
    saved_stack: &mut [u64],
    saved_frames: &mut [u64],
    m: Machine,
    sizes: Sizes,
    pc: u64,
    dst: u64,
    c: u64,
    src: u64,
) -> Did<Step>
    requires { CloseFits sizes stack.old frames.old chain.old slots.old saved_stack.old saved_frames.old m pc dst c src }
    ensures { Met if_sound sizes (coro_close pc dst c src) (six (of_mut stack) (of_mut frames) (of_mut chain) (of_mut slots) (of_mut saved_stack) (of_mut saved_frames)) (only m) (only result.machine) result.answer }
{
    let v = memory_tables::stack::reg(stack, frames, m.height, m.depth, c as usize);
    let signal = memory_tables::stack::reg(stack, frames, m.height, m.depth, src as usize);
    match coro_state(slots, m, Word(v)) {
        Err(f) => Did {
            machine: m,
            answer: Step::Fault(f),
        },
        Ok(s) => close_to(
            stack,
            frames,
            chain,
            slots,
            saved_stack,
            saved_frames,
            m,
            sizes,
            s,
            pc,
            dst,
            v,
            signal,
        ),
    }
}
