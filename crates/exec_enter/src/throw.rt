// coro.rs: exec, ResumeThrow. Its operands have been tested.
ghost use Rattle.std.specs.Prelude.{◌≡◌};
ghost use Rattle.model.specs.Exec.{throw_to, resume_throw};
ghost use Rattle.coro_enter.specs.Entry.{EntryFits};
ghost use Rattle.exec_enter.specs.Resume.{ResumeFits};
ghost use Rattle.exec_enter.specs.Throw.{raised};
ghost use Rattle.memory_world.specs.Lendings.{six};
ghost use Rattle.memory_world.specs.Contract.{Met, if_sound, only, of_mut};

use coro_end::finish::finish_coroutine;
use coro_enter::arrival::store_enter;
use heap::fault::Fault;
use heap::object::CoroState;
use heap::value::Word;
use machine_state::called::Did;
use machine_state::coro::coro_state;
use memory_world::machine::{Machine, Sizes};
use model::coro::Entered;
use model::exec::Step;
use model::machine::Driver;

// A word raised where the entered coroutine was suspended.
pub fn raised(a: Result<Entered, Fault>, v: u64) -> Step
    ensures { result ≡ raised v a }
{
    match a {
        Ok(_) => Step::Unwind(Fault::Throw(v)),
        Err(f) => Step::Fault(f),
    }
}

// A word thrown into a coroutine in state s: a Created one fails, another is entered, and the word raised there.
pub(crate) fn throw_to(
    stack: &mut [u64],
    frames: &mut [u64],
    chain: &mut [u64],
    slots: &mut [u64],
    saved_stack: &mut [u64],
    saved_frames: &mut [u64],
    m: Machine,
    sizes: Sizes,
    s: CoroState,
    pc: u64,
    dst: u64,
    v: u64,
    err: u64,
) -> Did<Step>
    requires { EntryFits sizes stack.old frames.old chain.old slots.old saved_stack.old saved_frames.old m pc }
    ensures { Met if_sound sizes (throw_to (Ok s) pc dst v err) (six (of_mut stack) (of_mut frames) (of_mut chain) (of_mut slots) (of_mut saved_stack) (of_mut saved_frames)) (only m) (only result.machine) result.answer }
{
    if s.is_created() {
        finish_coroutine(
            slots,
            saved_stack,
            saved_frames,
            m,
            sizes,
            Word(v),
            CoroState::Failed,
            err,
        );
        return Did {
            machine: m,
            answer: Step::Fault(Fault::Throw(err)),
        };
    }
    let did = store_enter(
        stack,
        frames,
        chain,
        slots,
        saved_stack,
        saved_frames,
        m,
        sizes,
        pc,
        v,
        Driver::Resume(dst),
    );
    let n = did.machine;
    let a = did.answer;
    let step = raised(a, err);
    Did {
        machine: n,
        answer: step,
    }
}

// coro.rs: exec, ResumeThrow.
pub fn resume_throw(
    stack: &mut [u64],
    frames: &mut [u64],
    chain: &mut [u64],
    slots: &mut [u64],
    saved_stack: &mut [u64],
    saved_frames: &mut [u64],
    m: Machine,
    sizes: Sizes,
    pc: u64,
    dst: u64,
    c: u64,
    src: u64,
) -> Did<Step>
    requires { ResumeFits sizes stack.old frames.old chain.old slots.old saved_stack.old saved_frames.old m pc c src }
    ensures { Met if_sound sizes (resume_throw pc dst c src) (six (of_mut stack) (of_mut frames) (of_mut chain) (of_mut slots) (of_mut saved_stack) (of_mut saved_frames)) (only m) (only result.machine) result.answer }
{
    let v = memory_tables::stack::reg(stack, frames, m.height, m.depth, c as usize);
    let err = memory_tables::stack::reg(stack, frames, m.height, m.depth, src as usize);
    match coro_state(slots, m, Word(v)) {
        Err(f) => Did {
            machine: m,
            answer: Step::Fault(f),
        },
        Ok(s) => throw_to(
            stack,
            frames,
            chain,
            slots,
            saved_stack,
            saved_frames,
            m,
            sizes,
            s,
            pc,
            dst,
            v,
            err,
        ),
    }
}
