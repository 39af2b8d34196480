// coro.rs: exec, CoroNew. Its operands have been tested.
ghost use Rattle.model.specs.Coro.{coro_create};
ghost use Rattle.model.specs.Exec.{put_made, window, coro_new};
ghost use Rattle.memory_tables.specs.Does.{RegFits};
ghost use Rattle.exec_make.specs.New.{NewFits};
ghost use Rattle.memory_world.specs.Lendings.{top, top_making};
ghost use Rattle.memory_world.specs.Contract.{Met, any, every, if_sound, only, of_mut, of_ref};

use coro_create::create::coro_create;
use heap::fault::Fault;
use heap::value::Word;
use machine_state::called::Did;
use memory_world::machine::{Machine, Sizes};
use model::exec::Step;

// A coroutine of function f and a closure, with the argc words after register dst, which are set aside.
pub(crate) fn create(
    stack: &[u64],
    frames: &[u64],
    slots: &mut [u64],
    saved_stack: &mut [u64],
    saved_frames: &mut [u64],
    setup: &[u64],
    m: Machine,
    sizes: Sizes,
    dst: u64,
    f: u64,
    closure: u64,
    argc: u64,
) -> Did<Result<u64, Fault>>
    requires { NewFits sizes stack.now frames.now slots.old saved_stack.old saved_frames.old setup.now m dst f argc }
    ensures { Met if_sound sizes (λ w. coro_create f closure (window dst argc w) w) (top_making (of_ref stack) (of_ref frames) (of_mut slots) (of_mut saved_stack) (of_mut saved_frames) (of_ref setup)) (only m) (only result.machine) result.answer }
{
    let base = memory_tables::frame::base_at(frames, m.depth - 1);
    let at = base + (dst as usize) + 1;
    let n = argc as usize;
    let args = memory_tables::runs::set_aside(stack, at, n);
    coro_create(
        slots,
        saved_stack,
        saved_frames,
        setup,
        m,
        sizes,
        f,
        closure,
        args,
        n,
    )
}

// r!(dst) = t!(made); Step::Next
pub(crate) fn put_made(
    stack: &mut [u64],
    frames: &[u64],
    m: Machine,
    dst: u64,
    a: Result<u64, Fault>,
) -> Step
    requires { RegFits stack.old frames.now m.height m.depth dst }
    ensures { every (λ sizes. Met any sizes (λ w. put_made dst w a) (top (of_mut stack) (of_ref frames)) (only m) (only m) result) }
{
    match a {
        Ok(v) => {
            machine_state::frame::put(stack, frames, m, dst, v);
            Step::Next
        }
        Err(f) => Step::Fault(f),
    }
}

// coro.rs: exec, CoroNew: a coroutine of function f, with the argc words after register dst.
pub fn coro_new(
    stack: &mut [u64],
    frames: &[u64],
    slots: &mut [u64],
    saved_stack: &mut [u64],
    saved_frames: &mut [u64],
    setup: &[u64],
    m: Machine,
    sizes: Sizes,
    dst: u64,
    f: u64,
    argc: u64,
) -> Did<Step>
    requires { NewFits sizes stack.old frames.now slots.old saved_stack.old saved_frames.old setup.now m dst f argc }
    ensures { Met if_sound sizes (coro_new dst f argc) (top_making (of_mut stack) (of_ref frames) (of_mut slots) (of_mut saved_stack) (of_mut saved_frames) (of_ref setup)) (only m) (only result.machine) result.answer }
{
    let did = create(
        stack,
        frames,
        slots,
        saved_stack,
        saved_frames,
        setup,
        m,
        sizes,
        dst,
        f,
        Word::NIL,
        argc,
    );
    let next = did.machine;
    let answer = did.answer;
    let step = put_made(stack, frames, next, dst, answer);
    Did {
        machine: next,
        answer: step,
    }
}
