// coro.rs: indirect; exec, CoroNewIndirect. Its operands have been tested.
ghost use Rattle.model.specs.Exec.{indirect, coro_new_indirect};
ghost use Rattle.exec_make.specs.Indirect.{called, table_setup, CalledFits, IndirectFits};
ghost use Rattle.memory_world.specs.Lendings.{top_making};
ghost use Rattle.memory_world.specs.Contract.{Met, Reads, every, if_sound, only, of_mut, of_ref};

use crate::new::{create, put_made};
use heap::fault::Fault;
use heap::kind::callee;
use heap::value::Word;
use machine_state::called::Did;
use memory_world::machine::{Machine, Sizes};
use model::exec::Step;

// The function that a word calls with argc arguments, or the fault.
pub(crate) fn called(
    slots: &[u64],
    setup: &[u64],
    m: Machine,
    v: Word,
    argc: u64,
) -> Result<u64, Fault>
    requires { CalledFits slots.now setup.now m.count }
    ensures { every (λ sizes. Reads sizes (called v.0 argc) (table_setup (of_ref slots) (of_ref setup)) (only m) result) }
{
    match callee(slots, m.count, v) {
        Err(g) => Err(g),
        Ok(f) => {
            if !memory_tables::program::is_function(setup, f) {
                return Err(Fault::TypeError);
            }
            if memory_tables::program::params_at(setup, f as usize) != argc {
                return Err(Fault::TypeError);
            }
            Ok(f)
        }
    }
}

// coro.rs: indirect, a coroutine of the function that a register holds, with the argc words after register dst.
pub(crate) fn indirect(
    stack: &[u64],
    frames: &[u64],
    slots: &mut [u64],
    saved_stack: &mut [u64],
    saved_frames: &mut [u64],
    setup: &[u64],
    m: Machine,
    sizes: Sizes,
    dst: u64,
    callee: u64,
    argc: u64,
) -> Did<Result<u64, Fault>>
    requires { IndirectFits sizes stack.now frames.now slots.old saved_stack.old saved_frames.old setup.now m dst callee argc }
    ensures { Met if_sound sizes (indirect dst callee argc) (top_making (of_ref stack) (of_ref frames) (of_mut slots) (of_mut saved_stack) (of_mut saved_frames) (of_ref setup)) (only m) (only result.machine) result.answer }
{
    let v = memory_tables::stack::reg(stack, frames, m.height, m.depth, callee as usize);
    match called(slots, setup, m, Word(v), argc) {
        Err(g) => Did {
            machine: m,
            answer: Err(g),
        },
        Ok(f) => create(
            stack,
            frames,
            slots,
            saved_stack,
            saved_frames,
            setup,
            m,
            sizes,
            dst,
            f,
            v,
            argc,
        ),
    }
}

// coro.rs: exec, CoroNewIndirect.
pub fn coro_new_indirect(
    stack: &mut [u64],
    frames: &[u64],
    slots: &mut [u64],
    saved_stack: &mut [u64],
    saved_frames: &mut [u64],
    setup: &[u64],
    m: Machine,
    sizes: Sizes,
    dst: u64,
    callee: u64,
    argc: u64,
) -> Did<Step>
    requires { IndirectFits sizes stack.old frames.now slots.old saved_stack.old saved_frames.old setup.now m dst callee argc }
    ensures { Met if_sound sizes (coro_new_indirect dst callee argc) (top_making (of_mut stack) (of_ref frames) (of_mut slots) (of_mut saved_stack) (of_mut saved_frames) (of_ref setup)) (only m) (only result.machine) result.answer }
{
    let did = indirect(
        stack,
        frames,
        slots,
        saved_stack,
        saved_frames,
        setup,
        m,
        sizes,
        dst,
        callee,
        argc,
    );
    let next = did.machine;
    let answer = did.answer;
    let step = put_made(stack, frames, next, dst, answer);
    Did {
        machine: next,
        answer: step,
    }
}
