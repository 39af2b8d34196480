// coro.rs: exec, Spawn. Its operands have been tested, and its first unit is paid.
ghost use Rattle.model.specs.Exec.{spawn};
ghost use Rattle.exec_make.specs.Spawn.{hook_frame, hook_paid, HookFits, SpawnFits};
ghost use Rattle.memory_world.specs.Lendings.{top_making, top_setup};
ghost use Rattle.memory_world.specs.Contract.{Met, if_sound, only, with, of_mut, of_ref};

use crate::indirect::indirect;
use coro_clean::charge::charge_plain;
use heap::fault::Fault;
use heap::value::Word;
use machine_state::called::{Called, Did};
use memory_world::machine::{Machine, Sizes};
use model::exec::Step;
use model::machine::{Charge, Cont, Fuel};

// The hook's frame, with the coroutine c in its first register.
pub(crate) fn push_hook(
    stack: &mut [u64],
    frames: &mut [u64],
    setup: &[u64],
    m: Machine,
    sizes: Sizes,
    hook: u64,
    pc: u64,
    dst: u64,
    c: u64,
) -> Did<Step>
    requires { HookFits sizes stack.old frames.old setup.now m pc hook }
    ensures { Met if_sound sizes (hook_frame hook pc dst c) (top_setup (of_mut stack) (of_mut frames) (of_ref setup)) (only m) (only result.machine) result.answer }
{
    let did = machine_state::frame::push_at(
        stack,
        frames,
        setup,
        m,
        sizes,
        pc,
        hook,
        Word::NIL,
        Cont::Value(dst),
    );
    let next = did.machine;
    let answer = did.answer;
    match answer {
        Err(g) => Did {
            machine: next,
            answer: Step::Fault(g),
        },
        Ok(_base) => {
            machine_state::frame::put(stack, frames, next, 0, c);
            Did {
                machine: next,
                answer: Step::Frame,
            }
        }
    }
}

// The hook's call is charged, without a pc, and its frame pushed.
pub(crate) fn call_hook(
    stack: &mut [u64],
    frames: &mut [u64],
    setup: &[u64],
    m: Machine,
    sizes: Sizes,
    fuel: Fuel,
    hook: u64,
    pc: u64,
    dst: u64,
    c: u64,
) -> Called<Step>
    requires { HookFits sizes stack.old frames.old setup.now m pc hook }
    ensures { Met if_sound sizes (hook_paid hook pc dst c) (top_setup (of_mut stack) (of_mut frames) (of_ref setup)) (with m fuel) (with result.machine result.fuel) result.answer }
{
    let paid = charge_plain(fuel);
    let left = paid.fuel;
    let answer = paid.answer;
    if let Charge::Spent = answer {
        return Called {
            machine: m,
            fuel: left,
            answer: Step::Fault(Fault::OutOfFuel),
        };
    }
    let did = push_hook(stack, frames, setup, m, sizes, hook, pc, dst, c);
    let next = did.machine;
    let step = did.answer;
    Called {
        machine: next,
        fuel: left,
        answer: step,
    }
}

// coro.rs: exec, Spawn: a coroutine as CoroNewIndirect makes it, handed to the hook.
pub fn spawn(
    stack: &mut [u64],
    frames: &mut [u64],
    slots: &mut [u64],
    saved_stack: &mut [u64],
    saved_frames: &mut [u64],
    setup: &[u64],
    m: Machine,
    sizes: Sizes,
    fuel: Fuel,
    pc: u64,
    dst: u64,
    callee: u64,
    argc: u64,
) -> Called<Step>
    requires { SpawnFits sizes stack.old frames.old slots.old saved_stack.old saved_frames.old setup.now m pc dst callee argc }
    ensures { Met if_sound sizes (spawn pc dst callee argc) (top_making (of_mut stack) (of_mut frames) (of_mut slots) (of_mut saved_stack) (of_mut saved_frames) (of_ref setup)) (with m fuel) (with result.machine result.fuel) result.answer }
{
    let Some(hook) = memory_tables::program::hook(setup) else {
        return Called {
            machine: m,
            fuel,
            answer: Step::Fault(Fault::NoScheduler),
        };
    };
    let did = indirect(
        stack,
        frames,
        slots,
        saved_stack,
        saved_frames,
        setup,
        m,
        sizes,
        dst,
        callee,
        argc,
    );
    let next = did.machine;
    let answer = did.answer;
    match answer {
        Err(g) => Called {
            machine: next,
            fuel,
            answer: Step::Fault(g),
        },
        Ok(c) => call_hook(stack, frames, setup, next, sizes, fuel, hook, pc, dst, c),
    }
}
