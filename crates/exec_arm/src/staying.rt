// coro.rs: exec, the arms after which the same coroutine runs: those that make a coroutine, and those that ask of one.
ghost use Rattle.exec_arm.specs.Arm.{Past, OfInstruction, Suspending, Entering};
ghost use Rattle.memory_world.specs.Lendings.{six_setup, plain};
ghost use Rattle.memory_world.specs.Contract.{Met, if_sound, with, of_mut, of_ref};

use exec_ask::ask::{coro_current, coro_key, coro_result, coro_status};
use exec_make::indirect::coro_new_indirect;
use exec_make::new::coro_new;
use exec_make::spawn::spawn;
use machine_state::called::Called;
use memory_world::machine::{Machine, Sizes};
use model::call::Op;
use model::exec::Step;
use model::machine::Fuel;

pub(crate) fn staying(
    stack: &mut [u64],
    frames: &mut [u64],
    chain: &mut [u64],
    slots: &mut [u64],
    saved_stack: &mut [u64],
    saved_frames: &mut [u64],
    setup: &[u64],
    m: Machine,
    sizes: Sizes,
    fuel: Fuel,
    op: Op,
) -> Called<Step>
    requires { Past sizes (six_setup stack.old frames.old chain.old slots.old saved_stack.old saved_frames.old setup.now plain) m fuel op }
    ensures { (Suspending op → ⊥) → (Entering op → ⊥) → OfInstruction op (λ pc operands arm. Met if_sound sizes arm (six_setup (of_mut stack) (of_mut frames) (of_mut chain) (of_mut slots) (of_mut saved_stack) (of_mut saved_frames) (of_ref setup)) (with m fuel) (with result.machine result.fuel) result.answer) }
{
    match op {
        Op::CoroNew {
            pc: _,
            dst,
            func,
            argc,
        } => {
            let did = coro_new(
                stack,
                frames,
                slots,
                saved_stack,
                saved_frames,
                setup,
                m,
                sizes,
                dst as u64,
                func as u64,
                argc as u64,
            );
            let machine = did.machine;
            let step = did.answer;
            Called {
                machine,
                fuel,
                answer: step,
            }
        }
        Op::CoroNewIndirect {
            pc: _,
            dst,
            callee,
            argc,
        } => {
            let did = coro_new_indirect(
                stack,
                frames,
                slots,
                saved_stack,
                saved_frames,
                setup,
                m,
                sizes,
                dst as u64,
                callee as u64,
                argc as u64,
            );
            let machine = did.machine;
            let step = did.answer;
            Called {
                machine,
                fuel,
                answer: step,
            }
        }
        Op::Spawn {
            pc,
            dst,
            callee,
            argc,
        } => spawn(
            stack,
            frames,
            slots,
            saved_stack,
            saved_frames,
            setup,
            m,
            sizes,
            fuel,
            pc as u64,
            dst as u64,
            callee as u64,
            argc as u64,
        ),
        Op::CoroStatus { pc: _, dst, coro } => {
            let step = coro_status(stack, frames, slots, m, dst as u64, coro as u64);
            Called {
                machine: m,
                fuel,
                answer: step,
            }
        }
        Op::CoroCurrent { pc: _, dst } => {
            let step = coro_current(stack, frames, chain, m, dst as u64);
            Called {
                machine: m,
                fuel,
                answer: step,
            }
        }
        Op::CoroKey { pc: _, dst, coro } => {
            let step = coro_key(stack, frames, slots, m, dst as u64, coro as u64);
            Called {
                machine: m,
                fuel,
                answer: step,
            }
        }
        Op::CoroResult { pc: _, dst, coro } => {
            let step = coro_result(stack, frames, slots, m, dst as u64, coro as u64);
            Called {
                machine: m,
                fuel,
                answer: step,
            }
        }
        _ => Called {
            machine: m,
            fuel,
            answer: Step::Next,
        },
    }
}
