// coro.rs: exec, the arms that enter a coroutine.
ghost use Rattle.exec_arm.specs.Arm.{Past, OfInstruction, Suspending};
ghost use Rattle.memory_world.specs.Lendings.{six_setup, plain};
ghost use Rattle.memory_world.specs.Contract.{Met, if_sound, with, of_mut, of_ref};

use crate::staying::staying;
use exec_close::close::coro_close;
use exec_enter::resume::resume;
use exec_enter::throw::resume_throw;
use exec_iter::iter::iter_next;
use machine_state::called::Called;
use memory_world::machine::{Machine, Sizes};
use model::call::Op;
use model::exec::Step;
use model::machine::Fuel;

pub(crate) fn entering(
    stack: &mut [u64],
    frames: &mut [u64],
    chain: &mut [u64],
    slots: &mut [u64],
    saved_stack: &mut [u64],
    saved_frames: &mut [u64],
    setup: &[u64],
    m: Machine,
    sizes: Sizes,
    fuel: Fuel,
    op: Op,
) -> Called<Step>
    requires { Past sizes (six_setup stack.old frames.old chain.old slots.old saved_stack.old saved_frames.old setup.now plain) m fuel op }
    ensures { (Suspending op → ⊥) → OfInstruction op (λ pc operands arm. Met if_sound sizes arm (six_setup (of_mut stack) (of_mut frames) (of_mut chain) (of_mut slots) (of_mut saved_stack) (of_mut saved_frames) (of_ref setup)) (with m fuel) (with result.machine result.fuel) result.answer) }
{
    match op {
        Op::Resume { pc, dst, coro, src } => {
            let did = resume(
                stack,
                frames,
                chain,
                slots,
                saved_stack,
                saved_frames,
                m,
                sizes,
                pc as u64,
                dst as u64,
                coro as u64,
                src as u64,
            );
            let machine = did.machine;
            let step = did.answer;
            Called {
                machine,
                fuel,
                answer: step,
            }
        }
        Op::ResumeThrow { pc, dst, coro, src } => {
            let did = resume_throw(
                stack,
                frames,
                chain,
                slots,
                saved_stack,
                saved_frames,
                m,
                sizes,
                pc as u64,
                dst as u64,
                coro as u64,
                src as u64,
            );
            let machine = did.machine;
            let step = did.answer;
            Called {
                machine,
                fuel,
                answer: step,
            }
        }
        Op::CoroClose { pc, dst, coro, src } => {
            let did = coro_close(
                stack,
                frames,
                chain,
                slots,
                saved_stack,
                saved_frames,
                m,
                sizes,
                pc as u64,
                dst as u64,
                coro as u64,
                src as u64,
            );
            let machine = did.machine;
            let step = did.answer;
            Called {
                machine,
                fuel,
                answer: step,
            }
        }
        Op::IterNext {
            pc,
            has,
            iter,
            val,
            src,
        } => {
            let did = iter_next(
                stack,
                frames,
                chain,
                slots,
                saved_stack,
                saved_frames,
                m,
                sizes,
                pc as u64,
                has as u64,
                iter as u64,
                val as u64,
                src as u64,
            );
            let machine = did.machine;
            let step = did.answer;
            Called {
                machine,
                fuel,
                answer: step,
            }
        }
        _ => staying(
            stack,
            frames,
            chain,
            slots,
            saved_stack,
            saved_frames,
            setup,
            m,
            sizes,
            fuel,
            op,
        ),
    }
}
