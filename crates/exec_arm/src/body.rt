// coro.rs: exec, its arms. The operands have been tested, and the charge is taken.
ghost use Rattle.exec_arm.specs.Arm.{Past, OfInstruction};
ghost use Rattle.memory_world.specs.Lendings.{six_setup, plain};
ghost use Rattle.memory_world.specs.Contract.{Met, if_sound, with, of_mut, of_ref};

use crate::entering::entering;
use exec_yield::yielding::{coro_await, coro_yield, yield_kv};
use machine_state::called::Called;
use memory_world::machine::{Machine, Sizes};
use model::call::Op;
use model::exec::Step;
use model::machine::Fuel;

// The arm of an instruction; nothing is said of another call.
pub fn body(
    stack: &mut [u64],
    frames: &mut [u64],
    chain: &mut [u64],
    slots: &mut [u64],
    saved_stack: &mut [u64],
    saved_frames: &mut [u64],
    setup: &[u64],
    m: Machine,
    sizes: Sizes,
    fuel: Fuel,
    op: Op,
) -> Called<Step>
    requires { Past sizes (six_setup stack.old frames.old chain.old slots.old saved_stack.old saved_frames.old setup.now plain) m fuel op }
    ensures { OfInstruction op (λ pc operands arm. Met if_sound sizes arm (six_setup (of_mut stack) (of_mut frames) (of_mut chain) (of_mut slots) (of_mut saved_stack) (of_mut saved_frames) (of_ref setup)) (with m fuel) (with result.machine result.fuel) result.answer) }
{
    match op {
        Op::Yield { pc, dst, src } => coro_yield(
            stack,
            frames,
            chain,
            slots,
            saved_stack,
            saved_frames,
            m,
            sizes,
            fuel,
            pc as u64,
            dst as u64,
            src as u64,
        ),
        Op::YieldKv { pc, dst, src, key } => yield_kv(
            stack,
            frames,
            chain,
            slots,
            saved_stack,
            saved_frames,
            m,
            sizes,
            fuel,
            pc as u64,
            dst as u64,
            src as u64,
            key as u64,
        ),
        Op::Await { pc, dst, src } => coro_await(
            stack,
            frames,
            chain,
            slots,
            saved_stack,
            saved_frames,
            m,
            sizes,
            fuel,
            pc as u64,
            dst as u64,
            src as u64,
        ),
        _ => entering(
            stack,
            frames,
            chain,
            slots,
            saved_stack,
            saved_frames,
            setup,
            m,
            sizes,
            fuel,
            op,
        ),
    }
}
