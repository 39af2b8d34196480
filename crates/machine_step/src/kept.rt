// Any call of document 01 but the set-up, on words that stand for a sound machine. Nothing is tested that soundness gives.
ghost use Rattle.machine_step.specs.Kept.{Keeps};
ghost use Rattle.memory_world.specs.Lendings.{all, plain};
ghost use Rattle.memory_world.specs.Contract.{Ok, with, of_mut, of_ref};

use crate::dispatch::dispatch;
use crate::widths::widths;
use machine_state::called::Called;
use memory_world::machine::{Machine, Sizes};
use model::call::{Answer, Op};
use model::machine::Fuel;

pub fn kept(
    stack: &mut [u64],
    frames: &mut [u64],
    chain: &mut [u64],
    slots: &mut [u64],
    saved_stack: &mut [u64],
    saved_frames: &mut [u64],
    ready: &mut [u64],
    finalize: &mut [u64],
    setup: &[u64],
    m: Machine,
    sizes: Sizes,
    fuel: Fuel,
    op: Op,
) -> Called<Answer>
    requires { Ok sizes (all stack.old frames.old chain.old slots.old saved_stack.old saved_frames.old ready.old finalize.old setup.now plain) (with m fuel) }
    ensures { Keeps sizes op (all (of_mut stack) (of_mut frames) (of_mut chain) (of_mut slots) (of_mut saved_stack) (of_mut saved_frames) (of_mut ready) (of_mut finalize) (of_ref setup)) (with m fuel) (with result.machine result.fuel) result.answer }
{
    widths(op);
    dispatch(
        stack,
        frames,
        chain,
        slots,
        saved_stack,
        saved_frames,
        ready,
        finalize,
        setup,
        m,
        sizes,
        fuel,
        op,
    )
}
