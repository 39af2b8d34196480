// coro.rs: coro_returned. The body's frame has been popped.
ghost use Rattle.model.specs.Coro.{coro_returned};
ghost use Rattle.coro_end.specs.Returned.{ReturnFits};
ghost use Rattle.memory_world.specs.Lendings.{six, plain};
ghost use Rattle.memory_world.specs.Contract.{Leaves, if_rowed, with, of_mut};

use crate::deliver::deliver_return;
use crate::last::end_last;
use heap::object::CoroState;
use machine_state::fuel::FuelDid;
use memory_world::machine::{Machine, Sizes};
use model::machine::Fuel;

// The innermost coroutine ends, and its result goes to whoever drove it.
pub fn coro_returned(
    stack: &mut [u64],
    frames: &mut [u64],
    chain: &mut [u64],
    slots: &mut [u64],
    saved_stack: &mut [u64],
    saved_frames: &mut [u64],
    m: Machine,
    sizes: Sizes,
    fuel: Fuel,
    value: u64,
) -> FuelDid
    requires { ReturnFits sizes (six stack.old frames.old chain.old slots.old saved_stack.old saved_frames.old plain) m }
    ensures { Leaves if_rowed sizes (coro_returned value) (six (of_mut stack) (of_mut frames) (of_mut chain) (of_mut slots) (of_mut saved_stack) (of_mut saved_frames)) (with m fuel) (with result.machine result.fuel) }
{
    if m.active == 0 {
        return FuelDid { machine: m, fuel };
    }
    let last = memory_tables::active::active_at(chain, m.active - 1);
    let d = last.driver;
    let s = CoroState::Returned;
    let n = end_last(chain, slots, saved_stack, saved_frames, m, sizes, s, value);
    deliver_return(stack, frames, slots, n, fuel, d, value)
}
