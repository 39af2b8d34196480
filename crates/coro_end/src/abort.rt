// coro.rs: abort_coros.
ghost use Rattle.model.specs.Coro.{abort_coros};
ghost use Rattle.memory_world.specs.Contract.{SomeWorld, Leaves, if_rowed, only, with, of_mut};
ghost use Rattle.coro_end.specs.Last.{InRows, ending, fail_active};
ghost use Rattle.memory_world.specs.Lendings.{plain};

use crate::last::end_last;
use heap::object::CoroState;
use heap::value::Word;
use machine_state::fuel::{FuelDid, set_finalizing};
use memory_world::machine::{Machine, Sizes};
use memory_world::outcome::told_outcome;
use model::machine::Fuel;

// Every active coroutine fails, from the innermost on.
pub(crate) fn fail_all(
    chain: &mut [u64],
    slots: &mut [u64],
    saved_stack: &mut [u64],
    saved_frames: &mut [u64],
    m: Machine,
    sizes: Sizes,
) -> Machine
    requires { SomeWorld InRows sizes (ending chain.old slots.old saved_stack.old saved_frames.old plain) (only m) }
    ensures { Leaves if_rowed sizes fail_active (ending (of_mut chain) (of_mut slots) (of_mut saved_stack) (of_mut saved_frames)) (only m) (only result) }
{
    let mut n = m;
    while n.active != 0 {
        let s = CoroState::Failed;
        n = end_last(
            chain,
            slots,
            saved_stack,
            saved_frames,
            n,
            sizes,
            s,
            Word::NIL,
        );
    }
    n
}

// No coroutine runs any more, no cleanup, and nothing has happened.
pub fn abort_coros(
    chain: &mut [u64],
    slots: &mut [u64],
    saved_stack: &mut [u64],
    saved_frames: &mut [u64],
    m: Machine,
    sizes: Sizes,
    fuel: Fuel,
) -> FuelDid
    requires { SomeWorld InRows sizes (ending chain.old slots.old saved_stack.old saved_frames.old plain) (only m) }
    ensures { Leaves if_rowed sizes abort_coros (ending (of_mut chain) (of_mut slots) (of_mut saved_stack) (of_mut saved_frames)) (with m fuel) (with result.machine result.fuel) }
{
    let failed = fail_all(chain, slots, saved_stack, saved_frames, m, sizes);
    let did = set_finalizing(failed, fuel, false);
    let f = did.fuel;
    let mut n = did.machine;
    let none = told_outcome(None);
    n.outcome = none;
    FuelDid {
        machine: n,
        fuel: f,
    }
}
