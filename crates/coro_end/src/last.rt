// coro.rs: what coro_returned, coro_escaped and abort_coros share: the innermost coroutine leaves the chain, and ends.
ghost use Rattle.coro_end.specs.Finish.{FinishFits};
ghost use Rattle.coro_end.specs.Last.{ending, end_last};
ghost use Rattle.memory_world.specs.Contract.{Leaves, if_rowed, only, of_mut};
ghost use Rattle.memory_world.specs.Lendings.{plain};

use crate::finish::finish_coroutine;
use heap::object::CoroState;
use heap::value::Word;
use memory_world::machine::{Machine, Sizes};

// The innermost coroutine is taken off the chain, and ends.
pub(crate) fn end_last(
    chain: &mut [u64],
    slots: &mut [u64],
    saved_stack: &mut [u64],
    saved_frames: &mut [u64],
    m: Machine,
    sizes: Sizes,
    s: CoroState,
    res: u64,
) -> Machine
    requires { FinishFits sizes (ending chain.old slots.old saved_stack.old saved_frames.old plain) m s }
    ensures { Leaves if_rowed sizes (end_last s res) (ending (of_mut chain) (of_mut slots) (of_mut saved_stack) (of_mut saved_frames)) (only m) (only result) }
{
    if m.active == 0 {
        return m;
    }
    let last = memory_tables::active::active_at(chain, m.active - 1);
    memory_tables::chain::pop_active(chain, m.active);
    let mut n = m;
    n.active = m.active - 1;
    let v = Word(last.coro);
    finish_coroutine(slots, saved_stack, saved_frames, n, sizes, v, s, res);
    n
}
