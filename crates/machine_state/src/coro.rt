// coro.rs: coro_state.
ghost use Rattle.heap.specs.Heap.{TableFits};
ghost use Rattle.model.specs.Coro.{coro_state};
ghost use Rattle.memory_world.specs.Lendings.{table};
ghost use Rattle.memory_world.specs.Contract.{Reads, every, only, of_ref};

use heap::fault::Fault;
use heap::object::CoroState;
use heap::value::Word;
use memory_world::machine::Machine;

// The state of the coroutine that a word names.
pub fn coro_state(slots: &[u64], m: Machine, v: Word) -> Result<CoroState, Fault>
    requires { TableFits slots.now m.count }
    ensures { every (λ sizes. Reads sizes (λ w. coro_state w v.0) (table (of_ref slots)) (only m) result) }
{
    match heap::heap::coro_place(slots, m.count, v) {
        Err(f) => Err(f),
        Ok(i) => {
            let s = heap::field::state_at(slots, i);
            Ok(s)
        }
    }
}
