// heap.rs: coro_mut, of a coroutine that is to close.
ghost use Rattle.heap.specs.Heap.{TableFits};
ghost use Rattle.model.specs.Heap.{change_coro};
ghost use Rattle.model.specs.Cleanup.{close};
ghost use Rattle.memory_world.specs.Lendings.{table};
ghost use Rattle.memory_world.specs.Contract.{Leaves, any, every, only, of_mut};

use heap::value::Word;
use memory_world::machine::Machine;

// coro.rs: co.closing = true, co.signal = signal, where the word names a coroutine.
pub fn set_closing(slots: &mut [u64], m: Machine, v: Word, signal: u64)
    requires { TableFits slots.old m.count }
    ensures { every (λ sizes. Leaves any sizes (change_coro v.0 (λ k. k) (close signal)) (table (of_mut slots)) (only m) (only m)) }
{
    match heap::heap::coro_place(slots, m.count, v) {
        Err(_) => {}
        Ok(i) => heap::field::put_closing(slots, i, signal),
    }
}
