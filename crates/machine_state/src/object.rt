// heap.rs: alloc, of an object that has no row.
ghost use Rattle.heap.specs.Heap.{Room};
ghost use Rattle.machine_state.specs.Numbers.{heap_of};
ghost use Rattle.machine_state.specs.Object.{Allocates};
ghost use Rattle.memory_world.specs.Lendings.{table};
ghost use Rattle.memory_world.specs.Contract.{only, of_mut};

use crate::called::Did;
use crate::numbers::{allocated, heap_of};
use heap::fault::Fault;
use heap::object::Object;
use memory_world::machine::{Machine, Sizes};

// heap.rs: alloc.
pub fn alloc_plain(
    slots: &mut [u64],
    m: Machine,
    sizes: Sizes,
    bytes: u64,
    o: Object,
) -> Did<Result<u64, Fault>>
    requires { Room slots.old (heap_of m sizes) }
    ensures { Allocates sizes bytes o (table (of_mut slots)) (only m) (only result.machine) result.answer }
{
    match heap::heap::alloc(slots, heap_of(m, sizes), bytes, o) {
        Err(g) => Did {
            machine: m,
            answer: Err(g),
        },
        Ok((v, h)) => Did {
            machine: allocated(m, h),
            answer: Ok(v.0),
        },
    }
}
