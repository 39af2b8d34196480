// conv.rs: to_dyn.
ghost use Rattle.heap.specs.Heap.{Room};
ghost use Rattle.model.specs.Heap.{to_dyn};
ghost use Rattle.machine_state.specs.Numbers.{heap_of};
ghost use Rattle.memory_world.specs.Lendings.{table};
ghost use Rattle.memory_world.specs.Contract.{Met, any, only, of_mut};

use heap::fault::Fault;
use heap::heap::ResultKind;
use machine_state::called::Did;
use machine_state::numbers::{allocated, heap_of};
use memory_world::machine::{Machine, Sizes};

// A result of a kind as a dynamic word; nil for none.
pub(crate) fn to_dyn(
    slots: &mut [u64],
    m: Machine,
    sizes: Sizes,
    kind: ResultKind,
    v: u64,
) -> Did<Result<u64, Fault>>
    requires { Room slots.old (heap_of m sizes) }
    ensures { Met any sizes (to_dyn kind v) (table (of_mut slots)) (only m) (only result.machine) result.answer }
{
    let costs = sizes.costs;
    match heap::heap::to_dyn(slots, heap_of(m, sizes), costs.int, kind, v) {
        Err(g) => Did {
            machine: m,
            answer: Err(g),
        },
        Ok((x, h)) => Did {
            machine: allocated(m, h),
            answer: Ok(x.0),
        },
    }
}
