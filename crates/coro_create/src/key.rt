// coro.rs: auto_key.
ghost use Rattle.heap.specs.Heap.{Room};
ghost use Rattle.model.specs.Exec.{auto_key};
ghost use Rattle.machine_state.specs.Numbers.{heap_of};
ghost use Rattle.memory_world.specs.Lendings.{table};
ghost use Rattle.memory_world.specs.Contract.{Met, if_sound, only, of_mut};

use heap::fault::Fault;
use machine_state::called::Did;
use machine_state::numbers::{allocated, heap_of};
use memory_world::machine::{Machine, Sizes};

// coro.rs: auto_key. The key after the largest so far; one that is not inline is a new object.
pub fn auto_key(
    slots: &mut [u64],
    m: Machine,
    sizes: Sizes,
    largest: u64,
) -> Did<Result<(u64, u64), Fault>>
    requires { Room slots.old (heap_of m sizes) }
    ensures { Met if_sound sizes (auto_key largest) (table (of_mut slots)) (only m) (only result.machine) result.answer }
{
    match heap::int::next_key(largest) {
        None => Did {
            machine: m,
            answer: Err(Fault::ArithOverflow),
        },
        Some(n) => {
            let costs = sizes.costs;
            match heap::heap::encode_int(slots, heap_of(m, sizes), costs.int, n) {
                Err(g) => Did {
                    machine: m,
                    answer: Err(g),
                },
                Ok((v, h)) => Did {
                    machine: allocated(m, h),
                    answer: Ok((v.0, n)),
                },
            }
        }
    }
}
