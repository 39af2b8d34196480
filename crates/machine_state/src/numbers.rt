// The numbers of the heap among the machine's.
ghost use Rattle.std.specs.Prelude.{◌≡◌};
ghost use Rattle.machine_state.specs.Numbers.{heap_of, allocated};

use heap::heap::Heap;
use memory_world::machine::{Machine, Sizes};

pub fn heap_of(m: Machine, sizes: Sizes) -> Heap
    ensures { result ≡ heap_of m sizes }
{
    Heap {
        count: m.count,
        slots: sizes.slots,
        used: m.used,
        limit: sizes.memory,
    }
}

// What an allocation leaves of the machine's numbers.
pub fn allocated(m: Machine, h: Heap) -> Machine
    ensures { result ≡ allocated m h }
{
    let mut n = m;
    n.count = h.count;
    n.used = h.used;
    n
}
