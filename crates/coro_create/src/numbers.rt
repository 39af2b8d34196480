// The sequence number among the machine's numbers.
ghost use Rattle.std.specs.Prelude.{◌≡◌};
ghost use Rattle.coro_create.specs.Numbers.{sequenced};

use memory_world::machine::Machine;

// 01: "advances the 64-bit sequence number, wrapping"
pub(crate) fn sequenced(m: Machine) -> Machine
    ensures { result ≡ sequenced m }
{
    let mut n = m;
    n.seq = std::num::wrapping_add_u64(m.seq, 1);
    n
}
