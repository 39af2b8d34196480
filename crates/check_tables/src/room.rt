// Lent words enough, and numbers within limits.
ghost use Rattle.std.specs.Prelude.{◌≡◌};
ghost use Rattle.check_tables.specs.Room.{room_test, counts_test, SizesFit};

use heap::slot::WIDTH;
use memory_tables::frame::FRAME_WIDTH;
use memory_world::machine::{Machine, Sizes};

// Whether the slices are as long as a set-up of these sizes needs.
pub fn room_ok(
    sizes: Sizes,
    stack: usize,
    frames: usize,
    chain: usize,
    slots: usize,
    saved_stack: usize,
    saved_frames: usize,
    ready: usize,
    finalize: usize,
) -> bool
    requires { SizesFit sizes }
    ensures { result ≡ room_test sizes stack frames chain slots saved_stack saved_frames ready finalize }
{
    let records = sizes.depth * FRAME_WIDTH;
    sizes.stack <= stack
        && records <= frames
        && records <= chain
        && sizes.slots * WIDTH <= slots
        && sizes.rows * sizes.width <= saved_stack
        && sizes.rows * records <= saved_frames
        && sizes.slots <= ready
        && sizes.slots <= finalize
}

// Whether a machine's numbers are within its limits.
pub fn counts_ok(sizes: Sizes, m: Machine) -> bool
    ensures { result ≡ counts_test sizes m }
{
    m.height <= sizes.stack
        && m.depth <= sizes.depth
        && m.active <= sizes.depth
        && m.count <= sizes.slots
        && m.ready <= sizes.slots
        && m.finalize <= sizes.slots
        && m.used <= sizes.memory
}
