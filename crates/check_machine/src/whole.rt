// Whether lent words, numbers and fuel are a sound machine's. 01: "Outer calls test this".
ghost use Rattle.std.specs.Prelude.{◌≡◌};
ghost use Rattle.memory_world.specs.Decode.{setup_of};
ghost use Rattle.memory_sound.specs.Words.{sound_words};
ghost use Rattle.check_tables.specs.Room.{SizesFit};
ghost use Rattle.check_machine.specs.Whole.{lent_of, numbers_test, tower_test, objects_test, queues_test, TowerFits, ObjectsFit, QueuesFit};

use crate::numbers::{fuel_ok, outcome_ok};
use crate::rows::rows_ok;
use crate::running::running;
use check_tables::catches::catches;
use check_tables::chain::chain_ok;
use check_tables::frames::stack_frames_ok;
use check_tables::queue::queue_ok;
use check_tables::rest::rest_ok;
use check_tables::room::{counts_ok, room_ok};
use check_tables::setup::setup_held;
use heap::slot::WIDTH;
use memory_tables::frame::FRAME_WIDTH;
use memory_world::machine::{Machine, Sizes};
use model::machine::Fuel;
use model::program::MOST_FUNCTIONS;

// Lent words enough, numbers within limits; the outcome and the fuel.
fn numbers_ok(
    sizes: Sizes,
    stack: usize,
    frames: usize,
    chain: usize,
    slots: usize,
    saved_stack: usize,
    saved_frames: usize,
    ready: usize,
    finalize: usize,
    m: Machine,
    fuel: Fuel,
) -> bool
    requires { SizesFit sizes }
    ensures { result ≡ numbers_test sizes stack frames chain slots saved_stack saved_frames ready finalize m fuel }
{
    if !room_ok(
        sizes,
        stack,
        frames,
        chain,
        slots,
        saved_stack,
        saved_frames,
        ready,
        finalize,
    ) {
        return false;
    }
    if !counts_ok(sizes, m) {
        return false;
    }
    let t = m.outcome;
    if !outcome_ok(t) {
        return false;
    }
    fuel_ok(fuel)
}

// The stack, the frames and the chain.
fn tower_ok(
    stack: &[u64],
    frames: &[u64],
    chain: &[u64],
    setup: &[u64],
    need: &[u64; MOST_FUNCTIONS],
    m: Machine,
) -> bool
    requires { TowerFits frames.now chain.now need.now setup.now m }
    ensures { result ≡ tower_test (setup_of setup.now) stack.now frames.now chain.now m }
{
    if !stack_frames_ok(frames, setup, need, m.depth, m.height) {
        return false;
    }
    if !chain_ok(chain, frames, m.active, m.depth) {
        return false;
    }
    rest_ok(stack, m.height)
}

// The slots, the running coroutines and the rows.
fn objects_ok(
    chain: &[u64],
    slots: &[u64],
    saved_stack: &[u64],
    saved_frames: &[u64],
    setup: &[u64],
    need: &[u64; MOST_FUNCTIONS],
    sizes: Sizes,
    m: Machine,
) -> bool
    requires { ObjectsFit chain.now slots.now saved_stack.now saved_frames.now need.now setup.now sizes m }
    ensures { result ≡ objects_test sizes (setup_of setup.now) chain.now slots.now saved_stack.now saved_frames.now m }
{
    if !rest_ok(slots, m.count * WIDTH) {
        return false;
    }
    let Some(set) = running(chain, m.active, slots, m.count) else {
        return false;
    };
    if !rows_ok(
        slots,
        m.count,
        saved_stack,
        saved_frames,
        setup,
        need,
        &set,
        sizes,
    ) {
        return false;
    }
    if !rest_ok(saved_stack, sizes.rows * sizes.width) {
        return false;
    }
    rest_ok(saved_frames, sizes.rows * (sizes.depth * FRAME_WIDTH))
}

// The two queues.
fn queues_ok(ready: &[u64], finalize: &[u64], slots: &[u64], m: Machine) -> bool
    requires { QueuesFit ready.now finalize.now slots.now m }
    ensures { result ≡ queues_test ready.now finalize.now slots.now m }
{
    if !queue_ok(ready, m.ready, slots, m.count, true) {
        return false;
    }
    queue_ok(finalize, m.finalize, slots, m.count, false)
}

// All words, numbers and fuel.
pub fn sound_words(
    stack: &[u64],
    frames: &[u64],
    chain: &[u64],
    slots: &[u64],
    saved: &[u64],
    asleep: &[u64],
    ready: &[u64],
    finalize: &[u64],
    setup: &[u64],
    m: Machine,
    fuel: Fuel,
) -> bool
    ensures { result ≡ sound_words (lent_of stack.now frames.now chain.now slots.now saved.now asleep.now ready.now finalize.now setup.now) m fuel }
{
    if !setup_held(setup) {
        return false;
    }
    let sizes = memory_world::sizes::sizes(setup);
    if !numbers_ok(
        sizes,
        stack.len(),
        frames.len(),
        chain.len(),
        slots.len(),
        saved.len(),
        asleep.len(),
        ready.len(),
        finalize.len(),
        m,
        fuel,
    ) {
        return false;
    }
    let need = catches(setup);
    if !tower_ok(stack, frames, chain, setup, &need, m) {
        return false;
    }
    if !objects_ok(chain, slots, saved, asleep, setup, &need, sizes, m) {
        return false;
    }
    queues_ok(ready, finalize, slots, m)
}
