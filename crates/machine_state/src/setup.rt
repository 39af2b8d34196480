// machine.rs: Machine::new, of a set-up in words. That they are a set-up's has been tested.
ghost use Rattle.std.specs.Prelude.{◌≡◌, ◌*◌, ◌≤◌, ◌<◌, length};
ghost use Rattle.lists.specs.Parts.{pad};
ghost use Rattle.heap.specs.Heap.{TableFits};
ghost use Rattle.memory_world.specs.Memory.{Slots};
ghost use Rattle.machine_state.specs.Setup.{function_slots, Cleared, start, words, SetUpFits, SetsUp};

use heap::object::Object;
use memory_tables::layout;
use memory_world::machine::{Machine, Told};

// A function object for each of n functions, and nothing after them.
fn function_objects(slots: &mut [u64], n: usize)
    requires { TableFits slots.old n }
    ensures { Slots (function_slots n) slots.new n }
{
    lists::clear_words(slots);
    let mut i = 0;
    while i < n {
        heap::slot::put_slot(slots, i, 0, Object::Func(i as u64));
        i += 1;
    }
}

// No words, frames, running coroutines, saved words or frames.
fn clear_tables(
    stack: &mut [u64],
    frames: &mut [u64],
    chain: &mut [u64],
    saved_stack: &mut [u64],
    saved_frames: &mut [u64],
)
    ensures { Cleared stack.old stack.new × Cleared frames.old frames.new × Cleared chain.old chain.new
        × Cleared saved_stack.old saved_stack.new × Cleared saved_frames.old saved_frames.new }
{
    lists::clear_words(stack);
    lists::clear_words(frames);
    lists::clear_words(chain);
    lists::clear_words(saved_stack);
    lists::clear_words(saved_frames);
}

fn none(n: usize) -> Machine
    ensures { result ≡ start n }
{
    let outcome = Told(0, 0, 0, 0);
    Machine {
        height: 0,
        depth: 0,
        active: 0,
        count: n,
        ready: 0,
        finalize: 0,
        finalizing: false,
        outcome,
        used: 0,
        seq: 0,
    }
}

// The words of a set-up, and zeros after them.
fn put_setup(setup: &mut [u64], given: &[u64])
    requires { length given.now ≤ length setup.old }
    ensures { setup.new ≡ pad (length setup.old) given.now }
{
    let room = setup.len();
    memory_tables::runs::fill_row(setup, 0, room, given, given.len());
}

// A fresh machine of a set-up given in words.
pub fn set_up(
    stack: &mut [u64],
    frames: &mut [u64],
    chain: &mut [u64],
    slots: &mut [u64],
    saved_stack: &mut [u64],
    saved_frames: &mut [u64],
    ready: &mut [u64],
    finalize: &mut [u64],
    setup: &mut [u64],
    given: &[u64],
) -> Machine
    requires { SetUpFits slots.old setup.old given.now }
    ensures { SetsUp given.now (words stack.new frames.new chain.new slots.new saved_stack.new saved_frames.new ready.new finalize.new setup.new) result }
{
    clear_tables(stack, frames, chain, saved_stack, saved_frames);
    lists::clear_words(ready);
    lists::clear_words(finalize);
    put_setup(setup, given);
    let n = given[layout::FUNCTIONS] as usize;
    function_objects(slots, n);
    none(n)
}
