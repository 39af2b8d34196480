// Whether a machine in words is sound: its numbers and its fuel in words too, and the sizes beside them.
ghost use Rattle.std.specs.Prelude.{◌≡◌, ◌≤◌, length};
ghost use Rattle.memory_world.specs.Contract.{at_entry, of_ref};
ghost use Rattle.outer_call.specs.State.{nine};
ghost use Rattle.linked_calls.specs.Words.{sizes_in};
ghost use Rattle.linked_calls.specs.Host.{numbers_ok, same_costs, same_sizes, host, passes_test, HoldFits, sizes_held, one_or, short};

use crate::numbers::{
    BANK, BANKED, CLEANUPS, FINALIZING, FUEL_WIDTH, MACHINE_WIDTH, fuel_of, machine_of, sizes_of,
};
use check_machine::whole::sound_words;
use lists::both;
use memory_world::machine::Sizes;
use model::program::Costs;

// A flag is 0 or 1; an amount is set aside only where there is a bank.
pub(crate) fn numbers_ok(machine: &[u64], fuel: &[u64]) -> bool
    ensures { result ≡ numbers_ok machine.now fuel.now }
{
    if machine.len() < MACHINE_WIDTH {
        return false;
    }
    if fuel.len() < FUEL_WIDTH {
        return false;
    }
    if machine[FINALIZING] > 1 {
        return false;
    }
    if fuel[CLEANUPS] > 1 {
        return false;
    }
    if fuel[BANKED] == 1 {
        return true;
    }
    if fuel[BANKED] != 0 {
        return false;
    }
    fuel[BANK] == 0
}

fn same_costs(c: Costs, d: Costs) -> bool
    ensures { result ≡ same_costs c d }
{
    let two = both(c.frame == d.frame, c.coro == d.coro);
    let three = both(two, c.object == d.object);
    let four = both(three, c.int == d.int);
    let five = both(four, c.error == d.error);
    both(five, c.iter == d.iter)
}

fn same_sizes(a: Sizes, b: Sizes) -> bool
    ensures { result ≡ same_sizes a b }
{
    let two = both(a.depth == b.depth, a.stack == b.stack);
    let three = both(two, a.rows == b.rows);
    let four = both(three, a.slots == b.slots);
    let five = both(four, a.memory == b.memory);
    let limits = both(five, a.width == b.width);
    both(limits, same_costs(a.costs, b.costs))
}

fn sizes_held(machine: &[u64], setup: &[u64]) -> bool
    requires { HoldFits machine.now setup.now }
    ensures { result ≡ sizes_held machine.now setup.now }
{
    let a = sizes_of(machine);
    let b = memory_world::sizes::sizes(setup);
    same_sizes(a, b)
}

pub(crate) fn tested(
    stack: &[u64],
    frames: &[u64],
    chain: &[u64],
    slots: &[u64],
    saved_stack: &[u64],
    saved_frames: &[u64],
    ready: &[u64],
    finalize: &[u64],
    setup: &[u64],
    machine: &[u64],
    fuel: &[u64],
) -> bool
    ensures { result ≡ passes_test (host (nine (of_ref stack) (of_ref frames) (of_ref chain) (of_ref slots) (of_ref saved_stack) (of_ref saved_frames) (of_ref ready) (of_ref finalize) (of_ref setup) at_entry) (at_entry (of_ref machine)) (at_entry (of_ref fuel))) }
{
    if !numbers_ok(machine, fuel) {
        return false;
    }
    let m = machine_of(machine);
    let f = fuel_of(fuel);
    if !sound_words(
        stack,
        frames,
        chain,
        slots,
        saved_stack,
        saved_frames,
        ready,
        finalize,
        setup,
        m,
        f,
    ) {
        return false;
    }
    sizes_held(machine, setup)
}

// What is returned where an answer has no room: 11 comes before 14.
pub fn short(ok: bool) -> u64
    ensures { result ≡ short ok }
{
    if ok {
        return 14;
    }
    11
}

// 1 if the machine is sound, else 0.
pub fn bvm_sound(
    stack: &[u64],
    frames: &[u64],
    chain: &[u64],
    slots: &[u64],
    saved_stack: &[u64],
    saved_frames: &[u64],
    ready: &[u64],
    finalize: &[u64],
    setup: &[u64],
    machine: &[u64],
    fuel: &[u64],
) -> u64
    ensures { result ≡ one_or (passes_test (host (nine (of_ref stack) (of_ref frames) (of_ref chain) (of_ref slots) (of_ref saved_stack) (of_ref saved_frames) (of_ref ready) (of_ref finalize) (of_ref setup) at_entry) (at_entry (of_ref machine)) (at_entry (of_ref fuel)))) }
{
    if tested(
        stack,
        frames,
        chain,
        slots,
        saved_stack,
        saved_frames,
        ready,
        finalize,
        setup,
        machine,
        fuel,
    ) {
        return 1;
    }
    0
}
