// The set-up's words. 01: Closing list.
ghost use Rattle.std.specs.Prelude.{◌≡◌, ◌+◌, ◌*◌, ◌≤◌, length};
ghost use Rattle.lists.specs.Tests.{all_below};
ghost use Rattle.model.specs.Program.{between, limits_ok, costs_ok, handler_ok};
ghost use Rattle.memory_tables.specs.Layout.{handler_from};
ghost use Rattle.memory_world.specs.Sizes.{SetupFits};
ghost use Rattle.memory_sound.specs.Words.{setup_held};
ghost use Rattle.check_tables.specs.Setup.{handlers_test, function_test, hook_test, long_test};

use heap::value::BITS32;
use memory_tables::layout;
use memory_tables::program::{FUNCTION_WIDTH, HANDLER_WIDTH, NUMBERS_WIDTH};
use model::program::{
    Costs, Limits, MOST_COST, MOST_DEPTH, MOST_FUNCTIONS, MOST_HANDLERS, MOST_REGS, MOST_ROWS,
    MOST_SLOTS, MOST_STACK,
};

fn between(a: u64, b: u64, n: u64) -> bool
    ensures { result ≡ between a b n }
{
    a <= n && n <= b
}

// "Depth 1-128, stack 1-1,024 words, rows 1-64, slots 1-4,096 .. Memory limit: any 64-bit number."
fn limits_ok(limits: Limits) -> bool
    ensures { result ≡ limits_ok limits }
{
    between(1, MOST_DEPTH, limits.depth)
        && between(1, MOST_STACK as u64, limits.stack)
        && between(1, MOST_ROWS as u64, limits.rows)
        && between(1, MOST_SLOTS as u64, limits.slots)
}

// "Costs 0-65,536."
fn costs_ok(c: Costs) -> bool
    ensures { result ≡ costs_ok c }
{
    c.frame <= MOST_COST
        && c.coro <= MOST_COST
        && c.object <= MOST_COST
        && c.int <= MOST_COST
        && c.error <= MOST_COST
        && c.iter <= MOST_COST
}

// "each with a catch register of its own frame"
fn handler_ok(setup: &[u64], at: usize, regs: u64) -> bool
    requires { at + 4 ≤ length setup.now }
    ensures { result ≡ handler_ok regs (handler_from setup.now at) }
{
    setup[at + layout::CATCH] < regs
        && setup[at] < BITS32
        && setup[at + layout::END] < BITS32
        && setup[at + layout::TARGET] < BITS32
}

fn handlers_ok(setup: &[u64], at: usize, n: usize, regs: u64) -> bool
    requires { at + n * 4 ≤ length setup.now }
    ensures { result ≡ handlers_test setup.now at n regs }
{
    (0..n).all(|j| handler_ok(setup, at + j * HANDLER_WIDTH, regs))
}

// "registers 0-256, parameters at most registers. Every function has at most eight handlers"
fn function_ok(setup: &[u64], at: usize) -> bool
    requires { at + 35 ≤ length setup.now }
    ensures { result ≡ function_test setup.now at }
{
    let regs = setup[at];
    if MOST_REGS < regs {
        return false;
    }
    if regs < setup[at + layout::PARAMS] {
        return false;
    }
    let count = setup[at + layout::HANDLERS];
    if (MOST_HANDLERS as u64) < count {
        return false;
    }
    let n = count as usize;
    let from = at + layout::FIRST_HANDLER;
    if !handlers_ok(setup, from, n, regs) {
        return false;
    }
    let a = from + n * HANDLER_WIDTH;
    let e = at + FUNCTION_WIDTH;
    lists::all_zero(&setup[a..e])
}

fn functions_ok(setup: &[u64], n: usize) -> bool
    requires { 14 + n * 35 ≤ length setup.now }
    ensures { result ≡ all_below n (λ i. function_test setup.now (14 + i * 35)) }
{
    (0..n).all(|i| function_ok(setup, NUMBERS_WIDTH + i * FUNCTION_WIDTH))
}

// "Hook: none, or a function with a register."
fn hook_ok(setup: &[u64]) -> bool
    requires { SetupFits setup.now }
    ensures { result ≡ hook_test setup.now }
{
    let code = setup[layout::HOOK];
    let hook = setup[layout::HOOK_FUNCTION];
    if code == 0 {
        return hook == 0;
    }
    if code != 1 {
        return false;
    }
    if setup[layout::FUNCTIONS] <= hook {
        return false;
    }
    let f = hook as usize;
    0 < setup[NUMBERS_WIDTH + f * FUNCTION_WIDTH]
}

// Words enough for the numbers, and for as many functions as they say.
fn long_ok(setup: &[u64]) -> bool
    ensures { result ≡ long_test setup.now }
{
    if setup.len() < NUMBERS_WIDTH {
        return false;
    }
    let n = setup[layout::FUNCTIONS];
    between(1, MOST_FUNCTIONS as u64, n)
        && NUMBERS_WIDTH + n as usize * FUNCTION_WIDTH <= setup.len()
}

// Whether the words are those of a set-up that 01's closing list accepts, with zeros after them.
pub fn setup_held(setup: &[u64]) -> bool
    ensures { result ≡ setup_held setup.now }
{
    if !long_ok(setup) {
        return false;
    }
    let n = setup[layout::FUNCTIONS] as usize;
    if !limits_ok(memory_tables::program::limits(setup)) {
        return false;
    }
    if !costs_ok(memory_tables::program::costs(setup)) {
        return false;
    }
    if setup[layout::SLOTS] < setup[layout::FUNCTIONS] {
        return false;
    }
    if !functions_ok(setup, n) {
        return false;
    }
    if !hook_ok(setup) {
        return false;
    }
    crate::rest::rest_ok(setup, NUMBERS_WIDTH + n * FUNCTION_WIDTH)
}
