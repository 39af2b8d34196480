// A set-up read by value from its words: its numbers, a function's record, and the search for a handler.
ghost use Rattle.std.specs.Prelude.{◌≡◌, ◌+◌, ◌*◌, ◌<◌, ◌≤◌, length, take, nat_lt};
ghost use Rattle.model.specs.Program.{covers, first_of, func_of};
ghost use Rattle.memory_tables.specs.Layout.{handler_from, handlers_from, function_in};
ghost use Rattle.memory_tables.specs.Sizes.{limits_of, costs_of, hook_of, functions_of};

use crate::layout;
use model::program::{Costs, Function, Handler, Limits, MOST_HANDLERS};

// The numbers of a set-up, which stand before its functions; the words of a function, and of a handler.
pub const NUMBERS_WIDTH: usize = 14;

pub const FUNCTION_WIDTH: usize = 35;

pub const HANDLER_WIDTH: usize = 4;

pub fn limits(setup: &[u64]) -> Limits
    requires { 14 ≤ length setup.now }
    ensures { result ≡ limits_of setup.now }
{
    Limits {
        depth: setup[layout::DEPTH],
        stack: setup[layout::STACK],
        rows: setup[layout::ROWS],
        slots: setup[layout::SLOTS],
        memory: setup[layout::MEMORY],
    }
}

pub fn costs(setup: &[u64]) -> Costs
    requires { 14 ≤ length setup.now }
    ensures { result ≡ costs_of setup.now }
{
    Costs {
        frame: setup[layout::FRAME_COST],
        coro: setup[layout::CORO_COST],
        object: setup[layout::OBJECT_COST],
        int: setup[layout::INT_COST],
        error: setup[layout::ERROR_COST],
        iter: setup[layout::ITER_COST],
    }
}

pub fn hook(setup: &[u64]) -> Option<u64>
    requires { 14 ≤ length setup.now }
    ensures { result ≡ hook_of setup.now }
{
    if setup[layout::HOOK] == 0 {
        return None;
    }
    Some(setup[layout::HOOK_FUNCTION])
}

fn handler_from(setup: &[u64], at: usize) -> Handler
    requires { at + 4 ≤ length setup.now }
    ensures { result ≡ handler_from setup.now at }
{
    Handler {
        start: setup[at],
        end: setup[at + layout::END],
        target: setup[at + layout::TARGET],
        catch: setup[at + layout::CATCH],
    }
}

fn handlers_from(setup: &[u64], at: usize) -> [Handler; MOST_HANDLERS]
    requires { at + 32 ≤ length setup.now }
    ensures { result ≡ handlers_from 8 setup.now at }
{
    let b = at + HANDLER_WIDTH;
    let c = b + HANDLER_WIDTH;
    let d = c + HANDLER_WIDTH;
    let e = d + HANDLER_WIDTH;
    let f = e + HANDLER_WIDTH;
    let g = f + HANDLER_WIDTH;
    let h = g + HANDLER_WIDTH;
    [
        handler_from(setup, at),
        handler_from(setup, b),
        handler_from(setup, c),
        handler_from(setup, d),
        handler_from(setup, e),
        handler_from(setup, f),
        handler_from(setup, g),
        handler_from(setup, h),
    ]
}

// Function i of a set-up.
pub fn function_at(setup: &[u64], i: usize) -> Function
    requires { 14 + i * 35 + 35 ≤ length setup.now }
    ensures { result ≡ function_in setup.now i }
{
    let at = NUMBERS_WIDTH + i * FUNCTION_WIDTH;
    let handlers = handlers_from(setup, at + layout::FIRST_HANDLER);
    Function {
        regs: setup[at],
        params: setup[at + layout::PARAMS],
        handlers,
        count: setup[at + layout::HANDLERS],
    }
}

// The registers of function i.
pub fn regs_at(setup: &[u64], i: usize) -> u64
    requires { 14 + i * 35 < length setup.now }
    ensures { result ≡ (function_in setup.now i).regs }
{
    let at = NUMBERS_WIDTH + i * FUNCTION_WIDTH;
    setup[at]
}

// The parameters of function i.
pub fn params_at(setup: &[u64], i: usize) -> u64
    requires { 14 + i * 35 + 1 < length setup.now }
    ensures { result ≡ (function_in setup.now i).params }
{
    let at = NUMBERS_WIDTH + i * FUNCTION_WIDTH;
    setup[at + layout::PARAMS]
}

// Whether a number is a function's.
pub fn is_function(setup: &[u64], f: u64) -> bool
    requires { 14 ≤ length setup.now }
    ensures { result ≡ nat_lt f (functions_of setup.now) }
{
    f < setup[layout::FUNCTIONS]
}

fn covered(h: Handler, pc: u64) -> bool
    ensures { result ≡ covers pc h }
{
    h.start <= pc && pc < h.end
}

fn first_of(hs: [Handler; MOST_HANDLERS], n: usize, pc: u64) -> Option<Handler>
    requires { n ≤ 8 }
    ensures { result ≡ first_of pc (take n hs) }
{
    for h in &hs[..n] {
        if covered(*h, pc) {
            return Some(*h);
        }
    }
    None
}

// The first handler of a function that covers a pc.
pub fn first_handler(f: Function, pc: u64) -> Option<Handler>
    requires { f.count ≤ 8 }
    ensures { result ≡ first_of pc (func_of f).handlers }
{
    let hs = f.handlers;
    first_of(hs, f.count as usize, pc)
}

// The first handler of function i that covers a pc.
pub fn handler_at(setup: &[u64], i: usize, pc: u64) -> Option<Handler>
    requires { (14 + i * 35 + 35 ≤ length setup.now) × ((function_in setup.now i).count ≤ 8) }
    ensures { result ≡ first_of pc (func_of (function_in setup.now i)).handlers }
{
    let f = function_at(setup, i);
    first_handler(f, pc)
}
