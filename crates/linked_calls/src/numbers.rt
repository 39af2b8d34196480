// A machine's numbers, the sizes of its set-up and its fuel in lent words.
ghost use Rattle.std.specs.Prelude.{◌≡◌, [], ◌∷◌, ◌≤◌, length};
ghost use Rattle.lists.specs.Parts.{splice};
ghost use Rattle.heap.specs.Slot.{flag};
ghost use Rattle.linked_calls.specs.Words.{machine_words, machine_in, sizes_in, bank_of, bank_words, fuel_in, fuel_words};

use memory_world::machine::{Machine, Sizes, Told};
use model::machine::Fuel;
use model::program::Costs;

// Where a machine's numbers stand in its words, and after them the sizes of its set-up (`machine_in`, `sizes_in`).
pub const HEIGHT: usize = 0;

pub const DEPTH: usize = 1;

pub const ACTIVE: usize = 2;

pub const COUNT: usize = 3;

pub const READY: usize = 4;

pub const FINALIZE: usize = 5;

pub const FINALIZING: usize = 6;

pub const USED: usize = 7;

pub const SEQ: usize = 8;

// The outcome's: its number, the word handed on, and of a failure its function and its pc.
pub const OUTCOME: usize = 9;

pub const OUTCOME_WORD: usize = 10;

pub const OUTCOME_FUNC: usize = 11;

pub const OUTCOME_PC: usize = 12;

pub const DEPTH_LIMIT: usize = 13;

pub const STACK_LIMIT: usize = 14;

pub const ROWS: usize = 15;

pub const SLOTS: usize = 16;

pub const MEMORY: usize = 17;

pub const ROW_WIDTH: usize = 18;

pub const FRAME_COST: usize = 19;

pub const CORO_COST: usize = 20;

pub const OBJECT_COST: usize = 21;

pub const INT_COST: usize = 22;

pub const ERROR_COST: usize = 23;

pub const ITER_COST: usize = 24;

// The words of a machine, and of its fuel.
pub const MACHINE_WIDTH: usize = 25;

pub const FUEL_WIDTH: usize = 4;

// Where the fuel stands in its words: what is left, whether some is set aside, how much, whether a cleanup is ready (`fuel_in`).
pub const FUEL: usize = 0;

pub const BANKED: usize = 1;

pub const BANK: usize = 2;

pub const CLEANUPS: usize = 3;

// The numbers that the words hold.
pub(crate) fn machine_of(ws: &[u64]) -> Machine
    requires { 25 ≤ length ws.now }
    ensures { result ≡ machine_in ws.now }
{
    let outcome = Told(
        ws[OUTCOME],
        ws[OUTCOME_WORD],
        ws[OUTCOME_FUNC],
        ws[OUTCOME_PC],
    );
    Machine {
        height: ws[HEIGHT] as usize,
        depth: ws[DEPTH] as usize,
        active: ws[ACTIVE] as usize,
        count: ws[COUNT] as usize,
        ready: ws[READY] as usize,
        finalize: ws[FINALIZE] as usize,
        finalizing: ws[FINALIZING] != 0,
        outcome,
        used: ws[USED],
        seq: ws[SEQ],
    }
}

// The numbers into the words.
pub(crate) fn put_machine(ws: &mut [u64], m: Machine)
    requires { 25 ≤ length ws.old }
    ensures { ws.new ≡ splice ws.old 0 (machine_words m) }
{
    let o = m.outcome;
    ws[HEIGHT] = m.height as u64;
    ws[DEPTH] = m.depth as u64;
    ws[ACTIVE] = m.active as u64;
    ws[COUNT] = m.count as u64;
    ws[READY] = m.ready as u64;
    ws[FINALIZE] = m.finalize as u64;
    ws[FINALIZING] = m.finalizing as u64;
    ws[USED] = m.used;
    ws[SEQ] = m.seq;
    ws[OUTCOME] = o.0;
    ws[OUTCOME_WORD] = o.1;
    ws[OUTCOME_FUNC] = o.2;
    ws[OUTCOME_PC] = o.3;
}

// The sizes after them.
pub(crate) fn sizes_of(ws: &[u64]) -> Sizes
    requires { 25 ≤ length ws.now }
    ensures { result ≡ sizes_in ws.now }
{
    let costs = Costs {
        frame: ws[FRAME_COST],
        coro: ws[CORO_COST],
        object: ws[OBJECT_COST],
        int: ws[INT_COST],
        error: ws[ERROR_COST],
        iter: ws[ITER_COST],
    };
    Sizes {
        depth: ws[DEPTH_LIMIT] as usize,
        stack: ws[STACK_LIMIT] as usize,
        rows: ws[ROWS] as usize,
        slots: ws[SLOTS] as usize,
        memory: ws[MEMORY],
        width: ws[ROW_WIDTH] as usize,
        costs,
    }
}

fn bank_of(code: u64, a: u64) -> Option<u64>
    ensures { result ≡ bank_of code a }
{
    if code == 0 {
        return None;
    }
    Some(a)
}

// The fuel that the words hold.
pub(crate) fn fuel_of(ws: &[u64]) -> Fuel
    requires { 4 ≤ length ws.now }
    ensures { result ≡ fuel_in ws.now }
{
    let bank = bank_of(ws[BANKED], ws[BANK]);
    Fuel {
        fuel: ws[FUEL],
        bank,
        ready: ws[CLEANUPS] != 0,
    }
}

// Whether there is a bank, its units, and whether cleanups are ready.
#[derive(Clone, Copy)]
struct BankWords(u64, u64, u64);

fn told_bank(bank: Option<u64>, ready: bool) -> BankWords
    ensures { result.0 ∷ result.1 ∷ result.2 ∷ [] ≡ bank_words bank (flag ready) }
{
    match bank {
        None => BankWords(0, 0, ready as u64),
        Some(n) => BankWords(1, n, ready as u64),
    }
}

// The fuel into the words.
pub(crate) fn put_fuel(ws: &mut [u64], f: Fuel)
    requires { 4 ≤ length ws.old }
    ensures { ws.new ≡ splice ws.old 0 (fuel_words f) }
{
    let bank = f.bank;
    let t = told_bank(bank, f.ready);
    ws[FUEL] = f.fuel;
    ws[BANKED] = t.0;
    ws[BANK] = t.1;
    ws[CLEANUPS] = t.2;
}
