// coro.rs: coro_create.
ghost use Rattle.std.specs.Prelude.{◌≡◌, ◌^◌, ◌<◌, take};
ghost use Rattle.heap.specs.Heap.{slots_of};
ghost use Rattle.model.specs.Coro.{coro_create};
ghost use Rattle.coro_create.specs.Create.{new_object, bytes_of, SpotFits, spot_of, copied_of, WriteFits, Writes, CreateFits};
ghost use Rattle.memory_world.specs.Contract.{Met, if_sound, only, of_mut, of_ref};
ghost use Rattle.memory_world.specs.Lendings.{making};

use crate::numbers::sequenced;
use crate::row::lowest_free_row;
use heap::fault::Fault;
use heap::int::MINUS_ONE;
use heap::object::{CoroObj, CoroState, Object};
use heap::value::Word;
use machine_state::called::Did;
use machine_state::numbers::{allocated, heap_of};
use memory_world::machine::{Machine, Sizes};
use model::machine::{Cont, Frame};
use model::program::MOST_ARGS;

// 8 times registers, an object's size, and a frame's.
fn bytes(regs: u64, size: u64, frame: u64) -> u64
    requires { bytes_of regs size frame < 2 ^ 64 }
    ensures { result ≡ bytes_of regs size frame }
{
    8 * regs + size + frame
}

// 01: "tests 8 times registers + C + F against the limit (9), then 14"
fn find_spot(slots: &[u64], m: Machine, sizes: Sizes, regs: u64) -> Result<usize, Fault>
    requires { SpotFits slots.now m sizes regs }
    ensures { result ≡ spot_of (slots_of m.count slots.now) m sizes regs }
{
    let costs = sizes.costs;
    let h = heap_of(m, sizes);
    h.lacks(bytes(regs, costs.coro, costs.frame))?;
    let row = lowest_free_row(slots, m.count, sizes.rows);
    if sizes.rows <= row {
        return Err(Fault::Full);
    }
    Ok(row)
}

// A new coroutine's record.
fn new_object(seq: u64, row: u64, regs: u64) -> CoroObj
    ensures { result ≡ new_object seq row regs }
{
    let state = CoroState::Created;
    CoroObj {
        state,
        closing: false,
        finalized: false,
        task: false,
        seq,
        row,
        regs,
        frames: 1,
        maxregs: regs,
        maxframes: 1,
        waiting: 0,
        payload: Word::NIL,
        key: Word::NIL,
        largest: MINUS_ONE,
        result: Word::NIL,
        signal: Word::NIL,
    }
}

// 01: "More arguments than registers: all registers 0."
fn copied(n: usize, regs: usize) -> usize
    ensures { result ≡ copied_of n regs }
{
    if n <= regs { n } else { 0 }
}

// Its registers and its frame, in its row.
fn write_row(
    saved_stack: &mut [u64],
    saved_frames: &mut [u64],
    sizes: Sizes,
    row: usize,
    regs: usize,
    f: u64,
    closure: u64,
    args: [u64; MOST_ARGS],
    n: usize,
)
    requires { WriteFits saved_stack.old saved_frames.old sizes row regs n }
    ensures { Writes saved_stack.old saved_frames.old saved_stack.new saved_frames.new sizes row regs f closure args n }
{
    let at = row * sizes.width;
    let k = copied(n, regs);
    memory_tables::runs::fill_row(saved_stack, at, regs, &args, k);
    let body = Frame {
        func: f,
        pc: 0,
        base: 0,
        closure,
        cont: Cont::Coro,
    };
    memory_tables::frame::put_frame(saved_frames, row * sizes.depth, body);
}

// coro.rs: coro_create. The arguments are the first n words of args.
pub fn coro_create(
    slots: &mut [u64],
    saved_stack: &mut [u64],
    saved_frames: &mut [u64],
    setup: &[u64],
    m: Machine,
    sizes: Sizes,
    f: u64,
    closure: u64,
    args: [u64; MOST_ARGS],
    n: usize,
) -> Did<Result<u64, Fault>>
    requires { CreateFits sizes slots.old saved_stack.old saved_frames.old setup.now m f n }
    ensures { Met if_sound sizes (coro_create f closure (take n args)) (making (of_mut slots) (of_mut saved_stack) (of_mut saved_frames) (of_ref setup)) (only m) (only result.machine) result.answer }
{
    let regs = memory_tables::program::regs_at(setup, f as usize);
    match find_spot(slots, m, sizes, regs) {
        Err(g) => Did {
            machine: m,
            answer: Err(g),
        },
        Ok(row) => {
            let costs = sizes.costs;
            let o = Object::Coro(new_object(m.seq, row as u64, regs));
            let q = sequenced(m);
            let charge = bytes(regs, costs.object, costs.frame);
            match heap::heap::alloc(slots, heap_of(q, sizes), charge, o) {
                Err(g) => Did {
                    machine: q,
                    answer: Err(g),
                },
                Ok((v, h)) => {
                    write_row(
                        saved_stack,
                        saved_frames,
                        sizes,
                        row,
                        regs as usize,
                        f,
                        closure,
                        args,
                        n,
                    );
                    Did {
                        machine: allocated(q, h),
                        answer: Ok(v.0),
                    }
                }
            }
        }
    }
}
