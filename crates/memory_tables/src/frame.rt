// A frame in six words of a lent slice.
ghost use Rattle.std.specs.Prelude.{◌≡◌, ◌+◌, ◌*◌, ◌≤◌, length};
ghost use Rattle.lists.specs.Parts.{splice};
ghost use Rattle.memory_tables.specs.Layout.{cont_code, cont_reg, cont_of, frame_in, func_in, pc_in, base_in, cont_in, frame_words};

use model::machine::{Cont, Frame};

// The words of a frame; after its function, where its pc, base and closure stand, the code of its continuation, and the register of that.
pub const FRAME_WIDTH: usize = 6;

pub const PC: usize = 1;

pub const BASE: usize = 2;

pub const CLOSURE: usize = 3;

pub const CODE: usize = 4;

pub const REG: usize = 5;

// The codes of continuations. Only the three between Entry and Discard have a register.
pub const ENTRY: u64 = 0;

pub const WRITE: u64 = 1;

pub const DYN: u64 = 2;

pub const VALUE: u64 = 3;

pub const DISCARD: u64 = 4;

pub const CORO: u64 = 5;

// How many there are.
pub const CODES: u64 = 6;

// A continuation's code.
pub fn cont_code(k: Cont) -> u64
    ensures { result ≡ cont_code k }
{
    match k {
        Cont::Entry => ENTRY,
        Cont::Write(_) => WRITE,
        Cont::Dyn(_) => DYN,
        Cont::Value(_) => VALUE,
        Cont::Discard => DISCARD,
        Cont::Coro => CORO,
    }
}

// Its register, 0 where it has none.
pub fn cont_reg(k: Cont) -> u64
    ensures { result ≡ cont_reg k }
{
    match k {
        Cont::Entry => 0,
        Cont::Write(r) => r,
        Cont::Dyn(r) => r,
        Cont::Value(r) => r,
        Cont::Discard => 0,
        Cont::Coro => 0,
    }
}

// The continuation of a code and a register.
pub fn cont_of(code: u64, r: u64) -> Cont
    ensures { result ≡ cont_of code r }
{
    match code {
        0 => Cont::Entry,
        1 => Cont::Write(r),
        2 => Cont::Dyn(r),
        3 => Cont::Value(r),
        4 => Cont::Discard,
        _ => Cont::Coro,
    }
}

// The frame at place i.
pub fn frame_at(frames: &[u64], i: usize) -> Frame
    requires { i * 6 + 6 ≤ length frames.now }
    ensures { result ≡ frame_in frames.now i }
{
    let at = i * FRAME_WIDTH;
    let cont = cont_of(frames[at + CODE], frames[at + REG]);
    Frame {
        func: frames[at],
        pc: frames[at + PC],
        base: frames[at + BASE],
        closure: frames[at + CLOSURE],
        cont,
    }
}

// Its function, pc, base and continuation alone.
pub fn func_at(frames: &[u64], i: usize) -> u64
    requires { i * 6 + 6 ≤ length frames.now }
    ensures { result ≡ func_in frames.now i }
{
    frames[i * FRAME_WIDTH]
}

pub fn pc_at(frames: &[u64], i: usize) -> u64
    requires { i * 6 + 6 ≤ length frames.now }
    ensures { result ≡ pc_in frames.now i }
{
    frames[i * FRAME_WIDTH + PC]
}

pub fn base_at(frames: &[u64], i: usize) -> usize
    requires { i * 6 + 6 ≤ length frames.now }
    ensures { result ≡ base_in frames.now i }
{
    frames[i * FRAME_WIDTH + BASE] as usize
}

pub fn cont_at(frames: &[u64], i: usize) -> Cont
    requires { i * 6 + 6 ≤ length frames.now }
    ensures { result ≡ cont_in frames.now i }
{
    cont_of(
        frames[i * FRAME_WIDTH + CODE],
        frames[i * FRAME_WIDTH + REG],
    )
}

// The frame at place i replaced.
pub fn put_frame(frames: &mut [u64], i: usize, f: Frame)
    requires { i * 6 + 6 ≤ length frames.old }
    ensures { frames.new ≡ splice frames.old (i * 6) (frame_words f) }
{
    let at = i * FRAME_WIDTH;
    let k = f.cont;
    frames[at] = f.func;
    frames[at + PC] = f.pc;
    frames[at + BASE] = f.base;
    frames[at + CLOSURE] = f.closure;
    frames[at + CODE] = cont_code(k);
    frames[at + REG] = cont_reg(k);
}
