// 01: "Every register operand must lie between the top frame's base and the stack's end; for CoroNew, CoroNewIndirect and Spawn the
// argument window too. The last register passes. A function number must name a function (13)."
ghost use Rattle.std.specs.Prelude.{◌≡◌, ◌&&◌, [], ◌∷◌, ltb};
ghost use Rattle.model.specs.Gate.{in_frame, all_in, window_in};
ghost use Rattle.model.specs.Added.{cont_allowed};
ghost use Rattle.model.specs.Calls.{table};
ghost use Rattle.exec_instruction.specs.Operands.{Tested, Passes};
ghost use Rattle.exec_instruction.specs.Instruction.{PcIs};

use model::call::Op;
use model::machine::Cont;

pub fn both(a: bool, b: bool) -> bool
    ensures { result ≡ (a && b) }
{
    if a {
        return b;
    }
    false
}

fn in_frame(base: u64, height: u64, r: u64) -> bool
    ensures { Tested base height (λ w. in_frame w r) result }
{
    if base < height {
        return r < height - base;
    }
    false
}

fn in_two(base: u64, height: u64, a: u16, b: u16) -> bool
    ensures { Tested base height (all_in (a ∷ b ∷ [])) result }
{
    both(
        in_frame(base, height, a as u64),
        both(in_frame(base, height, b as u64), true),
    )
}

fn in_three(base: u64, height: u64, a: u16, b: u16, c: u16) -> bool
    ensures { Tested base height (all_in (a ∷ b ∷ c ∷ [])) result }
{
    both(in_frame(base, height, a as u64), in_two(base, height, b, c))
}

fn in_four(base: u64, height: u64, a: u16, b: u16, c: u16, d: u16) -> bool
    ensures { Tested base height (all_in (a ∷ b ∷ c ∷ d ∷ [])) result }
{
    both(
        in_frame(base, height, a as u64),
        in_three(base, height, b, c, d),
    )
}

// "the argument window too. The last register passes."
fn window_in(base: u64, height: u64, dst: u16, argc: u8) -> bool
    ensures { Tested base height (λ w. window_in w dst argc) result }
{
    if base < height {
        return (dst as u64) + 1 + (argc as u64) <= height - base;
    }
    false
}

// "with Write, Dyn, Value or Discard (another continuation, or its register outside the frame, is 13)"
fn cont_in(base: u64, height: u64, k: Cont) -> bool
    ensures { Tested base height (λ w. cont_allowed w k) result }
{
    match k {
        Cont::Entry => false,
        Cont::Write(r) => in_frame(base, height, r),
        Cont::Dyn(r) => in_frame(base, height, r),
        Cont::Value(r) => in_frame(base, height, r),
        Cont::Discard => true,
        Cont::Coro => false,
    }
}

fn is_function(functions: u64, f: u32) -> bool
    ensures { result ≡ ltb f functions }
{
    (f as u64) < functions
}

// Whether the operands pass, where there are so many functions, and the top frame's registers lie from base to height.
pub fn passes(functions: u64, base: u64, height: u64, op: Op) -> bool
    ensures { Passes (table op) functions base height result }
{
    match op {
        Op::CoroNew {
            pc: _,
            dst,
            func,
            argc,
        } => both(
            both(
                in_frame(base, height, dst as u64),
                window_in(base, height, dst, argc),
            ),
            is_function(functions, func),
        ),
        Op::CoroNewIndirect {
            pc: _,
            dst,
            callee,
            argc,
        } => both(
            in_two(base, height, dst, callee),
            window_in(base, height, dst, argc),
        ),
        Op::Spawn {
            pc: _,
            dst,
            callee,
            argc,
        } => both(
            in_two(base, height, dst, callee),
            window_in(base, height, dst, argc),
        ),
        Op::Yield { pc: _, dst, src } => in_two(base, height, dst, src),
        Op::YieldKv {
            pc: _,
            dst,
            src,
            key,
        } => in_three(base, height, dst, src, key),
        Op::Await { pc: _, dst, src } => in_two(base, height, dst, src),
        Op::Resume {
            pc: _,
            dst,
            coro,
            src,
        } => in_three(base, height, dst, coro, src),
        Op::ResumeThrow {
            pc: _,
            dst,
            coro,
            src,
        } => in_three(base, height, dst, coro, src),
        Op::CoroClose {
            pc: _,
            dst,
            coro,
            src,
        } => in_three(base, height, dst, coro, src),
        Op::CoroStatus { pc: _, dst, coro } => in_two(base, height, dst, coro),
        Op::CoroCurrent { pc: _, dst } => both(in_frame(base, height, dst as u64), true),
        Op::CoroKey { pc: _, dst, coro } => in_two(base, height, dst, coro),
        Op::CoroResult { pc: _, dst, coro } => in_two(base, height, dst, coro),
        Op::IterNext {
            pc: _,
            has,
            iter,
            val,
            src,
        } => in_four(base, height, has, iter, val, src),
        Op::HostCall { func } => is_function(functions, func),
        Op::FunctionCall { pc: _, func, cont } => {
            both(is_function(functions, func), cont_in(base, height, cont))
        }
        Op::PutWord { reg, word: _ } => both(in_frame(base, height, reg as u64), true),
        _ => true,
    }
}

// The pc of an instruction.
pub fn pc_of(op: Op) -> u64
    ensures { PcIs op result }
{
    match op {
        Op::CoroNew {
            pc,
            dst: _,
            func: _,
            argc: _,
        } => pc as u64,
        Op::CoroNewIndirect {
            pc,
            dst: _,
            callee: _,
            argc: _,
        } => pc as u64,
        Op::Spawn {
            pc,
            dst: _,
            callee: _,
            argc: _,
        } => pc as u64,
        Op::Yield { pc, dst: _, src: _ } => pc as u64,
        Op::YieldKv {
            pc,
            dst: _,
            src: _,
            key: _,
        } => pc as u64,
        Op::Await { pc, dst: _, src: _ } => pc as u64,
        Op::Resume {
            pc,
            dst: _,
            coro: _,
            src: _,
        } => pc as u64,
        Op::ResumeThrow {
            pc,
            dst: _,
            coro: _,
            src: _,
        } => pc as u64,
        Op::CoroClose {
            pc,
            dst: _,
            coro: _,
            src: _,
        } => pc as u64,
        Op::CoroStatus {
            pc,
            dst: _,
            coro: _,
        } => pc as u64,
        Op::CoroCurrent { pc, dst: _ } => pc as u64,
        Op::CoroKey {
            pc,
            dst: _,
            coro: _,
        } => pc as u64,
        Op::CoroResult {
            pc,
            dst: _,
            coro: _,
        } => pc as u64,
        Op::IterNext {
            pc,
            has: _,
            iter: _,
            val: _,
            src: _,
        } => pc as u64,
        _ => 0,
    }
}
