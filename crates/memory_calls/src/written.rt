// A call and its six words.
ghost use Rattle.std.specs.Prelude.{◌≡◌, [], ◌∷◌};
ghost use Rattle.memory_calls.specs.Call.{op_by, op_words};

use crate::codes::{
    as_argc, as_pc, as_reg, fault_of, kind_code, kind_of, opt_code, opt_of, opt_word,
};
use crate::layout;
use memory_tables::frame::{cont_code, cont_of, cont_reg};
use model::call::Op;

// The call of a code and five operands.
pub(crate) fn op_by(n: u64, a: u64, b: u64, c: u64, d: u64, e: u64) -> Op
    ensures { result ≡ op_by n a b c d e }
{
    let pa = as_pc(a);
    let pb = as_pc(b);
    let pc = as_pc(c);
    let ra = as_reg(a);
    let rb = as_reg(b);
    let rc = as_reg(c);
    let rd = as_reg(d);
    let re = as_reg(e);
    let nd = as_argc(d);
    match n {
        0 => Op::CoroNew {
            pc: pa,
            dst: rb,
            func: pc,
            argc: nd,
        },
        1 => Op::CoroNewIndirect {
            pc: pa,
            dst: rb,
            callee: rc,
            argc: nd,
        },
        2 => Op::Spawn {
            pc: pa,
            dst: rb,
            callee: rc,
            argc: nd,
        },
        3 => Op::Yield {
            pc: pa,
            dst: rb,
            src: rc,
        },
        4 => Op::YieldKv {
            pc: pa,
            dst: rb,
            src: rc,
            key: rd,
        },
        5 => Op::Await {
            pc: pa,
            dst: rb,
            src: rc,
        },
        6 => Op::Resume {
            pc: pa,
            dst: rb,
            coro: rc,
            src: rd,
        },
        7 => Op::ResumeThrow {
            pc: pa,
            dst: rb,
            coro: rc,
            src: rd,
        },
        8 => Op::CoroClose {
            pc: pa,
            dst: rb,
            coro: rc,
            src: rd,
        },
        9 => Op::CoroStatus {
            pc: pa,
            dst: rb,
            coro: rc,
        },
        10 => Op::CoroCurrent { pc: pa, dst: rb },
        11 => Op::CoroKey {
            pc: pa,
            dst: rb,
            coro: rc,
        },
        12 => Op::CoroResult {
            pc: pa,
            dst: rb,
            coro: rc,
        },
        13 => Op::IterNext {
            pc: pa,
            has: rb,
            iter: rc,
            val: rd,
            src: re,
        },
        14 => Op::Finish {
            kind: kind_of(a),
            word: b,
        },
        15 => Op::Unwind {
            fault: fault_of(a, b),
            pc: opt_of(c, d),
        },
        16 => Op::SpawnTask { word: a },
        17 => Op::HostCall { func: pa },
        18 => Op::HostEntry { coro: a, word: b },
        19 => Op::FunctionCall {
            pc: pa,
            func: pb,
            cont: cont_of(c, d),
        },
        20 => Op::PutWord { reg: ra, word: b },
        21 => Op::MakeIterator { src: a },
        22 => Op::TakeOutcome,
        23 => Op::HandOver { coro: a },
        24 => Op::Grant { amount: a },
        25 => Op::StopRun,
        26..=18446744073709551615 => Op::Look,
    }
}

#[derive(Clone, Copy)]
pub struct Six(pub u64, pub u64, pub u64, pub u64, pub u64, pub u64);

// The words of a call.
pub fn words_of(op: Op) -> Six
    ensures { result.0 ∷ result.1 ∷ result.2 ∷ result.3 ∷ result.4 ∷ result.5 ∷ [] ≡ op_words op }
{
    match op {
        Op::CoroNew {
            pc,
            dst,
            func,
            argc,
        } => Six(0, pc as u64, dst as u64, func as u64, argc as u64, 0),
        Op::CoroNewIndirect {
            pc,
            dst,
            callee,
            argc,
        } => Six(1, pc as u64, dst as u64, callee as u64, argc as u64, 0),
        Op::Spawn {
            pc,
            dst,
            callee,
            argc,
        } => Six(2, pc as u64, dst as u64, callee as u64, argc as u64, 0),
        Op::Yield { pc, dst, src } => Six(layout::YIELD, pc as u64, dst as u64, src as u64, 0, 0),
        Op::YieldKv { pc, dst, src, key } => Six(
            4, pc as u64, dst as u64, src as u64, key as u64, 0,
        ),
        Op::Await { pc, dst, src } => Six(5, pc as u64, dst as u64, src as u64, 0, 0),
        Op::Resume { pc, dst, coro, src } => Six(
            layout::RESUME,
            pc as u64,
            dst as u64,
            coro as u64,
            src as u64,
            0,
        ),
        Op::ResumeThrow { pc, dst, coro, src } => Six(
            7,
            pc as u64,
            dst as u64,
            coro as u64,
            src as u64,
            0,
        ),
        Op::CoroClose { pc, dst, coro, src } => Six(
            8,
            pc as u64,
            dst as u64,
            coro as u64,
            src as u64,
            0,
        ),
        Op::CoroStatus { pc, dst, coro } => Six(9, pc as u64, dst as u64, coro as u64, 0, 0),
        Op::CoroCurrent { pc, dst } => Six(10, pc as u64, dst as u64, 0, 0, 0),
        Op::CoroKey { pc, dst, coro } => Six(11, pc as u64, dst as u64, coro as u64, 0, 0),
        Op::CoroResult { pc, dst, coro } => Six(12, pc as u64, dst as u64, coro as u64, 0, 0),
        Op::IterNext {
            pc,
            has,
            iter,
            val,
            src,
        } => Six(
            13,
            pc as u64,
            has as u64,
            iter as u64,
            val as u64,
            src as u64,
        ),
        Op::Finish { kind, word } => Six(14, kind_code(kind), word, 0, 0, 0),
        Op::Unwind { fault, pc } => Six(
            15,
            fault.number(),
            fault.word(),
            opt_code(pc),
            opt_word(pc),
            0,
        ),
        Op::SpawnTask { word } => Six(16, word, 0, 0, 0, 0),
        Op::HostCall { func } => Six(17, func as u64, 0, 0, 0, 0),
        Op::HostEntry { coro, word } => Six(18, coro, word, 0, 0, 0),
        Op::FunctionCall { pc, func, cont } => Six(
            19,
            pc as u64,
            func as u64,
            cont_code(cont),
            cont_reg(cont),
            0,
        ),
        Op::PutWord { reg, word } => Six(20, reg as u64, word, 0, 0, 0),
        Op::MakeIterator { src } => Six(21, src, 0, 0, 0, 0),
        Op::TakeOutcome => Six(22, 0, 0, 0, 0, 0),
        Op::HandOver { coro } => Six(23, coro, 0, 0, 0, 0),
        Op::Grant { amount } => Six(24, amount, 0, 0, 0, 0),
        Op::StopRun => Six(25, 0, 0, 0, 0, 0),
        Op::Look => Six(26, 0, 0, 0, 0, 0),
    }
}
