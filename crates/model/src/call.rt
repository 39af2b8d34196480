// The calls of 01, and their answers.

use crate::exec::Step;
use crate::machine::{Cont, Stop};
use heap::fault::Fault;
use heap::heap::ResultKind;
use heap::value::Word;

// Every call but the set-up, whose operands are a table. An instruction has its pc first, then its operands in the order
// that exec spells them. pc and function numbers have 32 bits, registers 16, argument counts 8, words 64; a continuation
// is the one that a frame stores.
#[derive(Clone, Copy)]
pub enum Op {
    CoroNew {
        pc: u32,
        dst: u16,
        func: u32,
        argc: u8,
    },
    CoroNewIndirect {
        pc: u32,
        dst: u16,
        callee: u16,
        argc: u8,
    },
    Spawn {
        pc: u32,
        dst: u16,
        callee: u16,
        argc: u8,
    },
    Yield {
        pc: u32,
        dst: u16,
        src: u16,
    },
    YieldKv {
        pc: u32,
        dst: u16,
        src: u16,
        key: u16,
    },
    Await {
        pc: u32,
        dst: u16,
        src: u16,
    },
    Resume {
        pc: u32,
        dst: u16,
        coro: u16,
        src: u16,
    },
    ResumeThrow {
        pc: u32,
        dst: u16,
        coro: u16,
        src: u16,
    },
    CoroClose {
        pc: u32,
        dst: u16,
        coro: u16,
        src: u16,
    },
    CoroStatus {
        pc: u32,
        dst: u16,
        coro: u16,
    },
    CoroCurrent {
        pc: u32,
        dst: u16,
    },
    CoroKey {
        pc: u32,
        dst: u16,
        coro: u16,
    },
    CoroResult {
        pc: u32,
        dst: u16,
        coro: u16,
    },
    IterNext {
        pc: u32,
        has: u16,
        iter: u16,
        val: u16,
        src: u16,
    },
    Finish {
        kind: ResultKind,
        word: u64,
    },
    Unwind {
        fault: Fault,
        pc: Option<u32>,
    },
    SpawnTask {
        word: u64,
    },
    HostCall {
        func: u32,
    },
    HostEntry {
        coro: u64,
        word: u64,
    },
    FunctionCall {
        pc: u32,
        func: u32,
        cont: Cont,
    },
    PutWord {
        reg: u16,
        word: u64,
    },
    MakeIterator {
        src: u64,
    },
    TakeOutcome,
    HandOver {
        coro: u64,
    },
    Grant {
        amount: u64,
    },
    StopRun,
    Look,
}

#[derive(Clone, Copy)]
pub enum Answer {
    // accepted, with no word of its own
    Accepted,
    // accepted: the word of make iterator or spawn_task
    Word(u64),
    // refused: a call that is no instruction, or an instruction at its gate
    Refused(Fault),
    // an instruction past its gate: its Step, and the queue words that its charge took off
    Stepped { step: Step, taken: u64 },
    // an instruction whose charge started a cleanup: 17 with nil, as an unwinding
    Cleanup { taken: u64 },
    // Spawn's 10 at its hook: the coroutine was made, and one unit is gone
    Unpaid { taken: u64 },
    // finish: exit, with its word or none
    Exit(Option<u64>),
    // finish: resume
    Resume,
    // unwind: a handler was taken
    Caught,
    // unwind: stopped at the host, at a cleanup, or at a close that succeeded
    Stopped,
    // take outcome
    Took(Option<Stop>),
}
