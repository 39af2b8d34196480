// The calls of the story, one after the other. `specs/Story.antt` tells them.
ghost use Rattle.std.specs.Prelude.{◌≡◌, slice_index_or};
ghost use Rattle.furnace.specs.Story.{story};

use heap::fault::Fault;
use heap::heap::ResultKind;
use heap::value::Word;
use model::call::Op;
use model::machine::Cont;

// The words of the coroutines, and of the iterator over the sensor: the slots after the six functions.
const ZONE1: u64 = Word::REF + 6;

const ZONE2: u64 = Word::REF + 7;

const RECIPE: u64 = Word::REF + 8;

const SENSOR: u64 = Word::REF + 9;

const READINGS: u64 = Word::REF + 10;

// The integer 0 as a word.
const INT: u64 = Word::INT;

// How many there are.
pub(crate) const CALLS: usize = 58;

pub(crate) fn call(i: usize) -> Op
    ensures { result ≡ slice_index_or story i Op.Look }
{
    match i {
        // the line makes three coroutines; each starts and sleeps
        0 => Op::Grant { amount: 23 },
        1 => Op::HostCall { func: 0 },
        2 => Op::PutWord {
            reg: 1,
            word: INT + 820,
        },
        3 => Op::CoroNew {
            pc: 1,
            dst: 0,
            func: 1,
            argc: 1,
        },
        4 => Op::PutWord {
            reg: 2,
            word: INT + 640,
        },
        5 => Op::CoroNew {
            pc: 2,
            dst: 1,
            func: 1,
            argc: 1,
        },
        6 => Op::PutWord {
            reg: 3,
            word: INT + 910,
        },
        7 => Op::CoroNew {
            pc: 3,
            dst: 2,
            func: 5,
            argc: 1,
        },
        8 => Op::Resume {
            pc: 4,
            dst: 3,
            coro: 0,
            src: 4,
        },
        9 => Op::PutWord {
            reg: 1,
            word: INT + 815,
        },
        10 => Op::Yield {
            pc: 1,
            dst: 2,
            src: 1,
        },
        11 => Op::Resume {
            pc: 5,
            dst: 4,
            coro: 1,
            src: 4,
        },
        12 => Op::CoroNew {
            pc: 1,
            dst: 4,
            func: 2,
            argc: 0,
        },
        13 => Op::MakeIterator { src: SENSOR },
        14 => Op::PutWord {
            reg: 3,
            word: READINGS,
        },
        15 => Op::IterNext {
            pc: 2,
            has: 5,
            iter: 3,
            val: 1,
            src: 4,
        },
        16 => Op::PutWord {
            reg: 0,
            word: INT + 633,
        },
        17 => Op::Yield {
            pc: 1,
            dst: 2,
            src: 0,
        },
        18 => Op::FunctionCall {
            pc: 3,
            func: 3,
            cont: Cont::Dyn(2),
        },
        19 => Op::PutWord {
            reg: 0,
            word: INT + 7,
        },
        20 => Op::PutWord {
            reg: 1,
            word: INT + 3,
        },
        21 => Op::Await {
            pc: 1,
            dst: 2,
            src: 0,
        },
        22 => Op::Resume {
            pc: 6,
            dst: 5,
            coro: 2,
            src: 4,
        },
        23 => Op::PutWord {
            reg: 1,
            word: INT + 55,
        },
        24 => Op::Yield {
            pc: 20,
            dst: 2,
            src: 1,
        },
        // the survey wakes zone 2, and zone 2 wakes zone 1
        25 => Op::FunctionCall {
            pc: 7,
            func: 4,
            cont: Cont::Dyn(6),
        },
        26 => Op::PutWord {
            reg: 0,
            word: ZONE2,
        },
        27 => Op::PutWord {
            reg: 2,
            word: INT + 9,
        },
        28 => Op::Resume {
            pc: 1,
            dst: 1,
            coro: 0,
            src: 2,
        },
        29 => Op::Finish {
            kind: ResultKind::Dyn,
            word: INT + 635,
        },
        30 => Op::IterNext {
            pc: 5,
            has: 5,
            iter: 3,
            val: 1,
            src: 4,
        },
        31 => Op::PutWord {
            reg: 0,
            word: INT + 636,
        },
        32 => Op::Yield {
            pc: 2,
            dst: 2,
            src: 0,
        },
        33 => Op::PutWord {
            reg: 5,
            word: ZONE1,
        },
        34 => Op::Resume {
            pc: 6,
            dst: 2,
            coro: 5,
            src: 0,
        },
        35 => Op::PutWord {
            reg: 1,
            word: INT + 819,
        },
        36 => Op::Yield {
            pc: 2,
            dst: 2,
            src: 1,
        },
        37 => Op::Yield {
            pc: 7,
            dst: 2,
            src: 1,
        },
        // the recipe is dropped, and its cleanup block runs
        38 => Op::HandOver { coro: RECIPE },
        39 => Op::CoroStatus {
            pc: 2,
            dst: 3,
            coro: 0,
        },
        40 => Op::Unwind {
            fault: Fault::Throw(Word::NIL),
            pc: None,
        },
        41 => Op::PutWord { reg: 1, word: INT },
        42 => Op::Finish {
            kind: ResultKind::Dyn,
            word: INT,
        },
        43 => Op::CoroStatus {
            pc: 2,
            dst: 3,
            coro: 0,
        },
        44 => Op::Finish {
            kind: ResultKind::Dyn,
            word: INT + 1,
        },
        // zone 1 runs away
        45 => Op::Resume {
            pc: 8,
            dst: 3,
            coro: 0,
            src: 4,
        },
        46 => Op::CoroCurrent { pc: 3, dst: 4 },
        47 => Op::CoroCurrent { pc: 3, dst: 4 },
        48 => Op::CoroCurrent { pc: 3, dst: 4 },
        49 => Op::CoroCurrent { pc: 3, dst: 4 },
        50 => Op::StopRun,
        // the host wakes those who slept through it, and takes their outcomes
        51 => Op::Grant { amount: 10 },
        52 => Op::HostEntry {
            coro: SENSOR,
            word: INT + 650,
        },
        53 => Op::Finish {
            kind: ResultKind::Dyn,
            word: INT + 637,
        },
        54 => Op::TakeOutcome,
        55 => Op::HostEntry {
            coro: ZONE2,
            word: INT + 660,
        },
        56 => Op::Finish {
            kind: ResultKind::Dyn,
            word: INT + 640,
        },
        57 => Op::TakeOutcome,
        _ => Op::Look,
    }
}
