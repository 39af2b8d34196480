// Where the words of an answer stand, and the codes that are written elsewhere too (docs/ABI.md).
pub const NUMBER: usize = 0;

pub const WORD: usize = 1;

pub const STEP: usize = 2;

pub const TAKEN: usize = 3;

pub const CASE: usize = 4;

pub const OUTCOME: usize = 5;

pub const OUTCOME_FUNC: usize = 6;

pub const OUTCOME_PC: usize = 7;

// The codes of a step.
pub const NEXT: u64 = 1;

pub const FRAME: u64 = 2;

pub const FAULT: u64 = 3;

pub const UNWIND: u64 = 4;

// The case of an answer with a step, and of one that a handler took.
pub const STEPPED: u64 = 3;

pub const CAUGHT: u64 = 9;

// The codes of two calls.
pub const YIELD: u64 = 3;

pub const RESUME: u64 = 6;
