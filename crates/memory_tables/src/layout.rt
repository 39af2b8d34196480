// Where the words of a set-up stand.

// Its limits.
pub const DEPTH: usize = 0;

pub const STACK: usize = 1;

pub const ROWS: usize = 2;

pub const SLOTS: usize = 3;

pub const MEMORY: usize = 4;

// Its costs.
pub const FRAME_COST: usize = 5;

pub const CORO_COST: usize = 6;

pub const OBJECT_COST: usize = 7;

pub const INT_COST: usize = 8;

pub const ERROR_COST: usize = 9;

pub const ITER_COST: usize = 10;

// Whether there is a hook, and its function.
pub const HOOK: usize = 11;

pub const HOOK_FUNCTION: usize = 12;

// How many functions there are.
pub const FUNCTIONS: usize = 13;

// In the words of a function, after its registers: its parameters, how many handlers it has, and the first of them.
pub const PARAMS: usize = 1;

pub const HANDLERS: usize = 2;

pub const FIRST_HANDLER: usize = 3;

// In the words of a handler, after its start.
pub const END: usize = 1;

pub const TARGET: usize = 2;

pub const CATCH: usize = 3;
