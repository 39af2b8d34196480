// program.rs: FuncInfo, in the form that 01 requires; and the numbers of a set-up. 01: Closing list.

// "Depth 1-128, stack 1-1,024 words, rows 1-64, slots 1-4,096 .. functions 1-32 .., registers 0-256"
pub const MOST_DEPTH: u64 = 128;

pub const MOST_STACK: usize = 1024;

pub const MOST_ROWS: usize = 64;

pub const MOST_SLOTS: usize = 4096;

pub const MOST_FUNCTIONS: usize = 32;

pub const MOST_REGS: u64 = 256;

// "Every function has at most eight handlers"
pub const MOST_HANDLERS: usize = 8;

// "Costs 0-65,536."
pub const MOST_COST: u64 = 65536;

// "up to 255 arguments are set aside"
pub const MOST_ARGS: usize = 255;

// A try region: at start ≤ pc < end the thrown word goes to register catch, and the frame to target.
#[derive(Clone, Copy)]
pub struct Handler {
    pub start: u64,
    pub end: u64,
    pub target: u64,
    pub catch: u64,
}

// FuncInfo. 01: "Every function has at most eight handlers, each with a catch register"
#[derive(Clone, Copy)]
pub struct Function {
    pub regs: u64,
    pub params: u64,
    pub handlers: [Handler; MOST_HANDLERS],
    pub count: u64,
}

#[derive(Clone, Copy)]
pub struct Limits {
    pub depth: u64,
    pub stack: u64,
    pub rows: u64,
    pub slots: u64,
    pub memory: u64,
}

// 01: "Costs are set-up numbers read from the Rust build"
#[derive(Clone, Copy)]
pub struct Costs {
    // F: FRAME_BYTES
    pub frame: u64,
    // C: the size of CoroObj
    pub coro: u64,
    // A, I, E, T: Object::bytes of a coroutine without rows, an integer, an error, an iterator
    pub object: u64,
    pub int: u64,
    pub error: u64,
    pub iter: u64,
}
