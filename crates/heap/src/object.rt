// heap.rs: Object. A coroutine's saved registers and frames are rows of the upper crate.
ghost use Rattle.std.specs.Prelude.{◌≡◌};
ghost use Rattle.heap.specs.Object.{code_of, state_of};
ghost use Rattle.heap.specs.State.{is_created, is_running, is_awaiting, is_returned};

// 01: "State codes"
#[derive(Clone, Copy)]
pub enum CoroState {
    Created,
    Running,
    Yielded,
    Awaiting,
    Returned,
    Failed,
}

impl CoroState {
    pub fn code(self) -> u64
        ensures { result ≡ code_of self }
    {
        match self {
            CoroState::Created => 0,
            CoroState::Running => 1,
            CoroState::Yielded => 2,
            CoroState::Awaiting => 3,
            CoroState::Returned => 4,
            CoroState::Failed => 5,
        }
    }

    pub(crate) fn of_code(n: u64) -> Self
        ensures { result ≡ state_of n }
    {
        match n {
            0 => CoroState::Created,
            1 => CoroState::Running,
            2 => CoroState::Yielded,
            3 => CoroState::Awaiting,
            4 => CoroState::Returned,
            _ => CoroState::Failed,
        }
    }

    // Made, and not entered yet.
    pub fn is_created(self) -> bool
        ensures { result ≡ is_created self }
    {
        matches!(self, CoroState::Created)
    }

    // Entered, and neither suspended nor ended since.
    pub fn is_running(self) -> bool
        ensures { result ≡ is_running self }
    {
        matches!(self, CoroState::Running)
    }

    // Suspended by an Await.
    pub fn is_awaiting(self) -> bool
        ensures { result ≡ is_awaiting self }
    {
        matches!(self, CoroState::Awaiting)
    }

    // Ended with a result.
    pub fn is_returned(self) -> bool
        ensures { result ≡ is_returned self }
    {
        matches!(self, CoroState::Returned)
    }
}

// heap.rs: CoroObj
#[derive(Clone, Copy)]
pub struct CoroObj {
    pub state: CoroState,
    pub closing: bool,
    // queued for a cleanup once, never again
    pub finalized: bool,
    pub task: bool,
    // creation order
    pub seq: u64,
    // the row of its saved registers and frames, while it is unfinished
    pub row: u64,
    // how many registers and frames are saved there
    pub regs: u64,
    pub frames: u64,
    // the largest saved sizes so far (the Rust's Vec capacities)
    pub maxregs: u64,
    pub maxframes: u64,
    // resume_dst: the register that receives the sent word
    pub waiting: u64,
    pub payload: u64,
    pub key: u64,
    // max_key: the largest integer key so far, as 64 bits of two's complement
    pub largest: u64,
    pub result: u64,
    pub signal: u64,
}

#[derive(Clone, Copy)]
pub enum Object {
    // no object: heap.rs's None in a slot
    Empty,
    // a function value; its number
    Func(u64),
    // an integer outside the inline range, as 64 bits of two's complement
    Int(u64),
    // heap.rs: IterObj, over a coroutine
    Iter {
        src: u64,
        done: bool,
        key: Option<u64>,
    },
    // heap.rs: ErrorObj; kind is 01's number
    Error {
        kind: u64,
        func: u64,
        pc: u64,
        payload: u64,
    },
    Coro(CoroObj),
}
