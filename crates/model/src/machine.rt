// machine.rs: frames, the chain of running coroutines, outcomes and fuel.

// What happens to a callee's result when its frame returns.
#[derive(Clone, Copy)]
pub enum Cont {
    // the bottom frame of a run: the result leaves the machine
    Entry,
    // the result word goes to the caller's register; no result leaves it as it was
    Write(u64),
    // the result converted by to_dyn, nil for none
    Dyn(u64),
    // the result as it is, nil for none
    Value(u64),
    Discard,
    // the body of a coroutine: the result goes to whoever drove it
    Coro,
}

// Who resumed a running coroutine, and so receives what it produces next.
#[derive(Clone, Copy)]
pub enum Driver {
    // Resume, ResumeThrow or CoroClose: a register of the resumer's frame
    Resume(u64),
    // iter_next: two registers of its frame, and the iterator's word
    Iter { has: u64, val: u64, iter: u64 },
    Host,
    // a cleanup that a charge started
    Finalize,
}

// A running coroutine: its word, the index of its body frame, its driver.
#[derive(Clone, Copy)]
pub struct Active {
    pub coro: u64,
    pub floor: u64,
    pub driver: Driver,
}

#[derive(Clone, Copy)]
pub struct Frame {
    pub func: u64,
    // where it goes on; of a frame below the top, its call instruction
    pub pc: u64,
    pub base: u64,
    // the running closure, or nil
    pub closure: u64,
    pub cont: Cont,
}

// What a coroutine driven by the host did.
#[derive(Clone, Copy)]
pub enum Stop {
    Yielded(u64),
    Awaiting(u64),
    Returned(u64),
    // the word that escaped, with function and pc where it was raised
    Failed(u64, u64, u64),
    CloseIgnored,
}

// The fuel left; the fuel set aside while a cleanup is armed; whether one is ready (close_ready).
#[derive(Clone, Copy)]
pub struct Fuel {
    pub fuel: u64,
    pub bank: Option<u64>,
    pub ready: bool,
}

// The outcome of a fuel charge. Added: the number of queue words that it took off.
#[derive(Clone, Copy)]
pub enum Charge {
    // charged: go on
    Done(u64),
    // bank and fuel are both used up
    Spent,
    // a cleanup was started on top of the frames
    Close(u64),
}
