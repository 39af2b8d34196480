// coro.rs: what a suspension hands on, what an entry finds, and what a cleanup's start answers.

use heap::fault::Fault;

// What a suspending coroutine hands its driver.
#[derive(Clone, Copy)]
pub enum Event {
    Yielded { payload: u64, key: u64 },
    Awaiting(u64),
    // it yielded while being closed
    CloseIgnored,
}

// What an entry finds: coro_enter answers Result<Entered, Fault>.
#[derive(Clone, Copy)]
pub enum Entered {
    // it was Created: its body starts at pc 0
    Fresh,
    // it was suspended: the sent word goes to this register of its top frame
    Suspended(u64),
}

// start_finalizer: whether a coroutine was entered. Added: the number of queue words that it took off.
#[derive(Clone, Copy)]
pub struct Started {
    pub entered: bool,
    pub taken: u64,
}
