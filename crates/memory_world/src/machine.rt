// The numbers beside the lent words.
use model::program::Costs;

// An outcome in words: 0 for none, else the number of what the coroutine did; the word handed on; of a failure, function and pc.
// Not the model's enum: most functions only pass it on, and the compiler copies an enum case by case. An outcome has one such form.
#[derive(Clone, Copy)]
pub struct Told(pub u64, pub u64, pub u64, pub u64);

// Words on the stack, frames, running coroutines, slots taken, words in the two queues; whether a cleanup runs, the outcome, the
// bytes charged, and the next coroutine's number.
#[derive(Clone, Copy)]
pub struct Machine {
    pub height: usize,
    pub depth: usize,
    pub active: usize,
    pub count: usize,
    pub ready: usize,
    pub finalize: usize,
    pub finalizing: bool,
    pub outcome: Told,
    pub used: u64,
    pub seq: u64,
}

// What a set-up says: the limits, the words of a row of saved registers, and the costs.
#[derive(Clone, Copy)]
pub struct Sizes {
    pub depth: usize,
    pub stack: usize,
    pub rows: usize,
    pub slots: usize,
    pub memory: u64,
    pub width: usize,
    pub costs: Costs,
}
