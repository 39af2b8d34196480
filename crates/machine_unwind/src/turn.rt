// machine.rs: unwind, what becomes of a raised word in one frame.
ghost use Rattle.std.specs.Prelude.{◌≡◌, false};
ghost use Rattle.model.specs.Frames.{is_coro};
ghost use Rattle.machine_unwind.specs.Turns.{is_spent, goes_on, Passes, Halts};

use heap::fault::Fault;
use model::call::Answer;
use model::machine::{Charge, Cont};

// Where a word was raised.
#[derive(Clone, Copy)]
pub struct Origin {
    pub func: u64,
    pub pc: u64,
}

pub(crate) fn is_spent(c: Charge) -> bool
    ensures { result ≡ is_spent c }
{
    match c {
        Charge::Done(_) => false,
        Charge::Spent => true,
        Charge::Close(_) => false,
    }
}

pub(crate) fn is_coro(k: Cont) -> bool
    ensures { result ≡ is_coro k }
{
    match k {
        Cont::Entry => false,
        Cont::Write(_) => false,
        Cont::Dyn(_) => false,
        Cont::Value(_) => false,
        Cont::Discard => false,
        Cont::Coro => true,
    }
}

// A frame that is no coroutine's body is gone: the word is uncaught, or goes on below.
pub(crate) fn passed(k: Cont, value: u64) -> Answer
    requires { is_coro k ≡ false }
    ensures { Passes k value result }
{
    match k {
        Cont::Entry => Answer::Refused(Fault::Throw(value)),
        Cont::Write(_) => Answer::Resume,
        Cont::Dyn(_) => Answer::Resume,
        Cont::Value(_) => Answer::Resume,
        Cont::Discard => Answer::Resume,
        Cont::Coro => Answer::Resume,
    }
}

// A coroutine has been escaped.
pub(crate) fn halted(stops: bool) -> Answer
    ensures { Halts stops result }
{
    if stops {
        return Answer::Stopped;
    }
    Answer::Resume
}

pub(crate) fn goes_on(a: Answer) -> bool
    ensures { result ≡ goes_on a }
{
    match a {
        Answer::Accepted => false,
        Answer::Word(_) => false,
        Answer::Refused(_) => false,
        Answer::Stepped { step: _, taken: _ } => false,
        Answer::Cleanup { taken: _ } => false,
        Answer::Unpaid { taken: _ } => false,
        Answer::Exit(_) => false,
        Answer::Resume => true,
        Answer::Caught => false,
        Answer::Stopped => false,
        Answer::Took(_) => false,
    }
}
