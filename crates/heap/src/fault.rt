// fault.rs: why a call stopped. 01: Fault sheet.
ghost use Rattle.std.specs.Prelude.{◌≡◌};
ghost use Rattle.heap.specs.Fault.{number_of, word_of};

#[derive(Clone, Copy)]
pub enum Fault {
    // 0: accepted
    None,
    // 1: nil or a dead reference
    NullReference,
    // 2: wrong kind of object or word, wrong argument count, await in a loop
    TypeError,
    // 3: coroutine state forbids it, or handed over before
    InvalidCoroState,
    // 4: depth or stack limit passed
    StackOverflow,
    // 5: suspending without an active coroutine
    CannotSuspend,
    // 6: yield while closing
    CloseIgnored,
    // 7: integer out of range
    ArithOverflow,
    // 8: Spawn without a hook
    NoScheduler,
    // 9: a memory charge or fit test fails
    OutOfMemory,
    // 10: bank and fuel both used up
    OutOfFuel,
    // 11: set-up or machine breaks the rules, or unwind gets no such fault
    Unsound,
    // 12: instruction, put word or function call without a frame
    NoFrame,
    // 13: register outside the frame, no such function, continuation not allowed
    BadOperand,
    // 14: every slot taken, or every row held by an unfinished coroutine
    Full,
    // 15: host call or entry while a frame stands
    Busy,
    // 16: grant's sum above 2^64 - 1
    GrantTooLarge,
    // 17: a thrown or uncaught word, given with the answer
    Throw(u64),
}

impl Fault {
    pub fn number(self) -> u64
        ensures { result ≡ number_of self }
    {
        match self {
            Fault::None => 0,
            Fault::NullReference => 1,
            Fault::TypeError => 2,
            Fault::InvalidCoroState => 3,
            Fault::StackOverflow => 4,
            Fault::CannotSuspend => 5,
            Fault::CloseIgnored => 6,
            Fault::ArithOverflow => 7,
            Fault::NoScheduler => 8,
            Fault::OutOfMemory => 9,
            Fault::OutOfFuel => 10,
            Fault::Unsound => 11,
            Fault::NoFrame => 12,
            Fault::BadOperand => 13,
            Fault::Full => 14,
            Fault::Busy => 15,
            Fault::GrantTooLarge => 16,
            Fault::Throw(_) => 17,
        }
    }

    // A refused answer's word: 0, except for 17.
    pub fn word(self) -> u64
        ensures { result ≡ word_of self }
    {
        if let Fault::Throw(w) = self { w } else { 0 }
    }
}
