// Operands and their codes.
ghost use Rattle.std.specs.Prelude.{◌≡◌};
ghost use Rattle.memory_calls.specs.Codes.{as_pc, as_reg, as_argc, fault_of, kind_code, kind_of, opt_code, opt_word, opt_of};

use heap::fault::Fault;
use heap::heap::ResultKind;
use heap::value::{BITS8, BITS16, BITS32};

pub(crate) fn as_pc(n: u64) -> u32
    ensures { result ≡ as_pc n }
{
    (n % BITS32) as u32
}

pub(crate) fn as_reg(n: u64) -> u16
    ensures { result ≡ as_reg n }
{
    (n % BITS16) as u16
}

pub(crate) fn as_argc(n: u64) -> u8
    ensures { result ≡ as_argc n }
{
    (n % BITS8) as u8
}

// The fault of a number and a word.
pub fn fault_of(n: u64, w: u64) -> Fault
    ensures { result ≡ fault_of n w }
{
    match n {
        0 => Fault::None,
        1 => Fault::NullReference,
        2 => Fault::TypeError,
        3 => Fault::InvalidCoroState,
        4 => Fault::StackOverflow,
        5 => Fault::CannotSuspend,
        6 => Fault::CloseIgnored,
        7 => Fault::ArithOverflow,
        8 => Fault::NoScheduler,
        9 => Fault::OutOfMemory,
        10 => Fault::OutOfFuel,
        11 => Fault::Unsound,
        12 => Fault::NoFrame,
        13 => Fault::BadOperand,
        14 => Fault::Full,
        15 => Fault::Busy,
        16 => Fault::GrantTooLarge,
        17..=18446744073709551615 => Fault::Throw(w),
    }
}

// The result kind of a code.
pub(crate) fn kind_of(n: u64) -> ResultKind
    ensures { result ≡ kind_of n }
{
    match n {
        0 => ResultKind::None,
        1 => ResultKind::Dyn,
        2 => ResultKind::I64,
        3..=18446744073709551615 => ResultKind::U64,
    }
}

pub(crate) fn kind_code(k: ResultKind) -> u64
    ensures { result ≡ kind_code k }
{
    match k {
        ResultKind::None => 0,
        ResultKind::Dyn => 1,
        ResultKind::I64 => 2,
        ResultKind::U64 => 3,
    }
}

// A pc, if the code says that there is one.
pub(crate) fn opt_of(n: u64, pc: u64) -> Option<u32>
    ensures { result ≡ opt_of n pc }
{
    if n == 0 {
        return None;
    }
    Some(as_pc(pc))
}

pub(crate) fn opt_code(p: Option<u32>) -> u64
    ensures { result ≡ opt_code p }
{
    match p {
        None => 0,
        Some(_) => 1,
    }
}

pub(crate) fn opt_word(p: Option<u32>) -> u64
    ensures { result ≡ opt_word p }
{
    match p {
        None => 0,
        Some(pc) => pc as u64,
    }
}
