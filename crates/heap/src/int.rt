// int.rs: value, at its two types, and the words of integers. An i64 is kept as its 64 bits of two's complement.
ghost use Rattle.std.specs.Prelude.{◌≡◌, max};
ghost use Rattle.heap.specs.Coding.{of_bits};
ghost use Rattle.heap.specs.Int.{value_of, exactly, next_key, less_bits};

use crate::value::MOST64;

// The sign in 64 bits of two's complement; the largest integer, and -1.
const SIGN: u64 = 0x8000_0000_0000_0000;

const MOST_INT: u64 = SIGN - 1;

pub const MINUS_ONE: u64 = MOST64;

// The types that a result is read at.
#[derive(Clone, Copy)]
pub enum IntTy {
    I64,
    U64,
}

// The larger of two numbers.
pub fn larger(a: u64, b: u64) -> u64
    ensures { result ≡ max a b }
{
    a.max(b)
}

// int.rs: value. The value of register bits read at a type, as an i64. The Rust gives an i128, and uses only whether the value fits.
pub fn value(ty: IntTy, bits: u64) -> Option<u64>
    ensures { result ≡ exactly (value_of ty bits) }
{
    match ty {
        IntTy::I64 => Some(bits),
        IntTy::U64 => { if bits < SIGN { Some(bits) } else { None } }
    }
}

// coro.rs: auto_key's next key.
pub fn next_key(largest: u64) -> Option<u64>
    ensures { result ≡ next_key largest }
{
    if largest == MOST_INT {
        None
    } else if largest == MINUS_ONE {
        Some(0)
    } else {
        Some(largest + 1)
    }
}

// The order of two integers.
pub fn less(a: u64, b: u64) -> bool
    ensures { result ≡ less_bits a b }
{
    if (a < SIGN) == (b < SIGN) {
        a < b
    } else {
        b < SIGN
    }
}
