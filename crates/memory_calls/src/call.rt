// A call from its words.
ghost use Rattle.std.specs.Prelude.{◌≡◌, eqb};
ghost use Rattle.memory_calls.specs.Codes.{same};
ghost use Rattle.memory_calls.specs.Call.{six, no_fault, gate_by, refusal, op_of};

use crate::written::{Six, op_by, words_of};
use heap::fault::Fault;
use model::call::Op;

// The words of a call.
pub const CALL_WIDTH: usize = 6;

// What is tested before the operands of a call.
#[derive(Clone, Copy)]
pub enum Gate {
    // 11: an unwind of no such fault
    NoFault,
    // 12 without a frame: an instruction, a function call, a put word
    Frame,
    // 15 while a frame stands: a host call, a host entry
    Host,
    // nothing: 13
    Operand,
}

fn same_words(w: Six, n: u64, a: u64, b: u64, c: u64, d: u64, e: u64) -> bool
    ensures { result ≡ same (six w.0 w.1 w.2 w.3 w.4 w.5) (six n a b c d e) }
{
    if w.0 != n {
        return false;
    }
    if w.1 != a {
        return false;
    }
    if w.2 != b {
        return false;
    }
    if w.3 != c {
        return false;
    }
    if w.4 != d {
        return false;
    }
    if w.5 != e {
        return false;
    }
    true
}

// No fault that an unwind takes.
fn no_fault(a: u64) -> bool
    ensures { result ≡ no_fault a }
{
    if a == 0 {
        return true;
    }
    if a <= 10 {
        return false;
    }
    a != 17
}

fn gate_of(n: u64, a: u64) -> Gate
    ensures { result ≡ gate_by n a }
{
    if n < 14 {
        return Gate::Frame;
    }
    if n == 15 {
        if no_fault(a) {
            return Gate::NoFault;
        }
        return Gate::Operand;
    }
    if n < 17 {
        return Gate::Operand;
    }
    if n < 19 {
        return Gate::Host;
    }
    if n < 21 {
        return Gate::Frame;
    }
    Gate::Operand
}

// The number by which words that are no call are refused, of a machine of so many frames.
pub fn refusal(g: Gate, depth: usize) -> Fault
    ensures { result ≡ refusal g (eqb depth 0) }
{
    match g {
        Gate::NoFault => Fault::Unsound,
        Gate::Frame => {
            if depth == 0 {
                return Fault::NoFrame;
            }
            Fault::BadOperand
        }
        Gate::Host => {
            if depth == 0 {
                return Fault::BadOperand;
            }
            Fault::Busy
        }
        Gate::Operand => Fault::BadOperand,
    }
}

fn read_six(n: u64, a: u64, b: u64, c: u64, d: u64, e: u64) -> Result<Op, Gate>
    ensures { result ≡ op_of (six n a b c d e) }
{
    let op = op_by(n, a, b, c, d, e);
    let w = words_of(op);
    if same_words(w, n, a, b, c, d, e) {
        return Ok(op);
    }
    Err(gate_of(n, a))
}

// The call that the words are, or the test that refuses them.
pub fn op_of(words: &[u64]) -> Result<Op, Gate>
    ensures { result ≡ op_of words.now }
{
    if words.len() != CALL_WIDTH {
        return Err(Gate::Operand);
    }
    read_six(words[0], words[1], words[2], words[3], words[4], words[5])
}
