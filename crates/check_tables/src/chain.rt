// The chain of running coroutines beside the frames, from the top down.
ghost use Rattle.std.specs.Prelude.{◌≡◌, ◌+◌, ◌*◌, ◌≤◌, length};
ghost use Rattle.model.specs.Sound.{driver_lies};
ghost use Rattle.memory_tables.specs.Layout.{driver_of, frame_of};
ghost use Rattle.memory_tables.specs.Parts.{piled};
ghost use Rattle.check_tables.specs.Chain.{driver_held, active_test, chain_test, chain_ok, ChainFits};

use crate::frames::lies_under;
use memory_tables::active::ACTIVE_WIDTH;
use memory_tables::frame::FRAME_WIDTH;
use memory_tables::{active, frame};

// A driver's code and its three numbers.
fn driver_held(code: u64, a: u64, b: u64, c: u64) -> bool
    ensures { result ≡ driver_held code a b c }
{
    if code == active::ITER {
        return true;
    }
    if active::FINALIZE < code {
        return false;
    }
    if b != 0 {
        return false;
    }
    if c != 0 {
        return false;
    }
    if code == active::RESUME {
        return true;
    }
    a == 0
}

// Whether a driver's registers lie in the frame below the one at place i, which begins at `end`.
fn driver_lies(frames: &[u64], i: usize, code: u64, a: u64, b: u64, c: u64, end: u64) -> bool
    requires { i * 6 ≤ length frames.now }
    ensures { result ≡ driver_lies (driver_of code a b c) end (piled 6 frame_of i frames.now) }
{
    active::ITER < code
        || (lies_under(frames, i, a, end)
            && (code == active::RESUME || lies_under(frames, i, b, end)))
}

// The active one at place k, whose body is frame i.
fn active_ok(chain: &[u64], frames: &[u64], k: usize, i: usize) -> bool
    requires { (k * 6 + 6 ≤ length chain.now) × (i * 6 + 6 ≤ length frames.now) }
    ensures { result ≡ active_test chain.now frames.now k i }
{
    let at = k * ACTIVE_WIDTH;
    if chain[at + active::FLOOR] as usize != i {
        return false;
    }
    let code = chain[at + active::CODE];
    let a = chain[at + active::FIRST];
    let b = chain[at + active::SECOND];
    let c = chain[at + active::THIRD];
    if !driver_held(code, a, b, c) {
        return false;
    }
    let base = memory_tables::frame::base_at(frames, i) as u64;
    driver_lies(frames, i, code, a, b, c, base)
}

// n active ones beside so many frames.
fn chain_over(chain: &[u64], frames: &[u64], n: usize, depth: usize) -> bool
    requires { ChainFits chain.now frames.now n depth }
    ensures { result ≡ chain_test chain.now frames.now depth n }
{
    let mut k = n;
    for i in (0..depth).rev() {
        if frame::DISCARD < frames[i * FRAME_WIDTH + frame::CODE] {
            if k == 0 {
                return false;
            }
            k -= 1;
            if !active_ok(chain, frames, k, i) {
                return false;
            }
        }
    }
    k == 0
}

// The chain, and zeros after it.
pub fn chain_ok(chain: &[u64], frames: &[u64], n: usize, depth: usize) -> bool
    requires { ChainFits chain.now frames.now n depth }
    ensures { result ≡ chain_ok chain.now n frames.now depth }
{
    chain_over(chain, frames, n, depth) && crate::rest::rest_ok(chain, n * ACTIVE_WIDTH)
}
