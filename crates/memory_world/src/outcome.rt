// An outcome in words, and read from them.
ghost use Rattle.std.specs.Prelude.{◌≡◌};
ghost use Rattle.memory_world.specs.Told.{told, outcome_in};

use crate::machine::Told;
use model::machine::Stop;

// The numbers of what a coroutine did.
pub const NONE: u64 = 0;

pub const YIELDED: u64 = 1;

pub const AWAITING: u64 = 2;

pub const RETURNED: u64 = 3;

pub const FAILED: u64 = 4;

pub const CLOSE_IGNORED: u64 = 5;

// What the coroutine did, in words.
pub fn told_stop(s: Stop) -> Told
    ensures { result ≡ told (Some s) }
{
    match s {
        Stop::Yielded(v) => Told(YIELDED, v, 0, 0),
        Stop::Awaiting(v) => Told(AWAITING, v, 0, 0),
        Stop::Returned(v) => Told(RETURNED, v, 0, 0),
        Stop::Failed(v, f, pc) => Told(FAILED, v, f, pc),
        Stop::CloseIgnored => Told(CLOSE_IGNORED, 0, 0, 0),
    }
}

pub fn told_outcome(o: Option<Stop>) -> Told
    ensures { result ≡ told o }
{
    match o {
        None => Told(NONE, 0, 0, 0),
        Some(s) => told_stop(s),
    }
}

// The outcome that the words tell.
pub fn outcome_in(t: Told) -> Option<Stop>
    ensures { result ≡ outcome_in t }
{
    if t.0 == NONE {
        return None;
    }
    if t.0 == YIELDED {
        return Some(Stop::Yielded(t.1));
    }
    if t.0 == AWAITING {
        return Some(Stop::Awaiting(t.1));
    }
    if t.0 == RETURNED {
        return Some(Stop::Returned(t.1));
    }
    if t.0 == FAILED {
        return Some(Stop::Failed(t.1, t.2, t.3));
    }
    Some(Stop::CloseIgnored)
}
