// Where the words of a slot stand.
pub(crate) const TAG: usize = 0;

pub(crate) const KIND: usize = 1;

// The fields of an object that is no coroutine, and where the zeros after them begin.
pub(crate) const FIRST: usize = 2;

pub(crate) const SECOND: usize = 3;

pub(crate) const THIRD: usize = 4;

pub(crate) const FOURTH: usize = 5;

pub(crate) const AFTER: usize = 6;

// The fields of a coroutine, and the two zeros after them.
pub(crate) const STATE: usize = 2;

pub(crate) const CLOSING: usize = 3;

pub(crate) const FINALIZED: usize = 4;

pub(crate) const TASK: usize = 5;

pub(crate) const SEQ: usize = 6;

pub(crate) const ROW: usize = 7;

pub(crate) const REGS: usize = 8;

pub(crate) const FRAMES: usize = 9;

pub(crate) const MAXREGS: usize = 10;

pub(crate) const MAXFRAMES: usize = 11;

pub(crate) const WAITING: usize = 12;

pub(crate) const PAYLOAD: usize = 13;

pub(crate) const KEY: usize = 14;

pub(crate) const LARGEST: usize = 15;

pub(crate) const RESULT: usize = 16;

pub(crate) const SIGNAL: usize = 17;

pub(crate) const ZERO: usize = 18;

pub(crate) const LAST: usize = 19;
