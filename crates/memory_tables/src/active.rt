// An active coroutine in six words of a lent slice.
ghost use Rattle.std.specs.Prelude.{◌≡◌, ◌+◌, ◌*◌, ◌≤◌, length};
ghost use Rattle.lists.specs.Parts.{splice};
ghost use Rattle.memory_tables.specs.Layout.{driver_code, driver_first, driver_second, driver_third, driver_of, active_in, active_words};

use model::machine::{Active, Driver};

// The words of an active coroutine; after its word, where its floor stands, the code of its driver, and the driver's numbers.
pub const ACTIVE_WIDTH: usize = 6;

pub const FLOOR: usize = 1;

pub const CODE: usize = 2;

pub const FIRST: usize = 3;

pub const SECOND: usize = 4;

pub const THIRD: usize = 5;

// The codes of drivers. Resume has one number, Iter has three, the others have none.
pub const RESUME: u64 = 0;

pub const ITER: u64 = 1;

pub const HOST: u64 = 2;

pub const FINALIZE: u64 = 3;

fn driver_code(d: Driver) -> u64
    ensures { result ≡ driver_code d }
{
    match d {
        Driver::Resume(_) => RESUME,
        Driver::Iter { .. } => ITER,
        Driver::Host => HOST,
        Driver::Finalize => FINALIZE,
    }
}

fn driver_first(d: Driver) -> u64
    ensures { result ≡ driver_first d }
{
    match d {
        Driver::Resume(r) => r,
        Driver::Iter { has, .. } => has,
        Driver::Host | Driver::Finalize => 0,
    }
}

fn driver_second(d: Driver) -> u64
    ensures { result ≡ driver_second d }
{
    if let Driver::Iter { val, .. } = d {
        val
    } else {
        0
    }
}

fn driver_third(d: Driver) -> u64
    ensures { result ≡ driver_third d }
{
    if let Driver::Iter { iter, .. } = d {
        iter
    } else {
        0
    }
}

fn driver_of(code: u64, a: u64, b: u64, c: u64) -> Driver
    ensures { result ≡ driver_of code a b c }
{
    match code {
        0 => Driver::Resume(a),
        1 => Driver::Iter {
            has: a,
            val: b,
            iter: c,
        },
        2 => Driver::Host,
        _ => Driver::Finalize,
    }
}

// The active coroutine at place i.
pub fn active_at(chain: &[u64], i: usize) -> Active
    requires { i * 6 + 6 ≤ length chain.now }
    ensures { result ≡ active_in chain.now i }
{
    let at = i * ACTIVE_WIDTH;
    let driver = driver_of(
        chain[at + CODE],
        chain[at + FIRST],
        chain[at + SECOND],
        chain[at + THIRD],
    );
    Active {
        coro: chain[at],
        floor: chain[at + FLOOR],
        driver,
    }
}

// The active coroutine at place i replaced.
pub fn put_active(chain: &mut [u64], i: usize, a: Active)
    requires { i * 6 + 6 ≤ length chain.old }
    ensures { chain.new ≡ splice chain.old (i * 6) (active_words a) }
{
    let at = i * ACTIVE_WIDTH;
    let d = a.driver;
    chain[at] = a.coro;
    chain[at + FLOOR] = a.floor;
    chain[at + CODE] = driver_code(d);
    chain[at + FIRST] = driver_first(d);
    chain[at + SECOND] = driver_second(d);
    chain[at + THIRD] = driver_third(d);
}
