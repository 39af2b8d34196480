// machine.rs: Cont, where a frame's result goes.
ghost use Rattle.std.specs.Prelude.{◌≡◌};
ghost use Rattle.machine_state.specs.Way.{way_of};

use model::machine::Cont;

// Out of the machine, to the caller's frame, to whoever drove a coroutine.
#[derive(Clone, Copy)]
pub enum Way {
    Out,
    Caller,
    Driver,
}

pub fn way_of(cont: Cont) -> Way
    ensures { result ≡ way_of cont }
{
    match cont {
        Cont::Entry => Way::Out,
        Cont::Write(_) => Way::Caller,
        Cont::Dyn(_) => Way::Caller,
        Cont::Value(_) => Way::Caller,
        Cont::Discard => Way::Caller,
        Cont::Coro => Way::Driver,
    }
}
