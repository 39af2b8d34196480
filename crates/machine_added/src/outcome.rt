// 01: "Take outcome: reads and clears it, or answers none."
ghost use Rattle.std.specs.Prelude.{◌≡◌};
ghost use Rattle.model.specs.Added.{take_outcome};
ghost use Rattle.memory_world.specs.Told.{outcome_in};
ghost use Rattle.memory_world.specs.Lendings.{none};
ghost use Rattle.memory_world.specs.Contract.{Met, any, every, only};
ghost use Rattle.machine_added.specs.Outcome.{untold};

use machine_state::called::Did;
use memory_world::machine::{Machine, Told};
use model::call::Answer;
use model::machine::Stop;

// The outcome that the words tell.
fn outcome_in(t: Told) -> Option<Stop>
    ensures { result ≡ outcome_in t }
{
    if t.0 == 0 {
        return None;
    }
    if t.0 == 1 {
        return Some(Stop::Yielded(t.1));
    }
    if t.0 == 2 {
        return Some(Stop::Awaiting(t.1));
    }
    if t.0 == 3 {
        return Some(Stop::Returned(t.1));
    }
    if t.0 == 4 {
        return Some(Stop::Failed(t.1, t.2, t.3));
    }
    Some(Stop::CloseIgnored)
}

// The numbers with no outcome.
fn untold(m: Machine) -> Machine
    ensures { result ≡ untold m }
{
    let outcome = Told(0, 0, 0, 0);
    Machine {
        height: m.height,
        depth: m.depth,
        active: m.active,
        count: m.count,
        ready: m.ready,
        finalize: m.finalize,
        finalizing: m.finalizing,
        outcome,
        used: m.used,
        seq: m.seq,
    }
}

pub fn take_outcome(m: Machine) -> Did<Answer>
    ensures { every (λ sizes. Met any sizes take_outcome none (only m) (only result.machine) result.answer) }
{
    let t = m.outcome;
    let o = outcome_in(t);
    Did {
        machine: untold(m),
        answer: Answer::Took(o),
    }
}
