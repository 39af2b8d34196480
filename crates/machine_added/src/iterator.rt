// 01: "Make iterator: over a coroutine (else 1 or 2), not done, no key."
ghost use Rattle.std.specs.Prelude.{◌≡◌};
ghost use Rattle.model.specs.World.{World};
ghost use Rattle.model.specs.Added.{answer_made, make_iterator};
ghost use Rattle.memory_world.specs.Lendings.{table, plain};
ghost use Rattle.memory_world.specs.Contract.{Ok, Met, if_sound, only, of_mut};

use heap::fault::Fault;
use heap::object::Object;
use heap::value::Word;
use machine_state::called::Did;
use machine_state::coro::coro_state;
use machine_state::object::alloc_plain;
use memory_world::machine::{Machine, Sizes};
use model::call::Answer;

// The word made is the answer.
pub fn made_as(a: Result<u64, Fault>) -> Answer
    ensures { (w : World) → result ≡ (answer_made w a).answer }
{
    match a {
        Ok(v) => Answer::Word(v),
        Err(f) => Answer::Refused(f),
    }
}

pub fn make_iterator(slots: &mut [u64], m: Machine, sizes: Sizes, v: u64) -> Did<Answer>
    requires { Ok sizes (table slots.old plain) (only m) }
    ensures { Met if_sound sizes (make_iterator v) (table (of_mut slots)) (only m) (only result.machine) result.answer }
{
    match coro_state(slots, m, Word(v)) {
        Err(f) => Did {
            machine: m,
            answer: Answer::Refused(f),
        },
        Ok(_) => {
            let costs = sizes.costs;
            let o = Object::Iter {
                src: v,
                done: false,
                key: None,
            };
            let did = alloc_plain(slots, m, sizes, costs.iter, o);
            let n = did.machine;
            let a = did.answer;
            Did {
                machine: n,
                answer: made_as(a),
            }
        }
    }
}
