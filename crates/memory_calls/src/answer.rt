// An answer into its words.
ghost use Rattle.std.specs.Prelude.{◌≡◌, [], ◌∷◌, ◌≤◌, length};
ghost use Rattle.std.proofs.Math.Option.{some};
ghost use Rattle.lists.specs.Parts.{splice};
ghost use Rattle.model.specs.Answer.{step_number, step_word};
ghost use Rattle.memory_world.specs.Told.{told};
ghost use Rattle.memory_calls.specs.Answer.{step_code, answer_words, exit_words, told_stop};

use crate::layout;
use memory_world::machine::Told;
use model::call::Answer;
use model::exec::Step;
use model::machine::Stop;

// The words of an answer.
pub const ANSWER_WIDTH: usize = 8;

// A step's number and word, and its code.
#[derive(Clone, Copy)]
pub struct Three(pub u64, pub u64, pub u64);

fn told_step(s: Step) -> Three
    ensures { result.0 ∷ result.1 ∷ result.2 ∷ [] ≡ step_number s ∷ step_word s ∷ step_code (some s) ∷ [] }
{
    match s {
        Step::Next => Three(0, 0, layout::NEXT),
        Step::Frame => Three(0, 0, layout::FRAME),
        Step::Fault(f) => Three(f.number(), f.word(), layout::FAULT),
        Step::Unwind(f) => Three(f.number(), f.word(), layout::UNWIND),
    }
}

fn told_stop(s: Stop) -> Told
    ensures { result ≡ told_stop s }
{
    match s {
        Stop::Yielded(v) => Told(1, v, 0, 0),
        Stop::Awaiting(v) => Told(2, v, 0, 0),
        Stop::Returned(v) => Told(3, v, 0, 0),
        Stop::Failed(v, f, pc) => Told(4, v, f, pc),
        Stop::CloseIgnored => Told(5, 0, 0, 0),
    }
}

fn told_outcome(o: Option<Stop>) -> Told
    ensures { result ≡ told o }
{
    match o {
        None => Told(0, 0, 0, 0),
        Some(s) => told_stop(s),
    }
}

#[derive(Clone, Copy)]
pub struct Eight(
    pub u64,
    pub u64,
    pub u64,
    pub u64,
    pub u64,
    pub u64,
    pub u64,
    pub u64,
);

fn exit_words(v: Option<u64>) -> Eight
    ensures { result.0 ∷ result.1 ∷ result.2 ∷ result.3 ∷ result.4 ∷ result.5 ∷ result.6 ∷ result.7 ∷ [] ≡ exit_words v }
{
    match v {
        None => Eight(0, 0, 0, 0, 6, 0, 0, 0),
        Some(v) => Eight(0, v, 0, 0, 7, 0, 0, 0),
    }
}

// The words of an answer.
pub fn words_of(a: Answer) -> Eight
    ensures { result.0 ∷ result.1 ∷ result.2 ∷ result.3 ∷ result.4 ∷ result.5 ∷ result.6 ∷ result.7 ∷ [] ≡ answer_words a }
{
    match a {
        Answer::Accepted => Eight(0, 0, 0, 0, 0, 0, 0, 0),
        Answer::Word(v) => Eight(0, v, 0, 0, 1, 0, 0, 0),
        Answer::Refused(f) => Eight(f.number(), f.word(), 0, 0, 2, 0, 0, 0),
        Answer::Stepped { step, taken } => {
            let t = told_step(step);
            Eight(t.0, t.1, t.2, taken, layout::STEPPED, 0, 0, 0)
        }
        Answer::Cleanup { taken } => Eight(17, 0, layout::UNWIND, taken, 4, 0, 0, 0),
        Answer::Unpaid { taken } => Eight(10, 0, layout::FAULT, taken, 5, 0, 0, 0),
        Answer::Exit(v) => exit_words(v),
        Answer::Resume => Eight(0, 0, 0, 0, 8, 0, 0, 0),
        Answer::Caught => Eight(0, 0, 0, 0, layout::CAUGHT, 0, 0, 0),
        Answer::Stopped => Eight(0, 0, 0, 0, 10, 0, 0, 0),
        Answer::Took(o) => {
            let t = told_outcome(o);
            Eight(0, t.1, 0, 0, 11, t.0, t.2, t.3)
        }
    }
}

// An answer into the words.
pub fn put_answer(out: &mut [u64], a: Answer)
    requires { 8 ≤ length out.old }
    ensures { out.new ≡ splice out.old 0 (answer_words a) }
{
    let w = words_of(a);
    out[layout::NUMBER] = w.0;
    out[layout::WORD] = w.1;
    out[layout::STEP] = w.2;
    out[layout::TAKEN] = w.3;
    out[layout::CASE] = w.4;
    out[layout::OUTCOME] = w.5;
    out[layout::OUTCOME_FUNC] = w.6;
    out[layout::OUTCOME_PC] = w.7;
}
