// Every operand of an operation lies in the range of its type. Nothing is done: what is ensured is what the types say.
ghost use Rattle.std.specs.Prelude.{◌≡◌, true};
ghost use Rattle.model.specs.Call.{typed, opt_pc};

use model::call::Op;

fn opt_pc(pc: Option<u32>)
    ensures { opt_pc pc ≡ true }
{
    match pc {
        None => {}
        Some(n) => {}
    }
}

pub(crate) fn widths(op: Op)
    ensures { typed op ≡ true }
{
    match op {
        Op::CoroNew {
            pc,
            dst,
            func,
            argc,
        } => {}
        Op::CoroNewIndirect {
            pc,
            dst,
            callee,
            argc,
        } => {}
        Op::Spawn {
            pc,
            dst,
            callee,
            argc,
        } => {}
        Op::Yield { pc, dst, src } => {}
        Op::YieldKv { pc, dst, src, key } => {}
        Op::Await { pc, dst, src } => {}
        Op::Resume { pc, dst, coro, src } => {}
        Op::ResumeThrow { pc, dst, coro, src } => {}
        Op::CoroClose { pc, dst, coro, src } => {}
        Op::CoroStatus { pc, dst, coro } => {}
        Op::CoroCurrent { pc, dst } => {}
        Op::CoroKey { pc, dst, coro } => {}
        Op::CoroResult { pc, dst, coro } => {}
        Op::IterNext {
            pc,
            has,
            iter,
            val,
            src,
        } => {}
        Op::Finish { kind: _, word } => {}
        Op::Unwind { fault, pc } => {
            let w = fault.word();
            opt_pc(pc);
        }
        Op::SpawnTask { word } => {}
        Op::HostCall { func } => {}
        Op::HostEntry { coro, word } => {}
        Op::FunctionCall { pc, func, cont: _ } => {}
        Op::PutWord { reg, word } => {}
        Op::MakeIterator { src } => {}
        Op::TakeOutcome => {}
        Op::HandOver { coro } => {}
        Op::Grant { amount } => {}
        Op::StopRun => {}
        Op::Look => {}
    }
}
