// The answer of a switch that is done on the words.
ghost use Rattle.std.specs.Prelude.{◌≡◌, ◌≤◌, length};
ghost use Rattle.lists.specs.Parts.{splice};
ghost use Rattle.memory_calls.specs.Answer.{answer_words};
ghost use Rattle.linked_switch.specs.Went.{goes_on};

use memory_calls::layout;

// The frame on top goes on.
pub fn goes_on(answer: &mut [u64])
    requires { 8 ≤ length answer.old }
    ensures { answer.new ≡ splice answer.old 0 (answer_words goes_on) }
{
    answer[layout::NUMBER] = 0;
    answer[layout::WORD] = 0;
    answer[layout::STEP] = layout::FRAME;
    answer[layout::TAKEN] = 0;
    answer[layout::CASE] = layout::STEPPED;
    answer[layout::OUTCOME] = 0;
    answer[layout::OUTCOME_FUNC] = 0;
    answer[layout::OUTCOME_PC] = 0;
}
