// heap.rs: CoroState's questions of several states.
ghost use Rattle.std.specs.Prelude.{◌≡◌};
ghost use Rattle.heap.specs.State.{is_suspended, is_resumable, is_finished};

use crate::object::CoroState;

impl CoroState {
    // Yielded or Awaiting.
    pub fn is_suspended(self) -> bool
        ensures { result ≡ is_suspended self }
    {
        matches!(self, CoroState::Yielded | CoroState::Awaiting)
    }

    // CoroState::is_resumable: Created, Yielded or Awaiting.
    pub fn is_resumable(self) -> bool
        ensures { result ≡ is_resumable self }
    {
        matches!(
            self,
            CoroState::Created | CoroState::Yielded | CoroState::Awaiting
        )
    }

    // Returned or Failed.
    pub fn is_finished(self) -> bool
        ensures { result ≡ is_finished self }
    {
        matches!(self, CoroState::Returned | CoroState::Failed)
    }
}
