// A queue of words, its front first in a lent slice; `n` is their number. It begins at index 0, without a ring: its words then follow from the
// queue alone, so a task that is taken back restores them. Taking the front moves the rest.
ghost use Rattle.std.specs.Prelude.{◌+◌, ◌-◌, ◌<◌, ◌≤◌, [], ◌∷◌, ◌++◌, length, drop};
ghost use Rattle.memory_tables.specs.Does.{QueueDo, Peeks};

use crate::runs::move_down;
use crate::stack::cut;

// A word at the end.
pub fn push_back(queue: &mut [u64], n: usize, v: u64)
    requires { n < length queue.old }
    ensures { QueueDo (λ xs. xs ++ (v ∷ [])) queue.old queue.new n (n + 1) }
{
    queue[n] = v;
}

// The first k words go, in one move; the places that the others leave become 0.
pub fn take_front(queue: &mut [u64], n: usize, k: usize)
    requires { (k ≤ n) × (n ≤ length queue.old) }
    ensures { QueueDo (drop k) queue.old queue.new n (n - k) }
{
    let rest = n - k;
    move_down(queue, k, rest);
    cut(queue, n, rest);
}

// The word at index i.
pub fn word_at(queue: &[u64], i: usize) -> u64
    requires { i < length queue.now }
    ensures { Peeks queue.now i result }
{
    queue[i]
}
