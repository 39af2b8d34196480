// Words that are not in use.
ghost use Rattle.std.specs.Prelude.{◌≡◌};
ghost use Rattle.memory_sound.specs.Words.{rest_ok};

// Whether the words from a place on are 0, to the end of the slice.
pub fn rest_ok(ws: &[u64], from: usize) -> bool
    ensures { result ≡ rest_ok ws.now from }
{
    let end = ws.len();
    end <= from || lists::all_zero(&ws[from..end])
}
