// Runs of words in lent slices, and two tests as one.
#![tactic(auto)]

ghost use Rattle.std.specs.Prelude.{◌≡◌, ◌&&◌, length, replicate};
ghost use Rattle.lists.specs.Tests.{zeros};

// All words of `src`, into a slice as long.
pub fn copy_words(dst: &mut [u64], src: &[u64])
    requires { length dst.old ≡ length src.now }
    ensures { dst.new ≡ src.now }
{
    dst.copy_from_slice(src);
}

// All words 0.
pub fn clear_words(s: &mut [u64])
    ensures { s.new ≡ replicate (length s.old) 0 }
{
    s.fill(0);
}

// All words of `src`, into a slice as long; they become 0 in `src`. A counted loop of two in a turn, which are compiled to one load and
// two stores: faster than `copy_from_slice` and `fill`.
pub fn take_words(dst: &mut [u64], src: &mut [u64])
    requires { length dst.old ≡ length src.old }
    ensures { (dst.new ≡ src.old) × (src.new ≡ replicate (length src.old) 0) }
{
    let mut i = 0;
    while 1 < dst.len() - i {
        let a = src[i];
        let b = src[i + 1];
        src[i] = 0;
        src[i + 1] = 0;
        dst[i] = a;
        dst[i + 1] = b;
        i += 2;
    }
    if i < dst.len() {
        let w = src[i];
        dst[i] = w;
        src[i] = 0;
    }
}

// Whether all words are 0: all of them joined, and one test.
pub fn all_zero(s: &[u64]) -> bool
    ensures { result ≡ zeros s.now }
{
    let mut any: u64 = 0;
    for w in s {
        any |= *w;
    }
    any == 0
}

// Both tests.
pub fn both(a: bool, b: bool) -> bool
    ensures { result ≡ (a && b) }
{
    a && b
}
