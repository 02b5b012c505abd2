// Words read as indices, copied and looked at.
ghost use Rattle.std.specs.Prelude.{◌≡◌, true, ◌+◌, ◌<◌, ◌≤◌, length, get_or};
ghost use Rattle.items.specs.Copying.{Copied};
ghost use Rattle.items.specs.NoItems.{Nothing};

// Word i as an index.
pub fn word(words: &[u32], i: usize) -> usize
    requires { i < length words.now }
    ensures { result ≡ get_or words.now i 0 }
{
    words[i] as usize
}

// The first `count` words of an array, to the same places of another. Word by word: the library's copy would ask callers in C for one routine more.
pub fn copy(from: &[u32], count: usize, to: &mut [u32])
    requires { (count ≤ length from.now) × (count ≤ length to.old) }
    ensures { Copied from.now count to.new }
{
    for i in 0..count {
        to[i] = from[i];
    }
}

// True only if 32 words are 0, from a place on: their bits are gathered, with no way out of the loop.
pub fn nothing(words: &[u32], first: usize) -> bool
    requires { first + 32 ≤ length words.now }
    ensures { result ≡ true → Nothing words.now first 32 }
{
    let mut bits = 0;
    for word in &words[first..first + 32] {
        bits |= *word;
    }
    bits == 0
}
