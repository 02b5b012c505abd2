// The text in the words of a stored book: their bytes up to the last one that is not 0.
ghost use Rattle.std.specs.Prelude.{◌≡◌, ◌+◌, ◌*◌, ◌%◌, ◌<◌, ◌≤◌, length, take};
ghost use Rattle.packing.specs.Words.{bytes_of, bytes, Placed, Copied, Zeros, Ends, Holds};

// The four bytes of a word.
fn put_whole(text: &mut [u8], at: usize, word: u32)
    requires { at + 4 ≤ length text.old }
    ensures { Placed (bytes_of word) at text.old text.new (at + 4) }
{
    text[at..at + 4].copy_from_slice(&word.to_le_bytes());
}

// The bytes of four words. All are loaded before the first is put, so that compilers move them as one.
fn put_four(words: &[u32], at: usize, text: &mut [u8])
    requires { (at + 4 ≤ length words.now) × (4 * at + 16 ≤ length text.old) }
    ensures { Copied words.now at text.old → Copied words.now (at + 4) text.new }
{
    let first = words[at];
    let second = words[at + 1];
    let third = words[at + 2];
    let fourth = words[at + 3];
    let from = 4 * at;
    put_whole(text, from, first);
    put_whole(text, from + 4, second);
    put_whole(text, from + 8, third);
    put_whole(text, from + 12, fourth);
}

// Copies the first `n` bytes of the words, sixteen at a time: up to 15 bytes behind them may change.
pub fn unpack(words: &[u32], n: usize, text: &mut [u8])
    requires { (n ≤ length text.old) × (length text.old % 16 ≡ 0) × (length text.old ≤ 4 * length words.now) }
    ensures { take n text.new ≡ take n (bytes words.now) }
{
    for k in 0..n.div_ceil(16) {
        put_four(words, 4 * k, text);
    }
}

// How many words are looked at together where all should be 0.
const BLOCK: usize = 128;

// The bits of a block of words, gathered with no way out of the loop.
fn block_bits(block: &[u32; BLOCK]) -> u32
    ensures { result ≡ 0 → Zeros block.now 0 BLOCK }
{
    let mut bits = 0;
    for word in block {
        bits |= *word;
    }
    bits
}

// As many words in front as leave none but zeros behind them, by blocks from the end.
fn before_zeros(words: &[u32]) -> usize
    ensures { (result ≤ length words.now) × Zeros words.now result (length words.now) }
{
    let mut rest = words;
    while let Some((front, block)) = rest.split_last_chunk::<BLOCK>() {
        if block_bits(block) != 0 {
            break;
        }
        rest = front;
    }
    rest.len()
}

// The bytes of a word up to the last one that is not 0.
fn word_length(word: u32) -> usize
    requires { word ≡ 0 → ⊥ }
    ensures { (0 < result) × Ends (bytes_of word) result }
{
    word.ilog2() as usize / 8 + 1
}

// How many bytes the text in the words has.
pub fn text_length(words: &[u32]) -> usize
    ensures { Holds words.now result }
{
    for i in (0..before_zeros(words)).rev() {
        if words[i] != 0 {
            return 4 * i + word_length(words[i]);
        }
    }
    0
}
