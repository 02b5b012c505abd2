// The words of a stored book: its text, four bytes to a word, lowest byte first, zeros after.
ghost use Rattle.std.specs.Prelude.{◌≡◌, ◌++◌, ◌+◌, ◌*◌, ◌/◌, ◌≤◌, length, get_or, drop};
ghost use Rattle.grammar.specs.Format.Packing.{word_of, pack};

// The words that the text fills.
fn pack_whole(text: &[u8], words: &mut [u32])
    requires { length text.now ≤ 4 * length words.old }
    ensures { words.new ≡ pack (length text.now / 4) text.now
        ++ drop (length text.now / 4) words.old }
{
    for i in 0..text.len() / 4 {
        let at = 4 * i;
        words[i] = u32::from_le_bytes([text[at], text[at + 1], text[at + 2], text[at + 3]]);
    }
}

// The byte at a position, and 0 past the end.
fn byte(text: &[u8], at: usize) -> u8
    ensures { result ≡ get_or text.now at 0 }
{
    text.get(at).copied().unwrap_or(0)
}

// The word that begins at `at`, where the text may end.
fn last_word(text: &[u8], at: usize) -> u32
    requires { at ≤ length text.now }
    ensures { result ≡ word_of (drop at text.now) }
{
    u32::from_le_bytes([
        byte(text, at),
        byte(text, at + 1),
        byte(text, at + 2),
        byte(text, at + 3),
    ])
}

// The text in all of the words.
pub fn pack(text: &[u8], words: &mut [u32])
    requires { length text.now ≤ 4 * length words.old }
    ensures { words.new ≡ pack (length words.old) text.now }
{
    pack_whole(text, words);
    let n = text.len() / 4;
    if n < words.len() {
        words[n] = last_word(text, 4 * n);
        words[n + 1..].fill(0);
    }
}
