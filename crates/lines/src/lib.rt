// The line reader: it carries the lent text along with its position, and every line is opened through it. The functions over it are thin; the core, `past_head`,
// is on slice and number.
#![tactic(auto)]

pub mod heads;

ghost use Rattle.std.specs.Prelude.{◌≡◌, true, ◌+◌, ◌*◌, ◌≤◌, length};
ghost use Rattle.text.specs.Class.{open-bracket};
ghost use Rattle.text.specs.Numeral.{keyword};
ghost use Rattle.text.specs.Rest.{rest, mark};
ghost use Rattle.text.specs.Lent.{Lent};
ghost use Rattle.grammar.specs.Format.Reader.{opening};
ghost use Rattle.lines.specs.Heads.{Spells, Four, Same};

use text::source::Source;

#[derive(Clone, Copy)]
pub struct LineReader<'a> {
    pub text: &'a [u8],
    pub at: usize,
}

// `(word` and a byte of the class `end`, at a position of a text, by its parts. Cold, so that the short way before it is inlined without it.
#[cold]
pub fn head(classes: &[u8; 256], text: &[u8], at: usize, word: u32, end: u8) -> usize
    requires { Lent classes.now text.now }
    ensures { rest text.now result ≡ mark end (keyword word (mark open-bracket (rest text.now at))) }
{
    let source = Source {
        classes,
        bytes: text,
    };
    let a = source.mark(at, text::OPEN);
    let b = source.keyword(a, word);
    source.mark(b, end)
}

// Four bytes as one number, which compilers load as one.
pub fn four(a: u8, b: u8, c: u8, d: u8) -> u32
    ensures { Four result a b c d }
{
    u32::from_le_bytes([a, b, c, d])
}

// True only if the four bytes of a text from `at` on are those of another from `from` on.
fn same_four(text: &[u8], at: usize, bytes: &[u8], from: usize) -> bool
    requires { (at + 4 ≤ length text.now) × (from + 4 ≤ length bytes.now) }
    ensures { result ≡ true → Same text.now at bytes.now from 4 }
{
    let x = four(text[at], text[at + 1], text[at + 2], text[at + 3]);
    let y = four(
        bytes[from],
        bytes[from + 1],
        bytes[from + 2],
        bytes[from + 3],
    );
    x == y
}

// `(word ` at a position of a text: the bytes that it has are compared at once, and what is something else is read by its parts.
fn past_head(classes: &[u8; 256], text: &[u8], at: usize, word: u32, bytes: &[u8]) -> usize
    requires { Lent classes.now text.now × Spells word bytes.now }
    ensures { rest text.now result ≡ opening word (rest text.now at) }
{
    let n = text.len();
    let m = bytes.len();
    if n < m {
        return head(classes, text, at, word, text::SPACE);
    }
    if n - m < at {
        return head(classes, text, at, word, text::SPACE);
    }
    if !same_four(text, at, bytes, 0) {
        return head(classes, text, at, word, text::SPACE);
    }
    if !same_four(text, at + m - 4, bytes, m - 4) {
        return head(classes, text, at, word, text::SPACE);
    }
    at + m
}

// The reader at a position.
pub fn line_at(text: &[u8], at: usize) -> LineReader<'_>
    ensures { (result.text ≡ text.entry) × (result.at ≡ at) }
{
    LineReader { text, at }
}

// The reader past `(word ` where it stands.
pub fn open<'a>(
    classes: &[u8; 256],
    line: LineReader<'a>,
    word: u32,
    bytes: &[u8],
) -> LineReader<'a>
    requires { Lent classes.now line.text.now × Spells word bytes.now }
    ensures { (result.text ≡ line.entry.text)
        × (rest line.entry.text.now result.at ≡ opening word (rest line.entry.text.now line.entry.at)) }
{
    let text = line.text;
    let at = past_head(classes, text, line.at, word, bytes);
    LineReader { text, at }
}

// `(word ` at the beginning of a line: the reader is made there and opens it, and its position is the answer.
pub fn line_head(classes: &[u8; 256], text: &[u8], at: usize, word: u32, bytes: &[u8]) -> usize
    requires { Lent classes.now text.now × Spells word bytes.now }
    ensures { rest text.now result ≡ opening word (rest text.now at) }
{
    open(classes, line_at(text, at), word, bytes).at
}
