// The bytes of a text: the class of each byte, and the readers of a byte, a number and a word. A position past the end of the text says
// that it is misspelt; a reader that is given such a position, or that does not find what it looks for, hands one back. It is no Option, for speed: readers
// follow one another without a test, and the last answer tells.
#![tactic(auto)]

pub mod notation;
pub mod numbers;
pub mod source;

ghost use Rattle.std.specs.Prelude.{◌≡◌, ◌≤◌, ◌<◌, length};
ghost use Rattle.text.specs.Class.{class_of};
ghost use Rattle.text.specs.Table.{table};

// The numbers of the classes; any other byte has 0.
pub const DIGIT: u8 = 1;

pub const LETTER: u8 = 2;

pub const OPEN: u8 = 3;

pub const CLOSE: u8 = 4;

pub const SPACE: u8 = 5;

pub const FEED: u8 = 6;

// The table of classes. A constant is built anew wherever it is named, so the outermost caller binds this once and lends it.
pub fn classes() -> [u8; 256]
    ensures { result ≡ table }
{
    CLASS
}

// The class of a byte.
pub fn class(classes: &[u8; 256], b: u8) -> u8
    requires { classes.now ≡ table }
    ensures { result ≡ class_of b }
{
    classes[b as usize]
}

// What was read last, and where reading goes on.
#[derive(Clone, Copy)]
pub struct Cursor {
    pub value: u32,
    pub at: usize,
}

impl Cursor {
    // Nothing is read: number 0, position 0.
    pub fn new() -> Self
        ensures { (result.value ≡ 0) × (result.at ≡ 0) }
    {
        Cursor { value: 0, at: 0 }
    }
}

// A position past the end: a misspelt text goes on nowhere. It is taken from a byte of the text so that compilers keep their branches; a conditional
// move would make each byte wait for the one before it.
pub fn misspelt(text: &[u8]) -> usize
    requires { length text.now ≤ 65536 }
    ensures { length text.now < result }
{
    let n = text.len();
    if n == 0 {
        return 1;
    }
    n + 1 + text[n - 1] as usize
}

// The class of each of the 256 byte values.
pub const CLASS: [u8; 256] = [
    0, 0, 0, 0, 0, 0, 0, 0, 0, 0, 6, 0, 0, 0, 0, 0, 0, 0, 0, 0, 0, 0, 0, 0, 0, 0, 0, 0, 0, 0, 0, 0,
    5, 0, 0, 0, 0, 0, 0, 0, 3, 4, 0, 0, 0, 0, 0, 0, 1, 1, 1, 1, 1, 1, 1, 1, 1, 1, 0, 0, 0, 0, 0, 0,
    0, 0, 0, 0, 0, 0, 0, 0, 0, 0, 0, 0, 0, 0, 0, 0, 0, 0, 0, 0, 0, 0, 0, 0, 0, 0, 0, 0, 0, 0, 0, 0,
    0, 2, 2, 2, 2, 2, 2, 2, 2, 2, 2, 2, 2, 2, 2, 2, 2, 2, 2, 2, 2, 2, 2, 2, 2, 2, 2, 0, 0, 0, 0, 0,
    0, 0, 0, 0, 0, 0, 0, 0, 0, 0, 0, 0, 0, 0, 0, 0, 0, 0, 0, 0, 0, 0, 0, 0, 0, 0, 0, 0, 0, 0, 0, 0,
    0, 0, 0, 0, 0, 0, 0, 0, 0, 0, 0, 0, 0, 0, 0, 0, 0, 0, 0, 0, 0, 0, 0, 0, 0, 0, 0, 0, 0, 0, 0, 0,
    0, 0, 0, 0, 0, 0, 0, 0, 0, 0, 0, 0, 0, 0, 0, 0, 0, 0, 0, 0, 0, 0, 0, 0, 0, 0, 0, 0, 0, 0, 0, 0,
    0, 0, 0, 0, 0, 0, 0, 0, 0, 0, 0, 0, 0, 0, 0, 0, 0, 0, 0, 0, 0, 0, 0, 0, 0, 0, 0, 0, 0, 0, 0, 0,
];
