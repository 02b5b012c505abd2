// What lines have in common: their words, the end, the letters of names, and the number of a line; and the last line, which has nothing else.
ghost use Rattle.std.specs.Prelude.{◌≡◌};
ghost use Rattle.text.specs.Rest.{rest};
ghost use Rattle.grammar.specs.Format.Reader.{closing, naming};
ghost use Rattle.grammar.specs.Format.Parse.{end_line};
ghost use Rattle.book.specs.Numbered.{numbered};
ghost use Rattle.book.specs.Sections.{Gives};

use lines::head;
use text::Cursor;
use text::source::Source;

// The words of lines and the letters of names, as numbers in base 32: a is 1, z is 26.
pub const BOOK: u32 = ((2 * 32 + 15) * 32 + 15) * 32 + 11;

pub const INH: u32 = (9 * 32 + 14) * 32 + 8;

pub const SYN: u32 = (19 * 32 + 25) * 32 + 14;

pub const RULE: u32 = ((18 * 32 + 21) * 32 + 12) * 32 + 5;

pub const INHDEF: u32 = ((((9 * 32 + 14) * 32 + 8) * 32 + 4) * 32 + 5) * 32 + 6;

pub const SYNDEF: u32 = ((((19 * 32 + 25) * 32 + 14) * 32 + 4) * 32 + 5) * 32 + 6;

pub const KERNEL: u32 = ((((11 * 32 + 5) * 32 + 18) * 32 + 14) * 32 + 5) * 32 + 12;

pub const GO: u32 = 7 * 32 + 15;

pub const END: u32 = (5 * 32 + 14) * 32 + 4;

pub const T: u32 = 20;

pub const N: u32 = 14;

pub const I: u32 = 9;

pub const S: u32 = 19;

// `)` and the line feed.
pub fn closing(source: &Source<'_>, at: usize) -> usize
    ensures { rest source.now.bytes.now result ≡ closing (rest source.now.bytes.now at) }
{
    let a = source.mark(at, text::CLOSE);
    source.mark(a, text::FEED)
}

// A space and the letter of a name.
pub fn naming(source: &Source<'_>, at: usize, letter: u32) -> usize
    ensures { rest source.now.bytes.now result ≡ naming letter (rest source.now.bytes.now at) }
{
    let a = source.mark(at, text::SPACE);
    source.keyword(a, letter)
}

// `K nA` with K given, by its parts: A, and where the text goes on.
pub fn numbered(source: &Source<'_>, at: usize, k: u32) -> Cursor
    ensures { Gives (numbered k (rest source.now.bytes.now at)) source.now.bytes.now result.value result.at }
{
    let number = source.number(at);
    let a = source.require(number.at, number.value == k);
    let b = naming(source, a, N);
    source.number(b)
}

// `(end)` and the line feed.
pub fn end_line(source: &Source<'_>, at: usize) -> usize
    ensures { rest source.now.bytes.now result ≡ end_line (rest source.now.bytes.now at) }
{
    let a = head(source.classes, source.bytes, at, END, text::CLOSE);
    source.mark(a, text::FEED)
}
