// The section `(rule K nA X1 .. Xm)`.
ghost use Rattle.std.specs.Prelude.{◌≤◌, ◌*◌, IfSome, length};
ghost use Rattle.text.specs.Rest.{rest};
ghost use Rattle.grammar.specs.Limits.{MAX_RIGHT};
ghost use Rattle.grammar.specs.Format.Parse.{symbols, rule_line, rule_lines};
ghost use Rattle.book.specs.Layout.{rule_words};
ghost use Rattle.book.specs.Lines.{symbol_words, RULE_WORDS};
ghost use Rattle.book.specs.Numbered.{numbered};
ghost use Rattle.book.specs.Sections.{Gives, Fills, Puts};

use super::short::short;
use super::spelling::{RULE, closing, numbered};
use super::store::put_line;
use super::symbols::symbol;
use super::{Book, Section};
use lines::heads::Head;
use lines::line_head;
use text::Cursor;
use text::source::Source;

// The codes of the right side's first symbols.
fn right_side(source: &Source<'_>, at: usize, out: &mut [u32]) -> Section
    requires { MAX_RIGHT ≤ length out.old }
    ensures { Fills symbol_words MAX_RIGHT (symbols (rest source.now.bytes.now at))
        source.now.bytes.now out.old result.count result.at out.new }
{
    let n = source.bytes.len();
    let mut p = at;
    // The text tells how many there are: a reader's position goes on, and the count is part of the answer.
    let mut m: u32 = 0;
    loop {
        let a = source.mark(p, text::SPACE);
        if n < a {
            return Section { count: m, at: p };
        }
        let x = symbol(source, a);
        put_line(out, Book::MAX_RIGHT as usize, m, &[x.symbol.code()]);
        p = x.at;
        m += 1;
    }
}

// `K nA` with K given, by its bytes where both numbers are short and the text is long enough for any two; None for anything else.
fn short_left(source: &Source<'_>, at: usize, k: u32) -> Option<Cursor>
    ensures { IfSome result (λ read. Gives (numbered k (rest source.now.bytes.now at)) source.now.bytes.now read.value read.at) }
{
    let n = source.bytes.len();
    if n < 9 {
        return None;
    }
    if n - 9 < at {
        return None;
    }
    let number = short(source, at)?;
    let a = number.at;
    if (source.bytes[a] == b' ') & (source.bytes[a + 1] == b'n') & (number.value == k) {
        return short(source, a + 2);
    }
    None
}

fn left_side(source: &Source<'_>, at: usize, k: u32) -> Cursor
    ensures { Gives (numbered k (rest source.now.bytes.now at)) source.now.bytes.now result.value result.at }
{
    match short_left(source, at, k) {
        Some(read) => read,
        None => numbered(source, at, k),
    }
}

// After the head, `K nA X1 .. Xm)` with K given; the rule goes to its place.
fn rule_line(source: &Source<'_>, at: usize, k: u32, room: usize, out: &mut [u32]) -> usize
    requires { room * RULE_WORDS ≤ length out.old }
    ensures { Puts rule_words room k (rule_line k (rest source.now.bytes.now at)) source.now.bytes.now out.old result out.new }
{
    let left = left_side(source, at, k);
    let mut right = [0u32; Book::MAX_RIGHT as usize];
    let symbols = right_side(source, left.at, &mut right);
    // Written out: where the right side is read into a part of the line, rules take 10 % longer to read.
    let line = [
        left.value,
        symbols.count,
        right[0],
        right[1],
        right[2],
        right[3],
        right[4],
        right[5],
        right[6],
        right[7],
    ];
    put_line(out, room, k, &line);
    closing(source, symbols.at)
}

// The lines, as far as there is room for them.
pub fn rule_lines(source: &Source<'_>, at: usize, room: usize, out: &mut [u32]) -> Section
    requires { room * RULE_WORDS ≤ length out.old }
    ensures { Fills rule_words room (rule_lines (rest source.now.bytes.now at))
        source.now.bytes.now out.old result.count result.at out.new }
{
    let n = source.bytes.len();
    let head = Head {
        word: RULE,
        bytes: b"(rule ",
    };
    let mut p = at;
    // The text tells how many there are: a reader's position goes on, and the count is part of the answer.
    let mut k: u32 = 0;
    loop {
        let a = line_head(source.classes, source.bytes, p, head.word, head.bytes);
        if n < a {
            return Section { count: k, at: p };
        }
        p = rule_line(source, a, k, room, out);
        k += 1;
    }
}
