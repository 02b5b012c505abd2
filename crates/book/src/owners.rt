// The sections `(inh iK nA)` and `(syn sK nA)`: the owner A of each attribute.
ghost use Rattle.std.specs.Prelude.{◌≤◌, IfSome, length};
ghost use Rattle.text.specs.Rest.{rest};
ghost use Rattle.grammar.specs.Format.Parse.{owner_line, owner_lines};
ghost use Rattle.book.specs.Kinds.{kind_word, kind_letter, kind_limit};
ghost use Rattle.book.specs.Layout.{owner_words};
ghost use Rattle.book.specs.Sections.{Gives, Puts, Fills};
ghost use Rattle.book.specs.Short.{Letter};

use super::Section;
use super::kind::Kind;
use super::short::short;
use super::spelling::{closing, numbered};
use super::store::put_line;
use lines::line_head;
use text::Cursor;
use text::source::Source;

// `iK nA)` and the line feed with the letter and K given, by their parts: A, and where the text goes on.
fn any_owner(source: &Source<'_>, at: usize, letter: u32, k: u32) -> Cursor
    ensures { Gives (owner_line letter k (rest source.now.bytes.now at)) source.now.bytes.now result.value result.at }
{
    let a = source.keyword(at, letter);
    let read = numbered(source, a, k);
    let b = closing(source, read.at);
    Cursor {
        value: read.value,
        at: b,
    }
}

// By their bytes, where both numbers are short and the text is long enough for any two; None for anything else.
fn short_owner(source: &Source<'_>, at: usize, letter: u32, k: u32) -> Option<Cursor>
    requires { Letter letter }
    ensures { IfSome result (λ read. Gives (owner_line letter k (rest source.now.bytes.now at)) source.now.bytes.now read.value read.at) }
{
    let n = source.bytes.len();
    if n < 11 {
        return None;
    }
    if n - 11 < at {
        return None;
    }
    if source.bytes[at] as u32 != letter + 96 {
        return None;
    }
    let number = short(source, at + 1)?;
    let a = number.at;
    if (source.bytes[a] == b' ') & (source.bytes[a + 1] == b'n') & (number.value == k) {
        let read = short(source, a + 2)?;
        let b = read.at;
        if (source.bytes[b] == b')') & (source.bytes[b + 1] == b'\n') {
            return Some(Cursor {
                value: read.value,
                at: b + 2,
            });
        }
    }
    None
}

fn owner(source: &Source<'_>, at: usize, letter: u32, k: u32) -> Cursor
    requires { Letter letter }
    ensures { Gives (owner_line letter k (rest source.now.bytes.now at)) source.now.bytes.now result.value result.at }
{
    match short_owner(source, at, letter, k) {
        Some(read) => read,
        None => any_owner(source, at, letter, k),
    }
}

// After the head, `iK nA)` with the letter and K given; the owner A goes to its place.
fn owner_line(
    source: &Source<'_>,
    at: usize,
    letter: u32,
    k: u32,
    room: usize,
    out: &mut [u32],
) -> usize
    requires { Letter letter × (room ≤ length out.old) }
    ensures { Puts owner_words room k (owner_line letter k (rest source.now.bytes.now at)) source.now.bytes.now out.old result out.new }
{
    let read = owner(source, at, letter, k);
    put_line(out, room, k, &[read.value]);
    read.at
}

// The lines of one kind.
pub fn owner_lines(source: &Source<'_>, at: usize, kind: Kind, out: &mut [u32]) -> Section
    requires { kind_limit kind ≤ length out.old }
    ensures { Fills owner_words (kind_limit kind) (owner_lines (kind_word kind) (kind_letter kind) (rest source.now.bytes.now at))
        source.now.bytes.now out.old result.count result.at out.new }
{
    let n = source.bytes.len();
    let head = kind.head();
    let letter = kind.letter();
    let room = kind.limit();
    let mut p = at;
    // The text tells how many there are: a reader's position goes on, and the count is part of the answer.
    let mut k: u32 = 0;
    loop {
        let a = line_head(source.classes, source.bytes, p, head.word, head.bytes);
        if n < a {
            return Section { count: k, at: p };
        }
        p = owner_line(source, a, letter, k, room, out);
        k += 1;
    }
}
