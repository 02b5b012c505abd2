// The section `(kernel S P D t..)`.
ghost use Rattle.std.specs.Prelude.{◌≡◌, ◌*◌, ◌≤◌, IfSome, length};
ghost use Rattle.text.specs.Rest.{rest};
ghost use Rattle.grammar.specs.Format.Ordered.{kernel_key};
ghost use Rattle.grammar.specs.Format.Parse.{kernel_line, kernel_lines};
ghost use Rattle.book.specs.Layout.{kernel_words};
ghost use Rattle.book.specs.Order.{key_of, last_key};
ghost use Rattle.book.specs.Sections.{Fills, PutsKeyed};
ghost use Rattle.kernels.specs.KernelLines.{KERNEL_WORDS, Item};

use super::lookaheads::lookaheads;
use book::Section;
use book::order::{Key, Keyed, ascends};
use book::short::short;
use book::spelling::{KERNEL, closing};
use book::store::put_line;
use lines::heads::Head;
use lines::line_head;
use text::source::Source;

// The state, the rule and the dot of a line, and where the text goes on.
#[derive(Clone, Copy)]
struct ItemRead {
    state: u32,
    rule: u32,
    dot: u32,
    at: usize,
}

// `S P D` by their parts.
fn any_item(source: &Source<'_>, at: usize) -> ItemRead
    ensures { Item source.now.bytes.now at result.state result.rule result.dot result.at }
{
    let state = source.number(at);
    let a = source.mark(state.at, text::SPACE);
    let rule = source.number(a);
    let b = source.mark(rule.at, text::SPACE);
    let dot = source.number(b);
    ItemRead {
        state: state.value,
        rule: rule.value,
        dot: dot.value,
        at: dot.at,
    }
}

// Short numbers by their bytes, where the text is long enough for any three; None for anything else.
fn short_item(source: &Source<'_>, at: usize) -> Option<ItemRead>
    ensures { IfSome result (λ read. Item source.now.bytes.now at read.state read.rule read.dot read.at) }
{
    let n = source.bytes.len();
    if n < 12 {
        return None;
    }
    if n - 12 < at {
        return None;
    }
    let state = short(source, at)?;
    let a = state.at;
    if source.bytes[a] != b' ' {
        return None;
    }
    let rule = short(source, a + 1)?;
    let b = rule.at;
    if source.bytes[b] != b' ' {
        return None;
    }
    let dot = short(source, b + 1)?;
    Some(ItemRead {
        state: state.value,
        rule: rule.value,
        dot: dot.value,
        at: dot.at,
    })
}

fn item(source: &Source<'_>, at: usize) -> ItemRead
    ensures { Item source.now.bytes.now at result.state result.rule result.dot result.at }
{
    match short_item(source, at) {
        Some(read) => read,
        None => any_item(source, at),
    }
}

// Line k, after its head: it goes to its place, and its key must stand after the last key.
fn kernel_line(
    source: &Source<'_>,
    at: usize,
    k: u32,
    last: Option<Key>,
    room: usize,
    out: &mut [u32],
) -> Keyed
    requires { room * KERNEL_WORDS ≤ length out.old }
    ensures { PutsKeyed kernel_key kernel_words room k (kernel_line (last_key key_of last) (rest source.now.bytes.now at))
        source.now.bytes.now out.old (key_of result.key) result.at out.new }
{
    let read = item(source, at);
    let terminals = lookaheads(source, read.at);
    let c = source.require(terminals.at, terminals.last.is_some());
    let d = closing(source, c);
    let key = Key {
        first: read.state,
        second: read.rule,
        third: read.dot,
    };
    let e = source.require(d, ascends(last, key));
    let line = [
        read.state,
        read.rule,
        read.dot,
        terminals.last.unwrap_or(0),
        terminals.set,
    ];
    put_line(out, room, k, &line);
    Keyed { key, at: e }
}

// The lines, as far as there is room for them.
pub fn kernel_lines(source: &Source<'_>, at: usize, room: usize, out: &mut [u32]) -> Section
    requires { room * KERNEL_WORDS ≤ length out.old }
    ensures { Fills kernel_words room (kernel_lines (rest source.now.bytes.now at))
        source.now.bytes.now out.old result.count result.at out.new }
{
    let n = source.bytes.len();
    let head = Head {
        word: KERNEL,
        bytes: b"(kernel ",
    };
    let mut p = at;
    // The text tells how many there are: a reader's position goes on, and the count is part of the answer.
    let mut k: u32 = 0;
    let mut last = None;
    loop {
        let a = line_head(source.classes, source.bytes, p, head.word, head.bytes);
        if n < a {
            return Section { count: k, at: p };
        }
        let line = kernel_line(source, a, k, last, room, out);
        last = Some(line.key);
        p = line.at;
        k += 1;
    }
}
