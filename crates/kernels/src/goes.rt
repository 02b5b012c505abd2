// The section `(go S X M)`.
ghost use Rattle.std.specs.Prelude.{◌≡◌, ◌∷◌, ◌*◌, ◌≤◌, IfSome, length};
ghost use Rattle.text.specs.Rest.{rest};
ghost use Rattle.grammar.specs.Format.Ordered.{symbol_key, go_key};
ghost use Rattle.grammar.specs.Format.Parse.{go_line, go_lines};
ghost use Rattle.book.specs.Layout.{go_words};
ghost use Rattle.book.specs.Order.{key_of, last_key};
ghost use Rattle.book.specs.Sections.{Fills, PutsKeyed};
ghost use Rattle.book.specs.Symbols.{symbol_read};
ghost use Rattle.kernels.specs.GoLines.{GO_WORDS, Goes};

use book::Section;
use book::order::{Key, Keyed, ascends};
use book::short::short;
use book::spelling::{GO, closing};
use book::store::put_line;
use book::symbol::Symbol;
use book::symbols::{short_symbol, symbol};
use lines::heads::Head;
use lines::line_head;
use text::source::Source;

// The key of a line: its state, then terminals before nonterminals, then the symbol's number.
#[tactic(auto, unfolding(grammar::specs::Format::Ordered::symbol_key))]
fn key_of(state: u32, symbol: Symbol) -> Key
    ensures { key_of result ≡ state ∷ symbol_key (symbol_read symbol) }
{
    let (kind, number) = match symbol {
        Symbol::Terminal(number) => (0, number),
        Symbol::Nonterminal(number) => (1, number),
    };
    Key {
        first: state,
        second: kind,
        third: number,
    }
}

// What a line says, and where the text goes on.
#[derive(Clone, Copy)]
struct GoRead {
    state: u32,
    symbol: Symbol,
    target: u32,
    at: usize,
}

// `S X M)` and the line feed, by their parts.
fn any_go(source: &Source<'_>, at: usize) -> GoRead
    ensures { Goes source.now.bytes.now at result.state (symbol_read result.symbol) result.target result.at }
{
    let state = source.number(at);
    let a = source.mark(state.at, text::SPACE);
    let x = symbol(source, a);
    let b = source.mark(x.at, text::SPACE);
    let target = source.number(b);
    GoRead {
        state: state.value,
        symbol: x.symbol,
        target: target.value,
        at: closing(source, target.at),
    }
}

// Short numbers by their bytes, where the text is long enough for any three; None for anything else.
fn short_go(source: &Source<'_>, at: usize) -> Option<GoRead>
    ensures { IfSome result (λ read. Goes source.now.bytes.now at read.state (symbol_read read.symbol) read.target read.at) }
{
    let n = source.bytes.len();
    if n < 14 {
        return None;
    }
    if n - 14 < at {
        return None;
    }
    let state = short(source, at)?;
    let a = state.at;
    if source.bytes[a] != b' ' {
        return None;
    }
    let x = short_symbol(source, a + 1)?;
    let b = x.at;
    if source.bytes[b] != b' ' {
        return None;
    }
    let target = short(source, b + 1)?;
    let c = target.at;
    if (source.bytes[c] == b')') & (source.bytes[c + 1] == b'\n') {
        return Some(GoRead {
            state: state.value,
            symbol: x.symbol,
            target: target.value,
            at: c + 2,
        });
    }
    None
}

fn go(source: &Source<'_>, at: usize) -> GoRead
    ensures { Goes source.now.bytes.now at result.state (symbol_read result.symbol) result.target result.at }
{
    match short_go(source, at) {
        Some(read) => read,
        None => any_go(source, at),
    }
}

// Line k, after its head: it goes to its place, and its key must stand after the last key.
fn go_line(
    source: &Source<'_>,
    at: usize,
    k: u32,
    last: Option<Key>,
    room: usize,
    out: &mut [u32],
) -> Keyed
    requires { room * GO_WORDS ≤ length out.old }
    ensures { PutsKeyed go_key go_words room k (go_line (last_key key_of last) (rest source.now.bytes.now at))
        source.now.bytes.now out.old (key_of result.key) result.at out.new }
{
    let read = go(source, at);
    let key = key_of(read.state, read.symbol);
    let d = source.require(read.at, ascends(last, key));
    let line = [read.state, read.symbol.code(), read.target];
    put_line(out, room, k, &line);
    Keyed { key, at: d }
}

// The lines, as far as there is room for them.
pub fn go_lines(source: &Source<'_>, at: usize, room: usize, out: &mut [u32]) -> Section
    requires { room * GO_WORDS ≤ length out.old }
    ensures { Fills go_words room (go_lines (rest source.now.bytes.now at))
        source.now.bytes.now out.old result.count result.at out.new }
{
    let n = source.bytes.len();
    let head = Head {
        word: GO,
        bytes: b"(go ",
    };
    let mut p = at;
    // The text tells how many there are: a reader's position goes on, and the count is part of the answer.
    let mut k: u32 = 0;
    let mut last = None;
    loop {
        let a = line_head(source.classes, source.bytes, p, head.word, head.bytes);
        if n < a {
            return Section { count: k, at: p };
        }
        let line = go_line(source, a, k, last, room, out);
        last = Some(line.key);
        p = line.at;
        k += 1;
    }
}
