// Symbols as they are written, `tK` and `nK`.
ghost use Rattle.std.specs.Prelude.{◌≡◌, ◌||◌, ◌+◌, ◌≤◌, IfSome, eqb, length};
ghost use Rattle.text.specs.Rest.{rest};
ghost use Rattle.text.specs.Numeral.{word_of};
ghost use Rattle.grammar.specs.Format.Parse.{symbol};
ghost use Rattle.book.specs.Sections.{Gives};
ghost use Rattle.book.specs.Short.{BriefSymbol};
ghost use Rattle.book.specs.Symbols.{symbol_read};

use super::short::short;
use super::spelling::{N, T};
use super::symbol::Symbol;
use text::source::Source;

// A symbol, and where the text goes on.
#[derive(Clone, Copy)]
pub struct SymbolRead {
    pub symbol: Symbol,
    pub at: usize,
}

fn is_letter(word: u32) -> bool
    ensures { result ≡ (eqb word (word_of "t") || eqb word (word_of "n")) }
{
    word == T || word == N
}

// By its parts.
fn any_symbol(source: &Source<'_>, at: usize) -> SymbolRead
    ensures { Gives (symbol (rest source.now.bytes.now at)) source.now.bytes.now (symbol_read result.symbol) result.at }
{
    let letter = source.word(at);
    let a = source.require(letter.at, is_letter(letter.value));
    let k = source.number(a);
    let symbol = if letter.value == T {
        Symbol::Terminal(k.value)
    } else {
        Symbol::Nonterminal(k.value)
    };
    SymbolRead { symbol, at: k.at }
}

// By its bytes, where its number is short; None for anything else.
pub fn short_symbol(source: &Source<'_>, at: usize) -> Option<SymbolRead>
    requires { at + 5 ≤ length source.now.bytes.now }
    ensures { IfSome result (λ read. BriefSymbol source.now.bytes.now at (symbol_read read.symbol) read.at) }
{
    let letter = source.bytes[at];
    let k = short(source, at + 1)?;
    let symbol = match letter {
        b't' => Symbol::Terminal(k.value),
        b'n' => Symbol::Nonterminal(k.value),
        _ => return None,
    };
    Some(SymbolRead { symbol, at: k.at })
}

pub fn symbol(source: &Source<'_>, at: usize) -> SymbolRead
    ensures { Gives (symbol (rest source.now.bytes.now at)) source.now.bytes.now (symbol_read result.symbol) result.at }
{
    let n = source.bytes.len();
    if n < 5 {
        return any_symbol(source, at);
    }
    if n - 5 < at {
        return any_symbol(source, at);
    }
    match short_symbol(source, at) {
        Some(read) => read,
        None => any_symbol(source, at),
    }
}
