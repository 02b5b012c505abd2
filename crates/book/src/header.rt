// The first line, `(book T N Q)`.
ghost use Rattle.text.specs.Rest.{rest};
ghost use Rattle.book.specs.Header.{header, numbers_of};
ghost use Rattle.book.specs.Sections.{Gives};

use super::spelling::{BOOK, closing};
use lines::heads::Head;
use lines::line_head;
use text::source::Source;

// How many terminals, nonterminals and states the book has, and where the text goes on.
#[derive(Clone, Copy)]
pub struct HeaderRead {
    pub terminals: u32,
    pub nonterminals: u32,
    pub states: u32,
    pub at: usize,
}

pub fn header(source: &Source<'_>, at: usize) -> HeaderRead
    ensures { Gives (header (rest source.now.bytes.now at)) source.now.bytes.now (numbers_of result) result.at }
{
    let first = Head {
        word: BOOK,
        bytes: b"(book ",
    };
    let a = line_head(source.classes, source.bytes, at, first.word, first.bytes);
    let terminals = source.number(a);
    let b = source.mark(terminals.at, text::SPACE);
    let nonterminals = source.number(b);
    let c = source.mark(nonterminals.at, text::SPACE);
    let states = source.number(c);
    HeaderRead {
        terminals: terminals.value,
        nonterminals: nonterminals.value,
        states: states.value,
        at: closing(source, states.at),
    }
}
