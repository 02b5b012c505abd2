// The two kinds of attributes, and how the lines that declare them begin: `(inh iK` and `(syn sK`.
ghost use Rattle.std.specs.Prelude.{◌≡◌};
ghost use Rattle.book.specs.Kinds.{kind_word, kind_letter, kind_limit};

use super::Book;
use super::spelling::{I, INH, S, SYN};
use lines::heads::Head;

#[derive(Clone, Copy, Debug, PartialEq, Eq)]
pub enum Kind {
    Inherited,
    Synthesized,
}

impl Kind {
    // How a line begins.
    #[tactic(auto, unfolding(text::specs::Numeral::spelled))]
    pub fn head(self) -> Head<'static>
        ensures { result.word ≡ kind_word self }
    {
        match self {
            Kind::Inherited => Head {
                word: INH,
                bytes: b"(inh ",
            },
            Kind::Synthesized => Head {
                word: SYN,
                bytes: b"(syn ",
            },
        }
    }

    // The letter of a name.
    #[tactic(auto, unfolding(text::specs::Numeral::spelled))]
    pub fn letter(self) -> u32
        ensures { result ≡ kind_letter self }
    {
        match self {
            Kind::Inherited => I,
            Kind::Synthesized => S,
        }
    }

    // How many attributes there may be.
    pub fn limit(self) -> usize
        ensures { result ≡ kind_limit self }
    {
        match self {
            Kind::Inherited => Book::MAX_INHERITED as usize,
            Kind::Synthesized => Book::MAX_SYNTHESIZED as usize,
        }
    }
}
