// A symbol: a terminal or a nonterminal, with its number.
ghost use Rattle.std.specs.Prelude.{◌≡◌};
ghost use Rattle.book.specs.Layout.{symbol_code};
ghost use Rattle.book.specs.Symbols.{symbol_read};

// A symbol as it is written, whether or not the book declares it.
#[derive(Clone, Copy, PartialEq, Eq, Debug)]
pub enum Symbol {
    Terminal(u32),
    Nonterminal(u32),
}

impl Symbol {
    // In one word, as lines in arrays and stored books have it: tK is K, nK is 32 + K; 64 is a symbol that no book declares.
    pub fn code(self) -> u32
        ensures { result ≡ symbol_code (symbol_read self) }
    {
        match self {
            Symbol::Terminal(number) if number < 32 => number,
            Symbol::Nonterminal(number) if number < 32 => 32 + number,
            _ => 64,
        }
    }
}
