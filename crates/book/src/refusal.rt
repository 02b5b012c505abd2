// Why input is turned back, from the lowest number to the highest: the first that applies is said.
ghost use Rattle.std.specs.Prelude.{◌≡◌};
ghost use Rattle.book.specs.Refusals.{number_of};

#[derive(Clone, Copy, Debug, PartialEq, Eq)]
pub enum Refusal {
    // Of a text, or of a stored book.
    Lengths,
    Spelling,
    Limit,
    Name,
    Attribute,
    Undefined,
    Kernel,
    Go,
    Conflict,
    Formulas,
    Stored,
    // Of what is lent for the rows, and of the tokens.
    RowLength,
    Tokens,
    TokenKind,
    // Met in the run.
    NoMessage,
    TooMany,
    TooDeep,
}

impl Refusal {
    // Its number, as the header and docs/REFUSALS.md have it.
    #[tactic(auto, unfolding(crate::specs::Refusals::number_of))]
    pub fn number(self) -> u32
        ensures { result ≡ number_of self }
    {
        match self {
            Refusal::Lengths => 1,
            Refusal::Spelling => 2,
            Refusal::Limit => 3,
            Refusal::Name => 4,
            Refusal::Attribute => 5,
            Refusal::Undefined => 6,
            Refusal::Kernel => 7,
            Refusal::Go => 8,
            Refusal::Conflict => 9,
            Refusal::Formulas => 10,
            Refusal::Stored => 11,
            Refusal::RowLength => 12,
            Refusal::Tokens => 13,
            Refusal::TokenKind => 14,
            Refusal::NoMessage => 15,
            Refusal::TooMany => 16,
            Refusal::TooDeep => 17,
        }
    }
}
