// What the machine reads of left sides, from the lines of a book.
// A contract asks that the arrays hold some book, and says what it says of every book that they hold.
ghost use Rattle.std.specs.Prelude.{◌≡◌, length, replicate};
ghost use Rattle.grammar.specs.Data.Book.{Book as Lines};
ghost use Rattle.conditions.specs.Answers.{Some};
ghost use Rattle.messages.specs.Sides.{SidesAsked, SidesIn};

use attributes::owned::owned;
use book::Book;
use stack::lists::fill_lists;
use stack::spans::fill_spans;

// The attributes of each nonterminal, as sets and as lists, and where each rule's definitions of synthesized attributes begin.
pub fn fill_sides(
    book: Book,
    inherited: &[u32],
    synthesized: &[u32],
    definitions: &[u32],
    own: &mut [u32],
    spans: &mut [u32],
    down: &mut [u32],
    up: &mut [u32],
)
    requires some { Some (SidesAsked book inherited.now synthesized.now definitions.now) }
    requires own_value { (own.old ≡ replicate 32 0) × (length spans.old ≡ 65) × (down.old ≡ replicate 160 0) × (up.old ≡ replicate 160 0) }
    ensures { (b : Lines) → SidesAsked book inherited.now synthesized.now definitions.now b
        → SidesIn b definitions.now own.new spans.new down.new up.new }
{
    owned(inherited, book.inherited as usize, own);
    let from = book.inherited_definitions as usize;
    let to = (book.inherited_definitions + book.synthesized_definitions) as usize;
    fill_spans(definitions, from, to, book.rules, spans);
    fill_lists(inherited, book.inherited as usize, down);
    fill_lists(synthesized, book.synthesized as usize, up);
}
