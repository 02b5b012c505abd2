// Reading: the text of a book to the words of a stored book.
ghost use Rattle.std.specs.Prelude.{◌≡◌, length};
ghost use Rattle.grammar.specs.Engine.{read_book};
ghost use Rattle.book.specs.Refusals.{answer_of};
ghost use Rattle.attempts.specs.Readings.{Reads, read_number};

use book::Book;
use book::refusal::Refusal;
use packing::packing::pack;

// 1 for the lengths, else the refusal of the text. What is in the words afterwards is not said.
fn check(text: &[u8], words: &mut [u32]) -> Result<(), Refusal>
    ensures { answer_of result ≡ read_number text.now (length words.old) }
{
    if Book::MAX_TEXT < text.len() {
        return Err(Refusal::Lengths);
    }
    if words.len() != Book::BOOK_WORDS {
        return Err(Refusal::Lengths);
    }
    arrays::reading::read(text, words)
}

// Where the text is taken, its packing is in the words; else zeros.
pub fn read(text: &[u8], words: &mut [u32]) -> Result<(), Refusal>
    ensures { Reads (read_book text.now (length words.old)) (answer_of result) words.new }
{
    let answer = check(text, words);
    if answer.is_ok() {
        pack(text, words);
    } else {
        words.fill(0);
    }
    answer
}
