// The two public calls for callers in C, as include/message_book.h declares them: a slice comes as its pointer and its number of elements.
#![tactic(auto)]

ghost use Rattle.std.specs.Prelude.{length};
ghost use Rattle.grammar.specs.Engine.{read_book, evaluate_words};
ghost use Rattle.attempts.specs.Evaluations.{Evaluates};
ghost use Rattle.attempts.specs.Readings.{Reads};

// Reading.
#[unsafe(no_mangle)]
pub extern "C" fn message_book_read(text: &[u8], words: &mut [u32]) -> u32
    ensures { Reads (read_book text.now (length words.old)) result words.new }
{
    engine::message_book_read(text, words)
}

// Evaluating.
#[unsafe(no_mangle)]
pub extern "C" fn message_book_evaluate(
    words: &[u32],
    tokens: &[u32],
    rows: &mut [u32],
    count: &mut u32,
) -> u32
    ensures { Evaluates (evaluate_words words.now tokens.now (length rows.old)) result rows.new
        count.new }
{
    engine::message_book_evaluate(words, tokens, rows, count)
}
