// The two public calls: reading and evaluating.
#![tactic(auto)]

pub mod evaluating;
pub mod reading;

ghost use Rattle.std.specs.Prelude.{length};
ghost use Rattle.grammar.specs.Engine.{read_book, evaluate_words};
ghost use Rattle.attempts.specs.Evaluations.{Evaluates};
ghost use Rattle.attempts.specs.Readings.{Reads};

// Reading. Crate engine_c exports it for callers in C.
pub fn message_book_read(text: &[u8], words: &mut [u32]) -> u32
    ensures { Reads (read_book text.now (length words.old)) result words.new }
{
    match reading::read(text, words) {
        Ok(()) => 0,
        Err(refusal) => refusal.number(),
    }
}

// Evaluating. Crate engine_c exports it for callers in C.
pub fn message_book_evaluate(
    words: &[u32],
    tokens: &[u32],
    rows: &mut [u32],
    count: &mut u32,
) -> u32
    ensures { Evaluates (evaluate_words words.now tokens.now (length rows.old)) result rows.new
        count.new }
{
    match evaluating::evaluate(words, tokens, rows) {
        Ok(n) => {
            *count = n;
            0
        }
        Err(refusal) => {
            *count = 0;
            refusal.number()
        }
    }
}
