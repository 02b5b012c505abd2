// Evaluating: a stored book and the tokens of a message to rows.
ghost use Rattle.std.specs.Prelude.{length};
ghost use Rattle.grammar.specs.Engine.{evaluate_words};
ghost use Rattle.book.specs.Refusals.{answer_of};
ghost use Rattle.attempts.specs.Evaluations.{Evaluates, count_of};

use book::refusal::Refusal;

// The number of the message's rows, which are in place; else the refusal, and zeros.
pub fn evaluate(words: &[u32], tokens: &[u32], rows: &mut [u32]) -> Result<u32, Refusal>
    ensures { Evaluates (evaluate_words words.now tokens.now (length rows.old)) (answer_of result) rows.new
        (count_of result) }
{
    let answer = arrays::evaluating::evaluate(words, tokens, rows);
    if answer.is_err() {
        rows.fill(0);
    }
    answer
}
