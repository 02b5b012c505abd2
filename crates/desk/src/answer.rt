// The answer to what was read: the two calls of the engine, and their figures in the output.
ghost use Rattle.std.proofs.Math.Option.{some};
ghost use Rattle.std.specs.Prelude.{◌≤◌, length};
ghost use Rattle.grammar.specs.Limits.{MAX_TEXT};
ghost use Rattle.grammar.specs.Cases.Cases.{calls};
ghost use Rattle.conditions.specs.Answers.{Some};
ghost use Rattle.console.specs.Desk.{Input, answer, answer_to};
ghost use Rattle.console.specs.Holds.{HoldsTokens, Holds};
ghost use Rattle.console.specs.Printing.{OUTPUT_BYTES, Printed};
ghost use Rattle.desk.specs.Answers.{Lengths, Figured};

use book::refusal::Refusal;
use console::input::Progress;
use console::output::{put_answer, put_refused};
use engine::evaluating::evaluate;
use engine::reading::read;

// What reading and evaluating say of a book's text and the tokens' numbers: the number of rows, or the refusal.
fn figures(
    text: &[u8],
    numbers: &[u32],
    words: &mut [u32],
    rows: &mut [u32],
) -> Result<u32, Refusal>
    requires { Lengths words.old rows.old }
    ensures { Figured (calls text.now numbers.now) result rows.new }
{
    read(text, words)?;
    evaluate(words, numbers, rows)
}

// The answer to a book's text that is not too long and tokens that are spelled right.
fn respond(
    text: &[u8],
    numbers: &[u32],
    words: &mut [u32],
    rows: &mut [u32],
    out: &mut [u8],
) -> usize
    requires { (length text.now ≤ MAX_TEXT) × Lengths words.old rows.old × (OUTPUT_BYTES ≤ length out.old) }
    ensures { Printed (answer text.now (some numbers.now)) out.new result }
{
    let answer = figures(text, numbers, words, rows).map_err(Refusal::number);
    put_answer(out, answer, rows)
}

// The answer where the input ends in the token lines: a line that is not ended is misspelt.
fn tokens_answer(
    book: usize,
    at: usize,
    count: u32,
    text: &[u8],
    numbers: &[u32],
    words: &mut [u32],
    rows: &mut [u32],
    out: &mut [u8],
) -> usize
    requires { Some (HoldsTokens text.now numbers.now book at count) × Lengths words.old rows.old × (OUTPUT_BYTES ≤ length out.old) }
    ensures { (i : Input) → HoldsTokens text.now numbers.now book at count i → Printed (answer_to i) out.new result }
{
    if book < at {
        return put_refused(out, Refusal::Spelling.number());
    }
    let n = 2 * (count as usize);
    respond(&text[..book], &numbers[..n], words, rows, out)
}

// The answer where the input ends.
pub fn answer(
    progress: Progress,
    text: &[u8],
    numbers: &[u32],
    words: &mut [u32],
    rows: &mut [u32],
    out: &mut [u8],
) -> usize
    requires { Some (Holds progress text.now numbers.now) × Lengths words.old rows.old × (OUTPUT_BYTES ≤ length out.old) }
    ensures { (i : Input) → Holds progress text.now numbers.now i → Printed (answer_to i) out.new result }
{
    match progress {
        Progress::Book { line: _, at } => respond(&text[..at], &numbers[..0], words, rows, out),
        Progress::Tokens { book, at, count } => {
            tokens_answer(book, at, count, text, numbers, words, rows, out)
        }
        Progress::Refused(refusal) => put_refused(out, refusal.number()),
    }
}
