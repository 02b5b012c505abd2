// A message under a stored book, by arrays that have room for the book.
// `short` and `long` are one function but for the sizes: an array's length cannot be computed from a const parameter, and a parameter for each is no plainer.
// `long` is called in two places, so that compilers keep its frame apart from that of short books.
ghost use Rattle.std.specs.Prelude.{◌≡◌, ◌≤◌, length, IfSome};
ghost use Rattle.grammar.specs.Limits.{BOOK_WORDS};
ghost use Rattle.grammar.specs.Engine.{evaluate_words};
ghost use Rattle.packing.specs.Words.{Holds};
ghost use Rattle.attempts.specs.Rooms.{SHORT_TEXT};
ghost use Rattle.attempts.specs.Evaluations.{Answers};

use super::SHORT_TEXT;
use attempts::evaluating::attempt;
use attempts::rooms::{
    SHORT_DEFINITIONS, SHORT_GOES, SHORT_KERNELS, SHORT_RULES, SHORT_STATES, short_room,
};
use book::refusal::Refusal;
use book::{Book, Room};
use compiler::tables::Tables;
use definitions::definitions::WORDS;
use packing::unpacking::{text_length, unpack};

// By arrays for a short book, whose text has `n` bytes.
fn short(words: &[u32], n: usize, tokens: &[u32], rows: &mut [u32]) -> Option<Result<u32, Refusal>>
    requires { (length words.now ≡ BOOK_WORDS) × Holds words.now n × (n ≤ SHORT_TEXT) }
    ensures { IfSome result (λ answer. Answers (evaluate_words words.now tokens.now (length rows.old))
        (length rows.old) answer rows.new) }
{
    let mut text = [0u8; SHORT_TEXT];
    unpack(words, n, &mut text);
    let mut rules = [0u32; 10 * SHORT_RULES];
    let mut definitions = [0u32; WORDS * SHORT_DEFINITIONS];
    let mut kernels = [0u32; 5 * SHORT_KERNELS];
    let mut goes = [0u32; 3 * SHORT_GOES];
    let mut nullables = [0u32; 9 * SHORT_RULES];
    let mut begins = [0u32; 9 * SHORT_RULES];
    let mut reaches = [0u32; 9 * SHORT_RULES];
    let mut bounds = [0u32; SHORT_STATES + 1];
    let mut closures = [0u32; 32 * SHORT_STATES];
    let mut fronts = [0u64; SHORT_STATES];
    let mut table = [255u8; 64 * SHORT_STATES];
    let mut actions = [0u8; 32 * SHORT_STATES];
    let mut tables = Tables {
        nullables: &mut nullables,
        begins: &mut begins,
        reaches: &mut reaches,
        bounds: &mut bounds,
        closures: &mut closures,
        fronts: &mut fronts,
        table: &mut table,
        actions: &mut actions,
    };
    attempt(
        &mut text,
        n,
        short_room(),
        &mut rules,
        &mut definitions,
        &mut kernels,
        &mut goes,
        &mut tables,
        tokens,
        rows,
    )
}

// By arrays for any book; its text has `n` bytes, and may stand in all words. What is used first is made last.
fn long(words: &[u32], n: usize, tokens: &[u32], rows: &mut [u32]) -> Result<u32, Refusal>
    requires { (length words.now ≡ BOOK_WORDS) × Holds words.now n }
    ensures { Answers (evaluate_words words.now tokens.now (length rows.old)) (length rows.old) result rows.new }
{
    let mut text = [0u8; Book::MAX_TEXT];
    unpack(words, n, &mut text);
    let mut kernels = [0u32; 5 * Book::MAX_KERNELS as usize];
    let mut goes = [0u32; 3 * Book::MAX_GOES as usize];
    let mut actions = [0u8; Book::MAX_TEXT / 5];
    let mut bounds = [0u32; Book::MAX_STATES as usize + 1];
    let mut closures = [0u32; 32 * Book::MAX_STATES as usize];
    let mut fronts = [0u64; Book::MAX_STATES as usize];
    let mut table = [255u8; 64 * Book::MAX_STATES as usize];
    let mut nullables = [0u32; 9 * Book::MAX_RULES as usize];
    let mut begins = [0u32; 9 * Book::MAX_RULES as usize];
    let mut reaches = [0u32; 9 * Book::MAX_RULES as usize];
    let mut rules = [0u32; 10 * Book::MAX_RULES as usize];
    let mut definitions = [0u32; WORDS * Book::MAX_DEFINITIONS as usize];
    let mut tables = Tables {
        nullables: &mut nullables,
        begins: &mut begins,
        reaches: &mut reaches,
        bounds: &mut bounds,
        closures: &mut closures,
        fronts: &mut fronts,
        table: &mut table,
        actions: &mut actions,
    };
    let Some(answer) = attempt(
        &mut text,
        n,
        Room::full(),
        &mut rules,
        &mut definitions,
        &mut kernels,
        &mut goes,
        &mut tables,
        tokens,
        rows,
    ) else {
        unreachable!()
    };
    answer
}

// The refusal, or the number of rows, which are in place, by arrays for a short book, or for any where those have no room.
pub fn evaluate(words: &[u32], tokens: &[u32], rows: &mut [u32]) -> Result<u32, Refusal>
    ensures { Answers (evaluate_words words.now tokens.now (length rows.old)) (length rows.old) result rows.new }
{
    if words.len() != Book::BOOK_WORDS {
        return Err(Refusal::Stored);
    }
    let n = text_length(words);
    if SHORT_TEXT < n {
        return long(words, n, tokens, rows);
    }
    if let Some(answer) = short(words, n, tokens, rows) {
        return answer;
    }
    long(words, n, tokens, rows)
}
