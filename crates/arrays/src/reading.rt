// The refusal of a text, by arrays that have room for its book.
// `short` and `long` are one function but for the sizes: an array's length cannot be computed from a const parameter, and a parameter for each is no plainer.
// `long` is called in two places, so that compilers keep its frame apart from that of short books.
ghost use Rattle.std.specs.Prelude.{◌≡◌, ◌≤◌, length, IfSome};
ghost use Rattle.grammar.specs.Limits.{MAX_TEXT, BOOK_WORDS};
ghost use Rattle.grammar.specs.Refusal.{refusal};
ghost use Rattle.book.specs.Refusals.{answer_of};
ghost use Rattle.attempts.specs.Rooms.{SHORT_TEXT};

use super::SHORT_TEXT;
use attempts::reading::attempt;
use attempts::rooms::{
    SHORT_DEFINITIONS, SHORT_GOES, SHORT_KERNELS, SHORT_RULES, SHORT_STATES, short_room,
};
use book::refusal::Refusal;
use book::{Book, Room};
use compiler::tables::Tables;
use definitions::definitions::WORDS;

// By arrays for a short book.
fn short(text: &[u8], words: &mut [u32]) -> Option<Result<(), Refusal>>
    requires { (length text.now ≤ SHORT_TEXT) × (length words.old ≡ BOOK_WORDS) }
    ensures { IfSome result (λ answer. answer_of answer ≡ refusal text.now) }
{
    let mut rules = [0u32; 10 * SHORT_RULES];
    let mut kernels = [0u32; 5 * SHORT_KERNELS];
    let mut goes = [0u32; 3 * SHORT_GOES];
    let mut nullables = [0u32; 9 * SHORT_RULES];
    let mut begins = [0u32; 9 * SHORT_RULES];
    let mut reaches = [0u32; 9 * SHORT_RULES];
    let mut bounds = [0u32; SHORT_STATES + 1];
    let mut closures = [0u32; 32 * SHORT_STATES];
    let mut fronts = [0u64; SHORT_STATES];
    let mut table = [255u8; 64 * SHORT_STATES];
    let mut actions = [0u8; 32 * SHORT_STATES];
    let mut tables = Tables {
        nullables: &mut nullables,
        begins: &mut begins,
        reaches: &mut reaches,
        bounds: &mut bounds,
        closures: &mut closures,
        fronts: &mut fronts,
        table: &mut table,
        actions: &mut actions,
    };
    attempt(
        text,
        short_room(),
        &mut rules,
        &mut words[..WORDS * SHORT_DEFINITIONS],
        &mut kernels,
        &mut goes,
        &mut tables,
    )
}

// By arrays for any book. What is used first is made last.
fn long(text: &[u8], words: &mut [u32]) -> Result<(), Refusal>
    requires { (length text.now ≤ MAX_TEXT) × (length words.old ≡ BOOK_WORDS) }
    ensures { answer_of result ≡ refusal text.now }
{
    let mut kernels = [0u32; 5 * Book::MAX_KERNELS as usize];
    let mut goes = [0u32; 3 * Book::MAX_GOES as usize];
    let mut actions = [0u8; Book::MAX_TEXT / 5];
    let mut bounds = [0u32; Book::MAX_STATES as usize + 1];
    let mut closures = [0u32; 32 * Book::MAX_STATES as usize];
    let mut fronts = [0u64; Book::MAX_STATES as usize];
    let mut table = [255u8; 64 * Book::MAX_STATES as usize];
    let mut nullables = [0u32; 9 * Book::MAX_RULES as usize];
    let mut begins = [0u32; 9 * Book::MAX_RULES as usize];
    let mut reaches = [0u32; 9 * Book::MAX_RULES as usize];
    let mut rules = [0u32; 10 * Book::MAX_RULES as usize];
    let mut tables = Tables {
        nullables: &mut nullables,
        begins: &mut begins,
        reaches: &mut reaches,
        bounds: &mut bounds,
        closures: &mut closures,
        fronts: &mut fronts,
        table: &mut table,
        actions: &mut actions,
    };
    let Some(answer) = attempt(
        text,
        Room::full(),
        &mut rules,
        &mut words[..WORDS * Book::MAX_DEFINITIONS as usize],
        &mut kernels,
        &mut goes,
        &mut tables,
    ) else {
        unreachable!()
    };
    answer
}

// The first of 2 to 10 that applies to a text, by arrays for a short book, or for any where those have no room.
pub fn read(text: &[u8], words: &mut [u32]) -> Result<(), Refusal>
    requires { (length text.now ≤ MAX_TEXT) × (length words.old ≡ BOOK_WORDS) }
    ensures { answer_of result ≡ refusal text.now }
{
    if SHORT_TEXT < text.len() {
        return long(text, words);
    }
    if let Some(answer) = short(text, words) {
        return answer;
    }
    long(text, words)
}
