// The input, taken byte by byte: the book's text up to its first end line, then token lines. Nothing of the input is kept but the book's text, the
// line at hand and the tokens' numbers, so there may be any amount of it.
ghost use Rattle.std.specs.Prelude.{◌≡◌, List, ◌∷◌, [], ◌++◌, ℕ, ◌≤◌, eqb, length};
ghost use Rattle.text.specs.Table.{table};
ghost use Rattle.conditions.specs.Answers.{Some};
ghost use Rattle.console.specs.Desk.{Input, is_end, token_of, one_byte, all_bytes};
ghost use Rattle.console.specs.Lines.{numbers_in};
ghost use Rattle.console.specs.Kept.{KEPT_NUMBERS, Kept};
ghost use Rattle.console.specs.Holds.{TEXT_ROOM, Buffers, HoldsBook, HoldsTokens, Holds};

use book::Book;
use book::refusal::Refusal;
use book::spelling::{closing, end_line};
use book::store::put_line;
use lines::heads::Head;
use lines::line_head;
use text::source::Source;

// The word of a token line, as a number in base 32: a is 1, z is 26.
const TOK: u32 = (20 * 32 + 15) * 32 + 11;

// The bytes of the longest token line: `(tok `, a space, `)` and the line feed, and two numbers of ten digits.
const TOKEN_BYTES: usize = 28;

// One token more than a message can have.
const KEPT_TOKENS: u32 = Book::MAX_TOKENS as u32 + 1;

// The numbers of these tokens.
pub const KEPT_NUMBERS: usize = 2 * (KEPT_TOKENS as usize);

// The longest text of a book and the longest token line.
pub const TEXT_ROOM: usize = Book::MAX_TEXT + TOKEN_BYTES;

// What has been read.
#[derive(Clone, Copy)]
pub enum Progress {
    // The text of the book so far ends before `at`, and its last line begins at `line`.
    Book { line: usize, at: usize },
    // The text of the book ends before `book`, and the line at hand stands from there up to `at`; there are `count` tokens, or more if it is `KEPT_TOKENS`.
    Tokens { book: usize, at: usize, count: u32 },
    // A refusal that no further input changes.
    Refused(Refusal),
}

// Whether a line is the end line.
fn is_end(line: &Source<'_>) -> bool
    ensures { result ≡ is_end line.now.bytes.now }
{
    end_line(line, 0) == line.bytes.len()
}

// The numbers of a token line.
#[derive(Clone, Copy)]
struct Token {
    kind: u32,
    value: u32,
}

// What stands in a token line, if it is spelled right.
fn token_line(line: &Source<'_>) -> Option<Token>
    ensures { token_of line.now.bytes.now ≡ numbers_in result }
{
    let head = Head {
        word: TOK,
        bytes: b"(tok ",
    };
    let a = line_head(line.classes, line.bytes, 0, head.word, head.bytes);
    let kind = line.number(a);
    let b = line.mark(kind.at, text::SPACE);
    let value = line.number(b);
    let end = closing(line, value.at);
    if end != line.bytes.len() {
        return None;
    }
    Some(Token {
        kind: kind.value,
        value: value.value,
    })
}

// Whether a byte ends a line.
fn is_feed(t: &[u8; 256], b: u8) -> bool
    requires { t.now ≡ table }
    ensures { result ≡ eqb b 10 }
{
    text::class(t, b) == text::FEED
}

// A byte of the book's text.
fn book_byte(t: &[u8; 256], line: usize, at: usize, b: u8, text: &mut [u8]) -> Progress
    requires { (t.now ≡ table) × (TEXT_ROOM ≤ length text.old) × Some (HoldsBook text.old line at) }
    ensures { (i : Input) → HoldsBook text.old line at i → (buffer : List ℕ) → Holds result text.new buffer (one_byte i b) }
{
    if Book::MAX_TEXT <= at {
        return Progress::Refused(Refusal::Lengths);
    }
    text[at] = b;
    let next = at + 1;
    if !is_feed(t, b) {
        return Progress::Book { line, at: next };
    }
    let last = Source {
        classes: t,
        bytes: &text[line..next],
    };
    if is_end(&last) {
        return Progress::Tokens {
            book: next,
            at: next,
            count: 0,
        };
    }
    Progress::Book {
        line: next,
        at: next,
    }
}

// The numbers of one token more, if they are kept, and how many tokens are kept then.
fn put_token(numbers: &mut [u32], count: u32, token: Token) -> u32
    requires { KEPT_NUMBERS ≤ length numbers.old }
    ensures { (ns : List ℕ) → Kept numbers.old count ns → Kept numbers.new result (ns ++ (token.kind ∷ token.value ∷ [])) }
{
    put_line(
        numbers,
        KEPT_TOKENS as usize,
        count,
        &[token.kind, token.value],
    );
    if count < KEPT_TOKENS {
        return count + 1;
    }
    count
}

// A byte of the token lines.
fn token_byte(
    t: &[u8; 256],
    book: usize,
    at: usize,
    count: u32,
    b: u8,
    text: &mut [u8],
    numbers: &mut [u32],
) -> Progress
    requires { Buffers t.now text.old numbers.old × Some (HoldsTokens text.old numbers.old book at count) }
    ensures { (i : Input) → HoldsTokens text.old numbers.old book at count i
        → Holds result text.new numbers.new (one_byte i b) }
{
    if book + TOKEN_BYTES <= at {
        return Progress::Refused(Refusal::Spelling);
    }
    text[at] = b;
    let next = at + 1;
    if !is_feed(t, b) {
        return Progress::Tokens {
            book,
            at: next,
            count,
        };
    }
    let line = Source {
        classes: t,
        bytes: &text[book..next],
    };
    let Some(token) = token_line(&line) else {
        return Progress::Refused(Refusal::Spelling);
    };
    let kept = put_token(numbers, count, token);
    Progress::Tokens {
        book,
        at: book,
        count: kept,
    }
}

// One byte more.
fn one_byte(
    t: &[u8; 256],
    progress: Progress,
    b: u8,
    text: &mut [u8],
    numbers: &mut [u32],
) -> Progress
    requires { Buffers t.now text.old numbers.old × Some (Holds progress text.old numbers.old) }
    ensures { (i : Input) → Holds progress text.old numbers.old i
        → Holds result text.new numbers.new (one_byte i b) }
{
    match progress {
        Progress::Book { line, at } => book_byte(t, line, at, b, text),
        Progress::Tokens { book, at, count } => token_byte(t, book, at, count, b, text, numbers),
        Progress::Refused(_) => progress,
    }
}

// As many bytes more as there are: what is held of some input is afterwards held of that input with these bytes after it.
pub fn all_bytes(
    t: &[u8; 256],
    progress: Progress,
    bytes: &[u8],
    text: &mut [u8],
    numbers: &mut [u32],
) -> Progress
    requires { Buffers t.now text.old numbers.old × Some (Holds progress text.old numbers.old) }
    ensures { (i : Input) → Holds progress text.old numbers.old i
        → Holds result text.new numbers.new (all_bytes i bytes.now) }
{
    let mut p = progress;
    for &b in bytes {
        p = one_byte(t, p, b, text, numbers);
    }
    p
}
