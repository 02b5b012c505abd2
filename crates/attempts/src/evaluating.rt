// A message under a stored book, by arrays of a room.
ghost use Rattle.std.specs.Prelude.{List, ℕ, ◌+◌, ◌*◌, ◌≤◌, length};
ghost use Rattle.compiler.specs.InArrays.{TablesStay};
ghost use Rattle.attempts.specs.Rooms.{ArraysIn};
ghost use Rattle.attempts.specs.Stored.{Found};
ghost use Rattle.attempts.specs.Evaluations.{Asked};
ghost use Rattle.attempts.specs.Attempts.{ReadIn, Responds, Attempts};
ghost use Rattle.book.specs.declared.Room.{Room};

use super::tokens::kinds_right;
use book::refusal::Refusal;
use book::{Book, Room};
use compiler::book_lines::BookLines;
use compiler::compile::compile;
use compiler::tables::Tables;
use messages::messages::message;
use text::classes;
use text::source::Source;

// The first of 12, 13 and 14 that applies to the room for rows and the tokens.
fn asked(tokens: &[u32], terminals: u32, lent: usize) -> Result<(), Refusal>
    ensures { Asked terminals tokens.now lent result }
{
    if lent != Book::PAGE_WORDS {
        return Err(Refusal::RowLength);
    }
    if tokens.len() % 2 != 0 || 2 * Book::MAX_TOKENS < tokens.len() {
        return Err(Refusal::Tokens);
    }
    if !kinds_right(tokens, terminals) {
        return Err(Refusal::TokenKind);
    }
    Ok(())
}

// What is answered of a text for which the arrays had room: the refusal, or the number of rows, which are in place. `slots` may hold anything.
fn respond(
    compiled: Result<Book, Refusal>,
    lines: &BookLines<'_>,
    tables: &Tables<'_>,
    tokens: &[u32],
    slots: &mut [u8],
    rows: &mut [u32],
) -> Result<u32, Refusal>
    requires { (room : Room) × (n : ℕ) × (text : List ℕ) × ReadIn room n text compiled lines.now tables.now
        × (32 * room.states ≤ length slots.old) }
    ensures { (room : Room) (n : ℕ) (text : List ℕ) → ReadIn room n text compiled lines.now tables.now
        → Responds text n tokens.now (length rows.old) result rows.new }
{
    let Ok(book) = compiled else {
        return Err(Refusal::Stored);
    };
    asked(tokens, book.terminals, rows.len())?;
    message(book, lines, tables, tokens, slots, rows)
}

// The answer to a message under a book whose text is the first `n` bytes of `text`, by arrays of the caller, where they have room for the book. Once the book
// is compiled, the run has `text` for its slots.
pub fn attempt(
    text: &mut [u8],
    n: usize,
    room: Room,
    rules: &mut [u32],
    definitions: &mut [u32],
    kernels: &mut [u32],
    goes: &mut [u32],
    tables: &mut Tables<'_>,
    tokens: &[u32],
    rows: &mut [u32],
) -> Option<Result<u32, Refusal>>
    requires { ((words : List ℕ) × Found words text.old n) × (n ≤ 5 * length tables.old.actions.now + 3)
        × (32 * room.states ≤ length tables.old.actions.now) × (32 * room.states ≤ length text.old)
        × ArraysIn room rules.old definitions.old kernels.old goes.old tables.old }
    ensures stay { TablesStay tables.old tables.new }
    ensures attempts { Attempts room text.old n tokens.now (length rows.old) result rows.new }
{
    let classes = classes();
    let source = Source {
        classes: &classes,
        bytes: &text[..n],
    };
    let mut inherited = [0u32; Book::MAX_INHERITED as usize];
    let mut synthesized = [0u32; Book::MAX_SYNTHESIZED as usize];
    let mut lines = BookLines {
        inherited: &mut inherited,
        synthesized: &mut synthesized,
        rules,
        definitions,
        kernels,
        goes,
    };
    let compiled = compile(&source, room, &mut lines, tables)?;
    Some(respond(compiled, &lines, tables, tokens, text, rows))
}
