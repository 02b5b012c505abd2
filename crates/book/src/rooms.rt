// Whether arrays have room for a book.
ghost use Rattle.std.specs.Prelude.{◌<◌, ◌≤◌};
ghost use Rattle.grammar.specs.Conditions.Decides.{Decides};
ghost use Rattle.book.specs.Spelling.{Complete};

use super::{Book, Room};

// Whether a number of lines has room. Where there is room for as many as the limit allows, more are not asked for: they are refused by their number.
fn fits(room: usize, count: usize, limit: u32) -> bool
    ensures { Decides result (room < limit → count ≤ room) }
{
    if room < limit as usize {
        return count <= room;
    }
    true
}

// Whether nothing of a book was left out for want of room.
pub fn complete(room: Room, book: Book) -> bool
    ensures { Decides result (Complete room book) }
{
    let definitions = book.inherited_definitions as usize + book.synthesized_definitions as usize;
    fits(room.definitions, definitions, Book::MAX_DEFINITIONS)
        && fits(room.kernels, book.kernels as usize, Book::MAX_KERNELS)
        && fits(room.goes, book.goes as usize, Book::MAX_GOES)
        && fits(room.states, book.states as usize, Book::MAX_STATES)
        && fits(room.rules, book.rules as usize, Book::MAX_RULES)
}
