// A text by arrays of a room.
ghost use Rattle.std.specs.Prelude.{◌*◌, ◌≤◌, length};
ghost use Rattle.grammar.specs.Limits.{MAX_TEXT};
ghost use Rattle.definitions.specs.Expressions.{WaitsRoom};
ghost use Rattle.compiler.specs.InArrays.{TablesStay};
ghost use Rattle.attempts.specs.Rooms.{ArraysIn};
ghost use Rattle.attempts.specs.Readings.{Attempted};

use book::refusal::Refusal;
use book::{Book, Room};
use compiler::book_lines::BookLines;
use compiler::compile::compile;
use compiler::tables::Tables;
use text::classes;
use text::source::Source;

// The first of 2 to 10 that applies to a text, by arrays of the caller, where they have room for what the text has. What they hold is not looked at again.
pub fn attempt(
    text: &[u8],
    room: Room,
    rules: &mut [u32],
    definitions: &mut [u32],
    kernels: &mut [u32],
    goes: &mut [u32],
    tables: &mut Tables<'_>,
) -> Option<Result<(), Refusal>>
    requires { (length text.now ≤ MAX_TEXT) × WaitsRoom text.now tables.old.actions.now × (32 * room.states ≤ length tables.old.actions.now)
        × ArraysIn room rules.old definitions.old kernels.old goes.old tables.old }
    ensures stay { TablesStay tables.old tables.new }
    ensures attempted { Attempted room text.now result }
{
    let classes = classes();
    let source = Source {
        classes: &classes,
        bytes: text,
    };
    let mut inherited = [0u32; Book::MAX_INHERITED as usize];
    let mut synthesized = [0u32; Book::MAX_SYNTHESIZED as usize];
    let mut lines = BookLines {
        inherited: &mut inherited,
        synthesized: &mut synthesized,
        rules,
        definitions,
        kernels,
        goes,
    };
    let compiled = compile(&source, room, &mut lines, tables)?;
    Some(compiled.map(|_| ()))
}
