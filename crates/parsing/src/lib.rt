// A book's text read into arrays: the first line, the sections in order, the last line, and nothing after it (2).
#![tactic(auto)]

ghost use Rattle.std.specs.Prelude.{◌*◌, ◌≤◌, length};
ghost use Rattle.grammar.specs.Limits.{MAX_INHERITED, MAX_SYNTHESIZED};
ghost use Rattle.book.specs.Lines.{RULE_WORDS};
ghost use Rattle.definitions.specs.Expressions.{WaitsRoom};
ghost use Rattle.parsing.specs.Declarations.{Declares};
ghost use Rattle.book.specs.Spelling.{arrays, Roomy, Spelling};

use book::header::header;
use book::kind::Kind;
use book::owners::owner_lines;
use book::rules::rule_lines;
use book::spelling::end_line;
use book::{Book, Room};
use definitions::definitions::definition_sections;
use kernels::goes::go_lines;
use kernels::kernels::kernel_lines;
use text::Cursor;
use text::source::Source;

// What the first line says, how many attributes of each kind and how many rules there are, and where the text goes on.
#[derive(Clone, Copy)]
struct DeclarationsRead {
    terminals: u32,
    nonterminals: u32,
    states: u32,
    inherited: u32,
    synthesized: u32,
    rules: u32,
    at: usize,
}

// The first line and the sections inh, syn and rule. `room` is that for rules.
fn declarations(
    source: &Source<'_>,
    room: usize,
    inherited: &mut [u32],
    synthesized: &mut [u32],
    rules: &mut [u32],
) -> DeclarationsRead
    requires { (MAX_INHERITED ≤ length inherited.old) × (MAX_SYNTHESIZED ≤ length synthesized.old)
        × (room * RULE_WORDS ≤ length rules.old) }
    ensures { Declares room source.now.bytes.now inherited.old synthesized.old rules.old
        (record { terminals = result.terminals; nonterminals = result.nonterminals; states = result.states }) result.inherited result.synthesized result.rules result.at
        inherited.new synthesized.new rules.new }
{
    let head = header(source, Cursor::new().at);
    let a = owner_lines(source, head.at, Kind::Inherited, inherited);
    let b = owner_lines(source, a.at, Kind::Synthesized, synthesized);
    let c = rule_lines(source, b.at, room, rules);
    DeclarationsRead {
        terminals: head.terminals,
        nonterminals: head.nonterminals,
        states: head.states,
        inherited: a.count,
        synthesized: b.count,
        rules: c.count,
        at: c.at,
    }
}

// Reads a text into arrays, one for each kind of line: the numbers of its book, or nothing if it spells none. Each array keeps the lines
// that it has room for; `waits` is the stack of the expressions' operators.
pub fn spelling(
    source: &Source<'_>,
    waits: &mut [u8],
    room: Room,
    inherited: &mut [u32],
    synthesized: &mut [u32],
    rules: &mut [u32],
    definitions: &mut [u32],
    kernels: &mut [u32],
    goes: &mut [u32],
) -> Option<Book>
    requires { WaitsRoom source.now.bytes.now waits.old
        × Roomy room (arrays inherited.old synthesized.old rules.old definitions.old kernels.old goes.old) }
    ensures { Spelling room source.now.bytes.now
        (arrays inherited.old synthesized.old rules.old definitions.old kernels.old goes.old)
        result
        (arrays inherited.new synthesized.new rules.new definitions.new kernels.new goes.new) }
{
    let declared = declarations(source, room.rules, inherited, synthesized, rules);
    let defined = definition_sections(source, declared.at, waits, room.definitions, definitions);
    let items = kernel_lines(source, defined.at, room.kernels, kernels);
    let moves = go_lines(source, items.at, room.goes, goes);
    let end = end_line(source, moves.at);
    if end != source.bytes.len() {
        return None;
    }
    Some(Book {
        terminals: declared.terminals,
        nonterminals: declared.nonterminals,
        states: declared.states,
        inherited: declared.inherited,
        synthesized: declared.synthesized,
        rules: declared.rules,
        inherited_definitions: defined.inherited,
        synthesized_definitions: defined.synthesized,
        kernels: items.count,
        goes: moves.count,
    })
}
