// The machine's run over a message under a book that is taken.
ghost use Rattle.std.specs.Prelude.{◌≡◌, ◌*◌, ◌≤◌, length};
ghost use Rattle.grammar.specs.Limits.{PAGE_WORDS};
ghost use Rattle.grammar.specs.Data.Book.{Book as Lines};
ghost use Rattle.grammar.specs.Evaluator.Machine.{Answer, evaluate};
ghost use Rattle.grammar.specs.Engine.{tables_of};
ghost use Rattle.conditions.specs.Answers.{Some};
ghost use Rattle.machine.specs.RunningLaws.{Answered};
ghost use Rattle.messages.specs.Messages.{Message, TakenIn};
ghost use Rattle.messages.specs.Pages.{Paged};

use super::sides::fill_sides;
use book::Book;
use book::refusal::Refusal;
use compiler::book_lines::BookLines;
use compiler::tables::Tables;
use machine::run::run;
use plans::members::mark_places;
use plans::program::Program;
use plans::slots::{Memory, PLANS};
use stack::stacks::Stacks;

// Nonterminals, with the one that stands for a whole message, and rules.
const NONTERMINALS: usize = Book::MAX_NONTERMINALS as usize + 1;

const RULES: usize = Book::MAX_RULES as usize;

// The run, with the stacks empty and no plan worked out. `slots` may hold anything.
fn message_run(
    book: Book,
    lines: &BookLines<'_>,
    tables: &Tables<'_>,
    tokens: &[u32],
    slots: &mut [u8],
    rows: &mut [u32],
) -> Result<u32, Refusal>
    requires some { Some (TakenIn book lines.now tables.now) }
    requires message { Message book.terminals tokens.now × (length rows.old ≡ PAGE_WORDS) × (32 * book.states ≤ length slots.old) }
    ensures { (b : Lines) → TakenIn book lines.now tables.now b → (m : Message book.terminals tokens.now)
        → Answered (evaluate b (tables_of b) m.list) result rows.new }
{
    slots[..32 * book.states as usize].fill(0);
    // All arrays stand here, in front: what is made further down is cleared twice.
    let mut lists = [0u8; 17 * PLANS + 1];
    let mut memory = Memory {
        slots,
        lists: &mut lists,
    };
    let mut stacks = Stacks {
        states: [0; Book::MAX_STACK + 1],
        cells: [0; 16 * Book::MAX_STACK + 16],
        records: [0; 33 * Book::MAX_STACK],
        starts: [0; Book::MAX_STACK],
    };
    let mut own = [0u32; NONTERMINALS];
    let mut spans = [0u32; RULES + 1];
    let mut down = [0u32; 5 * NONTERMINALS];
    let mut up = [0u32; 5 * NONTERMINALS];
    let mut places = [0u32; NONTERMINALS + 9 * RULES];
    fill_sides(
        book,
        lines.inherited,
        lines.synthesized,
        lines.definitions,
        &mut own,
        &mut spans,
        &mut down,
        &mut up,
    );
    mark_places(
        lines.definitions,
        book.inherited_definitions as usize,
        lines.rules,
        &mut places,
    );
    let program = Program {
        rules: lines.rules,
        definitions: lines.definitions,
        lines: book.inherited_definitions,
        owned: &own,
        down: &down,
        up: &up,
        spans: &spans,
        places: &places,
        kernels: lines.kernels,
        bounds: tables.bounds,
        closures: tables.closures,
        nullables: tables.nullables,
        reaches: tables.reaches,
        table: tables.table,
        actions: tables.actions,
    };
    run(&program, tokens, &mut memory, &mut stacks, rows)
}

// The answer to a message: the number of its rows, which stand with zeros behind them, or the refusal.
pub fn message(
    book: Book,
    lines: &BookLines<'_>,
    tables: &Tables<'_>,
    tokens: &[u32],
    slots: &mut [u8],
    rows: &mut [u32],
) -> Result<u32, Refusal>
    requires some { Some (TakenIn book lines.now tables.now) }
    requires message { Message book.terminals tokens.now × (length rows.old ≡ PAGE_WORDS) × (32 * book.states ≤ length slots.old) }
    ensures { (b : Lines) → TakenIn book lines.now tables.now b → (m : Message book.terminals tokens.now)
        → Paged (evaluate b (tables_of b) m.list) result rows.new }
{
    let count = message_run(book, lines, tables, tokens, slots, rows)?;
    let from = Book::ROW_WORDS * count as usize;
    rows[from..].fill(0);
    Ok(count)
}
