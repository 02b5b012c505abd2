// The arrays of a book's states, and the first of 7, 8 and 9 that applies.
// A contract asks that the arrays hold some book, and says what it says of every book that they hold.
ghost use Rattle.std.specs.Prelude.{◌≡◌, ◌*◌, ◌≤◌, length};
ghost use Rattle.grammar.specs.Data.Book.{Book as Lines};
ghost use Rattle.grammar.specs.Automaton.FirstSets.{sets_of};
ghost use Rattle.book.specs.Held.{GoesIn};
ghost use Rattle.book.specs.Refusals.{answer_of};
ghost use Rattle.items.specs.Arrays.{BoundsIn, ClosuresIn, GoTableIn};
ghost use Rattle.items.specs.Closures.{Blank};
ghost use Rattle.automaton.specs.Fronts.{FrontsIn};
ghost use Rattle.automaton.specs.GoTable.{Unset};
ghost use Rattle.compiler.specs.States.{KernelsHeld, ItemsFilled, goes_right};
ghost use Rattle.compiler.specs.InArrays.{HeldIn, RoomIn, TabledIn, TablesStay};

use super::tables::Tables;
use automaton::actions::fill_actions;
use automaton::go_rules::go_rules;
use automaton::go_table::go_table;
use automaton::kernel_rules::kernel_rules;
use automaton::lefts::fill_fronts;
use book::Book;
use book::refusal::Refusal;
use items::closures::fill_closures;
use items::rests::rests;

// The sets of the rules' rests, and the closures.
fn fill_items(
    rules: &[u32],
    count: u32,
    kernels: &[u32],
    states: u32,
    bounds: &[u32],
    nullables: &mut [u32],
    begins: &mut [u32],
    reaches: &mut [u32],
    closures: &mut [u32],
)
    requires kernels_held { (b : Lines) × KernelsHeld b rules.now kernels.now states × (count ≡ length b.rules)
        × BoundsIn b.kernels b.states bounds.now }
    requires count_in_bounds { (9 * count ≤ length nullables.old) × (9 * count ≤ length begins.old) × (9 * count ≤ length reaches.old)
        × Blank states closures.old }
    ensures { (b : Lines) → KernelsHeld b rules.now kernels.now states → count ≡ length b.rules
        → BoundsIn b.kernels b.states bounds.now
        → ItemsFilled b nullables.new begins.new reaches.new closures.new }
{
    rests(rules, count, nullables, begins, reaches);
    fill_closures(
        rules, count, kernels, bounds, states, nullables, begins, closures,
    );
}

// The go table, and whether the go rules (8) hold.
fn moves(
    rules: &[u32],
    kernels: &[u32],
    goes: &[u32],
    lines: u32,
    states: u32,
    bounds: &[u32],
    closures: &[u32],
    fronts: &[u64],
    table: &mut [u8],
) -> bool
    requires { ((b : Lines) × KernelsHeld b rules.now kernels.now states × GoesIn b.goes goes.now × (lines ≡ length b.goes)
        × BoundsIn b.kernels b.states bounds.now × ClosuresIn b (sets_of b.rules) closures.now
        × FrontsIn b rules.now closures.now fronts.now) × Unset states table.old }
    ensures { (b : Lines) → KernelsHeld b rules.now kernels.now states → GoesIn b.goes goes.now
        → lines ≡ length b.goes → BoundsIn b.kernels b.states bounds.now → ClosuresIn b (sets_of b.rules) closures.now
        → FrontsIn b rules.now closures.now fronts.now → (result ≡ goes_right b) × GoTableIn b table.new }
{
    go_table(goes, lines, states, table);
    go_rules(
        rules, kernels, goes, lines, states, bounds, closures, table, fronts,
    )
}

// Fills the tables of a book, up to the first of 7, 8 and 9 that applies.
pub fn fill_tables(
    book: Book,
    rules: &[u32],
    kernels: &[u32],
    goes: &[u32],
    tables: &mut Tables<'_>,
) -> Result<(), Refusal>
    requires book_held { (b : Lines) × HeldIn book rules.now kernels.now goes.now b }
    requires tables_room { RoomIn book tables.old }
    ensures stay { TablesStay tables.old tables.new }
    ensures tabled { (b : Lines) → HeldIn book rules.now kernels.now goes.now b → TabledIn b (answer_of result) rules.now tables.new }
{
    // Each has a name of its own, for a step reads some while it fills others.
    let nullables = &mut *tables.nullables;
    let begins = &mut *tables.begins;
    let reaches = &mut *tables.reaches;
    let bounds = &mut *tables.bounds;
    let closures = &mut *tables.closures;
    let fronts = &mut *tables.fronts;
    let table = &mut *tables.table;
    let actions = &mut *tables.actions;
    if !kernel_rules(rules, kernels, book.kernels, book.states, bounds) {
        return Err(Refusal::Kernel);
    }
    fill_items(
        rules,
        book.rules,
        kernels,
        book.states,
        bounds,
        nullables,
        begins,
        reaches,
        closures,
    );
    fill_fronts(
        rules,
        book.rules as usize,
        closures,
        book.states as usize,
        fronts,
    );
    if !moves(
        rules,
        kernels,
        goes,
        book.goes,
        book.states,
        bounds,
        closures,
        fronts,
        table,
    ) {
        return Err(Refusal::Go);
    }
    if !fill_actions(
        rules,
        kernels,
        bounds,
        closures,
        fronts,
        book.terminals,
        book.states,
        actions,
    ) {
        return Err(Refusal::Conflict);
    }
    Ok(())
}
