// From the text of a book to its arrays and tables, or to the first of conditions 2 to 10 that applies.
// A contract asks that the arrays hold some book, and says what it says of every book that they hold.
ghost use Rattle.std.specs.Prelude.{◌≡◌, List, ℕ, ◌*◌, ◌^◌, ◌<◌, ◌≤◌, length};
ghost use Rattle.grammar.specs.Limits.{MAX_INHERITED, MAX_NODES};
ghost use Rattle.grammar.specs.Data.Book.{Book as Lines};
ghost use Rattle.grammar.specs.Formulas.FormulaCheck as grammar;
ghost use Rattle.definitions.specs.Expressions.{WaitsRoom};
ghost use Rattle.book.specs.Held.{OwnersIn};
ghost use Rattle.book.specs.Refusals.{number_of, answer_of};
ghost use Rattle.book.specs.Spelling.{Roomy};
ghost use Rattle.conditions.specs.Answers.{Some};
ghost use Rattle.conditions.specs.Asked.{DefinitionsOf};
ghost use Rattle.agreement.specs.Given.{GivenIn};
ghost use Rattle.agreement.specs.OneFormula.{formulas_right};
ghost use Rattle.compiler.specs.Conditions.{definitions_refusal, conditions_refusal};
ghost use Rattle.compiler.specs.InArrays.{
  arrays_of,
  KeptIn,
  RoomIn,
  LentIn,
  PreparedIn,
  CheckedIn,
  CompilesIn,
  FrontsOf,
  LinesStay,
  TablesStay,
};

use super::book_lines::BookLines;
use super::states::fill_tables;
use super::tables::Tables;
use agreement::givers::fill_givers;
use agreement::one_formula::one_formula;
use agreement::single::all_single;
use book::refusal::Refusal;
use book::rooms::complete;
use book::{Book, Room};
use conditions::declared::{definitions_declared, names_declared};
use conditions::defined::defined;
use conditions::limits::within_limits;
use conditions::sound::sound;
use parsing::spelling;
use text::source::Source;

// Definitions that are few.
const FEW: u32 = 40;

// The nodes of formulas of so many definitions, and of as many as a book has; each has four words in the table.
const FEW_NODES: usize = (Book::MAX_NODES * FEW) as usize;

const FEW_WORDS: usize = 4 * FEW_NODES;

const MOST_NODES: usize = (Book::MAX_NODES * Book::MAX_DEFINITIONS) as usize;

const MOST_WORDS: usize = 4 * MOST_NODES;

// Which of 4 and 5 applies to definitions to which one of them does.
fn definitions_refused(book: Book, rules: &[u32], definitions: &[u32]) -> Refusal
    requires { Some (DefinitionsOf book rules.now definitions.now) }
    ensures { (b : Lines) → DefinitionsOf book rules.now definitions.now b → number_of result ≡ definitions_refusal b }
{
    if definitions_declared(book, rules, definitions) {
        return Refusal::Attribute;
    }
    Refusal::Name
}

// The first of 3, 4, 5 and 6 that applies. Nearly all books meet 4 and 5, which are asked of the definitions at once.
fn conditions(book: Book, lines: &BookLines<'_>) -> Result<(), Refusal>
    requires { Some (KeptIn book lines.now) }
    ensures { (b : Lines) → KeptIn book lines.now b → answer_of result ≡ conditions_refusal b }
{
    if !within_limits(
        book,
        lines.inherited,
        lines.synthesized,
        lines.rules,
        lines.definitions,
        lines.kernels,
    ) {
        return Err(Refusal::Limit);
    }
    if !names_declared(
        book,
        lines.inherited,
        lines.synthesized,
        lines.rules,
        lines.definitions,
        lines.kernels,
        lines.goes,
    ) {
        return Err(Refusal::Name);
    }
    if !sound(
        book,
        lines.inherited,
        lines.synthesized,
        lines.rules,
        lines.definitions,
    ) {
        return Err(definitions_refused(book, lines.rules, lines.definitions));
    }
    if !defined(book, lines.inherited, lines.synthesized, lines.rules) {
        return Err(Refusal::Undefined);
    }
    Ok(())
}

// Fills the tables of a book, up to the first of 3 to 9 that applies.
fn prepare(book: Book, lines: &BookLines<'_>, tables: &mut Tables<'_>) -> Result<(), Refusal>
    requires some { Some (KeptIn book lines.now) }
    requires tables_room { RoomIn book tables.old }
    ensures stay { TablesStay tables.old tables.new }
    ensures prepared { (b : Lines) → KeptIn book lines.now b → PreparedIn (answer_of result) book lines.now tables.new b }
{
    conditions(book, lines)?;
    fill_tables(book, lines.rules, lines.kernels, lines.goes, tables)
}

// Whether each attribute has one formula in every partial state, by room for NODES nodes of formulas, which are made here alone: a table of four words for each.
fn formulas_in<const WORDS: usize, const NODES: usize>(
    book: Book,
    lines: &BookLines<'_>,
    tables: &Tables<'_>,
    leaders: u64,
) -> bool
    requires held { (b : Lines) × (begins : List ℕ) × FrontsOf b book lines.now tables.now begins
        × OwnersIn MAX_INHERITED b.inherited_owners lines.now.inherited.now × (book.inherited ≡ length b.inherited_owners)
        × GivenIn b (grammar.definitions b) tables.now.begins.now leaders }
    requires room { (WORDS ≡ 4 * NODES) × (NODES < 2 ^ 32) × (MAX_NODES * book.inherited_definitions ≤ NODES) }
    ensures { (b : Lines) (begins : List ℕ) → FrontsOf b book lines.now tables.now begins
        → OwnersIn MAX_INHERITED b.inherited_owners lines.now.inherited.now → book.inherited ≡ length b.inherited_owners
        → GivenIn b (grammar.definitions b) tables.now.begins.now leaders → result ≡ formulas_right b }
{
    let mut table = [0u32; WORDS];
    let mut nexts = [0u32; NODES];
    one_formula(
        lines.inherited,
        book.inherited,
        lines.rules,
        book.rules,
        lines.definitions,
        book.inherited_definitions,
        lines.kernels,
        tables.bounds,
        tables.closures,
        tables.fronts,
        tables.nullables,
        tables.reaches,
        book.terminals,
        book.states,
        tables.begins,
        leaders,
        &mut table,
        &mut nexts,
    )
}

// Whether each attribute has one formula in every partial state (10): most books give each once, and have nothing to compare. What definitions give stands in
// `begins`. Where formulas are compared there is room for their nodes, 15 of each definition; most books have few.
fn formulas_right(book: Book, lines: &BookLines<'_>, tables: &Tables<'_>, leaders: u64) -> bool
    requires { (b : Lines) × (begins : List ℕ) × FrontsOf b book lines.now tables.now begins
        × OwnersIn MAX_INHERITED b.inherited_owners lines.now.inherited.now × (book.inherited ≡ length b.inherited_owners)
        × GivenIn b (grammar.definitions b) tables.now.begins.now leaders }
    ensures { (b : Lines) (begins : List ℕ) → FrontsOf b book lines.now tables.now begins
        → OwnersIn MAX_INHERITED b.inherited_owners lines.now.inherited.now → book.inherited ≡ length b.inherited_owners
        → GivenIn b (grammar.definitions b) tables.now.begins.now leaders → result ≡ formulas_right b }
{
    if all_single(
        lines.kernels,
        tables.bounds,
        tables.fronts,
        book.states,
        tables.begins,
        leaders,
    ) {
        return true;
    }
    if book.inherited_definitions <= FEW {
        return formulas_in::<FEW_WORDS, FEW_NODES>(book, lines, tables, leaders);
    }
    formulas_in::<MOST_WORDS, MOST_NODES>(book, lines, tables, leaders)
}

// Fills the tables of a book, up to the first of 3 to 10 that applies. What begins the rests of rules is not asked for after the closures:
// its array is lent for what definitions give.
fn check(book: Book, lines: &BookLines<'_>, tables: &mut Tables<'_>) -> Result<(), Refusal>
    requires some { Some (KeptIn book lines.now) }
    requires tables_room { RoomIn book tables.old }
    ensures stay { TablesStay tables.old tables.new }
    ensures checked { (b : Lines) → KeptIn book lines.now b → CheckedIn (answer_of result) book lines.now tables.new b }
{
    prepare(book, lines, tables)?;
    let leaders = fill_givers(
        book.rules,
        lines.definitions,
        book.inherited_definitions,
        tables.begins,
    );
    if formulas_right(book, lines, tables, leaders) {
        return Ok(());
    }
    Err(Refusal::Formulas)
}

// Reads a text into the arrays of its lines and fills the tables, up to the first of 2 to 10 that applies; the numbers of its book where none does. None
// where the text is a book's for which the arrays have no room.
// Until they are filled, `actions` are room for what waits in an expression. What `begins` and `fronts` hold in the end is not said.
pub fn compile(
    source: &Source<'_>,
    room: Room,
    lines: &mut BookLines<'_>,
    tables: &mut Tables<'_>,
) -> Option<Result<Book, Refusal>>
    requires lent { WaitsRoom source.now.bytes.now tables.old.actions.now × Roomy room (arrays_of lines.old) }
    requires tables_lent { LentIn room tables.old }
    ensures lines_stay { LinesStay lines.old lines.new }
    ensures tables_stay { TablesStay tables.old tables.new }
    ensures compiles { CompilesIn room source.now.bytes.now result lines.new tables.new }
{
    let Some(book) = spelling(
        source,
        tables.actions,
        room,
        lines.inherited,
        lines.synthesized,
        lines.rules,
        lines.definitions,
        lines.kernels,
        lines.goes,
    ) else {
        return Some(Err(Refusal::Spelling));
    };
    if !complete(room, book) {
        return None;
    }
    let checked = check(book, lines, tables);
    Some(checked.map(|()| book))
}
