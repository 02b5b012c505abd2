// The plan of a partial state, by passes over the inherited attributes' definitions whose items are in it.
// A contract asks that the arrays hold some book, and says its statement of every book that they hold.
ghost use Rattle.std.specs.Prelude.{◌≡◌, Bool, true, List, ℕ, ◌+◌, ◌<◌, ◌≤◌, length};
ghost use Rattle.grammar.specs.Data.Book.{Book};
ghost use Rattle.grammar.specs.Formulas.FormulaCheck as grammar;
ghost use Rattle.grammar.specs.Formulas.FormulaCheck.{dot_of, line_at};
ghost use Rattle.grammar.specs.Formulas.Passes as fixpoint;
ghost use Rattle.grammar.specs.Formulas.Passes.{visits};
ghost use Rattle.plans.specs.Planning as specs;
ghost use Rattle.plans.specs.Planning.{Planning, known_in, plan_line};
ghost use Rattle.plans.specs.PlanRows.{PlanningIn, Elsewhere, PlanRow};
ghost use Rattle.plans.specs.Lines.{LinesIn};
ghost use Rattle.plans.specs.Programs.{CheckOver};
ghost use Rattle.plans.specs.LinesWalk.{Walking, visited};

use super::program::Program;
use attributes::due::ready;
use automaton::lefts::{behind, least};
use items::words::word;

// How far a plan is: the set of the attributes that it sets, and the number of its lines.
#[derive(Clone, Copy)]
pub struct Progress {
    pub known: u32,
    pub count: usize,
}

// One definition of an item of the partial state: it is planned if its attribute is not set and it is ready.
fn visit(program: &Program<'_>, line: usize, row: &mut [u8], from: usize, p: Progress) -> Progress
    requires { (b : Book) × (member : ℕ → ℕ → Bool) × (masks : List ℕ) × (s : Planning) × CheckOver b program.now masks
        × (line < grammar.definitions b) × (member (line_at b line).rule (dot_of (line_at b line)) ≡ true)
        × PlanningIn b member s row.old from p.known p.count }
    ensures { ((b : Book) (member : ℕ → ℕ → Bool) (masks : List ℕ) (s : Planning)
        → CheckOver b program.now masks
        → line < grammar.definitions b → member (line_at b line).rule (dot_of (line_at b line)) ≡ true
        → PlanningIn b member s row.old from p.known p.count
        → PlanningIn b member (plan_line b member line s) row.new from result.known result.count)
        × Elsewhere from (from + 16) row.old row.new }
{
    let attribute = program.definitions[49 * line + 2];
    if sets::has(p.known, attribute) {
        return p;
    }
    if !ready(
        program.definitions,
        line,
        program.rules,
        program.owned,
        p.known,
    ) {
        return p;
    }
    row[from + p.count] = line as u8;
    Progress {
        known: sets::with(p.known, attribute),
        count: p.count + 1,
    }
}

// The lines among 64, from line `base` on, that are bits of a number: from each to the next one that is there, so the lines are no range.
fn half(
    program: &Program<'_>,
    base: usize,
    bits: u64,
    row: &mut [u8],
    from: usize,
    mut p: Progress,
) -> Progress
    requires { (b : Book) × (member : ℕ → ℕ → Bool) × (masks : List ℕ) × (s : Planning) × CheckOver b program.now masks
        × Walking b member (base + 64) bits base s row.old from p.known p.count }
    ensures { ((b : Book) (member : ℕ → ℕ → Bool) (masks : List ℕ) (s : Planning)
        → CheckOver b program.now masks
        → Walking b member (base + 64) bits base s row.old from p.known p.count
        → PlanningIn b member (visited b member (base + 64) s) row.new from result.known result.count)
        × Elsewhere from (from + 16) row.old row.new }
{
    let mut rest = bits;
    let mut line = base;
    while rest != 0 {
        let gap = least(rest);
        line += gap as usize;
        p = visit(program, line, row, from, p);
        rest = behind(rest, gap);
        line += 1;
    }
    p
}

// One pass over the definitions whose items are in the partial state.
fn pass(program: &Program<'_>, found: &[u64], row: &mut [u8], from: usize, p: Progress) -> Progress
    requires { (b : Book) × (member : ℕ → ℕ → Bool) × (masks : List ℕ) × (s : Planning) × CheckOver b program.now masks
        × LinesIn b member found.now × PlanningIn b member s row.old from p.known p.count }
    ensures { ((b : Book) (member : ℕ → ℕ → Bool) (masks : List ℕ) (s : Planning)
        → CheckOver b program.now masks → LinesIn b member found.now
        → PlanningIn b member s row.old from p.known p.count
        → PlanningIn b member (visits (plan_line b member) (grammar.definitions b) s) row.new from result.known result.count)
        × Elsewhere from (from + 16) row.old row.new }
{
    let q = half(program, 0, found[0], row, from, p);
    half(program, 64, found[1], row, from, q)
}

// Passes until one plans nothing more: how far the plan is then.
fn passes(
    program: &Program<'_>,
    found: &[u64],
    row: &mut [u8],
    from: usize,
    mut p: Progress,
) -> Progress
    requires { (b : Book) × (member : ℕ → ℕ → Bool) × (masks : List ℕ) × (s : Planning) × CheckOver b program.now masks
        × LinesIn b member found.now × PlanningIn b member s row.old from p.known p.count }
    ensures { ((b : Book) (member : ℕ → ℕ → Bool) (masks : List ℕ) (s : Planning)
        → CheckOver b program.now masks → LinesIn b member found.now
        → PlanningIn b member s row.old from p.known p.count
        → PlanningIn b member (fixpoint.passes (plan_line b member) known_in (grammar.definitions b) s) row.new from result.known result.count)
        × Elsewhere from (from + 16) row.old row.new }
{
    loop {
        let before = p.count;
        p = pass(program, found, row, from, p);
        if p.count == before {
            return p;
        }
    }
}

// The plan of the partial state whose items' definitions are the lines found, one byte a line from byte `from` of a row on: how many lines it has.
pub fn plan(program: &Program<'_>, found: &[u64], row: &mut [u8], from: usize) -> usize
    requires { ((b : Book) × (member : ℕ → ℕ → Bool) × (masks : List ℕ) × CheckOver b program.now masks
        × LinesIn b member found.now) × (from + 16 ≤ length row.old) }
    ensures { ((b : Book) (member : ℕ → ℕ → Bool) (masks : List ℕ)
        → CheckOver b program.now masks
        → LinesIn b member found.now → PlanRow (specs.plan b member) row.new from result)
        × Elsewhere from (from + 16) row.old row.new }
{
    let p = Progress { known: 0, count: 0 };
    passes(program, found, row, from, p).count
}
