// The one-formula check (10) of a partial state, by passes over the inherited attributes' definitions.
// A contract asks that the arrays hold some book, and says its equation of every book that they hold.
ghost use Rattle.std.specs.Prelude.{◌≡◌, Bool, true, false, List, ℕ, suc, ◌+◌, ◌*◌, ◌^◌, ◌<◌, ◌≤◌, length, replicate};
ghost use Rattle.grammar.specs.Limits.{MAX_NODES};
ghost use Rattle.grammar.specs.Conditions.Decides.{all_below};
ghost use Rattle.grammar.specs.Data.Book.{Book};
ghost use Rattle.grammar.specs.Formulas.Formula.{Formula};
ghost use Rattle.grammar.specs.Formulas.Slots.{Slots};
ghost use Rattle.grammar.specs.Formulas.FormulaCheck as grammar;
ghost use Rattle.grammar.specs.Formulas.FormulaCheck.{progress, advance, unsplit};
ghost use Rattle.grammar.specs.Formulas.Passes as fixpoint;
ghost use Rattle.grammar.specs.Formulas.Passes.{visits};
ghost use Rattle.formulas.specs.Meaning.{Means};
ghost use Rattle.attributes.specs.Skips.{Skips};
ghost use Rattle.attributes.specs.Checking.{member_in, member_of};
ghost use Rattle.agreement.specs.Over.{CheckOver, ProgressOver, ReachedOver, RoomOver, RoomKept};
ghost use Rattle.agreement.specs.Progress.{ProgressIn, Reached};

use super::alike::alike;
use super::parts::Parts;
use super::work::Work;
use attributes::due::due;
use attributes::skips::skip;
use formulas::formulas::formula_of;
use sets::ALL;

// How far a check is: the nodes of the table, the set of the attributes that have a formula, and the definitions that are done.
#[derive(Clone, Copy)]
pub struct Progress {
    pub used: u32,
    pub known: u32,
    pub count: u32,
}

// The formula of a number for a slot: an empty slot takes it, and what stands there must be the same. None says that two formulas of one attribute
// differ: a split.
fn enter(slots: &mut [u32], attribute: u32, number: u32, p: Progress) -> Option<Progress>
    requires { (attribute < 16) × (length slots.old ≡ 16) × (number + 1 < 2 ^ 32) }
    ensures { (s : Slots) (done : List Bool) (marks table heads nexts : List ℕ) (f : Formula)
        → ProgressIn s done slots.old marks table heads nexts p → Means table p.used number f
        → Reached slots.new marks table heads nexts result (grammar.enter s done attribute f) }
{
    let k = attribute as usize;
    let Some(stands) = slots[k].checked_sub(1) else {
        slots[k] = number + 1;
        return Some(Progress {
            known: sets::with(p.known, attribute),
            ..p
        });
    };
    if stands != number {
        return None;
    }
    Some(p)
}

// One definition: nothing if it is done or not due, else its formula is interned and entered.
fn visit(
    parts: &Parts<'_>,
    line: usize,
    wanted: u32,
    work: &mut Work<'_>,
    p: Progress,
) -> Option<Progress>
    requires { ((b : Book) × (s : Slots) × (d : List Bool) × CheckOver b parts.now
        × (line < grammar.definitions b)
        × ProgressOver s d work.old p)
        × (MAX_NODES * suc line ≤ length work.old.nodes.nexts.now) }
    ensures room { RoomKept work.old work.new }
    ensures reached { (b : Book) (s : Slots) (d : List Bool)
        → CheckOver b parts.now
        → line < grammar.definitions b
        → ProgressOver s d work.old p
        → ReachedOver work.new result (grammar.visit b (member_in parts.now.masks.now wanted) line (progress s d)) }
{
    if work.done[line] != 0 {
        return Some(p);
    }
    let definitions = parts.definitions;
    if !due(
        definitions,
        line,
        wanted,
        parts.masks,
        parts.rules,
        parts.owned,
        p.known,
    ) {
        return Some(p);
    }
    let dot = definitions[49 * line + 1] - 1;
    let attribute = definitions[49 * line + 2];
    let r = formula_of(definitions, line, dot, &work.slots, &mut work.nodes, p.used);
    work.done[line] = 1;
    let formed = Progress {
        used: r.used,
        count: p.count + 1,
        ..p
    };
    enter(&mut work.slots, attribute, r.number, formed)
}

// One pass over the definitions whose items have a terminal that is wanted, each found by `skips` from the one before, up to a split.
fn pass(
    parts: &Parts<'_>,
    wanted: u32,
    skips: &[u8],
    work: &mut Work<'_>,
    mut p: Progress,
) -> Option<Progress>
    requires { ((b : Book) × (s : Slots) × (d : List Bool) × CheckOver b parts.now
        × (parts.now.lines ≡ grammar.definitions b)
        × ProgressOver s d work.old p)
        × Skips parts.now.definitions.now parts.now.masks.now wanted parts.now.lines skips.now × (MAX_NODES * parts.now.lines ≤ length work.old.nodes.nexts.now) }
    ensures room { RoomKept work.old work.new }
    ensures reached { (b : Book) (s : Slots) (d : List Bool)
        → CheckOver b parts.now
        → parts.now.lines ≡ grammar.definitions b
        → ProgressOver s d work.old p
        → ReachedOver work.new result (visits (grammar.visit b (member_in parts.now.masks.now wanted)) parts.now.lines (progress s d)) }
{
    let mut i = skips[0] as usize;
    while i < parts.lines {
        p = visit(parts, i, wanted, work, p)?;
        i = skips[i + 1] as usize;
    }
    Some(p)
}

// Passes until one does nothing more, or two formulas of one attribute differ.
fn passes(
    parts: &Parts<'_>,
    wanted: u32,
    skips: &[u8],
    work: &mut Work<'_>,
    mut p: Progress,
) -> bool
    requires { ((b : Book) × (s : Slots) × (d : List Bool) × CheckOver b parts.now
        × (parts.now.lines ≡ grammar.definitions b)
        × ProgressOver s d work.old p)
        × Skips parts.now.definitions.now parts.now.masks.now wanted parts.now.lines skips.now × (MAX_NODES * parts.now.lines ≤ length work.old.nodes.nexts.now) }
    ensures room { RoomKept work.old work.new }
    ensures answer { (b : Book) (s : Slots) (d : List Bool)
        → CheckOver b parts.now
        → parts.now.lines ≡ grammar.definitions b
        → ProgressOver s d work.old p
        → result ≡ unsplit (fixpoint.passes (grammar.visit b (member_in parts.now.masks.now wanted)) advance (grammar.definitions b) (progress s d)) }
{
    while let Some(next) = pass(parts, wanted, skips, work, p) {
        if next.count == p.count {
            return true;
        }
        p = next;
    }
    false
}

// 10, of the items whose sets have a terminal that is wanted.
fn check(parts: &Parts<'_>, wanted: u32, work: &mut Work<'_>) -> bool
    requires { ((b : Book) × CheckOver b parts.now × (parts.now.lines ≡ grammar.definitions b))
        × RoomOver parts.now.lines work.old }
    ensures room { RoomKept work.old work.new }
    ensures answer { (b : Book) → CheckOver b parts.now
        → parts.now.lines ≡ grammar.definitions b → result ≡ grammar.check b (member_in parts.now.masks.now wanted) }
{
    let mut skips = [0u8; 129];
    skip(
        parts.definitions,
        parts.lines,
        parts.masks,
        wanted,
        &mut skips,
    );
    work.slots.fill(0);
    work.done.fill(0);
    // A table of no nodes; its rows need not be cleared.
    work.nodes.heads.fill(0);
    let p = Progress {
        used: 0,
        known: 0,
        count: 0,
    };
    passes(parts, wanted, &skips, work, p)
}

// 10, of the partial states of one state: of those with the same items, the first is checked.
fn parts_right(parts: &Parts<'_>, work: &mut Work<'_>) -> bool
    requires { ((b : Book) × CheckOver b parts.now × (parts.now.lines ≡ grammar.definitions b))
        × (parts.now.terminals < 32) × RoomOver parts.now.lines work.old }
    ensures room { RoomKept work.old work.new }
    ensures answer { (b : Book) → CheckOver b parts.now
        → parts.now.lines ≡ grammar.definitions b → parts.now.terminals ≡ b.terminals
        → result ≡ all_below (suc b.terminals) (λ a. grammar.check b (member_of parts.now.masks.now a)) }
{
    let mut right = 0u32;
    for a in 0..parts.terminals + 1 {
        if sets::has(right, a) {
            continue;
        }
        if !check(parts, sets::single(a), work) {
            return false;
        }
        let more = alike(parts.definitions, parts.lines, a, parts.masks);
        right = sets::union(right, more);
    }
    true
}

// 10, of the partial states of one state: if all of its items together give one formula, so do those of each partial state.
pub fn check_state(parts: &Parts<'_>, work: &mut Work<'_>) -> bool
    requires { ((b : Book) × CheckOver b parts.now × (parts.now.lines ≡ grammar.definitions b))
        × (parts.now.terminals < 32) × RoomOver parts.now.lines work.old }
    ensures room { RoomKept work.old work.new }
    ensures answer { (b : Book) → CheckOver b parts.now
        → parts.now.lines ≡ grammar.definitions b → parts.now.terminals ≡ b.terminals
        → result ≡ all_below (suc b.terminals) (λ a. grammar.check b (member_of parts.now.masks.now a)) }
{
    if check(parts, ALL, work) {
        return true;
    }
    parts_right(parts, work)
}
