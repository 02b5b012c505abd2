// The definitions whose items are in a partial state: their lines, as bits of two numbers.
// `places` tells where definitions are: word A is full if one is of the first symbol of a rule of the nonterminal A, word 32 + 9 * P + D is one more than the
// first line of those of the symbol behind the dot of the item (P, D), or 0.
// A contract asks that the arrays hold some book, and says its statement of every book that they hold.
ghost use Rattle.std.specs.Prelude.{◌≡◌, true, List, [], ◌∷◌, ◌++◌, ℕ, ◌+◌, ◌*◌, ◌≤◌, ◌<◌, length, get_or};
ghost use Rattle.std.proofs.Math.Seq.{slice};
ghost use Rattle.grammar.specs.Data.Book.{Book};
ghost use Rattle.grammar.specs.Format.Ordered.{Ordered};
ghost use Rattle.grammar.specs.Automaton.FirstSets.{Sets, sets_of};
ghost use Rattle.grammar.specs.Automaton.ReachSets.{reach_sets};
ghost use Rattle.grammar.specs.Automaton.CoreItems.{Core, of_kernels};
ghost use Rattle.grammar.specs.Formulas.PartialLaws.{partial_at};
ghost use Rattle.grammar.specs.Formulas.FormulaCheck as grammar;
ghost use Rattle.grammar.specs.Formulas.FormulaCheck.{listed};
ghost use Rattle.items.specs.Arrays.{SuffixesIn, ReachesIn};
ghost use Rattle.attributes.specs.Checking.{CheckHeld};
ghost use Rattle.attributes.specs.Marks.{MarksRoom};
ghost use Rattle.attributes.specs.MarkFronts.{LooksIn};
ghost use Rattle.attributes.specs.MarkLines.{ItemLinesIn, item_of};
ghost use Rattle.plans.specs.Lines.{LinesIn};
ghost use Rattle.plans.specs.LinesAdded.{Added};
ghost use Rattle.plans.specs.Places.{PlacesIn, FrontFree};
ghost use Rattle.plans.specs.Found.{FoundIn, FrontsFound, ItemLines};
ghost use Rattle.plans.specs.Programs.{PlansWith};

use super::program::Program;
use attributes::masks::{front_set, reach_with};
use items::words::word;
use sets::ALL;

// The place of the definition in a line, which stands before all that are marked.
fn mark_place(definitions: &[u32], line: usize, rules: &[u32], places: &mut [u32])
    requires { (b : Book) × (owned : List ℕ) × (masks : List ℕ) × CheckHeld b definitions.now rules.now owned masks × (line < grammar.definitions b)
        × (32 + 9 * length b.rules ≤ length places.old) }
    ensures { (b : Book) (owned masks : List ℕ) → CheckHeld b definitions.now rules.now owned masks
        → line < grammar.definitions b → PlacesIn b (line + 1) places.old → PlacesIn b line places.new }
{
    let rule = word(definitions, 49 * line);
    let position = word(definitions, 49 * line + 1);
    places[31 + 9 * rule + position] = line as u32 + 1;
    if position != 1 {
        return;
    }
    let left = word(rules, 10 * rule);
    places[left] = ALL;
}

// The places of all definitions, from words that are 0.
pub fn mark_places(definitions: &[u32], lines: usize, rules: &[u32], places: &mut [u32])
    requires { (b : Book) × (owned : List ℕ) × (masks : List ℕ) × CheckHeld b definitions.now rules.now owned masks × (lines ≡ grammar.definitions b)
        × (32 + 9 * length b.rules ≤ length places.old) }
    ensures { (b : Book) (owned masks : List ℕ) → CheckHeld b definitions.now rules.now owned masks
        → lines ≡ grammar.definitions b → 32 + 9 * length b.rules ≤ length places.old
        → ((k : ℕ) → get_or places.old k 0 ≡ 0) → PlacesIn b 0 places.new }
{
    for i in (0..lines).rev() {
        mark_place(definitions, i, rules, places);
    }
}

// True only if a closure, from word `first` on, has nothing of a nonterminal whose rules have a definition of their first symbol: the bits are gathered,
// with no way out of the loop. The words have 32 bits: a slice tells it, a slice in a struct does not.
fn front_free(closures: &[u32], first: usize, places: &[u32]) -> bool
    requires { (first + 32 ≤ length closures.now) × (32 ≤ length places.now) }
    ensures free { result ≡ true → FrontFree closures.now first places.now 32 }
    ensures words { (i : ℕ) → get_or closures.now i 0 < 4294967296 }
{
    let mut bits = 0u32;
    for i in 0..32 {
        bits |= closures[first + i] & places[i];
    }
    bits == 0
}

// Adds a line to those that are found.
fn add(found: &mut [u64], line: usize)
    requires { (length found.old ≡ 2) × (line < 128) }
    ensures { Added line found.old found.new }
{
    let half = line / 64;
    found[half] |= 1u64 << (line % 64);
}

// The definition in a line, if its item has the dot in front and reaches the terminal.
fn front_line(program: &Program<'_>, line: usize, first: usize, terminal: u32, found: &mut [u64])
    requires { ((b : Book) × (owned : List ℕ) × (masks : List ℕ) × (L : List ℕ)
        × CheckHeld b program.now.definitions.now program.now.rules.now owned masks
        × LooksIn b.rules program.now.rules.now L program.now.closures.now first × (line < grammar.definitions b)
        × MarksRoom b.rules program.now.nullables.now program.now.reaches.now program.now.nullables.now)
        × (first + 32 ≤ length program.now.closures.now) × (terminal < 32) × (length found.old ≡ 2) }
    ensures { (b : Book) (F : Sets) (R begins owned masks L : List ℕ)
        → CheckHeld b program.now.definitions.now program.now.rules.now owned masks
        → LooksIn b.rules program.now.rules.now L program.now.closures.now first → line < grammar.definitions b
        → SuffixesIn b.rules F program.now.nullables.now begins → ReachesIn b.rules F R program.now.reaches.now
        → FrontsFound b F R terminal L line found.old → FrontsFound b F R terminal L (line + 1) found.new }
{
    let definitions = program.definitions;
    if word(definitions, 49 * line + 1) != 1 {
        return;
    }
    let rule = word(definitions, 49 * line);
    let set = front_set(
        program.rules,
        program.closures,
        first,
        program.nullables,
        program.reaches,
        rule,
    );
    if !sets::has(set, terminal) {
        return;
    }
    add(found, line);
}

// The definitions whose items have the dot in front and reach the terminal, where none is found before.
fn front_lines(program: &Program<'_>, first: usize, terminal: u32, found: &mut [u64])
    requires { ((b : Book) × (owned : List ℕ) × (masks : List ℕ) × (L : List ℕ)
        × CheckHeld b program.now.definitions.now program.now.rules.now owned masks
        × LooksIn b.rules program.now.rules.now L program.now.closures.now first × (program.now.lines ≡ grammar.definitions b)
        × MarksRoom b.rules program.now.nullables.now program.now.reaches.now program.now.nullables.now × PlacesIn b 0 program.now.places.now)
        × (first + 32 ≤ length program.now.closures.now) × (terminal < 32) × (length found.old ≡ 2) }
    ensures { (b : Book) (F : Sets) (R begins owned masks L : List ℕ)
        → CheckHeld b program.now.definitions.now program.now.rules.now owned masks
        → LooksIn b.rules program.now.rules.now L program.now.closures.now first → program.now.lines ≡ grammar.definitions b
        → SuffixesIn b.rules F program.now.nullables.now begins → ReachesIn b.rules F R program.now.reaches.now → PlacesIn b 0 program.now.places.now
        → FrontsFound b F R terminal L 0 found.old → FrontsFound b F R terminal L program.now.lines found.new }
{
    if front_free(program.closures, first, program.places) {
        return;
    }
    for i in 0..program.lines as usize {
        front_line(program, i, first, terminal, found);
    }
}

// The definitions of the item of a place, of which the first stands in a line: they stand side by side.
fn item_lines(definitions: &[u32], lines: usize, place: usize, first: usize, found: &mut [u64])
    requires { ((b : Book) × (rules : List ℕ) × (owned : List ℕ) × (masks : List ℕ) × CheckHeld b definitions.now rules owned masks
        × (lines ≡ grammar.definitions b)) × (first ≤ lines) × (place < 576) × (length found.old ≡ 2) }
    ensures { (b : Book) (rules owned masks : List ℕ) → CheckHeld b definitions.now rules owned masks → lines ≡ grammar.definitions b
        → ItemLines b lines place first found.old found.new }
{
    for line in first..lines {
        if 9 * word(definitions, 49 * line) + word(definitions, 49 * line + 1) != place + 1 {
            return;
        }
        add(found, line);
    }
}

// The definitions of the item of kernel line i, if it reaches the terminal.
fn kernel_line(program: &Program<'_>, i: usize, terminal: u32, found: &mut [u64])
    requires { ((b : Book) × (rules : List ℕ) × (owned : List ℕ) × (masks : List ℕ)
        × CheckHeld b program.now.definitions.now rules owned masks × (program.now.lines ≡ grammar.definitions b)
        × ItemLinesIn b program.now.kernels.now × (i < length b.kernels)
        × MarksRoom b.rules program.now.nullables.now program.now.reaches.now program.now.nullables.now × PlacesIn b 0 program.now.places.now)
        × (terminal < 32) × (length found.old ≡ 2) }
    ensures { (b : Book) (F : Sets) (R begins rules owned masks : List ℕ) (items : List Core) → Ordered b
        → CheckHeld b program.now.definitions.now rules owned masks → program.now.lines ≡ grammar.definitions b
        → ItemLinesIn b program.now.kernels.now → i < length b.kernels
        → SuffixesIn b.rules F program.now.nullables.now begins → ReachesIn b.rules F R program.now.reaches.now
        → PlacesIn b 0 program.now.places.now → FoundIn b F R terminal items found.old
        → FoundIn b F R terminal (item_of b.kernels i ∷ items) found.new }
{
    let kernels = program.kernels;
    let rule = word(kernels, 5 * i + 1);
    let dot = word(kernels, 5 * i + 2);
    let Some(first) = word(program.places, 32 + 9 * rule + dot).checked_sub(1) else {
        return;
    };
    let reach = reach_with(
        program.nullables,
        program.reaches,
        rule,
        dot,
        kernels[5 * i + 4],
    );
    if !sets::has(reach, terminal) {
        return;
    }
    item_lines(
        program.definitions,
        program.lines as usize,
        9 * rule + dot,
        first,
        found,
    );
}

// Those of the kernel lines from `from` up to `to`, the last line first.
fn kernel_lines(program: &Program<'_>, from: usize, to: usize, terminal: u32, found: &mut [u64])
    requires { ((b : Book) × (rules : List ℕ) × (owned : List ℕ) × (masks : List ℕ)
        × CheckHeld b program.now.definitions.now rules owned masks × (program.now.lines ≡ grammar.definitions b)
        × ItemLinesIn b program.now.kernels.now × (to ≤ length b.kernels)
        × MarksRoom b.rules program.now.nullables.now program.now.reaches.now program.now.nullables.now × PlacesIn b 0 program.now.places.now)
        × (from ≤ to) × (terminal < 32) × (length found.old ≡ 2) }
    ensures { (b : Book) (F : Sets) (R begins rules owned masks : List ℕ) (items : List Core) → Ordered b
        → CheckHeld b program.now.definitions.now rules owned masks → program.now.lines ≡ grammar.definitions b
        → ItemLinesIn b program.now.kernels.now → to ≤ length b.kernels
        → SuffixesIn b.rules F program.now.nullables.now begins → ReachesIn b.rules F R program.now.reaches.now
        → PlacesIn b 0 program.now.places.now → FoundIn b F R terminal items found.old
        → FoundIn b F R terminal (of_kernels (slice from to b.kernels) ++ items) found.new }
{
    for i in (from..to).rev() {
        kernel_line(program, i, terminal, found);
    }
}

// The definitions whose items are in the partial state of a state and a terminal, where none is found before.
pub fn members(program: &Program<'_>, state: usize, terminal: u32, found: &mut [u64])
    requires { ((b : Book) × (owned : List ℕ) × PlansWith b program.now owned × (state < b.states)) × (terminal < 32) × (found.old ≡ 0 ∷ 0 ∷ []) }
    ensures { (b : Book) (owned : List ℕ) → PlansWith b program.now owned → state < b.states
        → LinesIn b (listed (partial_at b (sets_of b.rules) (reach_sets b.rules (sets_of b.rules)) state terminal)) found.new }
{
    let bounds = program.bounds;
    front_lines(program, 32 * state, terminal, found);
    let from = word(bounds, state);
    let to = word(bounds, state + 1);
    kernel_lines(program, from, to, terminal, found);
}
