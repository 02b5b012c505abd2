// The partial states of a state: for each item the set of the terminals with which it is in one.
ghost use Rattle.std.specs.Prelude.{◌≡◌, List, ◌∷◌, ◌++◌, ℕ, ◌+◌, ◌*◌, ◌≤◌, ◌<◌, length, get_or, set, drop, replicate};
ghost use Rattle.std.proofs.Math.Seq.{slice};
ghost use Rattle.sets.specs.Sets.{union};
ghost use Rattle.grammar.specs.Data.Symbol.{Rule, right_of, after};
ghost use Rattle.grammar.specs.Automaton.FirstSets.{Sets};
ghost use Rattle.grammar.specs.Automaton.ReachSets.{reach_with};
ghost use Rattle.grammar.specs.Data.Book.{Book};
ghost use Rattle.grammar.specs.Automaton.CoreItems.{Core, of_kernels};
ghost use Rattle.grammar.specs.Formulas.FormulaCheck as grammar;
ghost use Rattle.items.specs.Arrays.{SuffixesIn, ReachesIn};
ghost use Rattle.attributes.specs.Checking.{CheckHeld};
ghost use Rattle.attributes.specs.Marks.{MarksIn, MarksRoom};
ghost use Rattle.attributes.specs.MarkFronts.{LooksIn, FrontsMarked, front_word};
ghost use Rattle.attributes.specs.MarkLines.{ItemLinesIn, item_of};
ghost use Rattle.attributes.specs.StateMarks.{MarksHeld, StateMarksIn};

use items::words::word;

// What is reached by items of a rule, with the dot after `dot` symbols and the lookaheads `own`.
pub fn reach_with(nullables: &[u32], reaches: &[u32], rule: usize, dot: usize, own: u32) -> u32
    requires { (9 * rule + dot < length nullables.now) × (9 * rule + dot < length reaches.now) }
    ensures { (G : List Rule) (F : Sets) (R begins : List ℕ) → SuffixesIn G F nullables.now begins → ReachesIn G F R reaches.now
        → rule < length G → dot ≤ length (right_of G rule) → result ≡ reach_with F R (after G rule dot) own }
{
    let place = 9 * rule + dot;
    let reach = reaches[place];
    if nullables[place] == 0 {
        return reach;
    }
    sets::union(reach, own)
}

// An item of a rule, with the dot after `dot` symbols and the lookaheads `own`: what it reaches joins its set.
fn mark_item(
    nullables: &[u32],
    reaches: &[u32],
    rule: usize,
    dot: usize,
    own: u32,
    masks: &mut [u32],
)
    requires { (9 * rule + dot < length nullables.now) × (9 * rule + dot < length reaches.now) × (9 * rule + dot < length masks.old) }
    ensures { (G : List Rule) (F : Sets) (R begins : List ℕ) → SuffixesIn G F nullables.now begins → ReachesIn G F R reaches.now
        → rule < length G → dot ≤ length (right_of G rule)
        → masks.new ≡ set masks.old (9 * rule + dot)
        (union (get_or masks.old (9 * rule + dot) 0) (reach_with F R (after G rule dot) own)) }
{
    let place = 9 * rule + dot;
    let reach = reach_with(nullables, reaches, rule, dot, own);
    masks[place] = sets::union(masks[place], reach);
}

// The set of a rule's item with the dot in front: nothing where the closure, from word `first` of `closures` on, has no lookaheads of its left side.
pub fn front_set(
    rules: &[u32],
    closures: &[u32],
    first: usize,
    nullables: &[u32],
    reaches: &[u32],
    rule: usize,
) -> u32
    requires { ((G : List Rule) × (L : List ℕ) × LooksIn G rules.now L closures.now first × (rule < length G)) × (first + 32 ≤ length closures.now)
        × (9 * rule < length nullables.now) × (9 * rule < length reaches.now) }
    ensures { (G : List Rule) (F : Sets) (R begins L : List ℕ) → LooksIn G rules.now L closures.now first
        → rule < length G → SuffixesIn G F nullables.now begins → ReachesIn G F R reaches.now → result ≡ front_word G F R L rule 0 }
{
    let left = word(rules, 10 * rule);
    let own = closures[first + left];
    if own == 0 {
        return 0;
    }
    reach_with(nullables, reaches, rule, 0, own)
}

// The item of the definition in a line: its set, if the dot is in front, and nothing, if it is not.
fn mark_front(
    definitions: &[u32],
    line: usize,
    rules: &[u32],
    closures: &[u32],
    first: usize,
    nullables: &[u32],
    reaches: &[u32],
    masks: &mut [u32],
)
    requires { ((b : Book) × (owned : List ℕ) × (cleared : List ℕ) × (L : List ℕ) × CheckHeld b definitions.now rules.now owned cleared
        × LooksIn b.rules rules.now L closures.now first × (line < grammar.definitions b)
        × MarksRoom b.rules nullables.now reaches.now masks.old) × (first + 32 ≤ length closures.now) }
    ensures { (b : Book) (F : Sets) (R begins owned cleared L : List ℕ) → CheckHeld b definitions.now rules.now owned cleared
        → LooksIn b.rules rules.now L closures.now first → line < grammar.definitions b
        → SuffixesIn b.rules F nullables.now begins → ReachesIn b.rules F R reaches.now
        → FrontsMarked b F R L line masks.old → FrontsMarked b F R L (line + 1) masks.new }
{
    let rule = word(definitions, 49 * line);
    let position = word(definitions, 49 * line + 1);
    if position != 1 {
        masks[9 * rule + position - 1] = 0;
        return;
    }
    masks[9 * rule] = front_set(rules, closures, first, nullables, reaches, rule);
}

// The items of all definitions, whatever the sets hold.
fn mark_fronts(
    definitions: &[u32],
    lines: usize,
    rules: &[u32],
    closures: &[u32],
    first: usize,
    nullables: &[u32],
    reaches: &[u32],
    masks: &mut [u32],
)
    requires { ((b : Book) × (owned : List ℕ) × (cleared : List ℕ) × (L : List ℕ) × CheckHeld b definitions.now rules.now owned cleared
        × LooksIn b.rules rules.now L closures.now first × (lines ≡ grammar.definitions b)
        × MarksRoom b.rules nullables.now reaches.now masks.old) × (first + 32 ≤ length closures.now) }
    ensures { (b : Book) (F : Sets) (R begins owned cleared L : List ℕ) → CheckHeld b definitions.now rules.now owned cleared
        → LooksIn b.rules rules.now L closures.now first → lines ≡ grammar.definitions b
        → SuffixesIn b.rules F nullables.now begins → ReachesIn b.rules F R reaches.now
        → 9 * length b.rules ≤ length masks.old → FrontsMarked b F R L lines masks.new }
{
    for i in 0..lines {
        mark_front(
            definitions,
            i,
            rules,
            closures,
            first,
            nullables,
            reaches,
            masks,
        );
    }
}

// The item of kernel line i.
fn mark_line(kernels: &[u32], i: usize, nullables: &[u32], reaches: &[u32], masks: &mut [u32])
    requires { (b : Book) × ItemLinesIn b kernels.now × (i < length b.kernels)
        × MarksRoom b.rules nullables.now reaches.now masks.old }
    ensures { (b : Book) (F : Sets) (R begins : List ℕ) (items : List Core) → ItemLinesIn b kernels.now → i < length b.kernels
        → SuffixesIn b.rules F nullables.now begins → ReachesIn b.rules F R reaches.now → MarksIn b F R items masks.old
        → MarksIn b F R (item_of b.kernels i ∷ items) masks.new }
{
    let rule = word(kernels, 5 * i + 1);
    let dot = word(kernels, 5 * i + 2);
    mark_item(nullables, reaches, rule, dot, kernels[5 * i + 4], masks);
}

// The items of the kernel lines from `first` up to `last`, the last line first.
fn mark_lines(
    kernels: &[u32],
    first: usize,
    last: usize,
    nullables: &[u32],
    reaches: &[u32],
    masks: &mut [u32],
)
    requires { ((b : Book) × ItemLinesIn b kernels.now × (last ≤ length b.kernels)
        × MarksRoom b.rules nullables.now reaches.now masks.old) × (first ≤ last) }
    ensures { (b : Book) (F : Sets) (R begins : List ℕ) (items : List Core) → ItemLinesIn b kernels.now → last ≤ length b.kernels
        → SuffixesIn b.rules F nullables.now begins → ReachesIn b.rules F R reaches.now → MarksIn b F R items masks.old
        → MarksIn b F R (of_kernels (slice first last b.kernels) ++ items) masks.new }
{
    for i in (first..last).rev() {
        mark_line(kernels, i, nullables, reaches, masks);
    }
}

// For each item of a state that a definition is of, the terminals with which it is in a partial state: word 9 * P + D is of rule P with the dot after D
// symbols. What the other words hold is not said.
pub fn masks(
    definitions: &[u32],
    lines: usize,
    rules: &[u32],
    kernels: &[u32],
    bounds: &[u32],
    closures: &[u32],
    nullables: &[u32],
    reaches: &[u32],
    state: usize,
    masks: &mut [u32],
)
    requires { (b : Book) × (begins : List ℕ) × (owned : List ℕ)
        × MarksHeld b rules.now kernels.now bounds.now closures.now nullables.now begins reaches.now
        × CheckHeld b definitions.now rules.now owned masks.old × (lines ≡ grammar.definitions b)
        × (state < b.states) }
    ensures { (b : Book) (begins owned : List ℕ) → MarksHeld b rules.now kernels.now bounds.now
        closures.now nullables.now begins reaches.now
        → CheckHeld b definitions.now rules.now owned masks.old → lines ≡ grammar.definitions b
        → state < b.states → StateMarksIn b state masks.new }
{
    mark_fronts(
        definitions,
        lines,
        rules,
        closures,
        32 * state,
        nullables,
        reaches,
        masks,
    );
    let first = word(bounds, state);
    let last = word(bounds, state + 1);
    mark_lines(kernels, first, last, nullables, reaches, masks);
}
