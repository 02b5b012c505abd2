// The go rules (8): each item of a state is advanced by a go line, and each kernel line of a go line's target is an item advanced.
ghost use Rattle.std.specs.Prelude.{◌≡◌, List, ◌+◌, ◌*◌, ◌<◌, ◌≤◌, length, get_or};
ghost use Rattle.std.proofs.Math.Seq.{slice};
ghost use Rattle.grammar.specs.Data.Symbol.{Symbol, after};
ghost use Rattle.grammar.specs.Data.Book.{Book, Kernel};
ghost use Rattle.grammar.specs.Conditions.Meaning.{GoSymbol};
ghost use Rattle.grammar.specs.Automaton.FirstSets.{Sets};
ghost use Rattle.grammar.specs.Automaton.ClosureSets.{kernels_in, closure_sets};
ghost use Rattle.grammar.specs.Automaton.CoreItems.{of_kernels, of_rules, core_items};
ghost use Rattle.grammar.specs.Automaton.StatesCheck.{holds_item, advances, all_advance, states_advance, all_come, go_lines, go_rules};
ghost use Rattle.grammar.specs.Automaton.Compiled.{items_table, items_at};
ghost use Rattle.book.specs.Layout.{symbol_code};
ghost use Rattle.book.specs.Held.{KernelsIn, GoesIn, kernel_at, go_at};
ghost use Rattle.automaton.specs.StatesIn.{MovesIn, ItemsIn, AutomatonIn, Stands};
ghost use Rattle.automaton.specs.HoldsItem.{is_item};
ghost use Rattle.automaton.specs.Advances.{TargetOf, kernel_advances, rule_advances};
ghost use Rattle.automaton.specs.Comes.{some_item, line_comes, go_comes};
ghost use Rattle.automaton.specs.Fronts.{FrontsIn};

use super::lefts::Members;
use items::words::word;

// Whether kernel line i is of (rule, dot) with at least the lookaheads of `set`.
fn is_item(kernels: &[u32], i: usize, rule: usize, dot: usize, set: u32) -> bool
    requires { 5 * i + 5 ≤ length kernels.now }
    ensures { result ≡ is_item kernels.now i rule dot set }
{
    let k = 5 * i;
    word(kernels, k + 1) == rule && word(kernels, k + 2) == dot && sets::subset(set, kernels[k + 4])
}

// Whether such a line stands from `first` up to `last`.
fn holds_item(kernels: &[u32], first: usize, last: usize, rule: usize, dot: usize, set: u32) -> bool
    requires { (5 * last ≤ length kernels.now) × (first ≤ last) }
    ensures { (ks : List Kernel) → KernelsIn ks kernels.now → last ≤ length ks → result ≡ holds_item rule dot set (slice first last ks) }
{
    for i in first..last {
        if is_item(kernels, i, rule, dot, set) {
            return true;
        }
    }
    false
}

// Where the go line of a state and a symbol leads; the table has 255 where there is none.
fn target_of(table: &[u8], state: usize, symbol: usize) -> Option<usize>
    requires { 64 * state + symbol < length table.now }
    ensures { TargetOf result (get_or table.now (64 * state + symbol) 0) }
{
    let target = table[64 * state + symbol] as usize;
    if target == 255 {
        return None;
    }
    Some(target)
}

// Whether an item of a state is complete, or its go line leads where it stands advanced, with at least its lookaheads.
fn advances(
    rules: &[u32],
    kernels: &[u32],
    bounds: &[u32],
    table: &[u8],
    state: usize,
    rule: usize,
    dot: usize,
    set: u32,
) -> bool
    requires { (b : Book) × MovesIn b rules.now kernels.now bounds.now table.now × Stands b state rule dot }
    ensures { (b : Book) → MovesIn b rules.now kernels.now bounds.now table.now
        → Stands b state rule dot → result ≡ advances b state rule dot set (after b.rules rule dot) }
{
    let place = 10 * rule;
    if dot >= word(rules, place + 1) {
        return true;
    }
    let symbol = word(rules, place + 2 + dot);
    let Some(target) = target_of(table, state, symbol) else {
        return false;
    };
    let first = word(bounds, target);
    let last = word(bounds, target + 1);
    holds_item(kernels, first, last, rule, dot + 1, set)
}

// Whether the item of kernel line i does.
fn kernel_advances(
    rules: &[u32],
    kernels: &[u32],
    bounds: &[u32],
    table: &[u8],
    state: usize,
    i: usize,
) -> bool
    requires { (b : Book) × MovesIn b rules.now kernels.now bounds.now table.now × (state < b.states) × (i < length b.kernels) }
    ensures { (b : Book) → MovesIn b rules.now kernels.now bounds.now table.now
        → state < b.states → i < length b.kernels → result ≡ kernel_advances b state (kernel_at b.kernels i) }
{
    let place = 5 * i;
    let rule = word(kernels, place + 1);
    let dot = word(kernels, place + 2);
    advances(
        rules,
        kernels,
        bounds,
        table,
        state,
        rule,
        dot,
        kernels[place + 4],
    )
}

// Whether the items of a state's kernel lines do.
fn kernels_advance(
    rules: &[u32],
    kernels: &[u32],
    bounds: &[u32],
    table: &[u8],
    state: usize,
) -> bool
    requires { (b : Book) × MovesIn b rules.now kernels.now bounds.now table.now × (state < b.states) }
    ensures { (b : Book) → MovesIn b rules.now kernels.now bounds.now table.now
        → state < b.states → result ≡ all_advance b state (of_kernels (kernels_in b.kernels state)) }
{
    let first = word(bounds, state);
    let last = word(bounds, state + 1);
    for i in first..last {
        if !kernel_advances(rules, kernels, bounds, table, state, i) {
            return false;
        }
    }
    true
}

// Whether a rule with the dot in front does, where a state's closure has it.
fn rule_advances(
    rules: &[u32],
    kernels: &[u32],
    bounds: &[u32],
    closures: &[u32],
    table: &[u8],
    state: usize,
    rule: usize,
) -> bool
    requires { (b : Book) × (F : Sets) × AutomatonIn b F rules.now kernels.now bounds.now closures.now table.now × Stands b state rule 0 }
    ensures { (b : Book) (F : Sets) → AutomatonIn b F rules.now kernels.now bounds.now closures.now
        table.now → Stands b state rule 0 → result ≡ rule_advances b F state rule }
{
    let set = closures[32 * state + word(rules, 10 * rule)];
    set == 0 || advances(rules, kernels, bounds, table, state, rule, 0, set)
}

// Whether all rules do. A pass goes from one that the closure has to the next.
fn rules_advance(
    rules: &[u32],
    kernels: &[u32],
    bounds: &[u32],
    closures: &[u32],
    table: &[u8],
    fronts: &[u64],
    state: usize,
) -> bool
    requires { (b : Book) × (F : Sets) × AutomatonIn b F rules.now kernels.now bounds.now closures.now table.now
        × (state < b.states) × FrontsIn b rules.now closures.now fronts.now }
    ensures { (b : Book) (F : Sets) → AutomatonIn b F rules.now kernels.now bounds.now closures.now
        table.now → state < b.states → FrontsIn b rules.now closures.now fronts.now
        → result ≡ all_advance b state (of_rules b.rules (closure_sets b F state) (length b.rules)) }
{
    for rule in Members(fronts[state]) {
        if !rule_advances(rules, kernels, bounds, closures, table, state, rule) {
            return false;
        }
    }
    true
}

// Whether all items of a state do.
fn state_advances(
    rules: &[u32],
    kernels: &[u32],
    bounds: &[u32],
    closures: &[u32],
    table: &[u8],
    fronts: &[u64],
    state: usize,
) -> bool
    requires { (b : Book) × (F : Sets) × AutomatonIn b F rules.now kernels.now bounds.now closures.now table.now
        × (state < b.states) × FrontsIn b rules.now closures.now fronts.now }
    ensures { (b : Book) (F : Sets) → AutomatonIn b F rules.now kernels.now bounds.now closures.now
        table.now → state < b.states → FrontsIn b rules.now closures.now fronts.now
        → result ≡ all_advance b state (core_items b F state) }
{
    kernels_advance(rules, kernels, bounds, table, state)
        && rules_advance(rules, kernels, bounds, closures, table, fronts, state)
}

// Whether all items of all states do.
fn states_advance(
    rules: &[u32],
    kernels: &[u32],
    bounds: &[u32],
    closures: &[u32],
    table: &[u8],
    fronts: &[u64],
    states: usize,
) -> bool
    requires { (b : Book) × (F : Sets) × AutomatonIn b F rules.now kernels.now bounds.now closures.now table.now
        × (states ≡ b.states) × FrontsIn b rules.now closures.now fronts.now }
    ensures { (b : Book) (F : Sets) → AutomatonIn b F rules.now kernels.now bounds.now closures.now
        table.now → states ≡ b.states → FrontsIn b rules.now closures.now fronts.now
        → result ≡ states_advance b (core_items b F) states }
{
    for state in (0..states).rev() {
        if !state_advances(rules, kernels, bounds, closures, table, fronts, state) {
            return false;
        }
    }
    true
}

// Whether the item (rule, dot) stands in a state: with the dot in front in the closure, or in a kernel line.
fn has_item(
    rules: &[u32],
    kernels: &[u32],
    bounds: &[u32],
    closures: &[u32],
    state: usize,
    rule: usize,
    dot: usize,
) -> bool
    requires { (b : Book) × (F : Sets) × ItemsIn b F rules.now kernels.now bounds.now closures.now × Stands b state rule dot }
    ensures { (b : Book) (F : Sets) → ItemsIn b F rules.now kernels.now bounds.now closures.now
        → Stands b state rule dot → result ≡ some_item rule dot (core_items b F state) }
{
    if dot == 0 && closures[32 * state + word(rules, 10 * rule)] != 0 {
        return true;
    }
    let first = word(bounds, state);
    let last = word(bounds, state + 1);
    holds_item(kernels, first, last, rule, dot, sets::empty())
}

// Whether a kernel line (rule, dot) is an item of a state advanced over the symbol of a word.
fn comes(
    rules: &[u32],
    kernels: &[u32],
    bounds: &[u32],
    closures: &[u32],
    state: usize,
    symbol: usize,
    rule: usize,
    dot: usize,
) -> bool
    requires { (b : Book) × (F : Sets) × ItemsIn b F rules.now kernels.now bounds.now closures.now × Stands b state rule dot }
    ensures { (b : Book) (F : Sets) (X : Symbol) → ItemsIn b F rules.now kernels.now bounds.now closures.now
        → Stands b state rule dot → GoSymbol b X → symbol ≡ symbol_code X → result ≡ line_comes b.rules X (core_items b F state) rule dot }
{
    dot != 0
        && word(rules, 10 * rule + 1 + dot) == symbol
        && has_item(rules, kernels, bounds, closures, state, rule, dot - 1)
}

// Whether kernel line i is.
fn kernel_comes(
    rules: &[u32],
    kernels: &[u32],
    bounds: &[u32],
    closures: &[u32],
    state: usize,
    symbol: usize,
    i: usize,
) -> bool
    requires { (b : Book) × (F : Sets) × ItemsIn b F rules.now kernels.now bounds.now closures.now
        × (state < b.states) × (i < length b.kernels) }
    ensures { (b : Book) (F : Sets) (X : Symbol) → ItemsIn b F rules.now kernels.now bounds.now closures.now
        → state < b.states → i < length b.kernels → GoSymbol b X → symbol ≡ symbol_code X
        → result ≡ line_comes b.rules X (core_items b F state) (kernel_at b.kernels i).rule (kernel_at b.kernels i).dot }
{
    let rule = word(kernels, 5 * i + 1);
    let dot = word(kernels, 5 * i + 2);
    comes(rules, kernels, bounds, closures, state, symbol, rule, dot)
}

// Whether the kernel lines from `first` up to `last` all are.
fn all_come(
    rules: &[u32],
    kernels: &[u32],
    bounds: &[u32],
    closures: &[u32],
    state: usize,
    symbol: usize,
    first: usize,
    last: usize,
) -> bool
    requires { (b : Book) × (F : Sets) × ItemsIn b F rules.now kernels.now bounds.now closures.now
        × (state < b.states) × (first ≤ last) × (last ≤ length b.kernels) }
    ensures { (b : Book) (F : Sets) (X : Symbol) → ItemsIn b F rules.now kernels.now bounds.now closures.now
        → state < b.states → last ≤ length b.kernels → GoSymbol b X → symbol ≡ symbol_code X
        → result ≡ all_come b.rules X (core_items b F state) (slice first last b.kernels) }
{
    for i in first..last {
        if !kernel_comes(rules, kernels, bounds, closures, state, symbol, i) {
            return false;
        }
    }
    true
}

// Whether the target of go line i has kernel lines, and they all are.
fn line_comes(
    rules: &[u32],
    kernels: &[u32],
    goes: &[u32],
    bounds: &[u32],
    closures: &[u32],
    i: usize,
) -> bool
    requires { (b : Book) × (F : Sets) × ItemsIn b F rules.now kernels.now bounds.now closures.now
        × GoesIn b.goes goes.now × (i < length b.goes) }
    ensures { (b : Book) (F : Sets) → ItemsIn b F rules.now kernels.now bounds.now closures.now
        → GoesIn b.goes goes.now → i < length b.goes → result ≡ go_comes b (core_items b F) (go_at b.goes i) }
{
    let state = word(goes, 3 * i);
    let symbol = word(goes, 3 * i + 1);
    let target = word(goes, 3 * i + 2);
    let first = word(bounds, target);
    let last = word(bounds, target + 1);
    first != last && all_come(rules, kernels, bounds, closures, state, symbol, first, last)
}

// Whether this holds of all go lines.
fn lines_come(
    rules: &[u32],
    kernels: &[u32],
    goes: &[u32],
    bounds: &[u32],
    closures: &[u32],
    count: usize,
) -> bool
    requires { (b : Book) × (F : Sets) × ItemsIn b F rules.now kernels.now bounds.now closures.now
        × GoesIn b.goes goes.now × (count ≡ length b.goes) }
    ensures { (b : Book) (F : Sets) → ItemsIn b F rules.now kernels.now bounds.now closures.now
        → GoesIn b.goes goes.now → count ≡ length b.goes → result ≡ go_lines b (core_items b F) b.goes }
{
    for i in 0..count {
        if !line_comes(rules, kernels, goes, bounds, closures, i) {
            return false;
        }
    }
    true
}

// The go rules.
pub fn go_rules(
    rules: &[u32],
    kernels: &[u32],
    goes: &[u32],
    lines: u32,
    states: u32,
    bounds: &[u32],
    closures: &[u32],
    table: &[u8],
    fronts: &[u64],
) -> bool
    requires { (b : Book) × (F : Sets) × AutomatonIn b F rules.now kernels.now bounds.now closures.now table.now × GoesIn b.goes goes.now
        × (lines ≡ length b.goes) × (states ≡ b.states) × FrontsIn b rules.now closures.now fronts.now }
    ensures { (b : Book) (F : Sets) → AutomatonIn b F rules.now kernels.now bounds.now closures.now
        table.now → GoesIn b.goes goes.now → lines ≡ length b.goes → states ≡ b.states
        → FrontsIn b rules.now closures.now fronts.now → result ≡ go_rules b (items_at b (items_table b F)) }
{
    states_advance(
        rules,
        kernels,
        bounds,
        closures,
        table,
        fronts,
        states as usize,
    ) && lines_come(rules, kernels, goes, bounds, closures, lines as usize)
}
