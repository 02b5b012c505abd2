// The actions by state and terminal, one byte each, and whether two different ones meet (9). No action is FREE, shift is SHIFT, reducing rule P is
// REDUCE + P, and reducing rule 0 is accept.
ghost use Rattle.std.specs.Prelude.{◌≡◌, true, List, [], ◌++◌, ℕ, ◌+◌, ◌*◌, ◌<◌, ◌≤◌, length};
ghost use Rattle.sets.specs.Sets.{bit};
ghost use Rattle.grammar.specs.Data.Symbol.{left_of, after};
ghost use Rattle.grammar.specs.Data.Book.{Book};
ghost use Rattle.grammar.specs.Automaton.Fixpoint.{set_at};
ghost use Rattle.grammar.specs.Automaton.FirstSets.{Sets};
ghost use Rattle.grammar.specs.Automaton.ClosureSets.{kernels_in, closure_sets};
ghost use Rattle.grammar.specs.Automaton.CoreItems.{Core, of_kernels, entered, of_rules, core_items};
ghost use Rattle.grammar.specs.Automaton.Actions.{Cell, cell_from};
ghost use Rattle.items.specs.Arrays.{ClosuresIn};
ghost use Rattle.items.specs.GrammarIn.{GrammarIn};
ghost use Rattle.automaton.specs.StatesIn.{StatesIn, ItemsIn, Stands};
ghost use Rattle.automaton.specs.ActionRows.{Given, Row, Melded, completed_below, item_cells, acted_code, Among};
ghost use Rattle.automaton.specs.ActionTable.{Acted};
ghost use Rattle.automaton.specs.Fronts.{FrontsIn};

use super::lefts::Members;
use items::words::word;

const FREE: u8 = 0;

const SHIFT: u8 = 1;

const REDUCE: u8 = 2;

// Gives a byte an action; whether it was free, or had the action already.
fn give(actions: &mut [u8], place: usize, action: u8) -> bool
    requires { place < length actions.old }
    ensures { Given actions.old place action actions.new result }
{
    let old = actions[place];
    if old == FREE {
        actions[place] = action;
        return true;
    }
    old == action
}

// A byte that is given an action, or is not.
fn acted(old: u8, given: bool, action: u8) -> u8
    ensures { result ≡ acted_code old given action }
{
    if given {
        return action;
    }
    old
}

// Gives a complete rule's action at terminal a, if that is among the lookaheads; whether it met no other. There is one way through.
fn complete_at(actions: &mut [u8], state: usize, rule: usize, set: u32, a: usize) -> bool
    requires { (32 * state + 32 ≤ length actions.old) × (state < 128) × (rule < 64) × (a < 32) }
    ensures { (terminals : ℕ) (cells : ℕ → Cell) → terminals < 32 → (bit set a ≡ true → a ≤ terminals)
        → Row terminals state (completed_below a cells rule set) actions.old
        → Melded terminals state (completed_below (a + 1) cells rule set) actions.old actions.new result }
{
    let place = 32 * state + a;
    let action = REDUCE + rule as u8;
    let given = sets::has(set, a as u32);
    let old = actions[place];
    actions[place] = acted(old, given, action);
    !given | (old == FREE) | (old == action)
}

// The lookaheads that are terminals of the book.
fn among(set: u32, terminals: usize) -> u32
    requires { terminals < 32 }
    ensures { Among set terminals result }
{
    set & (sets::ALL >> (31 - terminals))
}

// At all its lookaheads, with no way out of the loop.
fn complete(actions: &mut [u8], state: usize, rule: usize, set: u32, terminals: usize) -> bool
    requires { (32 * state + 32 ≤ length actions.old) × (state < 128) × (rule < 64) × (terminals < 32) }
    ensures { (cells : ℕ → Cell) → Row terminals state cells actions.old
        → Melded terminals state (item_cells rule set [] cells) actions.old actions.new result }
{
    let lookaheads = among(set, terminals);
    let mut clear = true;
    for a in 0..32 {
        clear &= complete_at(actions, state, rule, lookaheads, a);
    }
    clear
}

// Gives the actions of an item of a state; whether they met no other.
fn give_item(
    rules: &[u32],
    actions: &mut [u8],
    terminals: usize,
    state: usize,
    rule: usize,
    dot: usize,
    set: u32,
) -> bool
    requires { (32 * state + 32 ≤ length actions.old) × ((b : Book) × GrammarIn b rules.now × Stands b state rule dot × (terminals ≡ b.terminals)) }
    ensures { (b : Book) (cells : ℕ → Cell) → GrammarIn b rules.now → Stands b state rule dot → terminals ≡ b.terminals
        → Row terminals state cells actions.old
        → Melded terminals state (item_cells rule set (after b.rules rule dot) cells) actions.old actions.new result }
{
    let place = 10 * rule;
    if dot >= word(rules, place + 1) {
        return complete(actions, state, rule, set, terminals);
    }
    let symbol = word(rules, place + 2 + dot);
    if symbol >= 32 {
        return true;
    }
    give(actions, 32 * state + symbol, SHIFT)
}

// Those of a rule with the dot in front, where the state's closure has it.
fn rule_acts(
    rules: &[u32],
    closures: &[u32],
    actions: &mut [u8],
    terminals: usize,
    state: usize,
    rule: usize,
) -> bool
    requires { (32 * state + 32 ≤ length actions.old)
        × ((b : Book) × (F : Sets) × GrammarIn b rules.now × ClosuresIn b F closures.now × Stands b state rule 0 × (terminals ≡ b.terminals)) }
    ensures { (b : Book) (F : Sets) (items : List Core) → GrammarIn b rules.now → ClosuresIn b F closures.now
        → Stands b state rule 0 → terminals ≡ b.terminals → Row terminals state (cell_from b.rules items) actions.old
        → Melded terminals state (cell_from b.rules (entered rule (set_at (closure_sets b F state) (left_of b.rules rule)) items))
        actions.old actions.new result }
{
    let set = closures[32 * state + word(rules, 10 * rule)];
    set == 0 || give_item(rules, actions, terminals, state, rule, 0, set)
}

// Those of all rules, into a state without actions. A pass goes from one that the closure has to the next.
fn rules_act(
    rules: &[u32],
    closures: &[u32],
    fronts: &[u64],
    actions: &mut [u8],
    terminals: usize,
    state: usize,
) -> bool
    requires { (32 * state + 32 ≤ length actions.old)
        × ((b : Book) × (F : Sets) × GrammarIn b rules.now × ClosuresIn b F closures.now × (state < b.states)
        × (terminals ≡ b.terminals) × FrontsIn b rules.now closures.now fronts.now) }
    ensures { (b : Book) (F : Sets) → GrammarIn b rules.now → ClosuresIn b F closures.now
        → state < b.states → terminals ≡ b.terminals → FrontsIn b rules.now closures.now fronts.now
        → Row terminals state (cell_from b.rules []) actions.old
        → Melded terminals state (cell_from b.rules (of_rules b.rules (closure_sets b F state) (length b.rules)))
        actions.old actions.new result }
{
    for rule in Members(fronts[state]) {
        if !rule_acts(rules, closures, actions, terminals, state, rule) {
            return false;
        }
    }
    true
}

// Those of a state's kernel lines, the last line first.
fn kernels_act(
    rules: &[u32],
    kernels: &[u32],
    bounds: &[u32],
    actions: &mut [u8],
    terminals: usize,
    state: usize,
) -> bool
    requires { (32 * state + 32 ≤ length actions.old)
        × ((b : Book) × StatesIn b rules.now kernels.now bounds.now × (state < b.states) × (terminals ≡ b.terminals)) }
    ensures { (b : Book) (items : List Core) → StatesIn b rules.now kernels.now bounds.now
        → state < b.states → terminals ≡ b.terminals → Row terminals state (cell_from b.rules items) actions.old
        → Melded terminals state (cell_from b.rules (of_kernels (kernels_in b.kernels state) ++ items)) actions.old actions.new result }
{
    let first = word(bounds, state);
    let last = word(bounds, state + 1);
    for i in (first..last).rev() {
        let rule = word(kernels, 5 * i + 1);
        let dot = word(kernels, 5 * i + 2);
        if !give_item(
            rules,
            actions,
            terminals,
            state,
            rule,
            dot,
            kernels[5 * i + 4],
        ) {
            return false;
        }
    }
    true
}

// Those of all items of a state without actions.
fn state_acts(
    rules: &[u32],
    kernels: &[u32],
    bounds: &[u32],
    closures: &[u32],
    fronts: &[u64],
    actions: &mut [u8],
    terminals: usize,
    state: usize,
) -> bool
    requires { (32 * state + 32 ≤ length actions.old)
        × ((b : Book) × (F : Sets) × ItemsIn b F rules.now kernels.now bounds.now closures.now
        × (state < b.states) × (terminals ≡ b.terminals) × FrontsIn b rules.now closures.now fronts.now) }
    ensures { (b : Book) (F : Sets) → ItemsIn b F rules.now kernels.now bounds.now closures.now
        → state < b.states → terminals ≡ b.terminals → FrontsIn b rules.now closures.now fronts.now
        → Row terminals state (cell_from b.rules []) actions.old
        → Melded terminals state (cell_from b.rules (core_items b F state)) actions.old actions.new result }
{
    rules_act(rules, closures, fronts, actions, terminals, state)
        && kernels_act(rules, kernels, bounds, actions, terminals, state)
}

// The actions of all states, up to the first conflict; whether there is none.
pub fn fill_actions(
    rules: &[u32],
    kernels: &[u32],
    bounds: &[u32],
    closures: &[u32],
    fronts: &[u64],
    terminals: u32,
    states: u32,
    actions: &mut [u8],
) -> bool
    requires { (32 * states ≤ length actions.old)
        × ((b : Book) × (F : Sets) × ItemsIn b F rules.now kernels.now bounds.now closures.now
        × (terminals ≡ b.terminals) × (states ≡ b.states) × FrontsIn b rules.now closures.now fronts.now) }
    ensures { (b : Book) (F : Sets) → ItemsIn b F rules.now kernels.now bounds.now closures.now
        → terminals ≡ b.terminals → states ≡ b.states → FrontsIn b rules.now closures.now fronts.now
        → Acted b F actions.new result }
{
    let n = states as usize;
    actions[..32 * n].fill(FREE);
    for state in 0..n {
        if !state_acts(
            rules,
            kernels,
            bounds,
            closures,
            fronts,
            actions,
            terminals as usize,
            state,
        ) {
            return false;
        }
    }
    true
}
