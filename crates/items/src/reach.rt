// Which terminals are reached from an item before its rule is complete: as FIRST, but through a nonterminal only if something can follow it.
ghost use Rattle.std.specs.Prelude.{◌≡◌, List, ◌∷◌, ◌+◌, ◌*◌, ◌<◌, ◌≤◌, length, drop, replicate};
ghost use Rattle.grammar.specs.Data.Symbol.{Symbol};
ghost use Rattle.grammar.specs.Automaton.Fixpoint.{visits};
ghost use Rattle.grammar.specs.Automaton.FirstSets.{Sets, sets_of};
ghost use Rattle.grammar.specs.Automaton.ReachSets.{dead, reach_in, reach_rule, reach_sets};
ghost use Rattle.items.specs.Arrays.{ReachesIn};
ghost use Rattle.items.specs.GrammarOf.{symbol_of, size_word, right_in, grammar_of, RuleFits};
ghost use Rattle.items.specs.Passes.{Told};
ghost use Rattle.items.specs.ReachLoops.{SetsIn};
ghost use Rattle.items.specs.Rests.{nulls_of, RestIs, RestsIn};
ghost use Rattle.items.specs.Filling.{RestsAre};

use super::passes::give;
use super::rules::{left, size, symbol};

// Whether nothing can follow where a rest stands: it is not nullable, and nothing can begin it.
pub fn dead_end(nullable: bool, begins: u32) -> bool
    ensures { (F : Sets) (β : List Symbol) → RestIs F β nullable begins → result ≡ dead F β }
{
    !nullable & (begins == 0)
}

// What is reached of a symbol with a rest behind it.
fn reach_step(word: u32, nulls: u32, nullable: bool, begins: u32, reached: &[u32]) -> u32
    requires { (word < 64) × (length reached.now ≡ 32) }
    ensures { (F : Sets) (β : List Symbol) → nulls ≡ nulls_of F → RestIs F β nullable begins
        → result ≡ reach_in F reached.now (symbol_of word ∷ β) }
{
    if word < 32 {
        return sets::single(word);
    }
    if dead_end(nullable, begins) {
        return 0;
    }
    let inside = reached[(word - 32) as usize];
    if sets::has(nulls, word - 32) {
        return sets::union(inside, begins);
    }
    inside
}

// What is reached of rule p after d symbols.
fn reach_rest(
    rules: &[u32],
    p: usize,
    d: usize,
    nulls: u32,
    nullables: &[u32],
    begins: &[u32],
    reached: &[u32],
) -> u32
    requires rule_fits { RuleFits rules.now p × (d ≤ size_word rules.now p) × (length reached.now ≡ 32) }
    requires p_in_bounds { (9 * p + 9 ≤ length nullables.now) × (9 * p + 9 ≤ length begins.now) }
    ensures { (F : Sets) → nulls ≡ nulls_of F → RestsIn F (right_in rules.now p) (9 * p) nullables.now begins.now
        → result ≡ reach_in F reached.now (drop d (right_in rules.now p)) }
{
    if d == size(rules, p) {
        return 0;
    }
    let k = 9 * p + d + 1;
    reach_step(
        symbol(rules, p, d),
        nulls,
        nullables[k] != 0,
        begins[k],
        reached,
    )
}

// Gives each rule's left side what is reached of its right side; whether anything changed.
fn reach_pass(
    rules: &[u32],
    count: u32,
    nulls: u32,
    nullables: &[u32],
    begins: &[u32],
    reached: &mut [u32],
) -> bool
    requires { SetsIn rules.now count nulls nullables.now begins.now × (length reached.old ≡ 32) }
    ensures { Told
        (visits (reach_rule (grammar_of rules.now count) (sets_of (grammar_of rules.now count))) count reached.old)
        reached.old reached.new result }
{
    let mut changed = false;
    for p in 0..count as usize {
        let more = reach_rest(rules, p, 0, nulls, nullables, begins, reached);
        changed |= give(reached, left(rules, p), more);
    }
    changed
}

// What is reached through every nonterminal: passes until one changes nothing.
fn reach_sets(
    rules: &[u32],
    count: u32,
    nulls: u32,
    nullables: &[u32],
    begins: &[u32],
    reached: &mut [u32],
)
    requires { SetsIn rules.now count nulls nullables.now begins.now × (reached.old ≡ replicate 32 0) }
    ensures { reached.new ≡ reach_sets (grammar_of rules.now count) (sets_of (grammar_of rules.now count)) }
{
    while reach_pass(rules, count, nulls, nullables, begins, reached) {}
}

// Rule p's words: what is reached of the rest after each dot.
fn reach_rests(
    rules: &[u32],
    p: usize,
    nulls: u32,
    nullables: &[u32],
    begins: &[u32],
    reached: &[u32],
    reaches: &mut [u32],
)
    requires rule_fits { RuleFits rules.now p × (length reached.now ≡ 32) × (9 * p + 9 ≤ length reaches.old) }
    requires p_in_bounds { (9 * p + 9 ≤ length nullables.now) × (9 * p + 9 ≤ length begins.now) }
    ensures { (F : Sets) → nulls ≡ nulls_of F → RestsIn F (right_in rules.now p) (9 * p) nullables.now begins.now
        → RestsAre (reach_in F reached.now) rules.now p reaches.old reaches.new }
{
    for d in 0..=size(rules, p) {
        reaches[9 * p + d] = reach_rest(rules, p, d, nulls, nullables, begins, reached);
    }
}

// The array, rule by rule.
fn fill_reaches(
    rules: &[u32],
    count: u32,
    nulls: u32,
    nullables: &[u32],
    begins: &[u32],
    reached: &[u32],
    reaches: &mut [u32],
)
    requires { SetsIn rules.now count nulls nullables.now begins.now × (length reached.now ≡ 32) × (9 * count ≤ length reaches.old) }
    ensures { ReachesIn (grammar_of rules.now count) (sets_of (grammar_of rules.now count))
        reached.now reaches.new }
{
    for p in 0..count as usize {
        reach_rests(rules, p, nulls, nullables, begins, reached, reaches);
    }
}

// The array of a grammar, by the reached sets.
pub fn reach(
    rules: &[u32],
    count: u32,
    nulls: u32,
    nullables: &[u32],
    begins: &[u32],
    reaches: &mut [u32],
)
    requires { SetsIn rules.now count nulls nullables.now begins.now × (9 * count ≤ length reaches.old) }
    ensures { ReachesIn (grammar_of rules.now count) (sets_of (grammar_of rules.now count))
        (reach_sets (grammar_of rules.now count) (sets_of (grammar_of rules.now count))) reaches.new }
{
    let mut reached = [0u32; 32];
    reach_sets(rules, count, nulls, nullables, begins, &mut reached);
    fill_reaches(rules, count, nulls, nullables, begins, &reached, reaches);
}
