// What can begin a string of symbols, and for each nonterminal what can begin what it derives.
ghost use Rattle.std.specs.Prelude.{◌≡◌, ◌<◌, length, replicate};
ghost use Rattle.grammar.specs.Automaton.Fixpoint.{visits};
ghost use Rattle.grammar.specs.Automaton.FirstSets.{first_in, first_rule, first_sets};
ghost use Rattle.items.specs.GrammarOf.{symbol_of, right_in, grammar_of, RuleFits, GrammarFits};
ghost use Rattle.items.specs.Passes.{Told};
ghost use Rattle.items.specs.Rests.{begins_with};
ghost use Rattle.items.specs.Turned.{turned};

use super::nullable::null_symbol;
use super::passes::give;
use super::rules::{left, size, symbol};

// What can begin a symbol.
pub fn begins_with(word: u32, firsts: &[u32]) -> u32
    requires { (word < 64) × (length firsts.now ≡ 32) }
    ensures { result ≡ begins_with firsts.now (symbol_of word) }
{
    if word < 32 {
        return sets::single(word);
    }
    firsts[(word - 32) as usize]
}

// What can begin the right side of rule p: symbol by symbol, to the first that is not nullable.
fn first_right(rules: &[u32], p: usize, nulls: u32, firsts: &[u32]) -> u32
    requires { RuleFits rules.now p × (length firsts.now ≡ 32) }
    ensures { result ≡ first_in nulls firsts.now (right_in rules.now p) }
{
    let mut found = 0;
    for d in 0..size(rules, p) {
        let word = symbol(rules, p, d);
        found = sets::union(found, begins_with(word, firsts));
        if !null_symbol(word, nulls) {
            return found;
        }
    }
    found
}

// Gives each rule's left side what can begin its right side, from the last rule to the first; whether anything changed.
fn first_pass(rules: &[u32], count: u32, nulls: u32, firsts: &mut [u32]) -> bool
    requires { GrammarFits rules.now count × (length firsts.old ≡ 32) }
    ensures { Told (visits (turned (first_rule (grammar_of rules.now count) nulls) count) count firsts.old)
        firsts.old firsts.new result }
{
    let mut changed = false;
    for p in (0..count as usize).rev() {
        let more = first_right(rules, p, nulls, firsts);
        changed |= give(firsts, left(rules, p), more);
    }
    changed
}

// FIRST of every nonterminal: passes until one changes nothing.
pub fn first_sets(rules: &[u32], count: u32, nulls: u32, firsts: &mut [u32])
    requires { GrammarFits rules.now count × (firsts.old ≡ replicate 32 0) }
    ensures { firsts.new ≡ first_sets (grammar_of rules.now count) nulls }
{
    while first_pass(rules, count, nulls, firsts) {}
}
