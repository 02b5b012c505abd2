// Of every rule's rest after every dot, whether it is nullable and what can begin it: nine words a rule.
ghost use Rattle.std.specs.Prelude.{◌≡◌, true, List, ◌∷◌, ◌+◌, ◌*◌, ◌<◌, ◌≤◌, length};
ghost use Rattle.grammar.specs.Data.Symbol.{Symbol};
ghost use Rattle.grammar.specs.Automaton.FirstSets.{sets};
ghost use Rattle.items.specs.Arrays.{SuffixesIn};
ghost use Rattle.items.specs.GrammarOf.{symbol_of, grammar_of, RuleFits, GrammarFits};
ghost use Rattle.items.specs.Living.{Living};
ghost use Rattle.items.specs.Rests.{RestIs};
ghost use Rattle.items.specs.SuffixLoops.{RuleSuffixes};

use super::first::begins_with;
use super::nullable::null_symbol;
use super::reach::dead_end;
use super::rules::{size, symbol};

// What is told of a rest.
#[derive(Clone, Copy)]
pub struct Rest {
    pub nullable: bool,
    pub begins: u32,
}

// Of a symbol with a rest behind it.
fn longer(word: u32, nulls: u32, firsts: &[u32], rest: Rest) -> Rest
    requires { (word < 64) × (length firsts.now ≡ 32) }
    ensures { (β : List Symbol) → RestIs (sets nulls firsts.now) β rest.nullable rest.begins
        → RestIs (sets nulls firsts.now) (symbol_of word ∷ β) result.nullable result.begins }
{
    let own = begins_with(word, firsts);
    if null_symbol(word, nulls) {
        return Rest {
            nullable: rest.nullable,
            begins: sets::union(own, rest.begins),
        };
    }
    Rest {
        nullable: false,
        begins: own,
    }
}

// Rule p's words in both arrays, from the last dot to the first; whether something can follow wherever a rest stands.
fn rule_suffixes(
    rules: &[u32],
    p: usize,
    nulls: u32,
    firsts: &[u32],
    nullables: &mut [u32],
    begins: &mut [u32],
) -> bool
    requires rule_fits { RuleFits rules.now p × (length firsts.now ≡ 32) }
    requires p_in_bounds { (9 * p + 9 ≤ length nullables.old) × (9 * p + 9 ≤ length begins.old) }
    ensures { RuleSuffixes rules.now p nulls firsts.now
        nullables.old nullables.new begins.old begins.new result }
{
    let mut rest = Rest {
        nullable: true,
        begins: 0,
    };
    let mut alive = true;
    for d in (0..size(rules, p)).rev() {
        nullables[9 * p + d + 1] = u32::from(rest.nullable);
        begins[9 * p + d + 1] = rest.begins;
        rest = longer(symbol(rules, p, d), nulls, firsts, rest);
        alive &= !dead_end(rest.nullable, rest.begins);
    }
    nullables[9 * p] = u32::from(rest.nullable);
    begins[9 * p] = rest.begins;
    alive
}

// Both arrays, rule by rule; whether something can follow wherever a rest stands.
pub fn suffixes(
    rules: &[u32],
    count: u32,
    nulls: u32,
    firsts: &[u32],
    nullables: &mut [u32],
    begins: &mut [u32],
) -> bool
    requires grammar_fits { GrammarFits rules.now count × (length firsts.now ≡ 32) }
    requires count_in_bounds { (9 * count ≤ length nullables.old) × (9 * count ≤ length begins.old) }
    ensures { SuffixesIn (grammar_of rules.now count) (sets nulls firsts.now) nullables.new begins.new
        × (result ≡ true → Living (grammar_of rules.now count) (sets nulls firsts.now)) }
{
    let mut alive = true;
    for p in 0..count as usize {
        alive &= rule_suffixes(rules, p, nulls, firsts, nullables, begins);
    }
    alive
}
