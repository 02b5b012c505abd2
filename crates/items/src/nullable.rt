// Which nonterminals derive the empty string.
ghost use Rattle.std.specs.Prelude.{◌≡◌, ◌∷◌, [], ◌<◌};
ghost use Rattle.grammar.specs.Automaton.Fixpoint.{visits};
ghost use Rattle.grammar.specs.Automaton.FirstSets.{null_in, null_rule, nullable};
ghost use Rattle.items.specs.GrammarOf.{symbol_of, right_in, grammar_of, RuleFits, GrammarFits};
ghost use Rattle.items.specs.Rests.{null_symbol};
ghost use Rattle.items.specs.Turned.{turned};

use super::rules::{left, size, symbol};

// Whether a symbol is a nonterminal of `nulls`.
pub fn null_symbol(word: u32, nulls: u32) -> bool
    requires { word < 64 }
    ensures { result ≡ null_symbol nulls (symbol_of word) }
{
    32 <= word && sets::has(nulls, word - 32)
}

// Whether every right symbol of rule p is.
fn null_right(rules: &[u32], p: usize, nulls: u32) -> bool
    requires { RuleFits rules.now p }
    ensures { result ≡ null_in nulls (right_in rules.now p) }
{
    for d in 0..size(rules, p) {
        if !null_symbol(symbol(rules, p, d), nulls) {
            return false;
        }
    }
    true
}

// `nulls` with the left side of every rule that it makes nullable, from the last rule to the first: most rules use nonterminals of later ones.
fn null_pass(rules: &[u32], count: u32, nulls: u32) -> u32
    requires { GrammarFits rules.now count }
    ensures { (result ∷ []) ≡ visits (turned (null_rule (grammar_of rules.now count)) count) count (nulls ∷ []) }
{
    let mut found = nulls;
    for p in (0..count as usize).rev() {
        if null_right(rules, p, found) {
            found = sets::with(found, left(rules, p));
        }
    }
    found
}

// The nullable nonterminals: passes until one finds nothing more.
pub fn nullable(rules: &[u32], count: u32) -> u32
    requires { GrammarFits rules.now count }
    ensures { result ≡ nullable (grammar_of rules.now count) }
{
    let mut nulls = 0;
    let mut next = null_pass(rules, count, nulls);
    while next != nulls {
        nulls = next;
        next = null_pass(rules, count, nulls);
    }
    nulls
}
