// The sets of every rest of every rule, of a grammar in an array: whether it is nullable, what can begin it, what is reached before it ends.
ghost use Rattle.std.specs.Prelude.{List, ◌*◌, ◌≤◌, length};
ghost use Rattle.grammar.specs.Data.Symbol.{Rule};
ghost use Rattle.items.specs.GrammarOf.{GrammarHeld};
ghost use Rattle.items.specs.RestSets.{RestSetsIn};

use super::first::first_sets;
use super::nullable::nullable;
use super::reach::reach;
use super::suffixes::suffixes;
use super::words::copy;

// Fills three arrays of nine words a rule. Where no rest is a dead end, what is reached is what can begin.
pub fn rests(
    rules: &[u32],
    count: u32,
    nullables: &mut [u32],
    begins: &mut [u32],
    reaches: &mut [u32],
)
    requires grammar_held { (G : List Rule) × GrammarHeld G rules.now count }
    requires count_in_bounds { (9 * count ≤ length nullables.old) × (9 * count ≤ length begins.old) × (9 * count ≤ length reaches.old) }
    ensures { (G : List Rule) → GrammarHeld G rules.now count
        → RestSetsIn G nullables.new begins.new reaches.new }
{
    let nulls = nullable(rules, count);
    let mut firsts = [0u32; 32];
    first_sets(rules, count, nulls, &mut firsts);
    if suffixes(rules, count, nulls, &firsts, nullables, begins) {
        copy(begins, 9 * count as usize, reaches);
    } else {
        reach(rules, count, nulls, nullables, begins, reaches);
    }
}
