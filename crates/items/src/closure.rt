// The closure of a state: for each nonterminal, the lookaheads with which its rules stand in it. The kernel lines of the state give their next
// nonterminals what they directly derive, then so do the rules, in passes, until a pass changes nothing.
// A contract asks that the arrays hold some book, and says its equation of every book that they hold.
ghost use Rattle.std.specs.Prelude.{◌≡◌, List, ℕ, ◌+◌, ◌*◌, ◌≤◌, ◌<◌, length, replicate};
ghost use Rattle.grammar.specs.Data.Symbol.{Rule, right_of, after};
ghost use Rattle.grammar.specs.Data.Book.{Book};
ghost use Rattle.grammar.specs.Automaton.Fixpoint.{visit, visits, least};
ghost use Rattle.grammar.specs.Automaton.FirstSets.{Sets, first_with};
ghost use Rattle.grammar.specs.Automaton.ClosureSets.{derives_into, from_kernels, closure_rule, closure_sets};
ghost use Rattle.items.specs.Arrays.{SuffixesIn};
ghost use Rattle.items.specs.Passes.{Told};
ghost use Rattle.items.specs.Derives.{GrammarIn};
ghost use Rattle.items.specs.Leads.{Leads};
ghost use Rattle.items.specs.KernelLines.{lines, KernelItemsIn, StateIn, line_into, Begun};

use super::passes::give;
use super::words::word;

// What can begin the rest of a rule after `dot` symbols, with the lookaheads `own` behind it.
fn first_with(nullables: &[u32], begins: &[u32], rule: usize, dot: usize, own: u32) -> u32
    requires { (9 * rule + dot < length nullables.now) × (9 * rule + dot < length begins.now) }
    ensures { (G : List Rule) (F : Sets) → SuffixesIn G F nullables.now begins.now
        → rule < length G → dot ≤ length (right_of G rule) → result ≡ first_with F (after G rule dot) own }
{
    let place = 9 * rule + dot;
    let first = begins[place];
    if nullables[place] == 0 {
        return first;
    }
    sets::union(first, own)
}

// An item of a rule, with the dot after `dot` symbols and the lookaheads `own`, gives the nonterminal behind the dot the lookaheads of the items
// that it directly derives; whether that changed any.
fn derive(
    rules: &[u32],
    nullables: &[u32],
    begins: &[u32],
    rule: usize,
    dot: usize,
    own: u32,
    looks: &mut [u32],
) -> bool
    requires { ((b : Book) × (F : Sets) × GrammarIn b F rules.now nullables.now begins.now × (rule < length b.rules))
        × (length looks.old ≡ 32) }
    ensures { (b : Book) (F : Sets) → GrammarIn b F rules.now nullables.now begins.now
        → rule < length b.rules
        → Told (visit (derives_into F (after b.rules rule dot) (λ _. own)) looks.old) looks.old looks.new result }
{
    if own == 0 {
        return false;
    }
    if word(rules, 10 * rule + 1) <= dot {
        return false;
    }
    let next = rules[10 * rule + 2 + dot];
    if next < 32 {
        return false;
    }
    give(
        looks,
        next - 32,
        first_with(nullables, begins, rule, dot + 1, own),
    )
}

// A rule gives what its item with the dot in front, with the lookaheads of its left side, directly derives; whether that changed any.
fn visit(rules: &[u32], nullables: &[u32], begins: &[u32], rule: usize, looks: &mut [u32]) -> bool
    requires { ((b : Book) × (F : Sets) × GrammarIn b F rules.now nullables.now begins.now × (rule < length b.rules))
        × (length looks.old ≡ 32) }
    ensures { (b : Book) (F : Sets) → GrammarIn b F rules.now nullables.now begins.now
        → rule < length b.rules → Told (visit (closure_rule b F rule) looks.old) looks.old looks.new result }
{
    let left = word(rules, 10 * rule);
    let own = looks[left];
    derive(rules, nullables, begins, rule, 0, own, looks)
}

// One pass over the rules; whether it changed any lookaheads. From each rule it goes to the next one that derives anything.
fn pass(
    rules: &[u32],
    count: usize,
    leads: &[u8],
    nullables: &[u32],
    begins: &[u32],
    looks: &mut [u32],
) -> bool
    requires { ((b : Book) × (F : Sets) × GrammarIn b F rules.now nullables.now begins.now × (length b.rules ≡ count))
        × Leads rules.now count leads.now × (length looks.old ≡ 32) }
    ensures { (b : Book) (F : Sets) → GrammarIn b F rules.now nullables.now begins.now
        → length b.rules ≡ count
        → Told (visits (closure_rule b F) count looks.old) looks.old looks.new result }
{
    let mut changed = false;
    let mut rule = leads[0] as usize;
    while rule < count {
        // A test and no `|=`, here and in `begin`: the compiler would no longer leave a visit early, and closures of many passes would take half as long again.
        if visit(rules, nullables, begins, rule, looks) {
            changed = true;
        }
        rule = leads[rule + 1] as usize;
    }
    changed
}

// Passes until one changes nothing.
fn passes(
    rules: &[u32],
    count: usize,
    leads: &[u8],
    nullables: &[u32],
    begins: &[u32],
    looks: &mut [u32],
)
    requires { ((b : Book) × (F : Sets) × GrammarIn b F rules.now nullables.now begins.now × (length b.rules ≡ count))
        × Leads rules.now count leads.now × (length looks.old ≡ 32) }
    ensures { (b : Book) (F : Sets) → GrammarIn b F rules.now nullables.now begins.now
        → length b.rules ≡ count → looks.new ≡ least (closure_rule b F) count looks.old }
{
    while pass(rules, count, leads, nullables, begins, looks) {}
}

// Kernel line i gives the nonterminal behind its dot what it directly derives; whether that changed any lookaheads.
fn line(
    rules: &[u32],
    kernels: &[u32],
    nullables: &[u32],
    begins: &[u32],
    i: usize,
    looks: &mut [u32],
) -> bool
    requires { ((b : Book) × (F : Sets) × KernelItemsIn b F rules.now kernels.now nullables.now begins.now × (i < length b.kernels))
        × (length looks.old ≡ 32) }
    ensures { (b : Book) (F : Sets)
        → KernelItemsIn b F rules.now kernels.now nullables.now begins.now → i < length b.kernels
        → Told (visit (line_into b F i) looks.old) looks.old looks.new result }
{
    let rule = word(kernels, 5 * i + 1);
    let dot = word(kernels, 5 * i + 2);
    let own = kernels[5 * i + 4];
    derive(rules, nullables, begins, rule, dot, own, looks)
}

// The kernel lines from one up to another, one after the other; whether they gave any lookaheads.
fn begin(
    rules: &[u32],
    kernels: &[u32],
    from: usize,
    to: usize,
    nullables: &[u32],
    begins: &[u32],
    looks: &mut [u32],
) -> bool
    requires { ((b : Book) × (F : Sets) × KernelItemsIn b F rules.now kernels.now nullables.now begins.now × (to ≤ length b.kernels))
        × (length looks.old ≡ 32) }
    ensures { (b : Book) (F : Sets)
        → KernelItemsIn b F rules.now kernels.now nullables.now begins.now → to ≤ length b.kernels
        → Begun (from_kernels b F (lines b.kernels from to) looks.old) looks.old looks.new result }
{
    let mut given = false;
    for i in from..to {
        if line(rules, kernels, nullables, begins, i, looks) {
            given = true;
        }
    }
    given
}

// The closure of the state whose kernel lines stand from one up to another. Where these give no lookaheads, no pass is needed.
pub fn closure(
    rules: &[u32],
    count: usize,
    leads: &[u8],
    kernels: &[u32],
    from: usize,
    to: usize,
    nullables: &[u32],
    begins: &[u32],
    looks: &mut [u32],
)
    requires { ((b : Book) × (F : Sets) × KernelItemsIn b F rules.now kernels.now nullables.now begins.now × (length b.rules ≡ count)
        × (to ≤ length b.kernels)) × Leads rules.now count leads.now × (looks.old ≡ replicate 32 0) }
    ensures { (b : Book) (F : Sets) (S : ℕ)
        → KernelItemsIn b F rules.now kernels.now nullables.now begins.now → length b.rules ≡ count
        → StateIn b.kernels S from to → looks.new ≡ closure_sets b F S }
{
    if begin(rules, kernels, from, to, nullables, begins, looks) {
        passes(rules, count, leads, nullables, begins, looks);
    }
}
