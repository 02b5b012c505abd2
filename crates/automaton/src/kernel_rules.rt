// The kernel rules (7): state 0 has the one kernel (0, 0) with t0 alone; any other state has a kernel, all dots at least 1, one and the same symbol
// before every dot; rule 0's kernels have t0 alone. The lines ascend by their states: one walk over them tells the rules, and where the lines of each
// state begin.
// A contract asks that the arrays hold some book, and says what it says of every book that they hold.
ghost use Rattle.std.specs.Prelude.{◌≡◌, List, ◌+◌, ◌-◌, ◌≤◌, ◌<◌, length};
ghost use Rattle.grammar.specs.Data.Book.{Book, Kernel};
ghost use Rattle.grammar.specs.Conditions.Decides.{Decides};
ghost use Rattle.grammar.specs.Automaton.States.{start_kernel};
ghost use Rattle.book.specs.Held.{kernel_at};
ghost use Rattle.automaton.specs.KernelWords.{SpelledIn, NamedIn, EndAlone, StartAlone, word_before, Follows};
ghost use Rattle.automaton.specs.KernelRules.{RuledIn, Walked, Walks, Ruled};

use items::words::word;

// Whether kernel line i has t0 alone. Lookaheads ascend, so the largest tells.
fn end_alone(kernels: &[u32], i: usize) -> bool
    requires { (ks : List Kernel) × SpelledIn ks kernels.now × (i < length ks) }
    ensures { (ks : List Kernel) → SpelledIn ks kernels.now → i < length ks → Decides result (EndAlone (kernel_at ks i)) }
{
    kernels[5 * i + 3] == 0
}

// Whether the first kernel line is of state 0 and rule 0, with the dot in front and t0 alone.
fn start_line(kernels: &[u32]) -> bool
    requires { (ks : List Kernel) × SpelledIn ks kernels.now × (0 < length ks) }
    ensures { (ks : List Kernel) → SpelledIn ks kernels.now → 0 < length ks → Decides result (kernel_at ks 0 ≡ start_kernel) }
{
    let own = (kernels[0] == 0) & (kernels[1] == 0) & (kernels[2] == 0);
    own & end_alone(kernels, 0)
}

// Whether kernel line i, if it is of rule 0, has t0 alone.
fn start_or_other(kernels: &[u32], i: usize) -> bool
    requires { (ks : List Kernel) × SpelledIn ks kernels.now × (i < length ks) }
    ensures { (ks : List Kernel) → SpelledIn ks kernels.now → i < length ks → Decides result (StartAlone (kernel_at ks i)) }
{
    kernels[5 * i + 1] != 0 || end_alone(kernels, i)
}

// The word of the symbol before the dot of kernel line i; none where the dot is in front.
fn symbol_before(rules: &[u32], kernels: &[u32], i: usize) -> Option<u32>
    requires { (b : Book) × NamedIn b rules.now kernels.now × (i < length b.kernels) }
    ensures { (b : Book) → NamedIn b rules.now kernels.now → i < length b.kernels
        → result ≡ word_before b.rules (kernel_at b.kernels i) }
{
    let dot = word(kernels, 5 * i + 2);
    if dot == 0 {
        return None;
    }
    let rule = word(kernels, 5 * i + 1);
    Some(rules[10 * rule + 1 + dot])
}

// Whether kernel line i, which is not the first, may stand behind the line before it: its dot is not in front; rule 0 has t0 alone; it is of the same
// state, with the same symbol before its dot, or of the next state.
fn line_right(rules: &[u32], kernels: &[u32], i: usize) -> bool
    requires { (b : Book) × NamedIn b rules.now kernels.now × (0 < i) × (i < length b.kernels) }
    ensures { (b : Book) → NamedIn b rules.now kernels.now → 0 < i → i < length b.kernels
        → Decides result (Follows b.rules (kernel_at b.kernels (i - 1)) (kernel_at b.kernels i)) }
{
    let Some(symbol) = symbol_before(rules, kernels, i) else {
        return false;
    };
    if !start_or_other(kernels, i) {
        return false;
    }
    let state = kernels[5 * i];
    let last = kernels[5 * (i - 1)];
    if state == last {
        return symbol_before(rules, kernels, i - 1) == Some(symbol);
    }
    state == last + 1
}

// Whether every kernel line behind the first may stand there; `bounds` is filled as far as the lines go.
fn lines_right(rules: &[u32], kernels: &[u32], count: usize, bounds: &mut [u32]) -> bool
    requires { (b : Book) × RuledIn b rules.now kernels.now count × Walked b bounds.old 1 }
    ensures { (b : Book) → RuledIn b rules.now kernels.now count → Walked b bounds.old 1
        → Walks b result bounds.new }
{
    for i in 1..count {
        if !line_right(rules, kernels, i) {
            return false;
        }
        let state = word(kernels, 5 * i);
        bounds[state + 1] = (i + 1) as u32;
    }
    true
}

// Condition 7. If it holds, `bounds` is filled: the lines of state S stand from word S up to word S + 1.
pub fn kernel_rules(
    rules: &[u32],
    kernels: &[u32],
    count: u32,
    states: u32,
    bounds: &mut [u32],
) -> bool
    requires { ((b : Book) × RuledIn b rules.now kernels.now count × (states ≡ b.states)) × (states + 1 ≤ length bounds.old) }
    ensures { (b : Book) → RuledIn b rules.now kernels.now count → states ≡ b.states
        → Ruled b result bounds.new }
{
    if count == 0 {
        return false;
    }
    if !start_line(kernels) {
        return false;
    }
    bounds[0] = 0;
    bounds[1] = 1;
    if !lines_right(rules, kernels, count as usize, bounds) {
        return false;
    }
    word(kernels, 5 * (count as usize - 1)) + 1 == states as usize
}
