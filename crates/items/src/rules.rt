// The words of a rule in the array of rules: its left side, the number of its right symbols, its right symbols.
ghost use Rattle.std.specs.Prelude.{◌≡◌, ◌<◌};
ghost use Rattle.items.specs.GrammarOf.{left_word, size_word, symbol_word, RuleFits};

pub fn left(rules: &[u32], p: usize) -> u32
    requires { RuleFits rules.now p }
    ensures { result ≡ left_word rules.now p }
{
    rules[10 * p]
}

pub fn size(rules: &[u32], p: usize) -> usize
    requires { RuleFits rules.now p }
    ensures { result ≡ size_word rules.now p }
{
    rules[10 * p + 1] as usize
}

pub fn symbol(rules: &[u32], p: usize, d: usize) -> u32
    requires { RuleFits rules.now p × (d < size_word rules.now p) }
    ensures { result ≡ symbol_word rules.now p d }
{
    rules[10 * p + 2 + d]
}
