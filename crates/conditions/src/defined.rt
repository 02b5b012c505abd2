// Condition 6: in every rule each inherited attribute of a right nonterminal, and each synthesized one of the left side, has a definition.
// The book is within its limits, what it mentions is declared, and every definition is of an attribute of its symbol; no line stands twice.
// So none is missing exactly if there are as many as are due.
ghost use Rattle.std.specs.Prelude.{◌≡◌, replicate};
ghost use Rattle.grammar.specs.Conditions.Tests.{defined};
ghost use Rattle.conditions.specs.Answers.{Some, Answers};
ghost use Rattle.conditions.specs.Asked.{OwnedBook};
ghost use Rattle.conditions.specs.Sums.{sum};
ghost use Rattle.conditions.specs.Due.{LowOwners, Counts, LowCounts, RightLow, LowRules, right_due, left_due};

use book::Book;

// Counts the attributes of each owner, by the word of its symbol.
fn count_owned(owners: &[u32], n: usize, counts: &mut [u8])
    requires { LowOwners owners.now n × (counts.old ≡ replicate 64 0) }
    ensures { Counts owners.now n counts.new }
{
    for k in 0..n {
        counts[32 + owners[k] as usize] += 1;
    }
}

// How many definitions are due at the right symbols of rule p.
fn right_due(rules: &[u32], counts: &[u8], p: usize) -> usize
    requires { RightLow rules.now p × LowCounts counts.now }
    ensures { result ≡ right_due rules.now counts.now p }
{
    let size = rules[10 * p + 1] as usize;
    let mut n = 0;
    for d in 0..size {
        n += counts[rules[10 * p + 2 + d] as usize] as usize;
    }
    n
}

// How many are due at the right symbols of all rules.
fn rights_due(rules: &[u32], counts: &[u8], count: usize) -> usize
    requires { LowRules rules.now count × LowCounts counts.now }
    ensures { result ≡ sum count (right_due rules.now counts.now) }
{
    let mut n = 0;
    for p in 0..count {
        n += right_due(rules, counts, p);
    }
    n
}

// How many are due at their left sides: a rule has one, and no list of them to go over.
fn lefts_due(rules: &[u32], counts: &[u8], count: usize) -> usize
    requires { LowRules rules.now count × LowCounts counts.now }
    ensures { result ≡ sum count (left_due rules.now counts.now) }
{
    let mut n = 0;
    for p in 0..count {
        n += counts[32 + rules[10 * p] as usize] as usize;
    }
    n
}

// Whether no definition is missing.
pub fn defined(book: Book, inherited: &[u32], synthesized: &[u32], rules: &[u32]) -> bool
    requires { Some (OwnedBook book inherited.now synthesized.now rules.now) }
    ensures { Answers (OwnedBook book inherited.now synthesized.now rules.now) defined result }
{
    let count = book.rules as usize;
    let mut down = [0u8; 64];
    count_owned(inherited, book.inherited as usize, &mut down);
    let mut up = [0u8; 64];
    count_owned(synthesized, book.synthesized as usize, &mut up);
    let right = rights_due(rules, &down, count) == book.inherited_definitions as usize;
    let left = lefts_due(rules, &up, count) == book.synthesized_definitions as usize;
    right & left
}
