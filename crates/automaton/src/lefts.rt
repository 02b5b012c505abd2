// The rules by their left sides, one bit each in a 64-bit word. Those with items in each state's closure are told from its words, once for all that go over
// them, and a pass goes from one to the next.
ghost use Rattle.std.specs.Prelude.{◌≡◌, ℕ, ◌+◌, ◌*◌, ◌<◌, ◌≤◌, length, get_or, replicate};
ghost use Rattle.sets.specs.Sets.{bit};
ghost use Rattle.automaton.specs.Lefts.{Lefts, Chosen, Gathered, Least};
ghost use Rattle.automaton.specs.Fronts.{Fronts};
ghost use Rattle.automaton.specs.Members.{NextMember};
ghost use Rattle.std.specs.Iterator.{at_most};

use items::words::{nothing, word};

// By each left side its rules.
fn fill_lefts(rules: &[u32], count: usize, lefts: &mut [u64])
    requires { (10 * count ≤ length rules.now) × (count ≤ 64) × ((P : ℕ) → P < count → get_or rules.now (10 * P) 0 < 32)
        × (lefts.old ≡ replicate 32 0) }
    ensures { Lefts rules.now count lefts.new }
{
    for rule in 0..count {
        let left = word(rules, 10 * rule);
        lefts[left] |= 1u64 << rule;
    }
}

// The rules of a left side that has lookaheads; none without.
fn chosen(set: u32, rules: u64) -> u64
    ensures { Chosen set rules result }
{
    if set == 0 {
        return 0;
    }
    rules
}

// The rules with items in a closure, whose words stand from a place on: gathered with no way out of the loop.
fn entered(closures: &[u32], first: usize, lefts: &[u64]) -> u64
    requires { (first + 32 ≤ length closures.now) × (length lefts.now ≡ 32) }
    ensures { Gathered closures.now first lefts.now 32 result }
{
    let mut rules = 0;
    for i in 0..32 {
        rules |= chosen(closures[first + i], lefts[i]);
    }
    rules
}

// The same, told at once where the closure has nothing.
fn front(closures: &[u32], first: usize, lefts: &[u64]) -> u64
    requires { (first + 32 ≤ length closures.now) × (length lefts.now ≡ 32) }
    ensures { Gathered closures.now first lefts.now 32 result }
{
    if nothing(closures, first) {
        return 0;
    }
    entered(closures, first, lefts)
}

// The rules with items in the closure of each state.
pub fn fill_fronts(rules: &[u32], count: usize, closures: &[u32], states: usize, fronts: &mut [u64])
    requires { (10 * count ≤ length rules.now) × (count ≤ 64) × ((P : ℕ) → P < count → get_or rules.now (10 * P) 0 < 32)
        × (32 * states ≤ length closures.now) × (states ≤ length fronts.old) }
    ensures { Fronts rules.now count closures.now states fronts.new }
{
    let mut lefts = [0u64; 32];
    fill_lefts(rules, count, &mut lefts);
    for state in 0..states {
        fronts[state] = front(closures, 32 * state, &lefts);
    }
}

// The members of a set of numbers below 64, one bit each, from the first to the last.
#[derive(Drop)]
pub struct Members(pub u64);

impl Iterator for Members {
    type Item = usize;

    ghost next_gives = { NextMember (λ s. s.0) };

    ghost remaining = { λ s. at_most s.0 };

    fn next(&mut self) -> Option<usize> {
        if self.0 == 0 {
            return None;
        }
        let first = least(self.0);
        self.0 &= self.0 - 1;
        Some(first as usize)
    }
}

// The first of some rules.
pub fn least(rules: u64) -> u32
    requires { rules ≡ 0 → ⊥ }
    ensures { Least rules result }
{
    u64::trailing_zeros(rules)
}

// The rules behind one of them, counted from the next one on.
pub fn behind(rules: u64, one: u32) -> u64
    requires { one < 64 }
    ensures { (i : ℕ) → bit result i ≡ bit rules (one + 1 + i) }
{
    (rules >> one) >> 1
}
