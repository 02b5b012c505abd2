// Sets of numbers below 32 as the bits of a `u32`. Their meaning is `bit`, of specs/Sets.antt; elsewhere a set is compared with the empty one, or the bits of
// many are gathered to tell that all are empty.
#![tactic(auto)]

ghost use Rattle.std.specs.Prelude.{◌≡◌, not, ℕ, ◌<◌};
ghost use Rattle.sets.specs.Sets.{bit, empty, single, union, with, subset, meets};

// The set that holds every number below 32.
pub const ALL: u32 = u32::MAX;

// The set that holds nothing.
pub fn empty() -> u32
    ensures { result ≡ empty }
{
    0
}

// The set that holds `i` alone.
pub fn single(i: u32) -> u32
    requires { i < 32 }
    ensures { result ≡ single i }
{
    1u32 << i
}

// Whether `i` is in `s`.
pub fn has(s: u32, i: u32) -> bool
    requires { i < 32 }
    ensures { result ≡ bit s i }
{
    (s >> i) & 1 == 1
}

// `s` and `i` besides.
pub fn with(s: u32, i: u32) -> u32
    requires { i < 32 }
    ensures { result ≡ with s i }
{
    union(s, single(i))
}

// What is in `a` or in `b`.
pub fn union(a: u32, b: u32) -> u32
    ensures { result ≡ union a b }
{
    a | b
}

// The numbers below 32 that are not in `s`.
pub fn others(s: u32) -> u32
    ensures { (i : ℕ) → i < 32 → bit result i ≡ not (bit s i) }
{
    !s
}

// Whether all that is in `a` is in `b`.
pub fn subset(a: u32, b: u32) -> bool
    ensures { result ≡ subset a b }
{
    a & b == a
}

// Whether something is both in `a` and in `b`.
pub fn meets(a: u32, b: u32) -> bool
    ensures { result ≡ meets a b }
{
    a & b != 0
}
