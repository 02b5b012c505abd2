// The states to whose items each inherited attribute is given by one definition at most, copies left out: each has one formula there, and none has to
// be worked out. `given` and `leaders` have what definitions give, as `givers` says.
ghost use Rattle.std.specs.Prelude.{◌≡◌, true, List, ℕ, ◌+◌, ◌*◌, ◌≤◌, ◌<◌, length, get_or, IfSome};
ghost use Rattle.std.specs.Int.Bits.{bit_and};
ghost use Rattle.grammar.specs.Data.Book.{Book};
ghost use Rattle.grammar.specs.Format.Ordered.{Ordered};
ghost use Rattle.grammar.specs.Automaton.FirstSets.{sets_of};
ghost use Rattle.grammar.specs.Formulas.FormulaCheck as grammar;
ghost use Rattle.book.specs.Held.{RulesIn};
ghost use Rattle.automaton.specs.StatesIn.{StatesIn, ItemsIn};
ghost use Rattle.automaton.specs.Fronts.{FrontsIn};
ghost use Rattle.agreement.specs.Apart.{Apart};
ghost use Rattle.agreement.specs.Given.{GivenIn};
ghost use Rattle.agreement.specs.SingleState.{Single, line_word, front_word};
ghost use Rattle.agreement.specs.OneFormula.{FrontsHeld, formulas_right};

use automaton::lefts::{behind, least};
use items::words::word;

// The attributes given at the item of kernel line i.
fn line_gives(kernels: &[u32], i: usize, given: &[u32]) -> u32
    requires { (b : Book) × (rules : List ℕ) × (bounds : List ℕ) × StatesIn b rules kernels.now bounds × (i < length b.kernels)
        × (9 * length b.rules ≤ length given.now) }
    ensures { result ≡ line_word kernels.now given.now i }
{
    let rule = word(kernels, 5 * i + 1);
    let dot = word(kernels, 5 * i + 2);
    given[9 * rule + dot]
}

// True only if the items of the kernel lines from `first` up to `last` are given different attributes, and none of `base`.
fn lines_apart(kernels: &[u32], first: usize, last: usize, base: u32, given: &[u32]) -> bool
    requires { ((b : Book) × (rules : List ℕ) × (bounds : List ℕ) × StatesIn b rules kernels.now bounds × (last ≤ length b.kernels)
        × (9 * length b.rules ≤ length given.now)) × (first ≤ last) }
    ensures { result ≡ true → ((all : ℕ) × Apart (line_word kernels.now given.now) base first last all) }
{
    let mut bits = base;
    for i in first..last {
        let more = line_gives(kernels, i, given);
        if bits & more != 0 {
            return false;
        }
        bits |= more;
    }
    true
}

// The attributes that are given at the fronts of a state, if each is given once there. It goes over the rules of the state's closure at whose front
// something is given, from each to the next one, so they are no range; `fronts` has the rules of each state's closure.
fn fronts_apart(fronts: &[u64], state: usize, given: &[u32], leaders: u64) -> Option<u32>
    requires { (b : Book) × (rules : List ℕ) × (closures : List ℕ) × RulesIn b.rules rules × FrontsIn b rules closures fronts.now
        × (state < b.states) × (9 * length b.rules ≤ length given.now) }
    ensures { IfSome result (Apart (front_word (bit_and (get_or fronts.now state 0) leaders) given.now) 0 0 64) }
{
    let mut rest = fronts[state] & leaders;
    let mut bits = 0u32;
    let mut rule = 0;
    while rest != 0 {
        let gap = least(rest);
        rule += gap as usize;
        let here = given[9 * rule];
        if bits & here != 0 {
            return None;
        }
        bits |= here;
        rest = behind(rest, gap);
        rule += 1;
    }
    Some(bits)
}

// True only if each attribute is given to the items of a state by one definition.
pub fn single(
    kernels: &[u32],
    bounds: &[u32],
    fronts: &[u64],
    state: usize,
    given: &[u32],
    leaders: u64,
) -> bool
    requires { (b : Book) × (rules : List ℕ) × (closures : List ℕ) × ItemsIn b (sets_of b.rules) rules kernels.now bounds.now closures
        × FrontsIn b rules closures fronts.now × (state < b.states) × (9 * length b.rules ≤ length given.now) }
    ensures { result ≡ true → (b : Book) (rules closures : List ℕ) → Ordered b
        → ItemsIn b (sets_of b.rules) rules kernels.now bounds.now closures → FrontsIn b rules closures fronts.now
        → GivenIn b (grammar.definitions b) given.now leaders → state < b.states → Single b state }
{
    let Some(fronted) = fronts_apart(fronts, state, given, leaders) else {
        return false;
    };
    let first = word(bounds, state);
    let last = word(bounds, state + 1);
    lines_apart(kernels, first, last, fronted, given)
}

// True only if that is so in all states.
fn states_single(
    kernels: &[u32],
    bounds: &[u32],
    fronts: &[u64],
    states: usize,
    given: &[u32],
    leaders: u64,
) -> bool
    requires { (b : Book) × (rules : List ℕ) × (closures : List ℕ) × ItemsIn b (sets_of b.rules) rules kernels.now bounds.now closures
        × FrontsIn b rules closures fronts.now × (states ≡ b.states) × (9 * length b.rules ≤ length given.now) }
    ensures { result ≡ true → (b : Book) (rules closures : List ℕ) → Ordered b
        → ItemsIn b (sets_of b.rules) rules kernels.now bounds.now closures → FrontsIn b rules closures fronts.now
        → GivenIn b (grammar.definitions b) given.now leaders → states ≡ b.states → (S : ℕ) → S < b.states → Single b S }
{
    for state in 0..states {
        if !single(kernels, bounds, fronts, state, given, leaders) {
            return false;
        }
    }
    true
}

// True only if that is so in all states of a book: then each attribute has one formula in every partial state (10).
pub fn all_single(
    kernels: &[u32],
    bounds: &[u32],
    fronts: &[u64],
    states: u32,
    given: &[u32],
    leaders: u64,
) -> bool
    requires { (b : Book) × (rules : List ℕ) × (count : ℕ) × (definitions : List ℕ) × (lines : ℕ) × (closures : List ℕ) × (nullables : List ℕ)
        × (begins : List ℕ) × (reaches : List ℕ) × (terminals : ℕ)
        × FrontsHeld b rules count definitions lines kernels.now bounds.now closures fronts.now nullables begins reaches terminals states
        × GivenIn b (grammar.definitions b) given.now leaders }
    ensures { result ≡ true → (b : Book) (rules : List ℕ) (count : ℕ) (definitions : List ℕ) (lines : ℕ)
        (closures nullables begins reaches : List ℕ) (terminals : ℕ)
        → FrontsHeld b rules count definitions lines kernels.now bounds.now closures fronts.now nullables begins reaches
        terminals states → GivenIn b (grammar.definitions b) given.now leaders → true ≡ formulas_right b }
{
    states_single(kernels, bounds, fronts, states as usize, given, leaders)
}
