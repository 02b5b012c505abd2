// The closures of all states, 32 words each. The array is lent with zeros and has room for the states; each fills its part.
ghost use Rattle.grammar.specs.Data.Book.{Book as Lines};
ghost use Rattle.grammar.specs.Automaton.FirstSets.{Sets};
ghost use Rattle.items.specs.Arrays.{ClosuresIn};
ghost use Rattle.items.specs.Closures.{StateItemsIn, Blank};
ghost use Rattle.items.specs.Leads.{Leads};

use super::closure::closure;
use super::leads::fill_leads;
use super::words::word;
use book::Book;

// By the rules that lead on.
fn state_closures(
    rules: &[u32],
    count: u32,
    leads: &[u8],
    kernels: &[u32],
    bounds: &[u32],
    states: u32,
    nullables: &[u32],
    begins: &[u32],
    closures: &mut [u32],
)
    requires { ((b : Lines) × (F : Sets)
        × StateItemsIn b F rules.now count kernels.now bounds.now states nullables.now begins.now)
        × Leads rules.now count leads.now × Blank states closures.old }
    ensures { (b : Lines) (F : Sets)
        → StateItemsIn b F rules.now count kernels.now bounds.now states nullables.now begins.now
        → ClosuresIn b F closures.new }
{
    for s in 0..states as usize {
        let from = word(bounds, s);
        let to = word(bounds, s + 1);
        let at = 32 * s;
        let end = at + 32;
        closure(
            rules,
            count as usize,
            leads,
            kernels,
            from,
            to,
            nullables,
            begins,
            &mut closures[at..end],
        );
    }
}

pub fn fill_closures(
    rules: &[u32],
    count: u32,
    kernels: &[u32],
    bounds: &[u32],
    states: u32,
    nullables: &[u32],
    begins: &[u32],
    closures: &mut [u32],
)
    requires { ((b : Lines) × (F : Sets)
        × StateItemsIn b F rules.now count kernels.now bounds.now states nullables.now begins.now)
        × Blank states closures.old }
    ensures { (b : Lines) (F : Sets)
        → StateItemsIn b F rules.now count kernels.now bounds.now states nullables.now begins.now
        → ClosuresIn b F closures.new }
{
    let mut leads = [0u8; Book::MAX_RULES as usize + 1];
    fill_leads(rules, count as usize, &mut leads);
    state_closures(
        rules, count, &leads, kernels, bounds, states, nullables, begins, closures,
    );
}
