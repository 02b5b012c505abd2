// The plans of partial states, each worked out when it is first asked for.
// A contract asks that the arrays hold some book, and says its statement of every book that they hold.
ghost use Rattle.std.specs.Prelude.{List, ℕ, ◌<◌};
ghost use Rattle.grammar.specs.Data.Book.{Book};
ghost use Rattle.grammar.specs.Automaton.FirstSets.{sets_of};
ghost use Rattle.grammar.specs.Automaton.ReachSets.{reach_sets};
ghost use Rattle.grammar.specs.Formulas.PartialLaws.{partial_at};
ghost use Rattle.grammar.specs.Formulas.FormulaCheck.{listed};
ghost use Rattle.plans.specs.Lines.{LinesIn};
ghost use Rattle.plans.specs.Plans.{PlansIn, PlanTold};
ghost use Rattle.plans.specs.Programs.{CheckOver, PlansOver, Remembers, MemoryKept};

use super::members::members;
use super::planning::plan;
use super::program::Program;
use super::slots::Memory;

// The plan of a state and a terminal, by the lines of its partial state, in the next slot, which is answered; it is noted, if that is not the spare one.
fn plan_next(
    program: &Program<'_>,
    found: &[u64],
    state: usize,
    terminal: u32,
    slots: &mut [u8],
    lists: &mut [u8],
) -> usize
    requires { ((b : Book) × (masks : List ℕ) × CheckOver b program.now masks
        × LinesIn b (listed (partial_at b (sets_of b.rules) (reach_sets b.rules (sets_of b.rules)) state terminal)) found.now
        × (state < b.states) × PlansIn b slots.old lists.old) × (state < 128) × (terminal < 32) }
    ensures { (b : Book) (masks : List ℕ) → CheckOver b program.now masks
        → LinesIn b (listed (partial_at b (sets_of b.rules) (reach_sets b.rules (sets_of b.rules)) state terminal)) found.now
        → state < b.states → PlansIn b slots.old lists.old → PlanTold b slots.new lists.new state terminal result }
{
    let last = lists.len() - 1;
    let slot = lists[last] as usize + 1;
    let n = plan(program, found, lists, 17 * slot + 1);
    lists[17 * slot] = n as u8;
    if 17 * slot + 17 == last {
        return slot;
    }
    slots[32 * state + terminal as usize] = slot as u8 + 1;
    lists[last] = slot as u8;
    slot
}

// The slot of the plan of a state and a terminal: a byte of the slots is one more than it, or 0 where there is no plan yet, and byte 17 * slot of the lists is
// the number of its lines, which follow. Most partial states have no item with a definition; their plans have no lines, and stand in slot 0.
pub fn planned(program: &Program<'_>, state: usize, terminal: u32, memory: &mut Memory<'_>) -> usize
    requires { ((b : Book) × PlansOver b program.now × (state < b.states) × Remembers b memory.old) × (terminal < 32) }
    ensures plan { (b : Book) → PlansOver b program.now → state < b.states → Remembers b memory.old
        → PlanTold b memory.new.slots.now memory.new.lists.now state terminal result }
    ensures kept { MemoryKept memory.old memory.new }
{
    let place = 32 * state + terminal as usize;
    if let Some(slot) = memory.slots[place].checked_sub(1) {
        return slot as usize;
    }
    let mut found = [0u64; 2];
    members(program, state, terminal, &mut found);
    if found[0] | found[1] == 0 {
        memory.slots[place] = 1;
        return 0;
    }
    plan_next(program, &found, state, terminal, memory.slots, memory.lists)
}
