// The top cell of a move.
// A contract asks that the arrays hold some book, and says its statement of every book that they hold.
ghost use Rattle.std.specs.Prelude.{List, ℕ, ◌*◌, ◌<◌};
ghost use Rattle.grammar.specs.Data.Book.{Book};
ghost use Rattle.grammar.specs.Evaluator.Machine.{Frame};
ghost use Rattle.plans.specs.Programs.{PlansOver, Remembers, MemoryKept};
ghost use Rattle.cells.specs.Leaves.{Room};
ghost use Rattle.machine.specs.Setting.{TopAsked, TopSet};

use cells::cells::set_cell;
use plans::memory::planned;
use plans::program::Program;
use plans::slots::Memory;

// Sets the cell over `height` symbols by the plan of a state and a terminal.
pub fn set_top(
    program: &Program<'_>,
    state: usize,
    kind: u32,
    height: usize,
    memory: &mut Memory<'_>,
    cells: &mut [u32],
    records: &[u32],
)
    requires room { Room height cells.old records.now × (kind < 32) }
    requires by_index { (b : Book) × (states : List ℕ) × (starts : List ℕ) × (st : List Frame)
        × TopAsked b program.now.definitions.now cells.old records.now state height states starts st × (state < b.states)
        × PlansOver b program.now × Remembers b memory.old }
    ensures cell { (b : Book) (states starts : List ℕ) (st : List Frame)
        → TopAsked b program.now.definitions.now cells.old records.now state height states starts st → state < b.states
        → PlansOver b program.now → Remembers b memory.old
        → TopSet b memory.new.slots.now memory.new.lists.now cells.old cells.new records.now state kind states starts st }
    ensures kept { MemoryKept memory.old memory.new }
{
    let slot = planned(program, state, kind, memory);
    // The code needs but a `&`. After one, the proof knows no more of a slice in a struct that is lent than its length.
    let lists = &mut *memory.lists;
    let n = lists[17 * slot] as usize;
    let from = 17 * slot + 1;
    set_cell(program.definitions, lists, from, n, height, cells, records);
}
