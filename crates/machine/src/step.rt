// One step of the stack evaluator.
// A contract asks that the arrays hold some book and a list of its tokens, and says its statement of all that they hold.
ghost use Rattle.std.specs.Prelude.{◌≡◌, List, length, get_or};
ghost use Rattle.grammar.specs.Limits.{PAGE_WORDS};
ghost use Rattle.grammar.specs.Data.Book.{Book};
ghost use Rattle.grammar.specs.Evaluator.Tree.{Token};
ghost use Rattle.grammar.specs.Evaluator.Machine.{Config};
ghost use Rattle.plans.specs.Programs.{MemoryKept};
ghost use Rattle.machine.specs.Programs.{RunOver, MovesOver, PoisedOver, ToldOver, UnderwayOver, SteppedOver};
ghost use Rattle.machine.specs.Running.{Facing, Names};
ghost use Rattle.stack.specs.declared.action.Action.TheVariants.{Due};
ghost use Rattle.stack.specs.Programs.{RoomOver};
ghost use Rattle.stack.specs.Standing.{Message};

use super::reduce::reduce;
use super::setting::set_top;
use super::shift::shift;
use book::refusal::Refusal;
use items::words::word;
use plans::program::Program;
use plans::slots::Memory;
use stack::action::{Action, Move, action_of};
use stack::stacks::Stacks;
use stack::top::Top;

// A number of the tokens; after the last, 0.
fn number(tokens: &[u32], i: usize) -> u32
    ensures { result ≡ get_or tokens.now i 0 }
{
    tokens.get(i).copied().unwrap_or(0)
}

// The move that is due, with the top cell set. An accept leaves no new top.
pub fn advance(
    top: Top,
    state: usize,
    kind: u32,
    value: u32,
    due: Move,
    program: &Program<'_>,
    stacks: &mut Stacks,
    rows: &mut [u32],
) -> Result<Option<Top>, Refusal>
    requires room { RoomOver stacks.old rows.old }
    requires moves_in { (b : Book) × (ks : List Token) × (c : Config) × MovesOver b program.now × PoisedOver b ks c stacks.old rows.old top
        × Facing b c state kind value × Names b c (Due due) }
    ensures told { (b : Book) (ks : List Token) (c : Config) → MovesOver b program.now → PoisedOver b ks c stacks.old rows.old top
        → Facing b c state kind value → Names b c (Due due)
        → ToldOver b ks c stacks.new rows.new result }
    ensures cells { stacks.new.cells ≡ stacks.old.cells }
{
    match due {
        Move::Shift => Ok(Some(shift(
            top,
            state,
            kind,
            value,
            program.table,
            &mut stacks.states,
            &mut stacks.records,
            &mut stacks.starts,
            rows,
        )?)),
        Move::Reduce(rule) => Ok(Some(reduce(top, rule, program, stacks, rows)?)),
        Move::Accept => Ok(None),
    }
}

// One move: "find the action. None: 15." For any other the top cell is set and the move is made; an accept leaves the cell, and a reduce of a rule that is
// not empty pops it.
pub fn step(
    top: Top,
    program: &Program<'_>,
    tokens: &[u32],
    memory: &mut Memory<'_>,
    stacks: &mut Stacks,
    rows: &mut [u32],
) -> Result<Option<Top>, Refusal>
    requires rows_long { length rows.old ≡ PAGE_WORDS }
    requires run_in { (b : Book) × (ks : List Token) × RunOver b ks program.now tokens.now × Message b ks
        × UnderwayOver b ks stacks.old rows.old memory.old top }
    ensures stepped { (b : Book) (ks : List Token) → RunOver b ks program.now tokens.now → Message b ks
        → UnderwayOver b ks stacks.old rows.old memory.old top
        → SteppedOver b ks top stacks.new rows.new memory.new result }
    ensures kept { MemoryKept memory.old memory.new }
{
    let depth = top.depth;
    let at = 2 * top.position;
    let state = word(&stacks.states, depth);
    let kind = number(tokens, at);
    let action = action_of(program.actions[32 * state + kind as usize]);
    let Action::Due(due) = action else {
        return Err(Refusal::NoMessage);
    };
    set_top(
        program,
        state,
        kind,
        depth,
        memory,
        &mut stacks.cells,
        &stacks.records,
    );
    let value = number(tokens, at + 1);
    advance(top, state, kind, value, due, program, stacks, rows)
}
