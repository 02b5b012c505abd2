// The run of the stack evaluator.
// A contract asks that the arrays hold some book and a list of its tokens, and says its statement of all that they hold.
ghost use Rattle.std.specs.Prelude.{◌≡◌, List, length};
ghost use Rattle.grammar.specs.Limits.{PAGE_WORDS};
ghost use Rattle.grammar.specs.Data.Book.{Book};
ghost use Rattle.grammar.specs.Evaluator.Tree.{Token};
ghost use Rattle.grammar.specs.Evaluator.Machine.{evaluate};
ghost use Rattle.grammar.specs.Engine.{tables_of};
ghost use Rattle.plans.specs.Programs.{Remembers, MemoryKept};
ghost use Rattle.machine.specs.Programs.{RunOver};
ghost use Rattle.machine.specs.RunningLaws.{Answered};
ghost use Rattle.stack.specs.Standing.{Message};

use super::step::step;
use book::refusal::Refusal;
use plans::program::Program;
use plans::slots::Memory;
use stack::stacks::Stacks;
use stack::top::Top;

// The run from the start: the moves until the message is accepted or refused, and then the number of its rows. Behind these, and on a refusal everywhere, the
// words are left for the caller to clear.
pub fn run(
    program: &Program<'_>,
    tokens: &[u32],
    memory: &mut Memory<'_>,
    stacks: &mut Stacks,
    rows: &mut [u32],
) -> Result<u32, Refusal>
    requires rows_long { length rows.old ≡ PAGE_WORDS }
    requires run_in { (b : Book) × (ks : List Token) × RunOver b ks program.now tokens.now × Message b ks × Remembers b memory.old }
    ensures answered { (b : Book) (ks : List Token) → RunOver b ks program.now tokens.now → Message b ks → Remembers b memory.old
        → Answered (evaluate b (tables_of b) ks) result rows.new }
    ensures kept { MemoryKept memory.old memory.new }
{
    stacks.states[0] = 0;
    let mut top = Top::empty();
    while let Some(next) = step(top, program, tokens, memory, stacks, rows)? {
        top = next;
    }
    Ok(top.rows as u32)
}
