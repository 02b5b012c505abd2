// A reduce, where the top cell is set: "work out the left side's synthesized values, pop, push it, follow go".
// The contract asks that the arrays hold some book and a configuration of its machine, and says its statement of all that they hold.
ghost use Rattle.std.specs.Prelude.{◌≡◌, List, ◌<◌, length};
ghost use Rattle.grammar.specs.Limits.{PAGE_WORDS};
ghost use Rattle.grammar.specs.Data.Book.{Book as Lines};
ghost use Rattle.grammar.specs.Evaluator.Tree.{Token};
ghost use Rattle.grammar.specs.Evaluator.Machine.{Config};
ghost use Rattle.stack.specs.Programs.{LeftAskedOver, GoesOver};
ghost use Rattle.stack.specs.Pushes.{StartOf};

use super::pushes::push_node;
use super::records::node_values;
use super::stacks::Stacks;
use super::top::Top;
use book::Book;
use items::words::word;
use plans::program::Program;

// Where a node of `size` children starts that stands over `below` symbols.
fn start_of(starts: &[u32], below: usize, size: usize, position: u32) -> u32
    requires { below < length starts.now }
    ensures { StartOf starts.now below size position result }
{
    if size == 0 {
        return position;
    }
    starts[below]
}

// The left side of a rule, in the place of its right side.
pub fn put_left(
    top: Top,
    rule: u32,
    program: &Program<'_>,
    stacks: &mut Stacks,
    rows: &mut [u32],
) -> Top
    requires rows_long { length rows.old ≡ PAGE_WORDS }
    requires left_asked { (b : Lines) × (ks : List Token) × (c : Config) × LeftAskedOver b ks c program.now stacks.old rows.old top rule }
    ensures goes { (b : Lines) (ks : List Token) (c : Config) → LeftAskedOver b ks c program.now stacks.old rows.old top rule
        → GoesOver b ks c stacks.new rows.new result }
    ensures cells { stacks.new.cells ≡ stacks.old.cells }
{
    let place = 10 * rule as usize;
    let owner = word(program.rules, place);
    let size = word(program.rules, place + 1);
    let below = top.depth - size;
    let mut values = [0u32; Book::MAX_OWNED as usize];
    node_values(
        program.definitions,
        program.spans,
        rule as usize,
        size as u32,
        top.depth,
        &stacks.cells,
        &stacks.records,
        &mut values,
    );
    let start = start_of(&stacks.starts, below, size, top.position as u32);
    let target = program.table[64 * word(&stacks.states, below) + (32 + owner)] as u32;
    push_node(
        top,
        target,
        rule,
        size,
        owner,
        start,
        program.definitions,
        program.spans,
        &values,
        program.down,
        &stacks.cells,
        program.up,
        &mut stacks.states,
        &mut stacks.records,
        &mut stacks.starts,
        rows,
    )
}
