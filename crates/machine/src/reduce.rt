// The reduce. The contract asks that the arrays hold some book and a configuration of its machine, and says its statement of all that they hold.
ghost use Rattle.std.specs.Prelude.{◌≡◌, List};
ghost use Rattle.grammar.specs.Data.Book.{Book as Lines};
ghost use Rattle.grammar.specs.Evaluator.Tree.{Token};
ghost use Rattle.grammar.specs.Evaluator.Machine.{Config};
ghost use Rattle.stack.specs.Programs.{RoomOver, BookOver, LeftOver};
ghost use Rattle.machine.specs.Programs.{PoisedOver, MovedOver};
ghost use Rattle.machine.specs.ReduceMove.{Reduces};

use book::Book;
use book::refusal::Refusal;
use items::words::word;
use plans::program::Program;
use stack::left::put_left;
use stack::stacks::Stacks;
use stack::top::Top;

// The left side of a rule in the place of its right side. Of an empty rule it is one symbol more.
pub fn reduce(
    top: Top,
    rule: u32,
    program: &Program<'_>,
    stacks: &mut Stacks,
    rows: &mut [u32],
) -> Result<Top, Refusal>
    requires room { RoomOver stacks.old rows.old }
    requires book_in { (b : Lines) × (ks : List Token) × (c : Config) × BookOver b program.now × LeftOver b program.now
        × PoisedOver b ks c stacks.old rows.old top × Reduces b c rule }
    ensures moved { (b : Lines) (ks : List Token) (c : Config) → BookOver b program.now → LeftOver b program.now
        → PoisedOver b ks c stacks.old rows.old top → Reduces b c rule
        → MovedOver b ks c stacks.new rows.new result }
    ensures cells { stacks.new.cells ≡ stacks.old.cells }
{
    if top.rows == Book::MAX_ROWS {
        return Err(Refusal::TooMany);
    }
    let below = top.depth - word(program.rules, 10 * rule as usize + 1);
    if below == Book::MAX_STACK {
        return Err(Refusal::TooDeep);
    }
    Ok(put_left(top, rule, program, stacks, rows))
}
