// The shift.
// The contract asks that the arrays hold some book and a configuration of its machine, and says its statement of all that they hold.
ghost use Rattle.std.specs.Prelude.{List, ℕ};
ghost use Rattle.grammar.specs.Data.Book.{Book as Lines};
ghost use Rattle.grammar.specs.Evaluator.Tree.{Token};
ghost use Rattle.grammar.specs.Evaluator.Machine.{Config};
ghost use Rattle.stack.specs.Pushes.{Stacks};
ghost use Rattle.stack.specs.Standing.{BookIn};
ghost use Rattle.machine.specs.Moving.{Poised, Moved};
ghost use Rattle.machine.specs.ShiftMove.{Shifts};

use book::Book;
use book::refusal::Refusal;
use stack::pushes::push_token;
use stack::top::Top;

// A shift: "push the token with its value".
pub fn shift(
    top: Top,
    state: usize,
    kind: u32,
    value: u32,
    table: &[u8],
    states: &mut [u32],
    records: &mut [u32],
    starts: &mut [u32],
    rows: &mut [u32],
) -> Result<Top, Refusal>
    requires stacks { Stacks states.old records.old starts.old rows.old }
    requires by_index { (b : Lines) × (ks : List Token) × (c : Config) × (rules definitions cells : List ℕ)
        × BookIn b rules definitions table.now × Poised b ks c states.old cells records.old starts.old rows.old top × Shifts b c state kind value }
    ensures { (b : Lines) (ks : List Token) (c : Config) (rules definitions cells : List ℕ) → BookIn b rules definitions table.now
        → Poised b ks c states.old cells records.old starts.old rows.old top → Shifts b c state kind value
        → Moved b ks c states.new cells records.new starts.new rows.new result }
{
    if top.rows == Book::MAX_ROWS {
        return Err(Refusal::TooMany);
    }
    if top.depth == Book::MAX_STACK {
        return Err(Refusal::TooDeep);
    }
    let target = table[64 * state + kind as usize] as u32;
    Ok(push_token(top, target, kind, value, states, records, starts, rows))
}
