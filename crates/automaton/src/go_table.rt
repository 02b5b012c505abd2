// The go lines as a table by state and symbol.
ghost use Rattle.grammar.specs.Data.Book.{Book};
ghost use Rattle.items.specs.Arrays.{GoTableIn};
ghost use Rattle.automaton.specs.GoTable.{GoLinesIn, Unset};

use items::words::word;

// The target of each state and symbol, 255 where there is no go line. The table is lent with 255s. The lines are put in from the last to the first, so
// that of two lines of one state and symbol the first would stand.
pub fn go_table(goes: &[u32], count: u32, states: u32, table: &mut [u8])
    requires { Unset states table.old × ((b : Book) × GoLinesIn b goes.now count states) }
    ensures { (b : Book) → GoLinesIn b goes.now count states → GoTableIn b table.new }
{
    for i in (0..count as usize).rev() {
        let place = 64 * word(goes, 3 * i) + word(goes, 3 * i + 1);
        table[place] = word(goes, 3 * i + 2) as u8;
    }
}
