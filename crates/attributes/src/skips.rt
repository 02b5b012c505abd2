// The definitions whose items have a terminal that is wanted: what a pass visits.
ghost use Rattle.std.specs.Prelude.{◌≡◌, List, ℕ, ◌+◌, ◌<◌, length};
ghost use Rattle.grammar.specs.Data.Book.{Book};
ghost use Rattle.grammar.specs.Formulas.FormulaCheck as grammar;
ghost use Rattle.attributes.specs.Checking.{CheckHeld};
ghost use Rattle.attributes.specs.Skips.{Skip, Skips};

use items::words::word;

// A line, if its item has a terminal that is wanted, else the next one that is known.
fn nearest(definitions: &[u32], line: usize, masks: &[u32], wanted: u32, next: usize) -> usize
    requires { (b : Book) × (rules : List ℕ) × (owned : List ℕ) × CheckHeld b definitions.now rules owned masks.now × (line < grammar.definitions b) }
    ensures { (lines : ℕ) → line < lines → Skip definitions.now masks.now wanted lines (line + 1) next
        → Skip definitions.now masks.now wanted lines line result }
{
    let rule = word(definitions, 49 * line);
    let position = word(definitions, 49 * line + 1);
    if !sets::meets(masks[9 * rule + position - 1], wanted) {
        return next;
    }
    line
}

// For each line the first from there on whose item has a terminal that is wanted, and `lines` where there is none.
pub fn skip(definitions: &[u32], lines: usize, masks: &[u32], wanted: u32, skips: &mut [u8])
    requires { ((b : Book) × (rules : List ℕ) × (owned : List ℕ) × CheckHeld b definitions.now rules owned masks.now × (lines ≡ grammar.definitions b))
        × (length skips.old ≡ 129) }
    ensures { Skips definitions.now masks.now wanted lines skips.new }
{
    let mut next = lines;
    skips[lines] = next as u8;
    for i in (0..lines).rev() {
        next = nearest(definitions, i, masks, wanted, next);
        skips[i] = next as u8;
    }
}
