// Terminals whose partial states have the same items, as far as the inherited attributes' definitions ask: one check serves them all.
ghost use Rattle.std.specs.Prelude.{◌≡◌, true, false, List, ℕ, ◌<◌};
ghost use Rattle.sets.specs.Sets.{bit};
ghost use Rattle.grammar.specs.Data.Book.{Book};
ghost use Rattle.grammar.specs.Formulas.FormulaCheck as grammar;
ghost use Rattle.grammar.specs.Formulas.FormulaCheckAll.{SameItems};
ghost use Rattle.attributes.specs.Checking.{member_of, CheckHeld};
ghost use Rattle.agreement.specs.Alike.{Agree};

use items::words::word;

// The terminals that the item of the definition in a line tells from a terminal.
fn item_apart(definitions: &[u32], line: usize, terminal: u32, masks: &[u32]) -> u32
    requires { ((b : Book) × (rules : List ℕ) × (owned : List ℕ) × CheckHeld b definitions.now rules owned masks.now
        × (line < grammar.definitions b)) × (terminal < 32) }
    ensures { (b : Book) (rules owned : List ℕ) → CheckHeld b definitions.now rules owned masks.now
        → line < grammar.definitions b → (c : ℕ) → c < 32 → bit result c ≡ false → Agree b masks.now terminal c line }
{
    let rule = word(definitions, 49 * line);
    let position = word(definitions, 49 * line + 1);
    let set = masks[9 * rule + position - 1];
    if sets::has(set, terminal) {
        return sets::others(set);
    }
    set
}

// The terminals that no definition's item tells from a terminal.
pub fn alike(definitions: &[u32], lines: usize, terminal: u32, masks: &[u32]) -> u32
    requires { ((b : Book) × (rules : List ℕ) × (owned : List ℕ) × CheckHeld b definitions.now rules owned masks.now
        × (lines ≡ grammar.definitions b)) × (terminal < 32) }
    ensures { (b : Book) (rules owned : List ℕ) → CheckHeld b definitions.now rules owned masks.now
        → lines ≡ grammar.definitions b → (c : ℕ) → c < 32 → bit result c ≡ true
        → SameItems b (member_of masks.now terminal) (member_of masks.now c) }
{
    let mut apart = 0u32;
    for i in 0..lines {
        let more = item_apart(definitions, i, terminal, masks);
        apart = sets::union(apart, more);
    }
    sets::others(apart)
}
