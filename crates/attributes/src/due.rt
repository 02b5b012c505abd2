// When a definition may give its formula.
// The contract asks that the arrays hold some book, and says its equation of every book that they hold.
ghost use Rattle.std.specs.Prelude.{◌≡◌, List, ℕ, ◌<◌};
ghost use Rattle.grammar.specs.Data.Book.{Book};
ghost use Rattle.grammar.specs.Formulas.Slots.{Slots, ready};
ghost use Rattle.grammar.specs.Formulas.FormulaCheck as grammar;
ghost use Rattle.grammar.specs.Formulas.FormulaCheck.{dot_of, line_at};
ghost use Rattle.attributes.specs.Owned.{KnownIn};
ghost use Rattle.attributes.specs.Checking.{member_in, CheckHeld};

use items::words::word;

// Whether the definition in a line does not wait for its left side: that stands behind the dot of its item, or has all that it owns.
pub fn ready(definitions: &[u32], line: usize, rules: &[u32], owned: &[u32], known: u32) -> bool
    requires { (b : Book) × (slots : Slots) × (masks : List ℕ) × CheckHeld b definitions.now rules.now owned.now masks
        × (line < grammar.definitions b) × KnownIn slots known }
    ensures { (b : Book) (slots : Slots) (masks : List ℕ) → CheckHeld b definitions.now rules.now owned.now masks
        → line < grammar.definitions b → KnownIn slots known → result ≡ ready b slots (line_at b line).rule (dot_of (line_at b line)) }
{
    if word(definitions, 49 * line + 1) != 1 {
        return true;
    }
    let rule = word(definitions, 49 * line);
    let left = word(rules, 10 * rule);
    sets::subset(owned[left], known)
}

// Whether the definition in a line may give its formula: its item has a terminal that is wanted, and does not wait for its left side.
pub fn due(
    definitions: &[u32],
    line: usize,
    wanted: u32,
    masks: &[u32],
    rules: &[u32],
    owned: &[u32],
    known: u32,
) -> bool
    requires { (b : Book) × (slots : Slots) × CheckHeld b definitions.now rules.now owned.now masks.now × (line < grammar.definitions b)
        × KnownIn slots known }
    ensures { (b : Book) (slots : Slots) → CheckHeld b definitions.now rules.now owned.now masks.now
        → line < grammar.definitions b → KnownIn slots known
        → result ≡ grammar.due b (member_in masks.now wanted) slots (line_at b line) }
{
    let rule = word(definitions, 49 * line);
    let position = word(definitions, 49 * line + 1);
    if !sets::meets(masks[9 * rule + position - 1], wanted) {
        return false;
    }
    ready(definitions, line, rules, owned, known)
}
