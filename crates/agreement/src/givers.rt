// The attributes that definitions give, but for those that copy an attribute to itself at the front of their rule: these give what stands already.
// Word 9 * P + D of `given` is the set of the attributes that are given at the item (P, D); `leaders` has the rules at whose front some are given.
ghost use Rattle.std.specs.Prelude.{◌≡◌, true, List, ℕ, ◌+◌, ◌*◌, ◌<◌, ◌≤◌, length};
ghost use Rattle.grammar.specs.Data.Book.{Book};
ghost use Rattle.grammar.specs.Formulas.FormulaCheck as grammar;
ghost use Rattle.book.specs.Held.{DefinitionsIn};
ghost use Rattle.attributes.specs.Checking.{CheckHeld};
ghost use Rattle.agreement.specs.Givers.{Copies};
ghost use Rattle.agreement.specs.Given.{GivenIn};
ghost use Rattle.attributes.specs.FormulasHeld.{FormulasHeld};

use items::words::word;

// True only if the definition in a line gives the first symbol of its rule just the attribute that the left side has: its one node is own of it.
fn copies(definitions: &[u32], line: usize) -> bool
    requires { (b : Book) × DefinitionsIn b.inherited_definitions b.synthesized_definitions definitions.now × (line < grammar.definitions b) }
    ensures { result ≡ true → (b : Book) → DefinitionsIn b.inherited_definitions b.synthesized_definitions definitions.now
        → line < grammar.definitions b → Copies (grammar.line_at b line) }
{
    (definitions[49 * line + 1] == 1)
        & (definitions[49 * line + 3] == 1)
        & (definitions[49 * line + 4] == 1)
        & (definitions[49 * line + 5] == definitions[49 * line + 2])
}

// The attribute of the definition in a line is given; the leaders with its rule besides, if that is at the front.
fn give(definitions: &[u32], line: usize, leaders: u64, given: &mut [u32]) -> u64
    requires { (b : Book) × (rules : List ℕ) × (owned : List ℕ) × (masks : List ℕ) × CheckHeld b definitions.now rules owned masks
        × (line < grammar.definitions b) × (9 * length b.rules ≤ length given.old) }
    ensures { (b : Book) (rules owned masks : List ℕ) → CheckHeld b definitions.now rules owned masks
        → line < grammar.definitions b → GivenIn b line given.old leaders → GivenIn b (line + 1) given.new result }
{
    let rule = word(definitions, 49 * line);
    let position = word(definitions, 49 * line + 1);
    let attribute = definitions[49 * line + 2];
    let item = 9 * rule + position - 1;
    given[item] = sets::with(given[item], attribute);
    if position != 1 {
        return leaders;
    }
    leaders | (1u64 << rule)
}

// The same, but for a copy.
fn mark_giver(definitions: &[u32], line: usize, leaders: u64, given: &mut [u32]) -> u64
    requires { (b : Book) × (rules : List ℕ) × (owned : List ℕ) × (masks : List ℕ) × CheckHeld b definitions.now rules owned masks
        × (line < grammar.definitions b) × (9 * length b.rules ≤ length given.old) }
    ensures { (b : Book) (rules owned masks : List ℕ) → CheckHeld b definitions.now rules owned masks
        → line < grammar.definitions b → GivenIn b line given.old leaders → GivenIn b (line + 1) given.new result }
{
    if copies(definitions, line) {
        return leaders;
    }
    give(definitions, line, leaders, given)
}

// What all definitions give, from words that are 0; the leaders.
fn mark_givers(definitions: &[u32], lines: usize, given: &mut [u32]) -> u64
    requires { (b : Book) × (rules : List ℕ) × (owned : List ℕ) × (masks : List ℕ) × CheckHeld b definitions.now rules owned masks
        × (lines ≡ grammar.definitions b) × (9 * length b.rules ≤ length given.old) }
    ensures { (b : Book) (rules owned masks : List ℕ) → CheckHeld b definitions.now rules owned masks
        → lines ≡ grammar.definitions b → 9 * length b.rules ≤ length given.old → GivenIn b (grammar.definitions b) given.new result }
{
    let mut leaders = 0u64;
    for i in 0..lines {
        leaders = mark_giver(definitions, i, leaders, given);
    }
    leaders
}

// The same, whatever the words hold: nine of them for each of `count` rules are cleared first.
pub fn fill_givers(count: u32, definitions: &[u32], lines: u32, given: &mut [u32]) -> u64
    requires { ((b : Book) × (rules : List ℕ) × (kernels : List ℕ) × (bounds : List ℕ) × (closures : List ℕ) × (nullables : List ℕ) × (begins : List ℕ)
        × (reaches : List ℕ) × (terminals : ℕ) × (states : ℕ)
        × FormulasHeld b rules count definitions.now lines kernels bounds closures nullables begins reaches terminals states)
        × (9 * count ≤ length given.old) }
    ensures { (b : Book) (rules kernels bounds closures nullables begins reaches : List ℕ) (terminals states : ℕ)
        → FormulasHeld b rules count definitions.now lines kernels bounds closures nullables begins reaches terminals states
        → GivenIn b (grammar.definitions b) given.new result }
{
    given[..9 * count as usize].fill(0);
    mark_givers(definitions, lines as usize, given)
}
