// Condition 4: every name, rule, position and state that a line mentions is declared, where the book is within its limits.
ghost use Rattle.std.specs.Prelude.{◌≡◌, ◌<◌};
ghost use Rattle.grammar.specs.Conditions.Decides.{one_to, all};
ghost use Rattle.conditions.specs.Answers.{Some, Answers};
ghost use Rattle.conditions.specs.Asked.{RulesOf, RuleOf, LeavesOf, EntryOf, DefinitionsOf, KernelsOf, KernelOf, GoesOf, GrammarOf, Within};
ghost use Rattle.conditions.specs.DeclaredTests.{right_code, go_code, start_code, place_code, right_declared, rule_declared, rules_declared};
ghost use Rattle.conditions.specs.DeclaredTests.{leaves_declared, definition_declared};
ghost use Rattle.conditions.specs.DeclaredTests.{inherited_line_declared, inherited_declared, synthesized_declared, kernel_declared};
ghost use Rattle.conditions.specs.DeclaredTests.{kernels_declared, goes_declared, grammar_declared};
ghost use Rattle.conditions.specs.DeclaredTests.{names_declared, definitions_declared};

use super::limits::one_to;
use super::place::{Place, place_at};
use book::Book;

// Whether every owner is a nonterminal n1..nN.
fn owners_declared(owners: &[u32], n: u32) -> bool
    ensures { result ≡ all (one_to n) owners.now }
{
    owners.iter().all(|owner| one_to(n, *owner))
}

// Whether a right symbol is declared: t1..tT or n1..nN.
fn right_code(book: Book, code: u32) -> bool
    ensures { result ≡ right_code book code }
{
    if code < 32 {
        one_to(book.terminals, code)
    } else {
        one_to(book.nonterminals, code - 32)
    }
}

// Whether a go line's symbol is declared; n0 too.
fn go_code(book: Book, code: u32) -> bool
    ensures { result ≡ go_code book code }
{
    code == 32 || right_code(book, code)
}

// Whether every right symbol of rule p is declared.
fn right_declared(book: Book, rules: &[u32], p: usize) -> bool
    requires { Some (RuleOf book rules.now p) }
    ensures { Answers (RuleOf book rules.now p) (right_declared p) result }
{
    let n = rules[10 * p + 1] as usize;
    (0..n).all(|d| right_code(book, rules[10 * p + 2 + d]))
}

// Whether the left side of rule p is a nonterminal n1..nN, but for rule 0, and its right symbols are declared.
fn rule_declared(book: Book, rules: &[u32], p: usize) -> bool
    requires { Some (RuleOf book rules.now p) }
    ensures { Answers (RuleOf book rules.now p) (rule_declared p) result }
{
    (p == 0 || one_to(book.nonterminals, rules[10 * p])) & right_declared(book, rules, p)
}

fn rules_declared(book: Book, rules: &[u32]) -> bool
    requires { Some (RulesOf book rules.now) }
    ensures { Answers (RulesOf book rules.now) rules_declared result }
{
    let n = book.rules as usize;
    (0..n).all(|p| rule_declared(book, rules, p))
}

// Whether rule 0 is n0 to one nonterminal; a symbol that is not declared may be taken for one.
fn start_declared(book: Book, rules: &[u32]) -> bool
    requires { Some (RulesOf book rules.now) }
    ensures { result ≡ start_code rules.now }
{
    (rules[0] == 0) & (rules[1] == 1) & (32 <= rules[2])
}

// Whether what a node reads in a rule with so many right symbols is declared.
#[tactic(auto, unfolding(crate::specs::DeclaredTests::place_code))]
pub fn place_declared(book: Book, size: u32, place: Option<Place>) -> bool
    ensures { result ≡ place_code book size place }
{
    match place {
        None => true,
        Some(Place::Own(k)) => k < book.inherited,
        Some(Place::At(j, k)) => one_to(size, j) & (k < book.synthesized),
        Some(Place::Val(j)) => one_to(size, j),
    }
}

// Whether every leaf of the definition in line i, of a rule with so many right symbols, reads what is declared.
fn leaves_declared(book: Book, definitions: &[u32], i: usize, size: u32) -> bool
    requires { Some (LeavesOf book definitions.now i size) }
    ensures { Answers (LeavesOf book definitions.now i size) leaves_declared result }
{
    let n = definitions[49 * i + 3] as usize;
    (0..n).all(|j| place_declared(book, size, place_at(definitions, 49 * i + 4 + 3 * j)))
}

// Whether the definition in line i names a rule, one of so many attributes, and leaves that are declared.
fn definition_declared(
    book: Book,
    rules: &[u32],
    definitions: &[u32],
    i: usize,
    attributes: u32,
) -> bool
    requires { Some (EntryOf book rules.now definitions.now i) }
    ensures { Answers (EntryOf book rules.now definitions.now i) (definition_declared attributes) result }
{
    let p = definitions[49 * i];
    if book.rules <= p {
        return false;
    }
    let size = rules[10 * p as usize + 1];
    definitions[49 * i + 2] < attributes && leaves_declared(book, definitions, i, size)
}

// Whether line i, an inherited attribute's definition, is declared, its position too.
fn inherited_line_declared(book: Book, rules: &[u32], definitions: &[u32], i: usize) -> bool
    requires { Some (EntryOf book rules.now definitions.now i) }
    ensures { Answers (EntryOf book rules.now definitions.now i) inherited_line_declared result }
{
    let p = definitions[49 * i] as usize;
    definition_declared(book, rules, definitions, i, book.inherited)
        && one_to(rules[10 * p + 1], definitions[49 * i + 1])
}

// The lines of inherited attributes, which name a position too; those of synthesized ones stand behind them and name none.
fn inherited_declared(book: Book, rules: &[u32], definitions: &[u32]) -> bool
    requires { Some (DefinitionsOf book rules.now definitions.now) }
    ensures { Answers (DefinitionsOf book rules.now definitions.now) inherited_declared result }
{
    let n = book.inherited_definitions as usize;
    (0..n).all(|i| inherited_line_declared(book, rules, definitions, i))
}

fn synthesized_declared(book: Book, rules: &[u32], definitions: &[u32]) -> bool
    requires { Some (DefinitionsOf book rules.now definitions.now) }
    ensures { Answers (DefinitionsOf book rules.now definitions.now) synthesized_declared result }
{
    let first = book.inherited_definitions as usize;
    let n = book.synthesized_definitions as usize;
    (0..n).all(|i| definition_declared(book, rules, definitions, first + i, book.synthesized))
}

// Whether kernel line i names a state, a rule, a dot that is not past the end, and lookaheads t0..tT, of which the last is the largest.
fn kernel_declared(book: Book, rules: &[u32], kernels: &[u32], i: usize) -> bool
    requires { Some (KernelOf book rules.now kernels.now i) }
    ensures { Answers (KernelOf book rules.now kernels.now i) (kernel_declared i) result }
{
    let p = kernels[5 * i + 1];
    if book.rules <= p {
        return false;
    }
    let size = rules[10 * p as usize + 1];
    (kernels[5 * i] < book.states)
        & (kernels[5 * i + 2] <= size)
        & (kernels[5 * i + 3] <= book.terminals)
}

fn kernels_declared(book: Book, rules: &[u32], kernels: &[u32]) -> bool
    requires { Some (KernelsOf book rules.now kernels.now) }
    ensures { Answers (KernelsOf book rules.now kernels.now) kernels_declared result }
{
    let n = book.kernels as usize;
    (0..n).all(|i| kernel_declared(book, rules, kernels, i))
}

fn goes_declared(book: Book, goes: &[u32]) -> bool
    requires { Some (GoesOf book goes.now) }
    ensures { Answers (GoesOf book goes.now) goes_declared result }
{
    let n = book.goes as usize;
    (0..n).all(|i| {
        let known = go_code(book, goes[3 * i + 1]);
        (goes[3 * i] < book.states) & known & (goes[3 * i + 2] < book.states)
    })
}

// Whether owners and rules are declared.
fn grammar_declared(book: Book, inherited: &[u32], synthesized: &[u32], rules: &[u32]) -> bool
    requires { Some (GrammarOf book inherited.now synthesized.now rules.now) }
    ensures { Answers (GrammarOf book inherited.now synthesized.now rules.now) grammar_declared result }
{
    let n = book.nonterminals;
    let i = book.inherited as usize;
    let s = book.synthesized as usize;
    let owners = owners_declared(&inherited[..i], n) & owners_declared(&synthesized[..s], n);
    owners & (start_declared(book, rules) & rules_declared(book, rules))
}

// Whether every name, rule and state that the book mentions is declared, but for its definitions.
pub fn names_declared(
    book: Book,
    inherited: &[u32],
    synthesized: &[u32],
    rules: &[u32],
    definitions: &[u32],
    kernels: &[u32],
    goes: &[u32],
) -> bool
    requires { Some (Within book inherited.now synthesized.now rules.now definitions.now kernels.now goes.now) }
    ensures { Answers
        (Within book inherited.now synthesized.now rules.now definitions.now kernels.now
        goes.now)
        names_declared result }
{
    let grammar = grammar_declared(book, inherited, synthesized, rules);
    let states = kernels_declared(book, rules, kernels) & goes_declared(book, goes);
    grammar & states
}

// Whether every rule, position and attribute that a definition mentions is declared.
pub fn definitions_declared(book: Book, rules: &[u32], definitions: &[u32]) -> bool
    requires { Some (DefinitionsOf book rules.now definitions.now) }
    ensures { Answers (DefinitionsOf book rules.now definitions.now) definitions_declared result }
{
    inherited_declared(book, rules, definitions) & synthesized_declared(book, rules, definitions)
}
