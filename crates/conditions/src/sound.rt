// Conditions 4 and 5 of the definitions in one walk, since nearly every book meets both: what they mention is declared; attributes belong to their
// symbols, values are those of terminals, and an inherited attribute is defined from what stands left of it.
// The book is within its limits, and its owners and right symbols are declared. What is asked of the two kinds differs: an inherited attribute's line names a
// position too, and belongs to the symbol there, so each kind has its functions.
ghost use Rattle.std.specs.Prelude.{◌≡◌, true, ◌&&◌};
ghost use Rattle.conditions.specs.Answers.{Some, Answers};
ghost use Rattle.conditions.specs.Asked.{PlaceThere, LineThere, LeavesThere, InheritedThere, SynthesizedThere, NamedBook};
ghost use Rattle.conditions.specs.DeclaredTests.{place_code};
ghost use Rattle.conditions.specs.SoundTests.{owned_code, leaves_sound, inherited_line_sound, synthesized_line_sound, inherited_sound};
ghost use Rattle.conditions.specs.SoundTests.{synthesized_sound, definitions_sound};

use super::declared::place_declared;
use super::limits::one_to;
use super::place::{Place, place_at};
use book::Book;

// Whether what a node of rule p reads belongs to its symbol, and stands left of a position.
#[tactic(auto, unfolding(crate::specs::SoundTests::owned_code))]
fn place_owned(
    inherited: &[u32],
    synthesized: &[u32],
    rules: &[u32],
    p: usize,
    limit: u32,
    place: Option<Place>,
) -> bool
    requires { PlaceThere inherited.now synthesized.now rules.now p place }
    ensures { result ≡ owned_code inherited.now synthesized.now rules.now p limit place }
{
    match place {
        None => true,
        Some(Place::Own(k)) => inherited[k as usize] == rules[10 * p],
        Some(Place::At(j, k)) => {
            (rules[10 * p + 1 + j as usize] == 32 + synthesized[k as usize]) & (j < limit)
        }
        Some(Place::Val(j)) => (rules[10 * p + 1 + j as usize] < 32) & (j < limit),
    }
}

// Whether what a node of rule p reads, which has so many right symbols, is declared and belongs to its symbol, left of a position.
fn place_sound(
    book: Book,
    inherited: &[u32],
    synthesized: &[u32],
    rules: &[u32],
    p: usize,
    size: u32,
    limit: u32,
    place: Option<Place>,
) -> bool
    requires { place_code book size place ≡ true → PlaceThere inherited.now synthesized.now rules.now p place }
    ensures { result ≡ place_code book size place && owned_code inherited.now synthesized.now rules.now p limit place }
{
    place_declared(book, size, place) && place_owned(inherited, synthesized, rules, p, limit, place)
}

// Whether every leaf of the definition in line i does. What is not declared is not looked up.
fn leaves_sound(
    book: Book,
    inherited: &[u32],
    synthesized: &[u32],
    rules: &[u32],
    definitions: &[u32],
    i: usize,
    size: u32,
    limit: u32,
) -> bool
    requires { Some (LeavesThere book inherited.now synthesized.now rules.now definitions.now i size) }
    ensures { Answers
        (LeavesThere book inherited.now synthesized.now rules.now definitions.now i size)
        (leaves_sound limit) result }
{
    let p = definitions[49 * i] as usize;
    let n = definitions[49 * i + 3] as usize;
    (0..n).all(|j| {
        let place = place_at(definitions, 49 * i + 4 + 3 * j);
        place_sound(book, inherited, synthesized, rules, p, size, limit, place)
    })
}

// Whether line i, whose rule, position and attribute are declared, defines an inherited attribute of its right symbol from what stands left of it.
fn inherited_target_sound(
    book: Book,
    inherited: &[u32],
    synthesized: &[u32],
    rules: &[u32],
    definitions: &[u32],
    i: usize,
    size: u32,
) -> bool
    requires { Some (InheritedThere book inherited.now synthesized.now rules.now definitions.now i size) }
    ensures { Answers
        (InheritedThere book inherited.now synthesized.now rules.now definitions.now i size)
        inherited_line_sound result }
{
    let p = definitions[49 * i] as usize;
    let j = definitions[49 * i + 1];
    let k = definitions[49 * i + 2] as usize;
    let owns = rules[10 * p + 1 + j as usize] == 32 + inherited[k];
    owns & leaves_sound(book, inherited, synthesized, rules, definitions, i, size, j)
}

// Whether line i names a rule, a position and an inherited attribute that are declared, and defines that attribute so.
fn inherited_line_sound(
    book: Book,
    inherited: &[u32],
    synthesized: &[u32],
    rules: &[u32],
    definitions: &[u32],
    i: usize,
) -> bool
    requires { Some (LineThere book inherited.now synthesized.now rules.now definitions.now i) }
    ensures { Answers (LineThere book inherited.now synthesized.now rules.now definitions.now i)
        inherited_line_sound result }
{
    let p = definitions[49 * i];
    if book.rules <= p {
        return false;
    }
    let size = rules[10 * p as usize + 1];
    let target = one_to(size, definitions[49 * i + 1]) & (definitions[49 * i + 2] < book.inherited);
    target && inherited_target_sound(book, inherited, synthesized, rules, definitions, i, size)
}

// Whether line i, whose rule and attribute are declared, defines a synthesized attribute of its left side. No position is as large as 9.
fn synthesized_target_sound(
    book: Book,
    inherited: &[u32],
    synthesized: &[u32],
    rules: &[u32],
    definitions: &[u32],
    i: usize,
    size: u32,
) -> bool
    requires { Some (SynthesizedThere book inherited.now synthesized.now rules.now definitions.now i size) }
    ensures { Answers
        (SynthesizedThere book inherited.now synthesized.now rules.now definitions.now i size)
        synthesized_line_sound result }
{
    let p = definitions[49 * i] as usize;
    let k = definitions[49 * i + 2] as usize;
    (synthesized[k] == rules[10 * p])
        & leaves_sound(book, inherited, synthesized, rules, definitions, i, size, 9)
}

// Whether line i names a rule and a synthesized attribute that are declared, and defines that attribute so.
fn synthesized_line_sound(
    book: Book,
    inherited: &[u32],
    synthesized: &[u32],
    rules: &[u32],
    definitions: &[u32],
    i: usize,
) -> bool
    requires { Some (LineThere book inherited.now synthesized.now rules.now definitions.now i) }
    ensures { Answers (LineThere book inherited.now synthesized.now rules.now definitions.now i)
        synthesized_line_sound result }
{
    let p = definitions[49 * i];
    if book.rules <= p {
        return false;
    }
    let size = rules[10 * p as usize + 1];
    let target = definitions[49 * i + 2] < book.synthesized;
    target && synthesized_target_sound(book, inherited, synthesized, rules, definitions, i, size)
}

fn inherited_sound(
    book: Book,
    inherited: &[u32],
    synthesized: &[u32],
    rules: &[u32],
    definitions: &[u32],
) -> bool
    requires { Some (NamedBook book inherited.now synthesized.now rules.now definitions.now) }
    ensures { Answers (NamedBook book inherited.now synthesized.now rules.now definitions.now)
        inherited_sound result }
{
    let n = book.inherited_definitions as usize;
    (0..n).all(|i| inherited_line_sound(book, inherited, synthesized, rules, definitions, i))
}

fn synthesized_sound(
    book: Book,
    inherited: &[u32],
    synthesized: &[u32],
    rules: &[u32],
    definitions: &[u32],
) -> bool
    requires { Some (NamedBook book inherited.now synthesized.now rules.now definitions.now) }
    ensures { Answers (NamedBook book inherited.now synthesized.now rules.now definitions.now)
        synthesized_sound result }
{
    let first = book.inherited_definitions as usize;
    let n = book.synthesized_definitions as usize;
    (0..n).all(|i| synthesized_line_sound(
        book,
        inherited,
        synthesized,
        rules,
        definitions,
        first + i,
    ))
}

// Whether every definition mentions what is declared, and is of an attribute of its symbol, from attributes and values that its rule has.
pub fn sound(
    book: Book,
    inherited: &[u32],
    synthesized: &[u32],
    rules: &[u32],
    definitions: &[u32],
) -> bool
    requires { Some (NamedBook book inherited.now synthesized.now rules.now definitions.now) }
    ensures { Answers (NamedBook book inherited.now synthesized.now rules.now definitions.now)
        definitions_sound result }
{
    inherited_sound(book, inherited, synthesized, rules, definitions)
        & synthesized_sound(book, inherited, synthesized, rules, definitions)
}
