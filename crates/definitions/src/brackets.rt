// How an expression begins, by its parts.
ghost use Rattle.std.specs.Prelude.{◌≡◌};
ghost use Rattle.text.specs.Rest.{rest};
ghost use Rattle.grammar.specs.Format.Expression.{begun, bracket, own_place, at_place, val_place, whole_of};
ghost use Rattle.definitions.specs.Nodes.{operator_named, Shows};

use super::nodes::{Beginning, BeginningRead, Node, Operator};
use book::spelling::{I, S, naming};
use text::source::Source;

// The words of operators and places, as numbers in base 32.
const ADD: u32 = (1 * 32 + 4) * 32 + 4;

const SUB: u32 = (19 * 32 + 21) * 32 + 2;

const MIN: u32 = (13 * 32 + 9) * 32 + 14;

const MAX: u32 = (13 * 32 + 1) * 32 + 24;

const PICK: u32 = ((16 * 32 + 9) * 32 + 3) * 32 + 11;

const OWN: u32 = (15 * 32 + 23) * 32 + 14;

const AT: u32 = 1 * 32 + 20;

const VAL: u32 = (22 * 32 + 1) * 32 + 12;

// The operator that a word names.
#[tactic(auto, unfolding(crate::specs::Nodes::operator_named, text::specs::Numeral::spelled))]
fn operator_named(word: u32) -> Option<Operator>
    ensures { result ≡ operator_named word }
{
    match word {
        ADD => Some(Operator::Add),
        SUB => Some(Operator::Sub),
        MIN => Some(Operator::Min),
        MAX => Some(Operator::Max),
        PICK => Some(Operator::Pick),
        _ => None,
    }
}

// `(own iK)`, after its word.
fn own_place(source: &Source<'_>, at: usize) -> BeginningRead
    ensures { Shows (whole_of (own_place (rest source.now.bytes.now at))) source.now.bytes.now result }
{
    let a = source.keyword(at, I);
    let k = source.number(a);
    BeginningRead {
        beginning: Beginning::Whole(Node::Own(k.value)),
        at: source.mark(k.at, text::CLOSE),
    }
}

// `(at J sK)`, after its word.
fn at_place(source: &Source<'_>, at: usize) -> BeginningRead
    ensures { Shows (whole_of (at_place (rest source.now.bytes.now at))) source.now.bytes.now result }
{
    let j = source.number(at);
    let a = naming(source, j.at, S);
    let k = source.number(a);
    BeginningRead {
        beginning: Beginning::Whole(Node::At(j.value, k.value)),
        at: source.mark(k.at, text::CLOSE),
    }
}

// `(val J)`, after its word.
fn val_place(source: &Source<'_>, at: usize) -> BeginningRead
    ensures { Shows (whole_of (val_place (rest source.now.bytes.now at))) source.now.bytes.now result }
{
    let j = source.number(at);
    BeginningRead {
        beginning: Beginning::Whole(Node::Val(j.value)),
        at: source.mark(j.at, text::CLOSE),
    }
}

// A bracket, by its word.
#[tactic(auto, unfolding(grammar::specs::Format::Expression::bracket, text::specs::Numeral::spelled))]
fn bracket(source: &Source<'_>, at: usize, word: u32) -> BeginningRead
    ensures { Shows (bracket word (rest source.now.bytes.now at)) source.now.bytes.now result }
{
    if let Some(operator) = operator_named(word) {
        return BeginningRead {
            beginning: Beginning::Opens(operator),
            at,
        };
    }
    match word {
        OWN => own_place(source, at),
        AT => at_place(source, at),
        VAL => val_place(source, at),
        // A word that names nothing: any node, as the text is lost.
        _ => BeginningRead {
            beginning: Beginning::Whole(Node::Operator(Operator::Pick)),
            at: source.bytes.len() + 1,
        },
    }
}

// How the expression at a position begins.
pub fn any_begun(source: &Source<'_>, at: usize) -> BeginningRead
    ensures { Shows (begun (rest source.now.bytes.now at)) source.now.bytes.now result }
{
    let a = source.mark(at, text::OPEN);
    if a <= source.bytes.len() {
        let word = source.word(a);
        let b = source.mark(word.at, text::SPACE);
        return bracket(source, b, word.value);
    }
    let n = source.number(at);
    BeginningRead {
        beginning: Beginning::Whole(Node::Number(n.value)),
        at: n.at,
    }
}
