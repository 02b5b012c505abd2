// How an expression begins, by the bytes of a bracket's word, which are compared at once, and of short numbers; None for anything else.
ghost use Rattle.std.specs.Prelude.{◌≡◌, [], ◌∷◌, ◌+◌, ◌≤◌, IfSome, length};
ghost use Rattle.text.specs.Rest.{rest};
ghost use Rattle.grammar.specs.Format.Expression.{begun};
ghost use Rattle.definitions.specs.Nodes.{Shows};
ghost use Rattle.definitions.specs.ExpressionsShort.{Begins, Headed, operator_headed};

use super::ended::ended;
use super::nodes::{Beginning, BeginningRead, Node, Operator};
use lines::four;
use text::source::Source;

// The first four bytes of each bracket, as one number.
const ADD: u32 = 40 + 256 * (97 + 256 * (100 + 256 * 100));

const SUB: u32 = 40 + 256 * (115 + 256 * (117 + 256 * 98));

const MIN: u32 = 40 + 256 * (109 + 256 * (105 + 256 * 110));

const MAX: u32 = 40 + 256 * (109 + 256 * (97 + 256 * 120));

const PICK: u32 = 40 + 256 * (112 + 256 * (105 + 256 * 99));

const OWN: u32 = 40 + 256 * (111 + 256 * (119 + 256 * 110));

const AT: u32 = 40 + 256 * (97 + 256 * (116 + 256 * 32));

const VAL: u32 = 40 + 256 * (118 + 256 * (97 + 256 * 108));

// `(own iK)`, where its word stands.
fn short_own(source: &Source<'_>, at: usize) -> Option<BeginningRead>
    requires { Begins source.now.bytes.now at (40 ∷ 111 ∷ 119 ∷ 110 ∷ 32 ∷ []) }
    ensures { IfSome result (λ read. Shows (begun (rest source.now.bytes.now at)) source.now.bytes.now read) }
{
    if source.bytes[at + 5] != b'i' {
        return None;
    }
    let k = ended(source, at + 6, b')')?;
    Some(BeginningRead {
        beginning: Beginning::Whole(Node::Own(k.value)),
        at: k.at,
    })
}

// `(at J sK)`, where its word stands.
fn short_at(source: &Source<'_>, at: usize) -> Option<BeginningRead>
    requires { Begins source.now.bytes.now at (40 ∷ 97 ∷ 116 ∷ 32 ∷ []) }
    ensures { IfSome result (λ read. Shows (begun (rest source.now.bytes.now at)) source.now.bytes.now read) }
{
    let j = ended(source, at + 4, b' ')?;
    let a = j.at;
    if source.bytes[a] != b's' {
        return None;
    }
    let k = ended(source, a + 1, b')')?;
    Some(BeginningRead {
        beginning: Beginning::Whole(Node::At(j.value, k.value)),
        at: k.at,
    })
}

// `(val J)`, where its word stands.
fn short_val(source: &Source<'_>, at: usize) -> Option<BeginningRead>
    requires { Begins source.now.bytes.now at (40 ∷ 118 ∷ 97 ∷ 108 ∷ 32 ∷ []) }
    ensures { IfSome result (λ read. Shows (begun (rest source.now.bytes.now at)) source.now.bytes.now read) }
{
    let j = ended(source, at + 5, b')')?;
    Some(BeginningRead {
        beginning: Beginning::Whole(Node::Val(j.value)),
        at: j.at,
    })
}

// The operator whose bracket begins with these four bytes and a space.
#[tactic(auto, unfolding(crate::specs::ExpressionsShort::operator_headed))]
fn short_operator(head: u32) -> Option<Operator>
    ensures { result ≡ operator_headed head }
{
    match head {
        ADD => Some(Operator::Add),
        SUB => Some(Operator::Sub),
        MIN => Some(Operator::Min),
        MAX => Some(Operator::Max),
        _ => None,
    }
}

// `(pick `, where its first four bytes are the given number.
fn short_pick(source: &Source<'_>, at: usize, head: u32) -> Option<BeginningRead>
    requires { (at + 11 ≤ length source.now.bytes.now) × Headed source.now.bytes.now at head }
    ensures { IfSome result (λ read. Shows (begun (rest source.now.bytes.now at)) source.now.bytes.now read) }
{
    if (head == PICK) & (source.bytes[at + 4] == b'k') & (source.bytes[at + 5] == b' ') {
        return Some(BeginningRead {
            beginning: Beginning::Opens(Operator::Pick),
            at: at + 6,
        });
    }
    None
}

// A number of one to three digits.
fn short_number(source: &Source<'_>, at: usize) -> Option<BeginningRead>
    requires { at + 4 ≤ length source.now.bytes.now }
    ensures { IfSome result (λ read. Shows (begun (rest source.now.bytes.now at)) source.now.bytes.now read) }
{
    let n = book::short::short(source, at)?;
    Some(BeginningRead {
        beginning: Beginning::Whole(Node::Number(n.value)),
        at: n.at,
    })
}

// How the expression at a position begins.
pub fn short_begun(source: &Source<'_>, at: usize) -> Option<BeginningRead>
    requires { at ≤ length source.now.bytes.now }
    ensures { IfSome result (λ read. Shows (begun (rest source.now.bytes.now at)) source.now.bytes.now read) }
{
    if source.bytes.len() < at + 11 {
        return None;
    }
    if source.bytes[at] != b'(' {
        return short_number(source, at);
    }
    let head = four(
        source.bytes[at],
        source.bytes[at + 1],
        source.bytes[at + 2],
        source.bytes[at + 3],
    );
    if head == AT {
        return short_at(source, at);
    }
    if source.bytes[at + 4] != b' ' {
        return short_pick(source, at, head);
    }
    if head == OWN {
        return short_own(source, at);
    }
    if head == VAL {
        return short_val(source, at);
    }
    let operator = short_operator(head)?;
    Some(BeginningRead {
        beginning: Beginning::Opens(operator),
        at: at + 5,
    })
}
