// Expressions of any depth, read into nodes in postfix order: an operator's node is written when its bracket is closed.
ghost use Rattle.std.specs.Prelude.{◌≡◌, List, false, ℕ, ◌≤◌, length};
ghost use Rattle.text.specs.Rest.{rest};
ghost use Rattle.grammar.specs.Format.Expression.{begun, Scan, expression_steps};
ghost use Rattle.definitions.specs.Expressions.{DEFINITION_WORDS, WaitsRoom, put_node};
ghost use Rattle.definitions.specs.Nodes.{Shows};
ghost use Rattle.definitions.specs.ExpressionsLoop.{Expresses, Working, Closed};

use super::brackets::any_begun;
use super::nodes::{Beginning, BeginningRead};
use super::short::short_begun;
use book::Book;
use text::Cursor;
use text::source::Source;

// Node k of a line, where there is room for it.
fn put_node(line: &mut [u32], k: u32, words: [u32; 3])
    requires { length line.old ≡ DEFINITION_WORDS }
    ensures { line.new ≡ put_node k words line.old }
{
    if k < Book::MAX_NODES {
        let i = 4 + 3 * (k as usize);
        line[i..i + 3].copy_from_slice(&words);
    }
}

// How the expression at a position begins.
fn begun(source: &Source<'_>, at: usize) -> BeginningRead
    requires { at ≤ length source.now.bytes.now }
    ensures { Shows (begun (rest source.now.bytes.now at)) source.now.bytes.now result }
{
    match short_begun(source, at) {
        Some(read) => read,
        None => any_begun(source, at),
    }
}

// How far an expression is read after an operand: how many operators wait, how many nodes it has, and where the text goes on.
#[derive(Clone, Copy)]
struct Progress {
    depth: usize,
    count: u32,
    at: usize,
}

// After an operand: the brackets of operators that wait for no more are closed, up to one that waits for another operand, which is due then.
fn close(
    source: &Source<'_>,
    at: usize,
    waits: &mut [u8],
    operators: usize,
    line: &mut [u32],
    nodes: u32,
) -> Progress
    requires { WaitsRoom source.now.bytes.now waits.old × (length line.old ≡ DEFINITION_WORDS)
        × ((line₀ : List ℕ) × (start : Scan) × Working source.now.bytes.now line₀ start waits.old operators false at nodes line.old) }
    ensures { (line₀ : List ℕ) (start : Scan) → Working source.now.bytes.now line₀ start waits.old operators false at nodes line.old
        → Closed source.now.bytes.now line₀ start waits.new result.depth at result.at result.count line.new }
{
    let mut count = nodes;
    let mut p = at;
    for i in (0..operators).rev() {
        if source.bytes.len() < p {
            return Progress {
                depth: i + 1,
                count,
                at: p,
            };
        }
        let code = waits[i];
        if 16 <= code {
            waits[i] = code - 16;
            return Progress {
                depth: i + 1,
                count,
                at: source.mark(p, text::SPACE),
            };
        }
        p = source.mark(p, text::CLOSE);
        put_node(line, count, [code as u32, 0, 0]);
        count += 1;
    }
    Progress {
        depth: 0,
        count,
        at: p,
    }
}

// Reads an expression: its first nodes to the line, and the number of them all. `waits` is room for the operators that wait, whatever it holds.
pub fn expression(source: &Source<'_>, at: usize, waits: &mut [u8], line: &mut [u32]) -> Cursor
    requires { WaitsRoom source.now.bytes.now waits.old × (length line.old ≡ DEFINITION_WORDS) }
    ensures { Expresses (expression_steps (rest source.now.bytes.now at)) source.now.bytes.now line.old result.value result.at line.new }
{
    let mut depth: usize = 0;
    let mut p = at;
    let mut count: u32 = 0;
    while p <= source.bytes.len() {
        let read = begun(source, p);
        let node = match read.beginning {
            Beginning::Opens(operator) => {
                waits[depth] = operator.waiting();
                depth += 1;
                p = read.at;
                continue;
            }
            Beginning::Whole(node) => node,
        };
        put_node(line, count, node.words());
        let next = close(source, read.at, waits, depth, line, count + 1);
        depth = next.depth;
        count = next.count;
        p = next.at;
        if depth == 0 {
            return Cursor {
                value: count,
                at: p,
            };
        }
    }
    Cursor {
        value: count,
        at: p,
    }
}
