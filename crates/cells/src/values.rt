// The values of definitions over the two stacks.
ghost use Rattle.std.specs.Prelude.{◌≡◌, ◌-◌, ◌≤◌, length};
ghost use Rattle.grammar.specs.Data.Term.{apply, choose, eval};
ghost use Rattle.grammar.specs.Data.Book.{Expr};
ghost use Rattle.formulas.specs.Nodes.{operator_of};
ghost use Rattle.formulas.specs.PostfixLaws.{Ready};
ghost use Rattle.formulas.specs.Steps.{step_of};
ghost use Rattle.cells.specs.Leaves.{Room};
ghost use Rattle.cells.specs.Values.{place_in, MayRead, Asked, step_value};

use super::leaves::leaf_value;
use book::Book;
use formulas::nodes::{Leaf, Operator, Stack};
use formulas::steps::{Step, operands, step_at};

// "Sums and differences are taken modulo 4,294,967,296".
#[tactic(auto, unfolding(grammar::specs::Data::Term::apply))]
fn combine(operator: Operator, x: u32, y: u32) -> u32
    ensures { result ≡ apply (operator_of operator) x y }
{
    match operator {
        Operator::Add => x.wrapping_add(y),
        Operator::Sub => x.wrapping_sub(y),
        Operator::Min => x.min(y),
        Operator::Max => x.max(y),
    }
}

fn pick(c: u32, x: u32, y: u32) -> u32
    ensures { result ≡ choose c x y }
{
    if c == 0 { y } else { x }
}

// What a step puts on a stack of `top` words. The rule's right symbol j stands `dot - j` symbols below the top one, its own cell `dot` below the top cell.
fn step_value<'a>(
    step: Step,
    dot: u32,
    height: usize,
    inherited: &'a [u32],
    synthesized: &'a [u32],
    stack: &[u32],
    top: usize,
) -> u32
    requires room { Room height inherited.now synthesized.now × (dot ≤ height) }
    requires ready { Ready (MayRead dot) top (step_of step) × (top ≤ length stack.now) }
    ensures { result ≡ step_value (place_in (height - dot) inherited.now synthesized.now) stack.now top (step_of step) }
{
    match step {
        Step::Push(n) => n,
        Step::Own(k) => leaf_value(
            inherited,
            synthesized,
            Leaf::Attribute(Stack::Inherited, dot, k),
            height,
        ),
        Step::At(j, k) => leaf_value(
            inherited,
            synthesized,
            Leaf::Attribute(Stack::Synthesized, dot - j, k),
            height,
        ),
        Step::Val(j) => leaf_value(
            inherited,
            synthesized,
            Leaf::TokenValue(Stack::Synthesized, dot - j),
            height,
        ),
        Step::Operate(o) => combine(o, stack[top - 2], stack[top - 1]),
        Step::Select => pick(stack[top - 3], stack[top - 2], stack[top - 1]),
    }
}

// The value of the definition in a line, on a stack of `height` symbols of which the rule's first `dot` right symbols are the top ones.
// A definition of one node is a number or a leaf, and needs no stack of values.
pub fn value<'a>(
    definitions: &[u32],
    line: usize,
    dot: u32,
    height: usize,
    inherited: &'a [u32],
    synthesized: &'a [u32],
) -> u32
    requires room { Room height inherited.now synthesized.now × (dot ≤ height) }
    requires asked { (e : Expr) × Asked definitions.now line dot e }
    ensures { (e : Expr) → Asked definitions.now line dot e
        → result ≡ eval e (place_in (height - dot) inherited.now synthesized.now) }
{
    let first = 49 * line;
    let nodes = definitions[first + 3] as usize;
    if nodes == 1 {
        let none = [0u32; 0];
        return step_value(
            step_at(definitions, first + 4),
            dot,
            height,
            inherited,
            synthesized,
            &none,
            0,
        );
    }
    let mut stack = [0u32; Book::MAX_NODES as usize + 1];
    let mut top: usize = 0;
    for i in 0..nodes {
        let step = step_at(definitions, first + 4 + 3 * i);
        let v = step_value(step, dot, height, inherited, synthesized, &stack, top);
        top -= operands(step);
        stack[top] = v;
        top += 1;
    }
    stack[0]
}
