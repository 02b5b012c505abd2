// The formula of an inherited attribute's definition for an item, interned: its leaves become places of the stacks, below the top.
ghost use Rattle.std.specs.Prelude.{◌≡◌, ℕ, ◌+◌, ◌*◌, ◌<◌, ◌≤◌, length};
ghost use Rattle.grammar.specs.Data.Book.{Expr};
ghost use Rattle.grammar.specs.Formulas.Formula.{Formula};
ghost use Rattle.formulas.specs.Table.{TableIn, NodesKept};
ghost use Rattle.formulas.specs.PostfixLaws.{Ready};
ghost use Rattle.formulas.specs.Steps.{step_of};
ghost use Rattle.formulas.specs.Formulas.{own_for, operand_for, Safe, Numbered, Asked, Formed};

use super::interning::{Interned, intern};
use super::nodes::{Leaf, Node, Stack};
use super::steps::{Step, operands, step_at};
use super::table::Nodes;
use book::Book;

// What a step puts on the stack: the number of a formula, or a node that is still to be interned.
#[derive(Clone, Copy)]
pub enum Operand {
    Known(u32),
    New(Node),
}

// The attribute of the left side: an item with the dot in front has it in a slot, any other finds it `dot` symbols below the top.
fn own_operand(attribute: u32, dot: u32, slots: &[u32]) -> Operand
    requires { dot ≡ 0 → attribute < length slots.now }
    ensures { result ≡ own_for dot slots.now attribute }
{
    if dot != 0 {
        return Operand::New(Node::Leaf(Leaf::Attribute(Stack::Inherited, dot, attribute)));
    }
    match slots[attribute as usize].checked_sub(1) {
        Some(number) => Operand::Known(number),
        None => Operand::New(Node::Number(0)),
    }
}

// What a step puts on a stack of `top` numbers. Right symbol j stands `dot - j` symbols below the top.
fn operand_of(step: Step, dot: u32, slots: &[u32], stack: &[u32], top: usize) -> Operand
    requires { Ready (Safe dot slots.now) top (step_of step) × (top ≤ length stack.now) }
    ensures { result ≡ operand_for dot slots.now stack.now top step }
{
    match step {
        Step::Push(n) => Operand::New(Node::Number(n)),
        Step::Own(k) => own_operand(k, dot, slots),
        Step::At(j, k) => Operand::New(Node::Leaf(Leaf::Attribute(Stack::Synthesized, dot - j, k))),
        Step::Val(j) => Operand::New(Node::Leaf(Leaf::TokenValue(Stack::Synthesized, dot - j))),
        Step::Operate(o) => Operand::New(Node::Both(o, stack[top - 2], stack[top - 1])),
        Step::Select => Operand::New(Node::Pick(stack[top - 3], stack[top - 2], stack[top - 1])),
    }
}

// The number of an operand; a node is interned.
fn number_of(operand: Operand, nodes: &mut Nodes<'_>, used: u32) -> Interned
    requires { TableIn nodes.old used × (used < length nodes.old.nexts.now) }
    ensures kept { NodesKept nodes.old nodes.new }
    ensures numbered { Numbered operand nodes.old.rows.now used nodes.new.rows.now nodes.new.heads.now nodes.new.nexts.now result.number result.used }
{
    match operand {
        Operand::Known(number) => Interned { number, used },
        Operand::New(node) => intern(nodes, used, node),
    }
}

// The number of the formula of the definition in a line, for an item with this dot. A slot has the number of an attribute's formula plus one, or 0.
pub fn formula_of(
    definitions: &[u32],
    line: usize,
    dot: u32,
    slots: &[u32],
    nodes: &mut Nodes<'_>,
    mut used: u32,
) -> Interned
    requires table { TableIn nodes.old used }
    requires by_index { (e : Expr) × (f : ℕ → Formula) × Asked definitions.now line dot slots.now nodes.old.rows.now used e f }
    ensures kept { NodesKept nodes.old nodes.new }
    ensures formed { (e : Expr) (f : ℕ → Formula) → Asked definitions.now line dot slots.now nodes.old.rows.now used e f
        → Formed dot e f nodes.old.rows.now used nodes.new.rows.now nodes.new.heads.now nodes.new.nexts.now result.number result.used }
{
    let first = 49 * line;
    let steps = definitions[first + 3] as usize;
    let mut stack = [0u32; Book::MAX_NODES as usize + 1];
    let mut top: usize = 0;
    for i in 0..steps {
        let step = step_at(definitions, first + 4 + 3 * i);
        let operand = operand_of(step, dot, slots, &stack, top);
        let r = number_of(operand, nodes, used);
        used = r.used;
        top -= operands(step);
        stack[top] = r.number;
        top += 1;
    }
    Interned {
        number: stack[0],
        used,
    }
}
