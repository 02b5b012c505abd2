// The steps of a definition's expression, in postfix order.
ghost use Rattle.std.specs.Prelude.{◌≡◌, ◌+◌, ◌≤◌, length};
ghost use Rattle.formulas.specs.PostfixLaws.{takes};
ghost use Rattle.formulas.specs.Steps.{step_of, step_with, step_in};

use super::nodes::Operator;

#[derive(Clone, Copy)]
pub enum Step {
    Push(u32),
    Own(u32),
    At(u32, u32),
    Val(u32),
    Operate(Operator),
    Select,
}

// The step of a kind, with the numbers x and y.
#[tactic(auto, unfolding(crate::specs::Steps::step_with))]
fn step_with(kind: u32, x: u32, y: u32) -> Step
    ensures { step_of result ≡ step_with kind x y }
{
    match kind {
        0 => Step::Push(x),
        1 => Step::Own(x),
        2 => Step::At(x, y),
        3 => Step::Val(x),
        4 => Step::Operate(Operator::Add),
        5 => Step::Operate(Operator::Sub),
        6 => Step::Operate(Operator::Min),
        7 => Step::Operate(Operator::Max),
        _ => Step::Select,
    }
}

// The step whose three words stand at a place.
pub fn step_at(definitions: &[u32], place: usize) -> Step
    requires { place + 3 ≤ length definitions.now }
    ensures { step_of result ≡ step_in definitions.now place }
{
    step_with(
        definitions[place],
        definitions[place + 1],
        definitions[place + 2],
    )
}

// How many operands a step takes.
pub fn operands(step: Step) -> usize
    ensures { result ≡ takes (step_of step) }
{
    match step {
        Step::Push(_) | Step::Own(_) | Step::At(_, _) | Step::Val(_) => 0,
        Step::Operate(_) => 2,
        Step::Select => 3,
    }
}
