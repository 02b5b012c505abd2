// The action at a state and a terminal.
ghost use Rattle.std.specs.Prelude.{◌≡◌};
ghost use Rattle.stack.specs.Action.{action_at};

#[derive(Clone, Copy)]
pub enum Move {
    Shift,
    Reduce(u32),
    Accept,
}

// No Option, since a step takes the move out of it by a `let .. else`, which the project's rules ask on an enum of the action.
#[derive(Clone, Copy)]
pub enum Action {
    Due(Move),
    None,
}

// The action of a byte of the action table.
#[tactic(auto, unfolding(crate::specs::Action::action_at))]
pub fn action_of(code: u8) -> Action
    ensures { result ≡ action_at code }
{
    match code {
        0 => Action::None,
        1 => Action::Due(Move::Shift),
        2 => Action::Due(Move::Accept),
        255 => Action::None,
        _ => Action::Due(Move::Reduce(code as u32 - 2)),
    }
}
