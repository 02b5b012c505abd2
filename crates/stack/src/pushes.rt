// A push: the state, the record, the start and the row of a symbol. The cell under it is set before.
ghost use Rattle.std.specs.Prelude.{◌<◌, length};
ghost use Rattle.grammar.specs.Limits.{MAX_TOKENS, MAX_ROWS};
ghost use Rattle.stack.specs.Pushes.{Stacks, TokenPushed, Reducing, NodePushed};
ghost use Rattle.stack.specs.PutValues.{Putting, left_record};

use super::records::{node_record, token_record};
use super::rows::{node_row, token_row};
use super::top::Top;

// A token.
pub fn push_token(
    top: Top,
    target: u32,
    kind: u32,
    value: u32,
    states: &mut [u32],
    records: &mut [u32],
    starts: &mut [u32],
    rows: &mut [u32],
) -> Top
    requires stacks { Stacks states.old records.old starts.old rows.old }
    requires depth_in_bounds { (top.depth < length starts.old) × (top.rows < MAX_ROWS) × (top.position < MAX_TOKENS) × (kind < 32) }
    ensures { TokenPushed top target kind value states.old records.old starts.old rows.old states.new records.new starts.new rows.new result }
{
    let depth = top.depth;
    let position = top.position as u32;
    token_record(records, depth, value);
    states[depth + 1] = target;
    starts[depth] = position;
    token_row(rows, top.rows, kind, position, value);
    top.shifted()
}

// The left side of a rule with its synthesized values, in the place of its `size` right symbols.
pub fn push_node(
    top: Top,
    target: u32,
    rule: u32,
    size: usize,
    owner: usize,
    start: u32,
    definitions: &[u32],
    spans: &[u32],
    values: &[u32],
    down: &[u32],
    cells: &[u32],
    up: &[u32],
    states: &mut [u32],
    records: &mut [u32],
    starts: &mut [u32],
    rows: &mut [u32],
) -> Top
    requires stacks { Stacks states.old records.old starts.old rows.old × Putting definitions.now spans.now values.now rule }
    requires reducing { Reducing top size owner down.now cells.now up.now records.old starts.old }
    ensures { NodePushed top target rule size owner start (left_record definitions.now spans.now values.now rule) down.now cells.now up.now
        states.old records.old starts.old rows.old states.new records.new starts.new rows.new result }
{
    let below = top.depth - size;
    node_record(definitions, spans, rule as usize, values, records, below);
    states[below + 1] = target;
    starts[below] = start;
    node_row(
        rows, top.rows, rule, start, owner, below, down, cells, up, records,
    );
    top.reduced(size)
}
