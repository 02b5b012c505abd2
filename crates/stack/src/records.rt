// Records of symbols: a token's value, or the values of a rule's left side.
ghost use Rattle.std.specs.Prelude.{◌≡◌, ◌+◌, ◌*◌, ◌-◌, ◌<◌, ◌≤◌, length, replicate, set};
ghost use Rattle.grammar.specs.Limits.{MAX_OWNED};
ghost use Rattle.grammar.specs.Data.Book.{Book};
ghost use Rattle.cells.specs.Leaves.{Room};
ghost use Rattle.stack.specs.NodeValues.{NodeAsked, NodeValues};
ghost use Rattle.stack.specs.Records.{Stored};
ghost use Rattle.stack.specs.PutValues.{Putting, lines_put, left_record};

use cells::values::value;
use items::words::word;

// The record of symbol `height` has no values.
fn clear_record(records: &mut [u32], height: usize)
    requires { 33 * height + 33 ≤ length records.old }
    ensures { Stored (33 * height) (replicate 33 0) records.old 33 records.new }
{
    let place = 33 * height;
    records[place..place + 33].fill(0);
}

// The record of symbol `height` is that of a token.
pub fn token_record(records: &mut [u32], height: usize, value: u32)
    requires { 33 * height + 33 ≤ length records.old }
    ensures { Stored (33 * height) (set (replicate 33 0) 0 value) records.old 33 records.new }
{
    clear_record(records, height);
    records[33 * height] = value;
}

// The synthesized values of a rule's left side, whose right side are the top `size` symbols of `height`: one for each line of the rule, in their order.
pub fn node_values(
    definitions: &[u32],
    spans: &[u32],
    rule: usize,
    size: u32,
    height: usize,
    cells: &[u32],
    records: &[u32],
    values: &mut [u32],
)
    requires room { Room height cells.now records.now × (size ≤ height) × (length values.old ≡ MAX_OWNED) }
    requires node_asked { (b : Book) × NodeAsked b definitions.now spans.now rule size }
    ensures { (b : Book) → NodeAsked b definitions.now spans.now rule size
        → NodeValues b rule (height - size) cells.now records.now
        (left_record definitions.now spans.now values.new rule) }
{
    let first = word(spans, rule);
    let count = word(spans, rule + 1) - first;
    for i in 0..count {
        values[i] = value(definitions, first + i, size, height, cells, records);
    }
}

// The values of a rule's lines, each in the word of its attribute in the record of symbol `height`.
fn put_values(
    definitions: &[u32],
    spans: &[u32],
    rule: usize,
    values: &[u32],
    records: &mut [u32],
    height: usize,
)
    requires { (33 * height + 33 ≤ length records.old) × Putting definitions.now spans.now values.now rule }
    ensures { records.new
        ≡ lines_put definitions.now spans.now values.now rule (33 * height + 1) records.old }
{
    let place = 33 * height + 1;
    let first = word(spans, rule);
    let count = word(spans, rule + 1) - first;
    for i in 0..count {
        let k = word(definitions, 49 * (first + i) + 2);
        records[place + k] = values[i];
    }
}

// The record of symbol `height` is that of a rule's left side.
pub fn node_record(
    definitions: &[u32],
    spans: &[u32],
    rule: usize,
    values: &[u32],
    records: &mut [u32],
    height: usize,
)
    requires { (33 * height + 33 ≤ length records.old) × Putting definitions.now spans.now values.now rule }
    ensures { Stored (33 * height) (left_record definitions.now spans.now values.now rule)
        records.old 33 records.new }
{
    clear_record(records, height);
    put_values(definitions, spans, rule, values, records, height);
}
