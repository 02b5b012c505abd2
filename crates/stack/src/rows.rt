// Rows, ten words each: what stands there, its start, four inherited and four synthesized values. A row is written over whatever stood there.
ghost use Rattle.std.specs.Prelude.{◌≡◌, ◌+◌, ◌*◌, ◌<◌, ◌≤◌, length};
ghost use Rattle.grammar.specs.Limits.{MAX_ROWS, PAGE_WORDS, MAX_STACK};
ghost use Rattle.book.specs.Layout.{write_at};
ghost use Rattle.stack.specs.Lists.{Gathers, gathered};
ghost use Rattle.stack.specs.Page.{token_stored, node_stored};

use book::Book;
use items::words::word;

// The words of `source` that the list of `owner` names, into the rows from `place` on.
fn gather(lists: &[u32], owner: usize, source: &[u32], from: usize, rows: &mut [u32], place: usize)
    requires { Gathers lists.now owner source.now from × (place + 4 ≤ length rows.old) }
    ensures { rows.new ≡ write_at place (gathered lists.now owner source.now from) rows.old }
{
    let head = 5 * owner;
    let count = word(lists, head);
    for i in 0..count {
        let number = word(lists, head + 1 + i);
        rows[place + i] = source[from + number];
    }
}

// The row of a token.
pub fn token_row(rows: &mut [u32], row: usize, kind: u32, start: u32, value: u32)
    requires { (length rows.old ≡ PAGE_WORDS) × (row < MAX_ROWS) × (kind < 32) }
    ensures { rows.new ≡ token_stored row kind start value rows.old }
{
    let first = Book::ROW_WORDS * row;
    rows[first..first + Book::ROW_WORDS].fill(0);
    rows[first] = 64 + kind;
    rows[first + 1] = start;
    rows[first + 6] = value;
}

// The row of a node: the values are those of the cell and of the record at its height that its left side owns.
pub fn node_row(
    rows: &mut [u32],
    row: usize,
    rule: u32,
    start: u32,
    owner: usize,
    height: usize,
    down: &[u32],
    cells: &[u32],
    up: &[u32],
    records: &[u32],
)
    requires { (length rows.old ≡ PAGE_WORDS) × (row < MAX_ROWS) × (height ≤ MAX_STACK) × Gathers down.now owner cells.now (16 * height)
        × Gathers up.now owner records.now (33 * height + 1) }
    ensures { rows.new ≡ node_stored row rule start (gathered down.now owner cells.now (16 * height))
        (gathered up.now owner records.now (33 * height + 1)) rows.old }
{
    let place = Book::ROW_WORDS * row;
    rows[place..place + Book::ROW_WORDS].fill(0);
    rows[place] = rule;
    rows[place + 1] = start;
    gather(down, owner, cells, 16 * height, rows, place + 2);
    gather(up, owner, records, 33 * height + 1, rows, place + 6);
}
