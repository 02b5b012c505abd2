// A table of nodes without duplicates, so that equal formulas have equal numbers. A row is found through the bucket of its hash: a word of `heads`, one for
// each hash, and of `nexts`, one for each row, is one more than the number of the next row with that hash, or 0.
ghost use Rattle.std.specs.Prelude.{◌≡◌, ◌+◌, ◌*◌, ◌^◌, ◌<◌, ◌≤◌, length, get_or, set};
ghost use Rattle.formulas.specs.Nodes.{shown};
ghost use Rattle.formulas.specs.Table.{HEADS, row_at, hash_of, stored, TableIn, NodesKept, Added, Found};

use super::nodes::{Node, Row, row_of};
use super::table::Nodes;

// The number of a node, and how many nodes the table has then.
#[derive(Clone, Copy)]
pub struct Interned {
    pub number: u32,
    pub used: u32,
}

#[tactic(auto, unfolding(crate::specs::Table::hash_of))]
fn hash(row: Row) -> usize
    ensures { result ≡ hash_of (shown row) }
{
    (row.kind as usize + 3 * row.first as usize + 5 * row.second as usize + 7 * row.third as usize)
        % 64
}

fn row_at(table: &[u32], i: usize) -> Row
    requires { 4 * i + 4 ≤ length table.now }
    ensures { shown result ≡ row_at table.now i }
{
    let at = 4 * i;
    Row {
        kind: table[at],
        first: table[at + 1],
        second: table[at + 2],
        third: table[at + 3],
    }
}

// The number of the row, if it is in the table.
fn find(nodes: &Nodes<'_>, used: u32, bucket: usize, row: Row) -> Option<u32>
    requires { TableIn nodes.now used × (bucket ≡ hash_of (shown row)) }
    ensures { Found nodes.now.rows.now used (shown row) result }
{
    let mut next = nodes.heads[bucket];
    while let Some(number) = next.checked_sub(1) {
        let i = number as usize;
        if row_at(nodes.rows, i) == row {
            return Some(number);
        }
        next = nodes.nexts[i];
    }
    None
}

fn put_row(table: &mut [u32], i: usize, row: Row)
    requires { 4 * i + 4 ≤ length table.old }
    ensures { table.new ≡ stored table.old i (shown row) }
{
    let at = 4 * i;
    table[at..at + 4].copy_from_slice(&[row.kind, row.first, row.second, row.third]);
}

// Row `number` becomes the head of its bucket.
fn link(heads: &mut [u32], nexts: &mut [u32], number: u32, bucket: usize)
    requires { (length heads.old ≡ HEADS) × (length nexts.old < 2 ^ 32) × (number < length nexts.old) × (bucket < HEADS) }
    ensures heads_after { heads.new ≡ set heads.old bucket (number + 1) }
    ensures nexts_after { nexts.new ≡ set nexts.old number (get_or heads.old bucket 0) }
{
    let i = number as usize;
    nexts[i] = heads[bucket];
    heads[bucket] = number + 1;
}

// The number of the node; a node that is not in the table becomes its last.
pub fn intern(nodes: &mut Nodes<'_>, used: u32, node: Node) -> Interned
    requires { TableIn nodes.old used × (used < length nodes.old.nexts.now) }
    ensures kept { NodesKept nodes.old nodes.new }
    ensures added { Added node nodes.old.rows.now used nodes.new.rows.now nodes.new.heads.now nodes.new.nexts.now result.number result.used }
{
    let row = row_of(node);
    let bucket = hash(row);
    if let Some(number) = find(nodes, used, bucket, row) {
        return Interned { number, used };
    }
    put_row(nodes.rows, used as usize, row);
    link(nodes.heads, nodes.nexts, used, bucket);
    Interned {
        number: used,
        used: used + 1,
    }
}
