// What a run reads of a book that is taken: its lines, its tables, and what is worked out from them.

#[derive(Clone, Copy)]
pub struct Program<'a> {
    pub rules: &'a [u32],
    pub definitions: &'a [u32],
    // How many of the definitions are of inherited attributes; they stand in front.
    pub lines: u32,
    // The attributes of each nonterminal: the inherited ones as a set, both kinds as lists.
    pub owned: &'a [u32],
    pub down: &'a [u32],
    pub up: &'a [u32],
    // Where the definitions of each rule's synthesized attributes begin, and the places of those of inherited ones.
    pub spans: &'a [u32],
    pub places: &'a [u32],
    pub kernels: &'a [u32],
    pub bounds: &'a [u32],
    pub closures: &'a [u32],
    pub nullables: &'a [u32],
    pub reaches: &'a [u32],
    pub table: &'a [u8],
    pub actions: &'a [u8],
}
