// The tables that are made of a book's lines.

#[derive(Drop)]
pub struct Tables<'a> {
    // Of the rests of rules: whether each may be empty, the terminals that it may begin with, and the nonterminals.
    pub nullables: &'a mut [u32],
    pub begins: &'a mut [u32],
    pub reaches: &'a mut [u32],
    // Where the kernel lines of each state begin, its closure, and the rules in that.
    pub bounds: &'a mut [u32],
    pub closures: &'a mut [u32],
    pub fronts: &'a mut [u64],
    // Where states go, and what they do.
    pub table: &'a mut [u8],
    pub actions: &'a mut [u8],
}
