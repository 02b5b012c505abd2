// What the checks read.

// The partial states of a state: the sets of its items, as `masks` says, and what is asked of them.
#[derive(Clone, Copy)]
pub struct Parts<'a> {
    pub definitions: &'a [u32],
    // How many of the definitions are of inherited attributes; they stand in front.
    pub lines: usize,
    pub rules: &'a [u32],
    pub owned: &'a [u32],
    pub masks: &'a [u32],
    pub terminals: u32,
}

// All states of a book: its lines, its tables, and what is worked out from them.
#[derive(Clone, Copy)]
pub struct AllStates<'a> {
    pub rules: &'a [u32],
    pub count: u32,
    pub definitions: &'a [u32],
    pub lines: u32,
    pub owned: &'a [u32],
    // What definitions give, as `givers` says.
    pub given: &'a [u32],
    pub leaders: u64,
    pub kernels: &'a [u32],
    pub bounds: &'a [u32],
    pub closures: &'a [u32],
    pub fronts: &'a [u64],
    pub nullables: &'a [u32],
    pub reaches: &'a [u32],
    pub terminals: u32,
    pub states: u32,
}
