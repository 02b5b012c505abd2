// The machine's top: how many symbols stand, how many rows are written, how many tokens are shifted.
ghost use Rattle.std.specs.Prelude.{◌≡◌, ◌+◌, ◌-◌, ◌≤◌, ◌<◌};
ghost use Rattle.grammar.specs.Limits.{MAX_TOKENS, MAX_ROWS, MAX_STACK};

#[derive(Clone, Copy)]
pub struct Top {
    pub depth: usize,
    pub rows: usize,
    pub position: usize,
}

impl Top {
    // Before the first move.
    pub fn empty() -> Self
        ensures { (result.depth ≡ 0) × (result.rows ≡ 0) × (result.position ≡ 0) }
    {
        Top {
            depth: 0,
            rows: 0,
            position: 0,
        }
    }

    // After a shift: a symbol, a row and a token more.
    pub fn shifted(self) -> Self
        requires { (self.depth < MAX_STACK) × (self.rows < MAX_ROWS) × (self.position < MAX_TOKENS) }
        ensures { (result.depth ≡ self.depth + 1) × (result.rows ≡ self.rows + 1) × (result.position ≡ self.position + 1) }
    {
        Top {
            depth: self.depth + 1,
            rows: self.rows + 1,
            position: self.position + 1,
        }
    }

    // After a reduce: one symbol in the place of the last `size`, and a row more.
    pub fn reduced(self, size: usize) -> Self
        requires { (size ≤ self.depth) × (self.depth ≤ MAX_STACK) × (self.rows < MAX_ROWS) }
        ensures { (result.depth ≡ self.depth - size + 1) × (result.rows ≡ self.rows + 1) × (result.position ≡ self.position) }
    {
        Top {
            depth: self.depth - size + 1,
            rows: self.rows + 1,
            position: self.position,
        }
    }
}
