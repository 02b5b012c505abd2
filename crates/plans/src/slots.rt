// What is remembered of plans: which are worked out, a byte of `slots` for each partial state, and their lists, which have room for 2 to 255 plans.

// The most slots for plans. Each has 17 bytes; behind them stands the number of the last one in use.
pub const PLANS: usize = 255;

// Both are lent.
#[derive(Drop)]
pub struct Memory<'a> {
    pub slots: &'a mut [u8],
    pub lists: &'a mut [u8],
}
