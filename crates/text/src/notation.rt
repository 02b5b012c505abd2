// How numbers are written.
ghost use Rattle.text.specs.Valid.{Valid, system};

// The class of the digits, the byte of the digit 0, the base, and the largest number: one digit is a number, and a number is a word of 32 bits.
#[derive(Clone, Copy)]
pub struct Notation {
    pub class: u8,
    pub zero: u8,
    pub base: u64,
    pub limit: u64,
    ghost valid: { Valid (system class zero base limit) },
}
