// How a line begins.
ghost use Rattle.lines.specs.Heads.{Spells};

// `(word ` by its bytes, and its word as a number in base 32: a is 1, z is 26.
#[derive(Clone, Copy)]
pub struct Head<'a> {
    pub word: u32,
    pub bytes: &'a [u8],
    ghost spells: { Spells word bytes.now },
}
