// A text that is read, and the readers of its bytes.
ghost use Rattle.std.specs.Prelude.{◌≡◌, ◌<◌, length};
ghost use Rattle.text.specs.Class.{class_of};
ghost use Rattle.text.specs.Rest.{rest, mark, must};
ghost use Rattle.text.specs.Lent.{Lent};

use super::{class, misspelt};

// The text, with the table of classes.
#[derive(Clone, Copy)]
pub struct Source<'a> {
    pub classes: &'a [u8; 256],
    pub bytes: &'a [u8],
    ghost lent: { Lent classes.now bytes.now },
}

impl Source<'_> {
    // The class of a byte.
    pub fn class(&self, b: u8) -> u8
        ensures { result ≡ class_of b }
    {
        class(self.classes, b)
    }

    // A position past the end.
    pub fn misspelt(&self) -> usize
        ensures { length self.now.bytes.now < result }
    {
        misspelt(self.bytes)
    }

    // Past one byte of the wanted class.
    pub fn mark(&self, at: usize, wanted: u8) -> usize
        ensures { rest self.now.bytes.now result ≡ mark wanted (rest self.now.bytes.now at) }
    {
        let n = self.bytes.len();
        if n <= at {
            return self.misspelt();
        }
        if self.class(self.bytes[at]) != wanted {
            return self.misspelt();
        }
        at + 1
    }

    // Misspelt unless `fine`. The position past the end is taken from the table, which is never empty: a test for an empty text would be a conditional move.
    pub fn require(&self, at: usize, fine: bool) -> usize
        ensures { rest self.now.bytes.now result ≡ must fine (rest self.now.bytes.now at) }
    {
        if fine {
            return at;
        }
        self.bytes.len() + 1 + self.class(0) as usize
    }
}
