// The readers of numbers and words.
ghost use Rattle.std.specs.Prelude.{◌≡◌, ◌<◌, length, drop};
ghost use Rattle.text.specs.Rest.{rest};
ghost use Rattle.text.specs.Numeral.{decimal, letters, digits, keyword};
ghost use Rattle.text.specs.Reading.{Digit, Reads, Amid, Answers, system_of};

use super::notation::Notation;
use super::source::Source;
use super::{Cursor, DIGIT, LETTER};

impl Source<'_> {
    // The digit that a byte is, if it is one.
    fn digit(&self, s: Notation, b: u8) -> Option<u64>
        ensures { Digit (system_of s) b result }
    {
        if self.class(b) == s.class {
            return Some((b - s.zero) as u64);
        }
        None
    }

    // No number: nothing was read, and the text is misspelt.
    fn no_number(&self) -> Cursor
        ensures { (result.value ≡ 0) × (length self.now.bytes.now < result.at) }
    {
        Cursor {
            at: self.misspelt(),
            ..Cursor::new()
        }
    }

    // Reads on, with the number so far, up to the first byte that is no digit.
    fn digits(&self, s: Notation, first: u64, at: usize) -> Cursor
        requires { Amid (system_of s) self.now.bytes.now first at }
        ensures { Answers (digits (system_of s) first (drop at self.now.bytes.now)) self.now.bytes.now result.value result.at }
    {
        let n = self.bytes.len();
        let base = s.base;
        let limit = s.limit;
        let mut v = first;
        for i in at..n {
            let Some(d) = self.digit(s, self.bytes[i]) else {
                return Cursor {
                    value: v as u32,
                    at: i,
                };
            };
            v = v * base + d;
            if limit < v {
                return self.no_number();
            }
        }
        Cursor {
            value: v as u32,
            at: n,
        }
    }

    // A number: at least one digit. One that begins with the digit 0 is 0, and what follows that digit is left.
    pub fn numeral(&self, s: Notation, at: usize) -> Cursor
        ensures { Reads (system_of s) self.now.bytes.now at result.value result.at }
    {
        let n = self.bytes.len();
        if n <= at {
            return self.no_number();
        }
        let Some(first) = self.digit(s, self.bytes[at]) else {
            return self.no_number();
        };
        if first == 0 {
            return Cursor {
                value: 0,
                at: at + 1,
            };
        }
        self.digits(s, first, at + 1)
    }

    // A decimal number: 1 to 10 digits, at most 4,294,967,295, no leading zero.
    pub fn number(&self, at: usize) -> Cursor
        ensures { Reads decimal self.now.bytes.now at result.value result.at }
    {
        let s = Notation {
            class: DIGIT,
            zero: 48,
            base: 10,
            limit: u32::MAX as u64,
        };
        self.numeral(s, at)
    }

    // A word of up to six small letters, as a number: a is 1, z is 26, in base 32.
    pub fn word(&self, at: usize) -> Cursor
        ensures { Reads letters self.now.bytes.now at result.value result.at }
    {
        let s = Notation {
            class: LETTER,
            zero: 96,
            base: 32,
            limit: 1073741823,
        };
        self.numeral(s, at)
    }

    // Past the given word.
    pub fn keyword(&self, at: usize, w: u32) -> usize
        ensures { rest self.now.bytes.now result ≡ keyword w (rest self.now.bytes.now at) }
    {
        let c = self.word(at);
        self.require(c.at, c.value == w)
    }
}
