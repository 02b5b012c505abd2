// Numbers of one to three digits, as nearly all are, read by their bytes: 48 is the digit 0, and 528 and 5328 are what it adds to two and to three digits.
ghost use Rattle.std.specs.Prelude.{◌+◌, ◌≤◌, IfSome, length};
ghost use Rattle.book.specs.Short.{Brief};

use text::Cursor;
use text::source::Source;

// Such a number and where the text goes on; None for anything else.
pub fn short(source: &Source<'_>, at: usize) -> Option<Cursor>
    requires { at + 4 ≤ length source.now.bytes.now }
    ensures { IfSome result (λ number. Brief source.now.bytes.now at number.value number.at) }
{
    let x = source.bytes[at];
    if source.class(x) != text::DIGIT {
        return None;
    }
    let y = source.bytes[at + 1];
    if source.class(y) != text::DIGIT {
        return Some(Cursor {
            value: x as u32 - 48,
            at: at + 1,
        });
    }
    if x == b'0' {
        return None;
    }
    let z = source.bytes[at + 2];
    if source.class(z) != text::DIGIT {
        return Some(Cursor {
            value: x as u32 * 10 + y as u32 - 528,
            at: at + 2,
        });
    }
    if source.class(source.bytes[at + 3]) == text::DIGIT {
        return None;
    }
    Some(Cursor {
        value: (x as u32 * 10 + y as u32) * 10 + z as u32 - 5328,
        at: at + 3,
    })
}
