// Numbers of one digit or two with the byte that ends them, read by their bytes.
ghost use Rattle.std.specs.Prelude.{◌+◌, ◌≤◌, IfSome, length};
ghost use Rattle.definitions.specs.Ended.{Stands};

use text::Cursor;
use text::source::Source;

// The number and the position after the byte that ends it; None where no such number with that byte after it stands there.
pub fn ended(source: &Source<'_>, at: usize, stop: u8) -> Option<Cursor>
    requires { at + 3 ≤ length source.now.bytes.now }
    ensures { IfSome result (λ number. Stands source.now.bytes.now at number.value stop number.at) }
{
    let x = source.bytes[at];
    if source.class(x) != text::DIGIT {
        return None;
    }
    let first = (x - b'0') as u32;
    let y = source.bytes[at + 1];
    if y == stop {
        return Some(Cursor {
            value: first,
            at: at + 2,
        });
    }
    if (x != b'0') & (source.class(y) == text::DIGIT) & (source.bytes[at + 2] == stop) {
        return Some(Cursor {
            value: first * 10 + (y - b'0') as u32,
            at: at + 3,
        });
    }
    None
}
