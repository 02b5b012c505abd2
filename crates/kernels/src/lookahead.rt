// One lookahead of a kernel line: a space, `t` and a number.
ghost use Rattle.std.specs.Prelude.{IfSome, MatchOption};
ghost use Rattle.kernels.specs.Lookahead.{Names, Unnamed, Nearby};

use book::short::short;
use book::spelling::{T, naming};
use text::Cursor;
use text::source::Source;

// By its parts: its number and where the text goes on, if one stands there.
pub fn lookahead(source: &Source<'_>, at: usize) -> Option<Cursor>
    ensures { MatchOption result (Unnamed source.now.bytes.now at) (λ k. Names source.now.bytes.now at k.value k.at) }
{
    let a = naming(source, at, T);
    if source.bytes.len() < a {
        return None;
    }
    Some(source.number(a))
}

// By its bytes, where its number is short and a byte stands behind it; None for anything else.
pub fn short_lookahead(source: &Source<'_>, at: usize) -> Option<Cursor>
    ensures { IfSome result (λ k. Nearby source.now.bytes.now at k.value k.at) }
{
    let n = source.bytes.len();
    if n < 6 {
        return None;
    }
    if n - 6 < at {
        return None;
    }
    if (source.bytes[at] == b' ') & (source.bytes[at + 1] == b't') {
        return short(source, at + 2);
    }
    None
}
