// The lookaheads of a kernel line: one or more, ascending.
ghost use Rattle.std.specs.Prelude.{◌≡◌, [], ◌∷◌};
ghost use Rattle.text.specs.Rest.{rest};
ghost use Rattle.sets.specs.Sets.{with};
ghost use Rattle.grammar.specs.Format.Parse.{is_before, lookaheads};
ghost use Rattle.kernels.specs.KernelLines.{last_number, Looks, Looking};

use super::lookahead::{lookahead, short_lookahead};
use text::source::Source;

// The lookaheads of a line: how many there are, the largest, if there is one, the set of those below 32, and where the text goes on.
#[derive(Clone, Copy)]
pub struct LookaheadsRead {
    pub count: u32,
    pub last: Option<u32>,
    pub set: u32,
    pub at: usize,
}

// Whether a lookahead may stand after others, the last of which is given.
fn follows(last: Option<u32>, terminal: u32) -> bool
    ensures { result ≡ is_before (last_number last) (terminal ∷ []) }
{
    match last {
        None => true,
        Some(last) => last < terminal,
    }
}

// The set with one lookahead more; a set has no place for a number from 32 on.
fn with_lookahead(set: u32, terminal: u32) -> u32
    ensures { result ≡ with set terminal }
{
    if terminal < 32 {
        return sets::with(set, terminal);
    }
    set
}

// The lookaheads of a line that begin at `from`, from the one on that stands at `at`; how many stand before it, the last and the set of those are given.
// One that does not follow the others is the last that is read, and the text is misspelt.
fn more_lookaheads(
    source: &Source<'_>,
    from: usize,
    at: usize,
    k: u32,
    largest: Option<u32>,
    before: u32,
) -> LookaheadsRead
    requires { Looking (lookaheads (rest source.now.bytes.now from)) source.now.bytes.now k largest before at }
    ensures { Looks (lookaheads (rest source.now.bytes.now from)) source.now.bytes.now result.count result.last result.set result.at }
{
    let mut p = at;
    let mut count = k;
    let mut last = largest;
    let mut set = before;
    while let Some(terminal) = lookahead(source, p) {
        let fine = follows(last, terminal.value);
        set = with_lookahead(set, terminal.value);
        last = Some(terminal.value);
        count += 1;
        if !fine {
            return LookaheadsRead {
                count,
                last,
                set,
                at: source.bytes.len() + 1,
            };
        }
        p = terminal.at;
    }
    LookaheadsRead {
        count,
        last,
        set,
        at: p,
    }
}

// The lookaheads of a line: by their bytes up to the bracket, and from the first on that is not read so, by their parts.
pub fn lookaheads(source: &Source<'_>, at: usize) -> LookaheadsRead
    ensures { Looks (lookaheads (rest source.now.bytes.now at)) source.now.bytes.now result.count result.last result.set result.at }
{
    let mut p = at;
    let mut count: u32 = 0;
    let mut last = None;
    let mut set = sets::empty();
    loop {
        let Some(terminal) = short_lookahead(source, p) else {
            return more_lookaheads(source, at, p, count, last, set);
        };
        if !follows(last, terminal.value) {
            return more_lookaheads(source, at, p, count, last, set);
        }
        set = with_lookahead(set, terminal.value);
        last = Some(terminal.value);
        count += 1;
        p = terminal.at;
        if source.bytes[p] == b')' {
            return LookaheadsRead {
                count,
                last,
                set,
                at: p,
            };
        }
    }
}
