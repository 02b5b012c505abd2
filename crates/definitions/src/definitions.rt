// The sections `(inhdef P J iK e)` and `(syndef P sK e)`: definitions of inherited and of synthesized attributes, in one array.
ghost use Rattle.std.specs.Prelude.{◌≡◌, ◌+◌, ◌*◌, ◌≤◌, IfSome, length};
ghost use Rattle.text.specs.Rest.{rest};
ghost use Rattle.book.specs.declared.kind.Kind.TheVariants.{Inherited, Synthesized};
ghost use Rattle.book.specs.Sections.{Gives};
ghost use Rattle.book.specs.Order.{key_of, last_key};
ghost use Rattle.definitions.specs.Expressions.{DEFINITION_WORDS, WaitsRoom};
ghost use Rattle.definitions.specs.Definitions.{defined_by, definition, word_for, definitions};
ghost use Rattle.definitions.specs.DefinitionsLoop.{defined_of, Worded, Stores, Keeps, Defines};
ghost use Rattle.definitions.specs.Both.{DefinesBoth};

use super::ended::ended;
use super::expression::expression;
use book::kind::Kind;
use book::order::{Key, Keyed, ascends};
use book::spelling::{I, INHDEF, S, SYNDEF, closing, naming};
use book::{Book, Section};
use lines::heads::Head;
use lines::line_head;
use text::source::Source;

// The words of a definition: rule, position, attribute, number of nodes, and 3 words for each of the nodes that a definition may have.
pub const WORDS: usize = 4 + 3 * (Book::MAX_NODES as usize);

// How a definition's line begins.
#[tactic(auto, unfolding(text::specs::Numeral::spelled))]
fn head_for(kind: Kind) -> Head<'static>
    ensures { result.word ≡ word_for kind }
{
    match kind {
        Kind::Inherited => Head {
            word: INHDEF,
            bytes: b"(inhdef ",
        },
        Kind::Synthesized => Head {
            word: SYNDEF,
            bytes: b"(syndef ",
        },
    }
}

// What a line defines, `P J iK` or `P sK`, by its parts: the key is rule, position (0 of a synthesized attribute) and attribute.
fn any_names(source: &Source<'_>, at: usize, kind: Kind) -> Keyed
    ensures { Gives (defined_by kind (rest source.now.bytes.now at)) source.now.bytes.now (defined_of result.key) result.at }
{
    let rule = source.number(at);
    let (second, a) = match kind {
        Kind::Inherited => {
            let b = source.mark(rule.at, text::SPACE);
            let position = source.number(b);
            (position.value, position.at)
        }
        Kind::Synthesized => (0, rule.at),
    };
    let c = naming(source, a, kind.letter());
    let attribute = source.number(c);
    Keyed {
        key: Key {
            first: rule.value,
            second,
            third: attribute.value,
        },
        at: attribute.at,
    }
}

// By its bytes, where its numbers are short, a space stands behind it and the text is long enough for any three; None for anything else.
fn short_names(source: &Source<'_>, at: usize, kind: Kind) -> Option<Keyed>
    ensures { IfSome result (λ read. Gives (defined_by kind (rest source.now.bytes.now at)) source.now.bytes.now (defined_of read.key) read.at) }
{
    let n = source.bytes.len();
    if n < 10 {
        return None;
    }
    if n - 10 < at {
        return None;
    }
    let rule = ended(source, at, b' ')?;
    let (second, a) = match kind {
        Kind::Inherited => {
            let position = ended(source, rule.at, b' ')?;
            (position.value, position.at)
        }
        Kind::Synthesized => (0, rule.at),
    };
    if source.bytes[a] as u32 != kind.letter() + 96 {
        return None;
    }
    let attribute = ended(source, a + 1, b' ')?;
    Some(Keyed {
        key: Key {
            first: rule.value,
            second,
            third: attribute.value,
        },
        at: attribute.at - 1,
    })
}

// What a line defines.
fn names(source: &Source<'_>, at: usize, kind: Kind) -> Keyed
    ensures { Gives (defined_by kind (rest source.now.bytes.now at)) source.now.bytes.now (defined_of result.key) result.at }
{
    match short_names(source, at, kind) {
        Some(read) => read,
        None => any_names(source, at, kind),
    }
}

// ` e)`: the words of the line, over what was there.
fn words(source: &Source<'_>, at: usize, key: Key, waits: &mut [u8], line: &mut [u32]) -> usize
    requires { WaitsRoom source.now.bytes.now waits.old × (length line.old ≡ DEFINITION_WORDS) }
    ensures { Worded (defined_of key) (rest source.now.bytes.now at) source.now.bytes.now result line.new }
{
    line.fill(0);
    let a = source.mark(at, text::SPACE);
    let nodes = expression(source, a, waits, line);
    line[0] = key.first;
    line[1] = key.second;
    line[2] = key.third;
    line[3] = nodes.value;
    closing(source, nodes.at)
}

// The words of line k, written at its place, where there is room for it; a line past the room is read and not kept.
fn store_words(
    source: &Source<'_>,
    at: usize,
    key: Key,
    waits: &mut [u8],
    room: usize,
    k: u32,
    out: &mut [u32],
) -> usize
    requires { WaitsRoom source.now.bytes.now waits.old × (room * DEFINITION_WORDS ≤ length out.old) }
    ensures { Stores (defined_of key) (rest source.now.bytes.now at) room k source.now.bytes.now out.old result out.new }
{
    let i = k as usize;
    if i < room {
        let place = i * WORDS;
        let end = place + WORDS;
        return words(source, at, key, waits, &mut out[place..end]);
    }
    let mut line = [0u32; WORDS];
    words(source, at, key, waits, &mut line)
}

// A line, after its head: it goes to its place, and its key must stand after the last key.
fn definition_line(
    source: &Source<'_>,
    at: usize,
    kind: Kind,
    last: Option<Key>,
    waits: &mut [u8],
    room: usize,
    place: u32,
    out: &mut [u32],
) -> Keyed
    requires { WaitsRoom source.now.bytes.now waits.old × (room * DEFINITION_WORDS ≤ length out.old) }
    ensures { Keeps (definition kind (last_key key_of last) (rest source.now.bytes.now at)) room place
        source.now.bytes.now out.old (defined_of result.key) result.at out.new }
{
    let named = names(source, at, kind);
    let key = named.key;
    let a = store_words(source, named.at, key, waits, room, place, out);
    Keyed {
        key,
        at: source.require(a, ascends(last, key)),
    }
}

// The lines of one kind, from the first place on.
fn definition_lines(
    source: &Source<'_>,
    at: usize,
    kind: Kind,
    first: u32,
    waits: &mut [u8],
    room: usize,
    out: &mut [u32],
) -> Section
    requires { (first ≤ 65537) × WaitsRoom source.now.bytes.now waits.old × (room * DEFINITION_WORDS ≤ length out.old) }
    ensures { Defines (definitions kind (rest source.now.bytes.now at)) room first
        source.now.bytes.now out.old result.count result.at out.new }
{
    let n = source.bytes.len();
    let head = head_for(kind);
    let mut p = at;
    // The text tells how many there are: a reader's position goes on, and the count is part of the answer.
    let mut k: u32 = 0;
    let mut last = None;
    loop {
        let a = line_head(source.classes, source.bytes, p, head.word, head.bytes);
        if n < a {
            return Section { count: k, at: p };
        }
        let line = definition_line(source, a, kind, last, waits, room, first + k, out);
        last = Some(line.key);
        p = line.at;
        k += 1;
    }
}

// How many definitions of each kind there are, and where the text goes on.
#[derive(Clone, Copy)]
pub struct DefinitionsRead {
    pub inherited: u32,
    pub synthesized: u32,
    pub at: usize,
}

// Both sections, one after the other in one array.
pub fn definition_sections(
    source: &Source<'_>,
    at: usize,
    waits: &mut [u8],
    room: usize,
    out: &mut [u32],
) -> DefinitionsRead
    requires { WaitsRoom source.now.bytes.now waits.old × (room * DEFINITION_WORDS ≤ length out.old) }
    ensures { DefinesBoth source.now.bytes.now room out.old at result.inherited result.synthesized result.at out.new }
{
    let inherited = definition_lines(source, at, Kind::Inherited, 0, waits, room, out);
    let synthesized = definition_lines(
        source,
        inherited.at,
        Kind::Synthesized,
        inherited.count,
        waits,
        room,
        out,
    );
    DefinitionsRead {
        inherited: inherited.count,
        synthesized: synthesized.count,
        at: synthesized.at,
    }
}
