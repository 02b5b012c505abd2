// The order of lines that ascend: keys of three numbers, compared one after another.
ghost use Rattle.std.specs.Prelude.{◌≡◌};
ghost use Rattle.grammar.specs.Format.Parse.{is_before};
ghost use Rattle.book.specs.Order.{key_of, last_key};

#[derive(Clone, Copy, PartialEq, Eq, PartialOrd, Ord)]
pub struct Key {
    pub first: u32,
    pub second: u32,
    pub third: u32,
}

// The key of a line, and where the text goes on.
#[derive(Clone, Copy)]
pub struct Keyed {
    pub key: Key,
    pub at: usize,
}

// Whether a line may stand after the line before it, whose key is `last`; the first line may stand anywhere.
pub fn ascends(last: Option<Key>, key: Key) -> bool
    ensures { result ≡ is_before (last_key key_of last) (key_of key) }
{
    match last {
        None => true,
        Some(last) => last < key,
    }
}
