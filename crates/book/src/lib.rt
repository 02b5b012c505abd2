// A book in arrays: its numbers, what its lines have in common, and the lines that declare: the first one, attributes and rules.
#![tactic(auto)]

pub mod header;
pub mod kind;
pub mod order;
pub mod owners;
pub mod refusal;
pub mod rooms;
pub mod rules;
pub mod short;
pub mod spelling;
pub mod store;
pub mod symbol;
pub mod symbols;

ghost use Rattle.std.specs.Prelude.{◌≡◌};
ghost use Rattle.book.specs.Rooms.{full_room};

// The lines of one kind: how many there are, and where the text goes on.
#[derive(Clone, Copy)]
pub struct Section {
    pub count: u32,
    pub at: usize,
}

// How many lines of the kinds that may be many arrays have room for, and how many states tables have. Arrays are cleared when they are made, so a short book
// is read into short ones.
#[derive(Clone, Copy)]
pub struct Room {
    pub definitions: usize,
    pub kernels: usize,
    pub goes: usize,
    pub states: usize,
    pub rules: usize,
}

impl Room {
    // For all that the limits allow.
    pub fn full() -> Self
        ensures { result ≡ full_room }
    {
        Room {
            definitions: Book::MAX_DEFINITIONS as usize,
            kernels: Book::MAX_KERNELS as usize,
            goes: Book::MAX_GOES as usize,
            states: Book::MAX_STATES as usize,
            rules: Book::MAX_RULES as usize,
        }
    }
}

// The numbers of a book: what its first line says, and how many lines of each kind it has.
#[derive(Clone, Copy)]
pub struct Book {
    pub terminals: u32,
    pub nonterminals: u32,
    pub states: u32,
    pub inherited: u32,
    pub synthesized: u32,
    pub rules: u32,
    pub inherited_definitions: u32,
    pub synthesized_definitions: u32,
    pub kernels: u32,
    pub goes: u32,
}

impl Book {
    pub const MAX_TERMINALS: u32 = 31;

    pub const MAX_NONTERMINALS: u32 = 31;

    pub const MAX_STATES: u32 = 128;

    pub const MAX_INHERITED: u32 = 16;

    pub const MAX_SYNTHESIZED: u32 = 32;

    // Attributes of each kind that one nonterminal has.
    pub const MAX_OWNED: u32 = 4;

    pub const MAX_RULES: u32 = 64;

    // Right symbols of a rule.
    pub const MAX_RIGHT: u32 = 8;

    pub const MAX_DEFINITIONS: u32 = 128;

    // Nodes of a definition's expression.
    pub const MAX_NODES: u32 = 15;

    pub const MAX_KERNELS: u32 = 512;

    // Kernel lines of one state.
    pub const MAX_STATE_KERNELS: u32 = 16;

    pub const MAX_GOES: u32 = 1024;

    // Bytes of a text, and words of a stored book.
    pub const MAX_TEXT: usize = 65536;

    pub const BOOK_WORDS: usize = 16384;

    // Tokens of a message, rows, words of a row and of all rows, symbols on the stack.
    pub const MAX_TOKENS: usize = 255;

    pub const MAX_ROWS: usize = 512;

    pub const ROW_WORDS: usize = 10;

    pub const PAGE_WORDS: usize = 5120;

    pub const MAX_STACK: usize = 128;
}
