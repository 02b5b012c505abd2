// Condition 3: the limits of a book. The numbers are asked first, so that every line has room in its array; then the lines.
ghost use Rattle.std.specs.Prelude.{◌≡◌, ◌+◌, ◌*◌, ◌≤◌, ◌<◌, leb, length, get_or};
ghost use Rattle.grammar.specs.Conditions.Decides.{one_to, all_below, count, few};
ghost use Rattle.grammar.specs.Conditions.Tests.{within_limits};
ghost use Rattle.conditions.specs.Answers.{Some, Answers};
ghost use Rattle.conditions.specs.Asked.{Counted, KernelLines, Kept, Stored};
ghost use Rattle.conditions.specs.Often.{Tallied, Taken};
ghost use Rattle.conditions.specs.LimitTests.{numbers_within, states_within, lines_within};

use book::Book;

// Whether k is 1 to n.
pub fn one_to(n: u32, k: u32) -> bool
    ensures { result ≡ one_to n k }
{
    (1 <= k) & (k <= n)
}

// Whether the numbers of the first line and the numbers of lines are within the limits.
fn numbers_within(book: Book) -> bool
    ensures { Answers (Counted book) numbers_within result }
{
    let first = one_to(Book::MAX_TERMINALS, book.terminals)
        & one_to(Book::MAX_NONTERMINALS, book.nonterminals)
        & one_to(Book::MAX_STATES, book.states);
    let owners = (book.inherited <= Book::MAX_INHERITED)
        & (book.synthesized <= Book::MAX_SYNTHESIZED);
    let definitions = book.inherited_definitions as u64 + book.synthesized_definitions as u64;
    let lines = (definitions <= Book::MAX_DEFINITIONS as u64)
        & (book.kernels <= Book::MAX_KERNELS)
        & (book.goes <= Book::MAX_GOES);
    first & owners & one_to(Book::MAX_RULES, book.rules) & lines
}

// How often a word stands in a list.
fn repeats(words: &[u32], word: u32) -> usize
    ensures { result ≡ count word words.now }
{
    words.iter().filter(|w| **w == word).count()
}

// Takes the word at place i: whether it is found to stand in the list more than n times. One below 32 is counted, any other is asked for further on.
fn too_often(words: &[u32], i: usize, n: u8, counts: &mut [u8]) -> bool
    requires { (i < length words.now) × Tallied words.now n i counts.old }
    ensures { Taken words.now n i counts.new result }
{
    let word = words[i];
    if word < 32 {
        let met = counts[word as usize];
        if n <= met {
            return true;
        }
        counts[word as usize] = met + 1;
        return false;
    }
    n as usize <= repeats(&words[i + 1..], word)
}

// Whether no word stands in the list more than n times.
fn few(words: &[u32], n: u8) -> bool
    ensures { result ≡ few n words.now }
{
    let mut counts = [0u8; 32];
    for i in 0..words.len() {
        if too_often(words, i, n, &mut counts) {
            return false;
        }
    }
    true
}

// Whether the word at a place of each line is at most so large, in n lines of so many words.
fn none_above(lines: &[u32], n: usize, size: usize, at: usize, most: u32) -> bool
    requires { (size * n ≤ length lines.now) × (at < size) }
    ensures { result ≡ all_below n (λ i. leb (get_or lines.now (size * i + at) 0) most) }
{
    (0..n).all(|i| lines[size * i + at] <= most)
}

// Whether no state has too many kernel lines. Since the states ascend, one that has more stands in two lines that are as many places
// apart as it may have.
fn states_within(kernels: &[u32], n: usize) -> bool
    requires { Some (KernelLines kernels.now n) }
    ensures { Answers (KernelLines kernels.now n) states_within result }
{
    let most = Book::MAX_STATE_KERNELS as usize;
    (0..n.saturating_sub(most)).all(|i| kernels[5 * i] != kernels[5 * (i + most)])
}

// Whether the lines are within the limits, where each has room.
fn lines_within(
    book: Book,
    inherited: &[u32],
    synthesized: &[u32],
    rules: &[u32],
    definitions: &[u32],
    kernels: &[u32],
) -> bool
    requires { Some (Stored book inherited.now synthesized.now rules.now definitions.now kernels.now) }
    ensures { Answers
        (Stored book inherited.now synthesized.now rules.now definitions.now kernels.now)
        lines_within result }
{
    let i = book.inherited as usize;
    let s = book.synthesized as usize;
    let owners = few(&inherited[..i], Book::MAX_OWNED as u8)
        & few(&synthesized[..s], Book::MAX_OWNED as u8);
    let n = book.inherited_definitions as usize + book.synthesized_definitions as usize;
    owners
        & none_above(rules, book.rules as usize, 10, 1, Book::MAX_RIGHT)
        & none_above(definitions, n, 49, 3, Book::MAX_NODES)
        & states_within(kernels, book.kernels as usize)
}

// Whether the book is within its limits. Of lines past an array's room only the number is known, and that is too large.
pub fn within_limits(
    book: Book,
    inherited: &[u32],
    synthesized: &[u32],
    rules: &[u32],
    definitions: &[u32],
    kernels: &[u32],
) -> bool
    requires { Some (Kept book inherited.now synthesized.now rules.now definitions.now kernels.now) }
    ensures { Answers
        (Kept book inherited.now synthesized.now rules.now definitions.now kernels.now)
        within_limits result }
{
    numbers_within(book) && lines_within(book, inherited, synthesized, rules, definitions, kernels)
}
