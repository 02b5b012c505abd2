// The bytes of the answer, put into a buffer one after another; each function answers the place after what it put.
ghost use Rattle.std.specs.Prelude.{◌≡◌, ◌++◌, ◌+◌, ◌*◌, ◌≤◌, ◌<◌, length};
ghost use Rattle.grammar.specs.Limits.{ROW_WORDS};
ghost use Rattle.grammar.specs.Format.Printer.{literal, numeral, each};
ghost use Rattle.console.specs.Desk.{refused, print_word, print_row, print_rows};
ghost use Rattle.console.specs.Digits.{Wide};
ghost use Rattle.console.specs.Output.{Puts};
ghost use Rattle.console.specs.Printing.{ROW_BYTES, OUTPUT_BYTES, Printable, answer_in, Printed};

use book::Book;

// The bytes of the longest row: `(row`, `)` and the line feed, and words of a space and ten digits.
const ROW_BYTES: usize = 6 + 11 * Book::ROW_WORDS;

// The longest answer: all rows, and `(accepted `, a number of ten digits, `)` and the line feed.
pub const OUTPUT_BYTES: usize = ROW_BYTES * Book::MAX_ROWS + 22;

fn put_bytes(out: &mut [u8], at: usize, bytes: &[u8]) -> usize
    requires { at + length bytes.now ≤ length out.old }
    ensures { Puts (λ s. bytes.now ++ s) (length bytes.now) out.old at out.new result }
{
    let next = at + bytes.len();
    out[at..next].copy_from_slice(bytes);
    next
}

// How many digits a number has.
fn width(n: u32) -> usize
    ensures { Wide n result }
{
    let mut v = n;
    let mut w: usize = 1;
    while 10 <= v {
        v /= 10;
        w += 1;
    }
    w
}

// The byte of a digit.
fn digit(d: u32) -> u8
    requires { d < 10 }
    ensures { result ≡ 48 + d }
{
    b'0' + d as u8
}

// A number in decimal digits, the last one first.
fn put_number(out: &mut [u8], at: usize, n: u32) -> usize
    requires { at + 10 ≤ length out.old }
    ensures { Puts (numeral n) 10 out.old at out.new result }
{
    let next = at + width(n);
    let mut i = next - 1;
    let mut v = n;
    while 10 <= v {
        out[i] = digit(v % 10);
        v /= 10;
        i -= 1;
    }
    out[i] = digit(v);
    next
}

// A space and a word.
fn put_word(out: &mut [u8], at: usize, w: u32) -> usize
    requires { at + 11 ≤ length out.old }
    ensures { Puts (print_word w) 11 out.old at out.new result }
{
    let a = put_bytes(out, at, b" ");
    put_number(out, a, w)
}

fn put_words(out: &mut [u8], at: usize, words: &[u32]) -> usize
    requires { at + 11 * length words.now ≤ length out.old }
    ensures { Puts (each print_word words.now) (11 * length words.now) out.old at out.new result }
{
    let mut p = at;
    for &word in words {
        p = put_word(out, p, word);
    }
    p
}

fn put_row(out: &mut [u8], at: usize, row: &[u32]) -> usize
    requires { (length row.now ≡ ROW_WORDS) × (at + ROW_BYTES ≤ length out.old) }
    ensures { Puts (print_row row.now) ROW_BYTES out.old at out.new result }
{
    let a = put_bytes(out, at, b"(row");
    let b = put_words(out, a, row);
    put_bytes(out, b, b")\n")
}

// The first rows of a page.
fn put_rows(out: &mut [u8], at: usize, rows: &[u32], count: usize) -> usize
    requires { (ROW_WORDS * count ≤ length rows.now) × (at + ROW_BYTES * count ≤ length out.old) }
    ensures { Puts (print_rows count rows.now) (ROW_BYTES * count) out.old at out.new result }
{
    let mut p = at;
    for k in 0..count {
        let first = Book::ROW_WORDS * k;
        p = put_row(out, p, &rows[first..first + Book::ROW_WORDS]);
    }
    p
}

// The last line: a word, a number, and the end.
fn put_last(out: &mut [u8], at: usize, word: &[u8], n: u32) -> usize
    requires { at + (length word.now + 12) ≤ length out.old }
    ensures { Puts (λ s. word.now ++ numeral n (literal ")\n" s)) (length word.now + 12)
        out.old at out.new result }
{
    let a = put_bytes(out, at, word);
    let b = put_number(out, a, n);
    put_bytes(out, b, b")\n")
}

// The refusal alone, by its number.
pub fn put_refused(out: &mut [u8], number: u32) -> usize
    requires { OUTPUT_BYTES ≤ length out.old }
    ensures { Printed (refused number) out.new result }
{
    put_last(out, 0, b"(refused ", number)
}

// The whole answer: the number of a refusal, or the rows and their count.
pub fn put_answer(out: &mut [u8], answer: Result<u32, u32>, rows: &[u32]) -> usize
    requires { Printable answer rows.now out.old }
    ensures { Printed (answer_in answer rows.now) out.new result }
{
    match answer {
        Ok(count) => {
            let a = put_rows(out, 0, rows, count as usize);
            put_last(out, a, b"(accepted ", count)
        }
        Err(number) => put_refused(out, number),
    }
}
