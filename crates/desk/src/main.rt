// The desk program: it reads a book and then token lines from standard input, and writes the rows of the message or the refusal.
#![tactic(auto)]

mod answer;

ghost use Rattle.std.specs.Prelude.{◌≤◌, length, IfSome, MatchResult};
ghost use Rattle.console.specs.Holds.{Buffers};
ghost use Rattle.console.specs.Printing.{OUTPUT_BYTES};
ghost use Rattle.desk.specs.Answers.{Lengths};
ghost use Rattle.desk.specs.Run.{Reached, Ran};

use answer::answer;
use book::Book;
use console::input::{KEPT_NUMBERS, Progress, TEXT_ROOM, all_bytes};
use console::output::OUTPUT_BYTES;
use std::io::{Read, Write};

// Takes an input to its end, or as far as it can be read, and says how far it came. A proved loop has to end, and nothing says that the input does: the loop
// has a number of turns that no run uses up.
fn take_input<R: Read>(
    input: &mut R,
    t: &[u8; 256],
    chunk: &mut [u8],
    text: &mut [u8],
    numbers: &mut [u32],
) -> Result<Progress, Progress>
    requires { Buffers t.now text.old numbers.old }
    ensures { MatchResult result (Reached text.new numbers.new) (Reached text.new numbers.new) }
{
    let mut p = Progress::Book { line: 0, at: 0 };
    for _turn in 0..u64::MAX {
        let Ok(n) = input.read(chunk) else {
            return Err(p);
        };
        if n == 0 {
            return Ok(p);
        }
        p = all_bytes(t, p, &chunk[..n], text, numbers);
    }
    Err(p)
}

// Takes the input, if it can be read, puts the answer into `out`, and says how long it is.
fn run<R: Read>(
    input: &mut R,
    t: &[u8; 256],
    chunk: &mut [u8],
    text: &mut [u8],
    numbers: &mut [u32],
    words: &mut [u32],
    rows: &mut [u32],
    out: &mut [u8],
) -> Option<usize>
    requires { Buffers t.now text.old numbers.old × Lengths words.old rows.old × (OUTPUT_BYTES ≤ length out.old) }
    ensures { IfSome result (λ n. Ran out.new n) }
{
    let Ok(progress) = take_input(input, t, chunk, text, numbers) else {
        return None;
    };
    Some(answer(progress, text, numbers, words, rows, out))
}

fn main(rt: HostRuntime) {
    let t = text::classes();
    let mut chunk = [0u8; 65536];
    let mut text = [0u8; TEXT_ROOM];
    let mut numbers = [0u32; KEPT_NUMBERS];
    let mut words = [0u32; Book::BOOK_WORDS];
    let mut rows = [0u32; Book::PAGE_WORDS];
    let mut out = [0u8; OUTPUT_BYTES];
    let mut input = rt.stdin();
    let answered = run(
        &mut input,
        &t,
        &mut chunk,
        &mut text,
        &mut numbers,
        &mut words,
        &mut rows,
        &mut out,
    );
    let mut errors = rt.stderr();
    let Some(n) = answered else {
        let _ = errors.write_all(b"standard input cannot be read\n");
        return;
    };
    if rt.stdout().write_all(&out[..n]).is_err() {
        let _ = errors.write_all(b"standard output cannot be written\n");
    }
}
