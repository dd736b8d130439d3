// Reads commands as cells from standard input, runs one batch on an empty book, and writes a listing of its records.
#![tactic(auto)]

ghost use Rattle.std.specs.Prelude.{◌≤◌, length, take};
ghost use Rattle.std.specs.Io.KnownBytes.{Consumes};
ghost use Rattle.writing.specs.Writing.{Front};
ghost use Rattle.session.specs.Session.{answer as answerTo, session};

use book::Book;
use std::io;
use std::io::{Read, Write};

// The listing of a batch on an empty book.
fn answer(cells: &[u16], text: &mut [u8]) -> usize
    requires { 65536 ≤ length text.old }
    ensures { Front (answerTo cells.now) text.old text.new result }
{
    let mut memory = [0; Book::WORDS];
    // The length is right, so there is no error.
    let _ = Book::empty(&mut memory);
    let mut output = [0; 4096];
    let ended = batch::run(&mut memory, cells, &mut output);
    let stop = ended.stop.map_or(0, u64::from);
    listing::put_listing(text, stop, ended.used, &output[..ended.written])
}

// What is to be printed for the whole input.
fn respond(input: &[u8], text: &mut [u8]) -> usize
    requires { 65536 ≤ length text.old }
    ensures { Front (session input.now) text.old text.new result }
{
    if input.len() > 8192 || input.len() % 2 != 0 {
        return writing::put_bytes(text, 0, b"bad input\n");
    }
    let mut cells = [0; 4096];
    listing::read_cells(input, &mut cells);
    answer(&cells[..input.len() / 2], text)
}

// Fills the front of `input`, until it is full, the input ends or a read fails, and answers how many bytes stand there. A loop
// over `read`: `read_exact` does not say how many came before the end.
fn read_full<R: Read>(reader: &mut R, input: &mut [u8]) -> usize
    ensures within { result ≤ length input.new }
    ensures bytes { Consumes (R.remaining reader.old) (R.remaining reader.new) (take result input.new) }
{
    let mut done: usize = 0;
    while done < input.len() {
        match reader.read(&mut input[done..]) {
            Ok(0) | Err(_) => return done,
            Ok(n) => done += n,
        }
    }
    done
}

// One byte more than is allowed shows that there are too many.
fn main(rt: HostRuntime) -> io::Result<()> {
    let mut input = [0; 8193];
    let size = read_full(&mut rt.stdin(), &mut input);
    let mut text = [0; 65536];
    let end = respond(&input[..size], &mut text);
    rt.stdout().write_all(&text[..end])
}
