// The seven calls that C and Rust link. Each function wraps one call of the crates below it, and promises what that call promises,
// in numbers. A library exports nothing: `claggyfoot_c` exports them, each under its own name and with its own promise.
#![tactic(auto)]

ghost use Rattle.std.specs.Prelude.{◌≡◌};
ghost use Rattle.layout.specs.Layout.{book_words};
ghost use Rattle.book.specs.Promises.{Empties};
ghost use Rattle.batch.specs.Promises.{Runs};
ghost use Rattle.text.specs.Promises.{Reads};
ghost use Rattle.claggyfoot.specs.Numbers.{EntersNumbers, PartNumbers, ChecksNumber};

use book::Book;
use names::Entry;
use text::TextRead;

// C reads these three (include/claggyfoot.h), so a refusal is a number here.

// What `cf_name_enter` answers: 0 and the number of the name's slot, or the refusal and 0.
#[repr(C)]
#[derive(Drop)]
pub struct NameEntered {
    pub refusal: u64,
    pub number: u64,
}

// What `cf_name_of` answers: 0 and the part of the table where the name stands, or the refusal, 0 and 0.
#[repr(C)]
#[derive(Drop)]
pub struct NamePlace {
    pub refusal: u64,
    pub start: u64,
    pub length: u64,
}

// What `cf_batch` answers: the stop number, command cells used, output cells written.
#[repr(C)]
#[derive(Drop)]
pub struct BatchEnded {
    pub stop: u64,
    pub used: u64,
    pub written: u64,
}

// Enters a name.
#[unsafe(no_mangle)]
pub extern "C" fn cf_name_enter(table: &mut [u8], name: &[u8]) -> NameEntered
    ensures { EntersNumbers table.old name.now result.refusal result.number table.new }
{
    let (refusal, number) = match names::enter(table, name) {
        Ok(Entry::Held(slot) | Entry::New(slot)) => (0, slot as u64),
        Err(refusal) => (u64::from(refusal), 0),
    };
    NameEntered { refusal, number }
}

// Where the name with a number stands.
#[unsafe(no_mangle)]
pub extern "C" fn cf_name_of(table: &[u8], number: u64) -> NamePlace
    ensures { PartNumbers table.now number result.refusal result.start result.length }
{
    let (refusal, start, length) = match names::part_of(table, number as usize) {
        Ok(part) => (0, part.start as u64, part.size as u64),
        Err(refusal) => (u64::from(refusal), 0, 0),
    };
    NamePlace {
        refusal,
        start,
        length,
    }
}

// Reads a typed term, and enters its names.
#[unsafe(no_mangle)]
pub extern "C" fn cf_text_read(table: &mut [u8], text: &[u8]) -> TextRead
    ensures { Reads table.old text.now result table.new }
{
    text::read(table, text)
}

// The length of a book's memory in words.
#[unsafe(no_mangle)]
pub extern "C" fn cf_book_words() -> u64
    ensures { result ≡ book_words }
{
    Book::WORDS as u64
}

// Makes an empty book: 0, or 1 on a wrong length.
#[unsafe(no_mangle)]
pub extern "C" fn cf_book_empty(book: &mut [u64]) -> u64
    ensures { Empties book.old book.new result }
{
    Book::empty(book).err().map_or(0, u64::from)
}

// The check alone: 0 where the memory passes, else 1.
#[unsafe(no_mangle)]
pub extern "C" fn cf_book_passes(book: &[u64]) -> u64
    ensures { ChecksNumber book.now result }
{
    u64::from(!passing::passes(book))
}

// Runs a batch of commands.
#[unsafe(no_mangle)]
pub extern "C" fn cf_batch(book: &mut [u64], cells: &[u16], out: &mut [u16]) -> BatchEnded
    ensures { Runs book.old book.new cells.now out.old out.new result.stop result.used result.written }
{
    let ended = batch::run(book, cells, out);
    BatchEnded {
        stop: ended.stop.map_or(0, u64::from),
        used: ended.used as u64,
        written: ended.written as u64,
    }
}
