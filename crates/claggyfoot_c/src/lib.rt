// What C and Rust link: the static library. Each function calls that of `claggyfoot` with its name, and promises the same: the
// interface for C is here, and the demands are theorems about a library.
#![tactic(auto)]

ghost use Rattle.std.specs.Prelude.{◌≡◌};
ghost use Rattle.layout.specs.Layout.{book_words};
ghost use Rattle.book.specs.Promises.{Empties};
ghost use Rattle.batch.specs.Promises.{Runs};
ghost use Rattle.text.specs.Promises.{Reads};
ghost use Rattle.claggyfoot.specs.Numbers.{EntersNumbers, PartNumbers, ChecksNumber};

use claggyfoot::{BatchEnded, NameEntered, NamePlace};
use text::TextRead;

// Enters a name.
#[unsafe(no_mangle)]
pub extern "C" fn cf_name_enter(table: &mut [u8], name: &[u8]) -> NameEntered
    ensures { EntersNumbers table.old name.now result.refusal result.number table.new }
{
    claggyfoot::cf_name_enter(table, name)
}

// Where the name with a number stands.
#[unsafe(no_mangle)]
pub extern "C" fn cf_name_of(table: &[u8], number: u64) -> NamePlace
    ensures { PartNumbers table.now number result.refusal result.start result.length }
{
    claggyfoot::cf_name_of(table, number)
}

// Reads a typed term, and enters its names.
#[unsafe(no_mangle)]
pub extern "C" fn cf_text_read(table: &mut [u8], text: &[u8]) -> TextRead
    ensures { Reads table.old text.now result table.new }
{
    claggyfoot::cf_text_read(table, text)
}

// The length of a book's memory in words.
#[unsafe(no_mangle)]
pub extern "C" fn cf_book_words() -> u64
    ensures { result ≡ book_words }
{
    claggyfoot::cf_book_words()
}

// Makes an empty book: 0, or 1 on a wrong length.
#[unsafe(no_mangle)]
pub extern "C" fn cf_book_empty(book: &mut [u64]) -> u64
    ensures { Empties book.old book.new result }
{
    claggyfoot::cf_book_empty(book)
}

// The check alone: 0 where the memory passes, else 1.
#[unsafe(no_mangle)]
pub extern "C" fn cf_book_passes(book: &[u64]) -> u64
    ensures { ChecksNumber book.now result }
{
    claggyfoot::cf_book_passes(book)
}

// Runs a batch of commands.
#[unsafe(no_mangle)]
pub extern "C" fn cf_batch(book: &mut [u64], cells: &[u16], out: &mut [u16]) -> BatchEnded
    ensures { Runs book.old book.new cells.now out.old out.new result.stop result.used result.written }
{
    claggyfoot::cf_batch(book, cells, out)
}
