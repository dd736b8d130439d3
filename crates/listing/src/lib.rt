// The text that the session program prints, and the cells that it reads.
//
// Bytes for which the text has no room are left out, so no call asks for room.
#![tactic(auto)]

ghost use Rattle.std.specs.Prelude.{◌≡◌, ◌++◌, ◌<◌};
ghost use Rattle.std.proofs.lemmas.List.Edits.{sets};
ghost use Rattle.listing.specs.Listing.{decimal, space, hex_cell, hex_cells, record_line, record_lines, stop_line, cells_in, records_in};
ghost use Rattle.writing.specs.Texts.{Gains};
ghost use Rattle.listing.specs.Promises.{Lists};

use itoa::Buffer;
use writing::Text;

// A number in decimal, by `itoa`: it has no error, where `write!` would answer one that no listing has.
fn put_decimal(text: &mut Text, n: usize)
    ensures { Gains text.old text.new (decimal n) }
{
    text.put(Buffer::new().format(n).as_bytes());
}

// A space and a cell in four hex digits.
fn put_cell(text: &mut Text, cell: u16)
    ensures { Gains text.old text.new (space ++ hex_cell cell) }
{
    text.put(b" ");
    let mut digits = [0; 4];
    // Two bytes are four digits, so there is no error.
    let _ = hex::encode_to_slice(cell.to_be_bytes(), &mut digits);
    text.put(&digits);
}

// The line of a record with a refusal and further cells, at a position.
fn put_record(text: &mut Text, position: usize, refusal: usize, cells: &[u16])
    ensures { Gains text.old text.new (record_line position (record { refusal = refusal; cells = cells.now })) }
{
    put_decimal(text, position);
    text.put(b" ");
    put_decimal(text, refusal);
    text.put(b" ");
    put_decimal(text, cells.len());
    for cell in cells {
        put_cell(text, *cell);
    }
    text.put(b"\n");
}

// A line for each record that stands in the cells. A record whose count goes past the end has the cells that there are.
fn put_records(text: &mut Text, records: &[u16])
    ensures { Gains text.old text.new (record_lines 1 (records_in records.now)) }
{
    let mut rest = records;
    // Counted along the slice that is split, since a record's length is known by its first cell alone.
    let mut position = 1;
    while let Some((first, behind)) = rest.split_first() {
        let count = usize::from(first % 4096).min(behind.len());
        let (cells, others) = behind.split_at(count);
        put_record(text, position, usize::from(first / 4096), cells);
        position += 1;
        rest = others;
    }
}

fn put_stop(text: &mut Text, stop: usize, used: usize, written: usize)
    ensures { Gains text.old text.new (stop_line stop used written) }
{
    text.put(b"stop ");
    put_decimal(text, stop);
    text.put(b" used ");
    put_decimal(text, used);
    text.put(b" written ");
    put_decimal(text, written);
    text.put(b"\n");
}

// The whole listing of a batch that stopped with a number after so many cells used, and wrote these records.
pub fn put_listing(text: &mut [u8], stop: u64, used: usize, records: &[u16]) -> usize
    ensures { Lists records.now text.old text.new stop used result }
{
    let mut text = Text { bytes: text, at: 0 };
    text.put(b"no refusal count cells\n");
    put_records(&mut text, records);
    put_stop(&mut text, stop as usize, used, records.len());
    text.at
}

// Bytes as cells, two bytes a cell, from the front of the cells and as far as there are any.
pub fn read_cells(bytes: &[u8], cells: &mut [u16])
    ensures { cells.new ≡ sets cells.old 0 (cells_in bytes.now) }
{
    let mut rest = bytes;
    // The cells by index: of what a loop over `iter_mut` writes nothing is known behind the loop.
    for i in 0..cells.len() {
        let Some((pair, others)) = rest.split_first_chunk() else {
            return;
        };
        cells[i] = u16::from_be_bytes(*pair);
        rest = others;
    }
}
