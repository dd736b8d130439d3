// A term read from text into cells, with its names entered on the way. The meaning stands in specs/: `Term` says what the tokens of a
// text are, `Naming` which numbers they get, `Text` what is answered, and `Promises` what the call promises.
#![tactic(auto)]

mod fresh;
mod naming;
mod notes;
mod refusal;
mod shape;
mod variables;

ghost use Rattle.names.specs.Calls.{Counts};
ghost use Rattle.names.specs.Index.{Indexed};
ghost use Rattle.text.specs.Promises.{Reads};
ghost use Rattle.text.specs.Leaves.{outcome};

use fresh::Fresh;
use names::Lookup;
use names::checking::Counted;
use naming::number_all;
use notes::{CELLS, Notes};
use refusal::Refusal;

// The refusal or 0; the place after the term, with 20 the byte's; its count of cells; its cells and zeros. Refused, all else is 0.
// C reads it (include/claggyfoot.h), so a refusal is a number here.
#[repr(C)]
#[derive(Drop)]
pub struct TextRead {
    pub refusal: u64,
    pub place: u64,
    pub size: u64,
    pub cells: [u16; 32],
}

// A term that was read: the place after it, its count of cells, and its cells and zeros: of one length, since there is no heap.
#[derive(Clone, Copy, Debug, PartialEq, Eq)]
struct Term {
    place: usize,
    size: usize,
    cells: [u16; CELLS],
}

// Reads one term from the beginning of a text.
pub fn read(table: &mut [u8], text: &[u8]) -> TextRead
    ensures { Reads table.old text.now result table.new }
{
    match read_term(table, text) {
        Ok(term) => {
            let cells = term.cells;
            TextRead {
                refusal: 0,
                place: term.place as u64,
                size: term.size as u64,
                cells,
            }
        }
        Err(refusal) => TextRead {
            refusal: u64::from(refusal),
            place: refusal.place() as u64,
            size: 0,
            cells: [0u16; CELLS],
        },
    }
}

fn read_term(table: &mut [u8], text: &[u8]) -> Result<Term, Refusal>
    ensures { Reads table.old text.now (outcome result) table.new }
{
    let mut index = [0u16; names::INDEX];
    let counted = names::checking::check_into(table, &mut index)?;
    read_passing(table, counted, text, &index)
}

// The same, with a table that passes. The table is written last, where nothing can be refused any more, so no `Lookup` holds it all
// along.
fn read_passing(
    table: &mut [u8],
    counted: Counted,
    text: &[u8],
    index: &[u16],
) -> Result<Term, Refusal>
    requires counts { Counts table.old counted.held counted.free }
    requires indexed { Indexed table.old counted.held index.now }
    ensures { Reads table.old text.now (outcome result) table.new }
{
    let Counted { held, free } = counted;
    let mut notes = Notes::none();
    let begin = tokens::gap(text, 0);
    let end = shape::term(text, begin, 0, &mut notes);
    let mut fresh = Fresh::none();
    let cells = number_all(&Lookup { table, index, held }, text, &notes, &mut fresh)?;
    let place = end?;
    if free < fresh.count {
        return Err(Refusal::Names(names::refusal::Refusal::NoSlot));
    }
    names::append(table, held, &fresh.table, fresh.count);
    let size = notes.size;
    Ok(Term { place, size, cells })
}
