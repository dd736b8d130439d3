// The name table: lent bytes in slots of 32, a name's number being its slot. A space is a character: no call trims.
//
// The meaning stands in specs/: `Name` says what a name is, `Table` what a table is, and `Calls` what each call promises.
#![tactic(auto)]

pub mod checking;
mod index;
mod lookup;
pub mod name;
pub mod refusal;
mod slot;

ghost use Rattle.std.specs.Prelude.{◌≡◌, ◌+◌, ◌*◌, ◌≤◌, ◌<◌, length, IfSome};
ghost use Rattle.names.specs.Calls.{LooksUp, Adds, Appends, Enters, Counts, PartOf, NameIs, NameRefused};
ghost use Rattle.names.specs.Index.{Indexed};

use checking::{Counted, check, check_into};
use index::bucket;
pub use lookup::Lookup;
use name::is_name;
use refusal::Refusal;
use slot::{copy, find, write};

// The bytes of a slot, and the most slots of a table.
pub const SLOT: usize = 32;

pub const SLOTS: usize = 1024;

// The cells of an index: a head for each bucket, and a link for each slot.
pub const INDEX: usize = 2048;

// What entering a name gives: the slot in which it is held already, or the slot that was made for it.
#[derive(Clone, Copy, Debug, PartialEq, Eq)]
pub enum Entry {
    Held(usize),
    New(usize),
}

// Where in the table the name with a number stands.
#[derive(Clone, Copy, Debug, PartialEq, Eq)]
pub struct Part {
    pub start: usize,
    pub size: usize,
}

// A table and the count of its names are lent side by side here and below, as docs/CONTRACTS.md names these functions; and where the
// table is written afterwards, no `Lookup` can hold it.

// The slot of a name among the first `held` of a table that passes: all of them are compared.
pub fn look_up(table: &[u8], held: usize, name: &[u8]) -> Option<usize>
    requires { (32 * held ≤ length table.now) × (length name.now < 32) }
    ensures { IfSome result (λ slot. slot < held) × LooksUp table.now held name.now result }
{
    find(table, held, name)
}

// The same, by the index that `checking::check_into` made of the table: only the slots of the name's bucket are compared.
pub fn look_up_in(table: &[u8], index: &[u16], held: usize, name: &[u8]) -> Option<usize>
    requires { (Indexed table.now held index.now) × (length name.now < 32) }
    ensures { IfSome result (λ slot. slot < held) × LooksUp table.now held name.now result }
{
    let lookup = Lookup { table, index, held };
    lookup.find(bucket(name), name)
}

// Writes a name into the first free slot.
pub fn add(table: &mut [u8], held: usize, name: &[u8])
    requires { (32 * held + 32 ≤ length table.old) × (length name.now < 32) }
    ensures { Adds table.old held name.now table.new }
{
    write(table, SLOT * held, name);
}

// Copies the first `count` names of another table behind those of this one.
pub fn append(table: &mut [u8], held: usize, others: &[u8], count: usize)
    requires { (32 * held + 32 * count ≤ length table.old) × (32 * count ≤ length others.now) }
    ensures { Appends table.old held others.now count table.new }
{
    let end = SLOT * count;
    copy(table, SLOT * held, &others[0..end]);
}

// Enters a name: the number of its slot, made at the first free slot if it is new.
pub fn enter(table: &mut [u8], name: &[u8]) -> Result<Entry, Refusal>
    ensures { Enters table.old name.now result table.new }
{
    let mut index = [0u16; INDEX];
    let counted = check_into(table, &mut index)?;
    enter_passing(table, &index, counted, name)
}

// The same, of a table that passes.
fn enter_passing(
    table: &mut [u8],
    index: &[u16],
    counted: Counted,
    name: &[u8],
) -> Result<Entry, Refusal>
    requires { (Counts table.old counted.held counted.free) × (Indexed table.old counted.held index.now) }
    ensures { Enters table.old name.now result table.new }
{
    let Counted { held, free } = counted;
    if !is_name(name) {
        return Err(Refusal::NoName);
    }
    let found = look_up_in(table, index, held, name);
    if let Some(slot) = found {
        return Ok(Entry::Held(slot));
    }
    if free == 0 {
        return Err(Refusal::NoSlot);
    }
    add(table, held, name);
    Ok(Entry::New(held))
}

// Where in the table the name with a number stands.
pub fn part_of(table: &[u8], number: usize) -> Result<Part, Refusal>
    ensures { PartOf table.now number result }
{
    let counted = check(table)?;
    if counted.held <= number {
        return Err(Refusal::NoNumber);
    }
    let at = SLOT * number;
    Ok(Part {
        start: at + 1,
        size: usize::from(table[at]),
    })
}

// The name with a number, as the part of the table where it stands; refused, an empty part.
pub fn name_of(table: &[u8], number: usize) -> &[u8]
    ensures { NameIs table.now number result.now }
{
    match part_of(table, number) {
        Ok(part) => {
            let end = part.start + part.size;
            &table[part.start..end]
        }
        Err(_) => &table[0..0],
    }
}

// Why the same is refused, if it is.
pub fn name_refusal(table: &[u8], number: usize) -> Option<Refusal>
    ensures { NameRefused table.now number result }
{
    part_of(table, number).err()
}
