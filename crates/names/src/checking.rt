// The check of a table.
ghost use Rattle.std.specs.Prelude.{◌≡◌, ◌*◌, ◌≤◌, length};
ghost use Rattle.names.specs.Calls.{Checks};
ghost use Rattle.names.specs.Index.{Indexes};
ghost use Rattle.names.specs.Leaves.{Runs};

use crate::index::{HEADS, bucket};
use crate::lookup::Lookup;
use crate::refusal::Refusal;
use crate::slot::{all_zero, is_used};
use crate::{INDEX, SLOT, SLOTS};

// How many slots of a table that passes hold a name, and how many are free.
#[derive(Clone, Copy, Debug, PartialEq, Eq)]
pub struct Counted {
    pub held: usize,
    pub free: usize,
}

// How far the used slots go, unless one of them is wrong or says what an earlier one says.
//
// Each name is looked for among the earlier ones by their index, so the work grows with the table and not with its square.
fn used_slots(table: &[u8], index: &mut [u16], slots: usize) -> Option<usize>
    requires { (length table.now ≡ 32 * slots) × (slots ≤ 1024) × (length index.old ≡ 2048) }
    ensures { Runs table.now index.new slots result }
{
    index[..HEADS].fill(0);
    for slot in 0..slots {
        let at = SLOT * slot;
        let size = usize::from(table[at]);
        if size == 0 {
            return Some(slot);
        }
        let end = at + SLOT;
        if !is_used(&table[at..end]) {
            return None;
        }
        let from = at + 1;
        let name = &table[from..from + size];
        let h = bucket(name);
        let earlier = Lookup {
            table,
            index,
            held: slot,
        };
        if earlier.find(h, name).is_some() {
            return None;
        }
        index[HEADS + slot] = index[h];
        index[h] = (slot + 1) as u16;
    }
    Some(slots)
}

// Whether the table passes, for any bytes of any length.
pub fn check(table: &[u8]) -> Result<Counted, Refusal>
    ensures { Checks table.now result }
{
    let mut index = [0u16; INDEX];
    check_into(table, &mut index)
}

// The same, with the index of a table that passes.
pub fn check_into(table: &[u8], index: &mut [u16]) -> Result<Counted, Refusal>
    requires { length index.old ≡ 2048 }
    ensures { (Checks table.now result) × (Indexes table.now index.new result) }
{
    let slots = table.len() / SLOT;
    if table.len() % SLOT != 0 || slots == 0 || SLOTS < slots {
        return Err(Refusal::NoTable);
    }
    let held = used_slots(table, index, slots).ok_or(Refusal::NoTable)?;
    if !all_zero(&table[SLOT * held..]) {
        return Err(Refusal::NoTable);
    }
    let free = slots - held;
    Ok(Counted { held, free })
}
