// Bytes and slots: what the check and the calls are made of. No other crate reaches these functions, so some ask something of
// their callers.
ghost use Rattle.std.specs.Prelude.{◌≡◌, ◌+◌, ◌*◌, ◌≤◌, ◌<◌, length, set};
ghost use Rattle.std.proofs.Math.Seq.{paste};
ghost use Rattle.deciding.specs.Deciding.{Decides};
ghost use Rattle.names.specs.Leaves.{AllZero, Used, Says, Finds};

use crate::SLOT;
use crate::name::is_name;

pub fn all_zero(bytes: &[u8]) -> bool
    ensures { Decides (AllZero bytes.now) result }
{
    bytes.iter().all(|byte| *byte == 0)
}

// Whether the 32 bytes of a slot are a length, a name of that length and zeros.
pub fn is_used(slot: &[u8]) -> bool
    requires { length slot.now ≡ 32 }
    ensures { Decides (Used slot.now) result }
{
    let n = usize::from(slot[0]);
    if SLOT <= n {
        return false;
    }
    let end = n + 1;
    is_name(&slot[1..end]) && all_zero(&slot[end..])
}

// Whether a slot says the name. That a name is shorter than a slot is asked of each caller, since a struct that says so would be
// made anew in every call.
pub fn says(table: &[u8], slot: usize, name: &[u8]) -> bool
    requires { (32 * slot + 32 ≤ length table.now) × (length name.now < 32) }
    ensures { Decides (Says table.now slot name.now) result }
{
    let at = SLOT * slot;
    let from = at + 1;
    usize::from(table[at]) == name.len() && &table[from..from + name.len()] == name
}

// The first of the slots below `held` that says the name. Labelled nested loops: docs/ARCHITECTURE.md names this place for them.
pub fn find(table: &[u8], held: usize, name: &[u8]) -> Option<usize>
    requires { (32 * held ≤ length table.now) × (length name.now < 32) }
    ensures { Finds table.now held name.now result }
{
    let n = name.len();
    'slots: for slot in 0..held {
        let at = SLOT * slot;
        if usize::from(table[at]) != n {
            continue 'slots;
        }
        for (i, byte) in name.iter().enumerate() {
            if table[at + 1 + i] != *byte {
                continue 'slots;
            }
        }
        return Some(slot);
    }
    None
}

// Writes bytes from `at` on. By a loop, since `copy_from_slice` is a memmove, and the archive asks for memcpy and memset alone.
pub fn copy(table: &mut [u8], at: usize, bytes: &[u8])
    requires { at + length bytes.now ≤ length table.old }
    ensures { table.new ≡ paste table.old at bytes.now (length bytes.now) }
{
    for (i, byte) in bytes.iter().enumerate() {
        table[at + i] = *byte;
    }
}

// Writes a name's length and bytes from `at` on.
pub fn write(table: &mut [u8], at: usize, name: &[u8])
    requires { (at + 1 + length name.now ≤ length table.old) × (length name.now < 32) }
    ensures { table.new ≡ paste (set table.old at (length name.now)) (at + 1) name.now (length name.now) }
{
    table[at] = name.len() as u8;
    copy(table, at + 1, name);
}
