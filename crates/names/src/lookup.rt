// The names of a table with their index: what other crates are lent of it.
ghost use Rattle.std.specs.Prelude.{◌≡◌, ◌<◌, length};
ghost use Rattle.names.specs.Index.{Indexed, bucket_of};
ghost use Rattle.names.specs.Leaves.{Finds};

use crate::index::HEADS;
use crate::slot::says;

// The names in the first `held` slots of a table, with their index.
#[derive(Clone, Copy)]
pub struct Lookup<'a> {
    pub table: &'a [u8],
    pub index: &'a [u16],
    pub held: usize,
    pub ghost indexed: { Indexed table.now held index.now },
}

impl Lookup<'_> {
    // A slot that says the name: only the slots of the name's bucket are compared.
    #[inline]
    pub(crate) fn find(&self, bucket: usize, name: &[u8]) -> Option<usize>
        requires { (bucket ≡ bucket_of name.now) × (length name.now < 32) }
        ensures { Finds self.now.table.now self.now.held name.now result }
    {
        // By links, not by an index: from slot to slot, 0 for none as the list has it.
        let mut next = usize::from(self.index[bucket]);
        while next != 0 {
            let slot = next - 1;
            if says(self.table, slot, name) {
                return Some(slot);
            }
            next = usize::from(self.index[HEADS + slot]);
        }
        None
    }
}
