// The index of a table's names: heads by bucket and links by slot, each 1 and a slot, or 0 for none.
// Both stand in one list, since `check_into` is lent one.
ghost use Rattle.std.specs.Prelude.{◌≡◌, ◌<◌};
ghost use Rattle.names.specs.Index.{bucket_of};

// The heads of an index, before its links.
pub const HEADS: usize = 1024;

pub fn bucket(name: &[u8]) -> usize
    ensures { (result ≡ bucket_of name.now) × (result < 1024) }
{
    let mut h = 0;
    for byte in name {
        h = (h * 37 + usize::from(*byte)) % 32768;
    }
    h % HEADS
}
