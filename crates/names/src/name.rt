// What a name is. The check and every call ask here.
ghost use Rattle.deciding.specs.Deciding.{Decides};
ghost use Rattle.names.specs.Name.{IsName};

use crate::SLOT;

// The byte that no name begins or ends with.
pub const SPACE: u8 = b' ';

// Whether 11 doesn't refuse the bytes.
pub fn is_name(name: &[u8]) -> bool
    ensures { Decides (IsName name.now) result }
{
    let n = name.len();
    if n == 0 || SLOT <= n || name[0] == SPACE || name[n - 1] == SPACE {
        return false;
    }
    name.iter().all(|byte| matches!(*byte, 32..=126))
}
