// The words of the tree: a word a link, with its cell, parent, first child and next sibling; and the signs beside them. Nodes lead to each
// other by number, since a book is lent memory of one length, which C hands over.
#![tactic(auto)]

pub mod signs;

ghost use Rattle.std.specs.Prelude.{◌≡◌, ◌/◌, ◌%◌, ◌<◌};
ghost use Rattle.links.specs.Words.{cell_of, parent_of, first_of, next_of, Node};

// The mark of a blank, as wide as the cell of a word. By `as`, since a constant's value calls no function.
pub const MARK: u64 = term::MARK as u64;

// What one of each part counts in a word.
const CELL: u64 = 1 << 48;

const PARENT: u64 = 1 << 32;

const FIRST: u64 = 1 << 16;

const NEXT: u64 = 1;

// The part of a word whose ones count UNIT.
fn part<const UNIT: u64>(w: u64) -> u64
    requires { 0 < UNIT }
    ensures { result ≡ w / UNIT % 65536 }
{
    w / UNIT % 65536
}

pub fn cell_of(w: u64) -> u64
    ensures { result ≡ cell_of w }
{
    part::<CELL>(w)
}

pub fn parent_of(w: u64) -> u64
    ensures { result ≡ parent_of w }
{
    part::<PARENT>(w)
}

pub fn first_of(w: u64) -> u64
    ensures { result ≡ first_of w }
{
    part::<FIRST>(w)
}

pub fn next_of(w: u64) -> u64
    ensures { result ≡ next_of w }
{
    part::<NEXT>(w)
}

pub fn pack(c: u64, p: u64, f: u64, x: u64) -> u64
    requires c_bound { c < 65536 }
    requires p_bound { p < 65536 }
    requires f_bound { f < 65536 }
    requires x_bound { x < 65536 }
    ensures { Node result c p f x }
{
    c * CELL + p * PARENT + f * FIRST + x * NEXT
}

pub fn with_first(w: u64, x: u64) -> u64
    requires { x < 65536 }
    ensures { Node result (cell_of w) (parent_of w) x (next_of w) }
{
    pack(cell_of(w), parent_of(w), x, next_of(w))
}

pub fn with_next(w: u64, x: u64) -> u64
    requires { x < 65536 }
    ensures { Node result (cell_of w) (parent_of w) (first_of w) x }
{
    pack(cell_of(w), parent_of(w), first_of(w), x)
}
