// Cells, terms and the matching machine: what the rule book knows of a pattern.
//
// The meaning stands in specs/: `Cells`, `Reading`, `Questions` and `Beginnings` are the reference's words, `Machine` is the
// way by which the four questions are decided, and `decides` of proofs/Meaning says that the machine decides them.
#![tactic(auto)]

pub mod machine;
pub mod reading;

ghost use Rattle.std.specs.Prelude.{◌≡◌, ◌≤◌};
ghost use Rattle.term.specs.Cells.{blank_of, number_of};
ghost use Rattle.term.specs.Cells.{arity as arity_of};

// The mark of a blank: the lowest cell that is no symbol.
pub const MARK: u16 = 0x8000;

// How many arguments a cell calls for.
pub fn arity(c: u16) -> usize
    ensures { (result ≡ arity_of (blank_of c)) × (result ≤ 7) }
{
    if c < MARK { usize::from(c / 4096) } else { 0 }
}

// The cell as a blank form has it: the blank mark for each variable.
pub fn blank(c: u16) -> u16
    ensures { result ≡ number_of (blank_of c) }
{
    c.min(MARK)
}
