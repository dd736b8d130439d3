// Why a call on a table is refused.
ghost use Rattle.std.specs.Prelude.{◌≡◌};
ghost use Rattle.names.specs.Refusals.{number_of_refusal};

use std::error::Error;
use std::fmt;

// The table doesn't pass; the bytes are no name; no slot is free for a new name; no name has the number.
#[derive(Clone, Copy, Debug, PartialEq, Eq)]
pub enum Refusal {
    NoTable,
    NoName,
    NoSlot,
    NoNumber,
}

// The reference's number.
impl From<Refusal> for u64 {
    ghost from_gives = { λ refusal number. number ≡ number_of_refusal refusal };

    fn from(refusal: Refusal) -> u64 {
        match refusal {
            Refusal::NoTable => 1,
            Refusal::NoName => 11,
            Refusal::NoSlot => 12,
            Refusal::NoNumber => 13,
        }
    }
}

impl fmt::Display for Refusal {
    fn fmt<W: fmt::Write>(&self, f: &mut fmt::Formatter<W>) -> fmt::Result {
        f.write_str(match self {
            Refusal::NoTable => "these bytes are no name table",
            Refusal::NoName => "these bytes are no name",
            Refusal::NoSlot => "no slot is free",
            Refusal::NoNumber => "no name has this number",
        })
    }
}

impl Error for Refusal {}
