// Reading a term from cells that anybody may have written.
ghost use Rattle.std.specs.Prelude.{◌≡◌, drop};
ghost use Rattle.term.specs.Reading.{takes, read_term, refusal_of};

use crate::MARK;
use std::error::Error;
use std::fmt;

// What can be wrong at a place.
#[derive(Clone, Copy, Debug, PartialEq, Eq)]
pub enum Fault {
    // 32 cells read, a subterm still wanted.
    TooLong,
    // The cells end while a subterm is wanted.
    CutShort,
    // A variable cell with a bit of its 3-bit field set.
    FieldSet,
    // A variable number above 15.
    AboveFifteen,
    // A variable number above the count of variables so far.
    AboveCount,
}

// The refusal number of a fault.
impl From<Fault> for u64 {
    ghost from_gives = { λ fault number. number ≡ refusal_of fault };

    fn from(fault: Fault) -> u64 {
        match fault {
            Fault::TooLong => 5,
            Fault::CutShort => 3,
            Fault::FieldSet | Fault::AboveFifteen | Fault::AboveCount => 4,
        }
    }
}

impl fmt::Display for Fault {
    fn fmt<W: fmt::Write>(&self, f: &mut fmt::Formatter<W>) -> fmt::Result {
        f.write_str(match self {
            Fault::TooLong => "the term has more than 32 cells",
            Fault::CutShort => "the cells end within the term",
            Fault::FieldSet => "a bit of a variable's 3-bit field is set",
            Fault::AboveFifteen => "a variable's number is above 15",
            Fault::AboveCount => "a variable's number is above the count of variables so far",
        })
    }
}

impl Error for Fault {}

// What one cell does: it calls for arguments and leaves so many variables known.
#[derive(Clone, Copy, Debug, PartialEq, Eq)]
pub struct Wants {
    pub arity: usize,
    pub known: usize,
}

// What is wrong with a term, and at which of its cells, counted from 0.
#[derive(Clone, Copy, Debug, PartialEq, Eq)]
pub struct Refused {
    pub fault: Fault,
    pub place: usize,
}

impl fmt::Display for Refused {
    fn fmt<W: fmt::Write>(&self, f: &mut fmt::Formatter<W>) -> fmt::Result {
        write!(f, "{} (at its cell {})", self.fault, self.place)
    }
}

impl Error for Refused {}

// The cell c, where so many variables are known.
#[tactic(auto, unfolding(crate::specs::Reading::takes))]
pub fn take(c: u16, known: usize) -> Result<Wants, Fault>
    ensures { result ≡ takes known c }
{
    if c < MARK {
        return Ok(Wants {
            arity: usize::from(c / 4096),
            known,
        });
    }
    if 0x9000 <= c {
        return Err(Fault::FieldSet);
    }
    let number = usize::from(c - MARK);
    if 15 < number {
        return Err(Fault::AboveFifteen);
    }
    if known < number {
        return Err(Fault::AboveCount);
    }
    if number < known {
        return Ok(Wants { arity: 0, known });
    }
    Ok(Wants {
        arity: 0,
        known: number + 1,
    })
}

// The length of the term that the cells begin with.
fn first_term(cells: &[u16]) -> Result<usize, Refused>
    ensures { result ≡ read_term cells.now }
{
    let mut wanted: usize = 1;
    let mut known: usize = 0;
    for place in 0..32 {
        if wanted == 0 {
            return Ok(place);
        }
        let c = cells.get(place).ok_or(Refused {
            fault: Fault::CutShort,
            place,
        })?;
        let wants = take(*c, known).map_err(|fault| Refused { fault, place })?;
        wanted = wanted - 1 + wants.arity;
        known = wants.known;
    }
    if wanted == 0 {
        return Ok(32);
    }
    Err(Refused {
        fault: Fault::TooLong,
        place: 32,
    })
}

// The length of the term that begins at `start`.
pub fn read(cells: &[u16], start: usize) -> Result<usize, Refused>
    ensures { result ≡ read_term (drop start cells.now) }
{
    match cells.get(start..) {
        Some(behind) => first_term(behind),
        None => first_term(&[]),
    }
}
